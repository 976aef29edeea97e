// Why a command has no effect.
use endpoint::Refusal;
use std::fmt;
use thiserror::Error;

// What is wrong with a command itself, or with the script.
#[derive(Clone, Copy, Debug, Error)]
pub(crate) enum Fault {
    #[error("no such command")]
    Name,
    #[error("another number of fields than the command has")]
    Count,
    #[error("no member number: 0 to 255")]
    Member,
    #[error("no number below 2^32")]
    Number,
    #[error("no word below 2^64")]
    Word,
    #[error("no set: members 0 to 7, as {{0,2,5}}")]
    Set,
    #[error("no view: id, set and eight start numbers")]
    View,
    #[error("no bytes: two hexadecimal digits each, - for none")]
    Bytes,
    #[error("no room for a batch: 0 to 128 words")]
    Room,
    #[error("no such end-point was made")]
    NotMade,
    #[error("the end-point was made before")]
    Made,
    #[error("no such channel: members 0 to 7")]
    NoChannel,
    #[error("the channel is empty")]
    Empty,
    #[error("the destination is in the declared set")]
    Declared,
    #[error("a channel is full: 256 messages")]
    Full,
    #[error("the script is longer than 1 MiB")]
    Long,
}

// A refusal of an end-point.
#[derive(Clone, Copy, Debug)]
pub(crate) struct Refused(pub Refusal);

// The words are rehearse's: the library gives the number and its name.
fn reason(refusal: Refusal) -> &'static str {
    match refusal {
        Refusal::Unfit => "malformed, unsound or from oneself",
        Refusal::Absent => "a member that is needed is absent",
        Refusal::NotNewer => "not newer",
        Refusal::OutOfTurn => "out of turn",
        Refusal::Blocked => "blocked",
        Refusal::Full => "128 words are there",
        Refusal::NoFreeSlot => "no slot is free",
        Refusal::NotDeclared => "a member is not declared",
        Refusal::NotNamed => "a named record is not held",
        Refusal::NothingToDo => "nothing to do",
        Refusal::BeyondCut => "beyond the cut",
        Refusal::NotForwarded => "a word that is due is not forwarded",
        Refusal::FewerGiven => "fewer words given out than agreed",
        Refusal::AnotherWord => "another word is held there",
        Refusal::MoreGiven => "more words given out than agreed",
    }
}

// Its number, and why.
impl fmt::Display for Refused {
    fn fmt<W: fmt::Write>(&self, f: &mut fmt::Formatter<W>) -> fmt::Result {
        write!(f, "{} {}", u8::from(self.0), reason(self.0))
    }
}

// Nothing has happened.
#[derive(Clone, Copy, Debug, Error)]
pub(crate) enum Problem {
    #[error("{0}")]
    Refused(Refused),
    #[error("error {0}")]
    Wrong(#[from] Fault),
}
