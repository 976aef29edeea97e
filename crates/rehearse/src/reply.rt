// What an accepted command answers, in words.
use crate::channels::Way;
use crate::desk::Desk;
use crate::packet::Packet;
use crate::text::{Members, Spaced, ViewText, part};
use std::fmt;
use views::View;

#[derive(Clone, Copy)]
pub(crate) enum Reply<'a> {
    Done,
    Declared(u8),
    Sent(u8, Packet),
    Word(u64),
    Batch(&'a [u64]),
    Installed(View, u8),
    Shown(&'a Desk),
    Area(&'a [u64]),
    Channel(Option<&'a Way>),
}

// Each place of the area whose word is not zero.
fn area<W: fmt::Write>(f: &mut fmt::Formatter<W>, area: &[u64]) -> fmt::Result {
    for (i, word) in area.iter().enumerate() {
        if *word != 0 {
            part(f, "\n  ", i)?;
            part(f, " ", *word)?;
        }
    }
    Ok(())
}

impl fmt::Display for Reply<'_> {
    fn fmt<W: fmt::Write>(&self, f: &mut fmt::Formatter<W>) -> fmt::Result {
        write!(f, "0")?;
        match self {
            Reply::Done | Reply::Channel(None) => Ok(()),
            Reply::Declared(set) => write!(f, " {}", Members(*set)),
            Reply::Sent(set, packet) => write!(f, " to {} {packet}", Members(*set)),
            Reply::Word(word) => write!(f, " {word}"),
            Reply::Batch(words) => write!(f, " {}{}", words.len(), Spaced(*words)),
            Reply::Installed(view, set) => write!(f, " {} T {}", ViewText(view), Members(*set)),
            Reply::Shown(desk) => write!(f, "{desk}"),
            Reply::Area(words) => area(f, words),
            Reply::Channel(Some(way)) => write!(f, "{way}"),
        }
    }
}
