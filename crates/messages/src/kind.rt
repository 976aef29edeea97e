// The six kinds of message by name. A kind comes in as a number, from bytes, from a field area or in the C struct, and is named once, where it comes in.
ghost use Rattle.std.specs.Prelude.{◌≡◌};
ghost use Rattle.messages.specs.Layouts.{has_number, has_place, has_view, has_cut, has_word, has_set, length_of};
ghost use Rattle.messages.specs.Kinds.{code_of, Names};

use crate::{Message, Refusal};

#[derive(Clone, Copy, Debug, PartialEq, Eq)]
pub enum Kind {
    View = 1,
    Word,
    Sync,
    Forward,
    StartChange,
    MembershipView,
}

// As bytes and the C struct have it.
impl TryFrom<u8> for Kind {
    type Error = Refusal;

    ghost try_from_gives = { Names };

    #[inline(always)]
    fn try_from(number: u8) -> Result<Kind, Refusal> {
        Kind::try_from(u64::from(number))
    }
}

// As a field area has it. Any number but the six is malformed.
impl TryFrom<u64> for Kind {
    type Error = Refusal;

    ghost try_from_gives = { Names };

    #[inline(always)]
    fn try_from(number: u64) -> Result<Kind, Refusal> {
        match number {
            1 => Ok(Kind::View),
            2 => Ok(Kind::Word),
            3 => Ok(Kind::Sync),
            4 => Ok(Kind::Forward),
            5 => Ok(Kind::StartChange),
            6 => Ok(Kind::MembershipView),
            _ => Err(Refusal::Malformed),
        }
    }
}

impl From<Kind> for u8 {
    ghost from_gives = { λ kind n. n ≡ code_of kind };

    #[inline(always)]
    fn from(kind: Kind) -> u8 {
        kind as u8
    }
}

impl Kind {
    // How many bytes a message of this kind has.
    #[inline(always)]
    #[tactic(auto, unfolding(crate::specs::Layouts::length_of))]
    pub fn length(self) -> u8
        ensures { result ≡ length_of (code_of self) }
    {
        match self {
            Kind::View => 38,
            Kind::Word => 9,
            Kind::Sync => 50,
            Kind::Forward => 48,
            Kind::StartChange => 6,
            Kind::MembershipView => 38,
        }
    }

    // Which parts a kind has, a test each: the layouts' own list.
    #[inline(always)]
    pub(crate) fn has_number(self) -> bool
        ensures { result ≡ has_number (code_of self) }
    {
        matches!(self, Kind::Sync | Kind::StartChange)
    }

    // A sender and an index.
    #[inline(always)]
    pub(crate) fn has_place(self) -> bool
        ensures { result ≡ has_place (code_of self) }
    {
        self == Kind::Forward
    }

    #[inline(always)]
    pub(crate) fn has_view(self) -> bool
        ensures { result ≡ has_view (code_of self) }
    {
        matches!(
            self,
            Kind::View | Kind::Sync | Kind::Forward | Kind::MembershipView
        )
    }

    #[inline(always)]
    pub(crate) fn has_cut(self) -> bool
        ensures { result ≡ has_cut (code_of self) }
    {
        self == Kind::Sync
    }

    #[inline(always)]
    pub(crate) fn has_word(self) -> bool
        ensures { result ≡ has_word (code_of self) }
    {
        matches!(self, Kind::Word | Kind::Forward)
    }

    #[inline(always)]
    pub(crate) fn has_set(self) -> bool
        ensures { result ≡ has_set (code_of self) }
    {
        self == Kind::StartChange
    }
}

impl Message {
    // The kind by name; malformed, where the number is none.
    #[inline(always)]
    pub fn named_kind(self) -> Result<Kind, Refusal>
        ensures { Names self.kind result }
    {
        Kind::try_from(self.kind)
    }
}
