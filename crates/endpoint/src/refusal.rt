// Why a step is refused.
ghost use Rattle.std.specs.Prelude.{◌≡◌, ◌<◌, ◌⊎◌, IfSome, IfNone};
ghost use Rattle.endpoint.specs.Refusals.{number_of};

// The numbers of the table, from 1 to 15, by name.
#[derive(Clone, Copy, PartialEq, Eq, Debug)]
pub enum Refusal {
    Unfit = 1,
    Absent,
    NotNewer,
    OutOfTurn,
    Blocked,
    Full,
    NoFreeSlot,
    NotDeclared,
    NotNamed,
    NothingToDo,
    BeyondCut,
    NotForwarded,
    FewerGiven,
    AnotherWord,
    MoreGiven,
}

impl From<Refusal> for u8 {
    ghost from_gives = { λ r n. n ≡ number_of r };

    fn from(refusal: Refusal) -> u8 {
        refusal as u8
    }
}

impl Refusal {
    // The refusal that a step's number is: none where it is 0, or no number of the table. An `Option` and no `TryFrom`, since 0 is no error.
    pub fn of(number: u8) -> Option<Refusal>
        ensures some { IfSome result (λ r. number_of r ≡ number) }
        ensures none { IfNone result ((number ≡ 0) ⊎ (15 < number)) }
    {
        match number {
            1 => Some(Refusal::Unfit),
            2 => Some(Refusal::Absent),
            3 => Some(Refusal::NotNewer),
            4 => Some(Refusal::OutOfTurn),
            5 => Some(Refusal::Blocked),
            6 => Some(Refusal::Full),
            7 => Some(Refusal::NoFreeSlot),
            8 => Some(Refusal::NotDeclared),
            9 => Some(Refusal::NotNamed),
            10 => Some(Refusal::NothingToDo),
            11 => Some(Refusal::BeyondCut),
            12 => Some(Refusal::NotForwarded),
            13 => Some(Refusal::FewerGiven),
            14 => Some(Refusal::AnotherWord),
            15 => Some(Refusal::MoreGiven),
            _ => None,
        }
    }
}
