// The refusals, each with the number that document 01 gives it.
#![tactic(auto)]

ghost use Rattle.std.specs.Prelude.{◌≡◌};
ghost use Rattle.refusal.specs.Number.{number_of};

// Why a call is refused. The numbers 16 to 20 are left for calls to come.
#[derive(Clone, Copy, Debug, PartialEq, Eq)]
pub enum Refusal {
    Damaged = 1,
    NoSuchEntity = 2,
    NotFlushed = 3,
    NoRoom = 4,
    ZeroGeneration = 5,
    BadPlace = 6,
    UniqueHeld = 7,
    WordHeld = 8,
    CountFull = 9,
    NotHeld = 10,
    WrongRelease = 11,
    BadDeclaration = 12,
    BadLength = 13,
    NoTarget = 14,
    NoComponent = 15,
}

impl Refusal {
    pub fn number(self) -> u32
        ensures { result ≡ number_of self }
    {
        self as u32
    }
}
