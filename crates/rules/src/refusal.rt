// Why a call is refused.
ghost use Rattle.std.specs.Prelude.{◌≡◌};
ghost use Rattle.rules.specs.Refusals.{code_of};

// The refusals, each with the number that 01 and include/tilde.h give it.
#[derive(Clone, Copy, Debug, PartialEq, Eq)]
pub enum Refusal {
    BadTable = 1,
    LongFormat = 2,
    UnknownCode = 3,
    BadBlock = 4,
    BadParameter = 5,
    NoArgument = 6,
    WrongKind = 7,
    OutOfRange = 8,
    StepLimit = 9,
    NoRoom = 10,
    NotPlain = 11,
    BadKinds = 12,
}

impl Refusal {
    // 01's number.
    pub fn code(self) -> u32
        ensures { result ≡ code_of self }
    {
        self as u32
    }
}

// A refusal, and the position that goes with it.
#[derive(Clone, Copy, Debug, PartialEq, Eq)]
pub struct Fault {
    pub refusal: Refusal,
    pub position: usize,
}
