// What can be wrong with a table's instructions when they run: each case has its number.
ghost use Rattle.std.specs.Prelude.{◌≡◌};
ghost use Rattle.frame.specs.Faults.{fault_number};

#[derive(Clone, Copy, Debug, PartialEq, Eq)]
pub enum FaultKind {
    PastTheEnd = 21,
    StackFull = 22,
    TooFewValues = 23,
    NoBlock = 24,
    WrongBlock = 25,
    NoLoop = 26,
    BelowLevel = 27,
    TooManyBlocks = 28,
}

impl FaultKind {
    pub fn number(self) -> u8
        ensures { result ≡ fault_number self }
    {
        self as u8
    }
}
