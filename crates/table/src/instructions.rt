// The instructions, and the 4-byte words that encode them.
ghost use Rattle.std.specs.Prelude.{◌≡◌};
ghost use Rattle.table.specs.Instructions.{Decoded, RaiseKindOf, bare, decoding, encoding, flag, listed, under, word};

// An instruction as it stands in the bytes.
// Kept: the opcode is a number here, since any byte can stand there; `decode` gives the enum.
#[derive(Clone, Copy, Debug, PartialEq, Eq)]
pub struct Word {
    pub opcode: u8,
    pub x: u8,
    pub y: u16,
}

#[derive(Clone, Copy, Debug, PartialEq, Eq)]
pub enum RaiseKind {
    Reraise = 0,
    Raise = 1,
}

#[derive(Clone, Copy, Debug, PartialEq, Eq)]
pub enum Instruction {
    LoadConst { idx: u16 },
    LoadFast { idx: u16 },
    StoreFast { idx: u16 },
    Pop,
    Reverse { amount: u16 },
    CallFunctionPositional { nargs: u16 },
    GetIter,
    ForIter { target: u16 },
    Jump { target: u16 },
    JumpIfTrue { target: u16 },
    JumpIfFalse { target: u16 },
    SetupLoop,
    SetupExcept { handler: u16 },
    SetupFinally { handler: u16 },
    // Kept: a number, as the end of the node that it is held against.
    EnterFinally { end: u8 },
    EndFinally,
    SetupWith { end: u16 },
    WithCleanupStart,
    WithCleanupFinish,
    PopBlock,
    PopException,
    Raise { kind: RaiseKind },
    Break { target: u16 },
    Continue { target: u16 },
    ReturnValue,
    ReturnConst { idx: u16 },
    YieldValue,
    YieldFrom,
}

// What the table has of each thing that an operand can name.
#[derive(Clone, Copy, Debug, PartialEq, Eq)]
pub struct Limits {
    pub instructions: usize,
    pub constants: usize,
    pub locals: usize,
}

// A byte that stands for no kind of raise.
#[derive(Clone, Copy, Debug, PartialEq, Eq)]
pub struct UnknownRaise(pub u8);

impl TryFrom<u8> for RaiseKind {
    type Error = UnknownRaise;

    ghost try_from_gives = { RaiseKindOf };

    fn try_from(byte: u8) -> Result<RaiseKind, UnknownRaise> {
        match byte {
            0 => Ok(RaiseKind::Reraise),
            1 => Ok(RaiseKind::Raise),
            _ => Err(UnknownRaise(byte)),
        }
    }
}

impl Word {
    fn new(opcode: u8, x: u8, y: u16) -> Word
        ensures { result ≡ word opcode x y }
    {
        Word { opcode, x, y }
    }

    // No operand is used: both are 0.
    fn bare(self) -> bool
        ensures { result ≡ bare self }
    {
        self.x == 0 && self.y == 0
    }

    // x is 0 or 1, and y is not used.
    fn flag(self) -> bool
        ensures { result ≡ flag self }
    {
        self.x <= 1 && self.y == 0
    }

    // y is below a number, and x is not used.
    fn below(self, count: usize) -> bool
        ensures { result ≡ under count self }
    {
        self.x == 0 && (self.y as usize) < count
    }

    // The opcodes, each with the range of its operand.
    fn listed(self, limits: Limits) -> Option<Instruction>
        ensures { result ≡ listed limits self }
    {
        let y = self.y;
        match self.opcode {
            1 if self.below(limits.constants) => Some(Instruction::LoadConst { idx: y }),
            2 if self.below(limits.locals) => Some(Instruction::LoadFast { idx: y }),
            3 if self.below(limits.locals) => Some(Instruction::StoreFast { idx: y }),
            6 if self.bare() => Some(Instruction::Pop),
            11 if self.below(256) => Some(Instruction::Reverse { amount: y }),
            14 if self.below(256) => Some(Instruction::CallFunctionPositional { nargs: y }),
            15 if self.bare() => Some(Instruction::GetIter),
            16 if self.below(limits.instructions) => Some(Instruction::ForIter { target: y }),
            17 if self.below(limits.instructions) => Some(Instruction::Jump { target: y }),
            18 if self.below(limits.instructions) => Some(Instruction::JumpIfTrue { target: y }),
            19 if self.below(limits.instructions) => Some(Instruction::JumpIfFalse { target: y }),
            24 if self.bare() => Some(Instruction::SetupLoop),
            25 if self.below(limits.instructions) => Some(Instruction::SetupExcept { handler: y }),
            26 if self.below(limits.instructions) => Some(Instruction::SetupFinally { handler: y }),
            27 if self.flag() => Some(Instruction::EnterFinally { end: self.x }),
            28 if self.bare() => Some(Instruction::EndFinally),
            29 if self.below(limits.instructions) => Some(Instruction::SetupWith { end: y }),
            30 if self.bare() => Some(Instruction::WithCleanupStart),
            31 if self.bare() => Some(Instruction::WithCleanupFinish),
            32 if self.bare() => Some(Instruction::PopBlock),
            33 if self.bare() => Some(Instruction::PopException),
            34 if self.y == 0 => Some(Instruction::Raise {
                kind: RaiseKind::try_from(self.x).ok()?,
            }),
            35 if self.below(limits.instructions) => Some(Instruction::Break { target: y }),
            36 if self.below(limits.instructions) => Some(Instruction::Continue { target: y }),
            37 if self.bare() => Some(Instruction::ReturnValue),
            38 if self.below(limits.constants) => Some(Instruction::ReturnConst { idx: y }),
            39 if self.bare() => Some(Instruction::YieldValue),
            40 if self.bare() => Some(Instruction::YieldFrom),
            _ => None,
        }
    }

    // The instruction of this word in a table of these limits; none where there is no such opcode or an operand is out of its range.
    #[tactic(auto, using(crate::proofs::Decoded::decoded), unfolding(crate::specs::Instructions::decoding))]
    pub fn decode(self, limits: Limits) -> Option<Instruction>
        ensures value { result ≡ decoding limits self }
        ensures law { Decoded limits self result }
    {
        self.listed(limits)
    }
}

impl Instruction {
    // The word that encodes this instruction.
    pub fn encode(self) -> Word
        ensures { result ≡ encoding self }
    {
        match self {
            Instruction::LoadConst { idx } => Word::new(1, 0, idx),
            Instruction::LoadFast { idx } => Word::new(2, 0, idx),
            Instruction::StoreFast { idx } => Word::new(3, 0, idx),
            Instruction::Pop => Word::new(6, 0, 0),
            Instruction::Reverse { amount } => Word::new(11, 0, amount),
            Instruction::CallFunctionPositional { nargs } => Word::new(14, 0, nargs),
            Instruction::GetIter => Word::new(15, 0, 0),
            Instruction::ForIter { target } => Word::new(16, 0, target),
            Instruction::Jump { target } => Word::new(17, 0, target),
            Instruction::JumpIfTrue { target } => Word::new(18, 0, target),
            Instruction::JumpIfFalse { target } => Word::new(19, 0, target),
            Instruction::SetupLoop => Word::new(24, 0, 0),
            Instruction::SetupExcept { handler } => Word::new(25, 0, handler),
            Instruction::SetupFinally { handler } => Word::new(26, 0, handler),
            Instruction::EnterFinally { end } => Word::new(27, end, 0),
            Instruction::EndFinally => Word::new(28, 0, 0),
            Instruction::SetupWith { end } => Word::new(29, 0, end),
            Instruction::WithCleanupStart => Word::new(30, 0, 0),
            Instruction::WithCleanupFinish => Word::new(31, 0, 0),
            Instruction::PopBlock => Word::new(32, 0, 0),
            Instruction::PopException => Word::new(33, 0, 0),
            Instruction::Raise { kind } => Word::new(34, kind as u8, 0),
            Instruction::Break { target } => Word::new(35, 0, target),
            Instruction::Continue { target } => Word::new(36, 0, target),
            Instruction::ReturnValue => Word::new(37, 0, 0),
            Instruction::ReturnConst { idx } => Word::new(38, 0, idx),
            Instruction::YieldValue => Word::new(39, 0, 0),
            Instruction::YieldFrom => Word::new(40, 0, 0),
        }
    }
}
