// Why load refuses bytes: each case has its number, and the last one its place.
ghost use Rattle.std.specs.Prelude.{◌≡◌};
ghost use Rattle.table.specs.Refusals.{number_of, place_of};

use crate::instructions::{Limits, Word};

// The parts of a table, in the order of their pairs.
#[derive(Clone, Copy, Debug, PartialEq, Eq)]
pub enum Part {
    Instructions,
    Shapes,
    Nodes,
    Constants,
    Rows,
}

// The numbers at the head of a table, in their order.
#[derive(Clone, Copy, Debug, PartialEq, Eq)]
pub enum Field {
    MaximumDepth,
    Locals,
    Zero,
    PairCount,
}

#[derive(Clone, Copy, Debug, PartialEq, Eq)]
pub enum Refusal {
    // 1: fewer than 48 bytes or more than 65,536
    Size {
        bytes: usize,
    },
    // 2: a part begins before byte 48 or before its forerunner's end
    Begins {
        part: Part,
        offset: usize,
        earliest: usize,
    },
    // 2: a part ends past the table
    Ends {
        part: Part,
        end: usize,
        bytes: usize,
    },
    // 3: a header number outside its range
    Number {
        field: Field,
        found: u16,
    },
    // 3: a part that is no whole number of records, or too few or too many of them
    Records {
        part: Part,
        length: u32,
    },
    // 3: shapes or rows that are not one for each instruction
    Uneven {
        part: Part,
        length: u32,
        expected: u32,
    },
    // 4: an unknown opcode, or an operand out of its range
    Instruction {
        at: usize,
        word: Word,
        limits: Limits,
    },
}

impl Refusal {
    pub fn number(self) -> u8
        ensures { result ≡ number_of self }
    {
        match self {
            Refusal::Size { .. } => 1,
            Refusal::Begins { .. } | Refusal::Ends { .. } => 2,
            Refusal::Number { .. } | Refusal::Records { .. } | Refusal::Uneven { .. } => 3,
            Refusal::Instruction { .. } => 4,
        }
    }

    pub fn place(self) -> Option<usize>
        ensures { result ≡ place_of self }
    {
        match self {
            Refusal::Instruction { at, .. } => Some(at),
            _ => None,
        }
    }
}
