// Shapes and nodes: what the table's author declares of each instruction and of each block that can stand there.
ghost use Rattle.std.specs.Prelude.{◌≡◌};
ghost use Rattle.std.proofs.Common.{rules};
ghost use Rattle.table.specs.Records.{kind_byte, node_from, node_kind, shape_from, word_from};

use crate::fields::Record;
use crate::instructions::Word;

// What stands before an instruction: so many values on the stack, and the topmost block's node (0 for no block).
// Kept: 0 for none, and no Option, which the rules would turn back into the number wherever they compare it and refusals print it.
#[derive(Clone, Copy, Debug, PartialEq, Eq)]
pub struct Shape {
    pub depth: u16,
    pub node: u16,
}

// The kind of block that a node declares; loading takes any byte, and the check refuses unknown ones.
// Unknown stands first for speed alone: the compiler can then number the others by their bytes, 1 to 5. Nothing rests on it.
#[derive(Clone, Copy, Debug, PartialEq, Eq)]
pub enum NodeKind {
    Unknown(u8),
    Loop,
    TryExcept,
    Finally,
    FinallyHandler,
    ExceptHandler,
}

// A block as the table declares it: the node below it (0 for none), the stack's length when it is put up,
// where its handler begins, and whether its clean-up ends as a with statement's does (1) or not (0).
// Kept: 0 for none as in a shape; and the end is a number, since it is taken off a level, held against the most of a kind, and printed.
#[derive(Clone, Copy, Debug, PartialEq, Eq)]
pub struct Node {
    pub kind: NodeKind,
    pub end: u8,
    pub parent: u16,
    pub level: u16,
    pub handler: u16,
}

impl From<u8> for NodeKind {
    // The kind has this byte again.
    ghost from_gives = { λ b k. (k ≡ node_kind b) × (kind_byte k ≡ b) };

    fn from(byte: u8) -> NodeKind {
        match byte {
            1 => NodeKind::Loop,
            2 => NodeKind::TryExcept,
            3 => NodeKind::Finally,
            4 => NodeKind::FinallyHandler,
            5 => NodeKind::ExceptHandler,
            other => NodeKind::Unknown(other),
        }
    }
}

impl From<NodeKind> for u8 {
    ghost from_gives = { λ k b. b ≡ kind_byte k };

    fn from(kind: NodeKind) -> u8 {
        match kind {
            NodeKind::Loop => 1,
            NodeKind::TryExcept => 2,
            NodeKind::Finally => 3,
            NodeKind::FinallyHandler => 4,
            NodeKind::ExceptHandler => 5,
            NodeKind::Unknown(byte) => byte,
        }
    }
}

impl Record for Word {
    const SIZE: usize = 4;

    ghost SIZE = { 4 };

    ghost from = { word_from };

    ghost sized = { Prim.search rules };

    fn read(bytes: &[u8], at: usize) -> Word {
        Word {
            opcode: bytes[at],
            x: bytes[at + 1],
            y: u16::read(bytes, at + 2),
        }
    }
}

impl Record for Shape {
    const SIZE: usize = 4;

    ghost SIZE = { 4 };

    ghost from = { shape_from };

    ghost sized = { Prim.search rules };

    fn read(bytes: &[u8], at: usize) -> Shape {
        Shape {
            depth: u16::read(bytes, at),
            node: u16::read(bytes, at + 2),
        }
    }
}

impl Record for Node {
    const SIZE: usize = 8;

    ghost SIZE = { 8 };

    ghost from = { node_from };

    ghost sized = { Prim.search rules };

    fn read(bytes: &[u8], at: usize) -> Node {
        Node {
            kind: NodeKind::from(bytes[at]),
            end: bytes[at + 1],
            parent: u16::read(bytes, at + 2),
            level: u16::read(bytes, at + 4),
            handler: u16::read(bytes, at + 6),
        }
    }
}
