// The blocks of a frame: what to do, and what to restore, when control leaves a part of a script.
use crate::stack::FixedStack;

// Why blocks are being removed.
#[derive(Clone, Copy, Debug, PartialEq, Eq)]
pub enum UnwindReason {
    Returning { value: u32 },
    Raising { exception: u16 },
    Break { target: u16 },
    Continue { target: u16 },
}

#[derive(Clone, Copy, Debug, Default, PartialEq, Eq)]
pub enum BlockType {
    #[default]
    Loop,
    TryExcept {
        handler: u16,
    },
    Finally {
        handler: u16,
    },
    // a clean-up at work: why it was entered, and the exception that was current before
    FinallyHandler {
        reason: Option<UnwindReason>,
        prev_exc: Option<u16>,
    },
    // an except clause at work: the exception that was current before
    ExceptHandler {
        prev_exc: Option<u16>,
    },
}

// A block, and the length of the stack when it was put up.
#[derive(Clone, Copy, Debug, Default, PartialEq, Eq)]
pub struct Block {
    pub typ: BlockType,
    pub level: usize,
}

// At most 32 blocks.
pub type BlockTable = FixedStack<Block, 32>;
