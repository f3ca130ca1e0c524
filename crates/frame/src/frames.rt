// A frame: a script in progress. Its stack, locals, blocks, index, status and counts, all in fixed memory.
ghost use Rattle.std.specs.Prelude.{◌≡◌, ◌<◌, ◌≤◌, length, Ok, Err};
ghost use Rattle.std.specs.List.{slice_get};
ghost use Rattle.frame.specs.Frames.{filled, local_at, new_frame};
ghost use Rattle.stacks.specs.Stack.{placed};

use crate::blocks::{Block, BlockTable};
use crate::stack::Stack;
use std::array;
use std::marker::Model;

// Ready to run, suspended by a yield, left by a return or a raise, or stopped by a fault.
#[derive(Clone, Copy, Debug, PartialEq, Eq)]
pub enum Status {
    Ready,
    Suspended,
    Left,
    Stopped,
}

// Counted from the new frame on.
#[derive(Clone, Copy, Debug, Default, PartialEq, Eq)]
pub struct Counts {
    // instructions begun
    pub steps: u64,
    // blocks put up by instructions that set one up
    pub setup: u64,
    // clean-ups put up by these: a clean-up is a Finally block
    pub armed: u64,
    // clean-ups that unwinding replaced by their handler
    pub entered: u64,
    // clean-ups that PopBlock removed
    pub struck: u64,
    // blocks removed inside unwinding
    pub dropped: u64,
}

// Over 64 arguments.
#[derive(Clone, Copy, Debug, PartialEq, Eq)]
pub struct TooManyArguments {
    pub given: usize,
}

impl TooManyArguments {
    pub fn number(self) -> u8
        ensures { result ≡ 5 }
    {
        5
    }
}

#[derive(Drop)]
pub struct Frame {
    pub(crate) exceptions: u16,
    pub(crate) stack: Stack,
    pub(crate) locals: [Option<u32>; 64],
    pub(crate) blocks: BlockTable,
    pub(crate) index: usize,
    pub(crate) status: Status,
    pub(crate) counts: Counts,
}

// The arguments in the first locals, the rest empty.
fn fill(arguments: &[u32]) -> [Option<u32>; 64]
    requires { length arguments.now ≤ 64 }
    ensures { result ≡ filled arguments.now }
{
    array::from_fn(
        |i|
            ensures { result ≡ slice_get arguments.entry.now i }
        { arguments.get(i).copied() },
    )
}

// Clauses see what a frame holds.
impl Model for Frame {
    ghost use Rattle.frame.specs.Frames.{Held, held};

    ghost Value = { Held };

    ghost view = { held };
}

impl Frame {
    // A new frame for a host of so many exceptions: ready at instruction 0, with nothing on its stack and no block.
    pub fn new(exceptions: u16, arguments: &[u32]) -> Result<Frame, TooManyArguments>
        ensures { elim result [ Ok f ↦ (length arguments.now ≤ 64) × (f ≡ new_frame exceptions arguments.now) | Err e ↦ (64 < length arguments.now) × (e.given ≡ length arguments.now) ] }
    {
        if arguments.len() > 64 {
            return Err(TooManyArguments {
                given: arguments.len(),
            });
        }
        Ok(Frame {
            exceptions,
            stack: Stack::new(),
            locals: fill(arguments),
            blocks: BlockTable::new(),
            index: 0,
            status: Status::Ready,
            counts: Counts::default(),
        })
    }

    // The number of exceptions of the host that the frame is made for.
    pub fn exceptions(&self) -> u16
        ensures { result ≡ self.now.exceptions }
    {
        self.exceptions
    }

    // The instruction to run next.
    pub fn index(&self) -> usize
        ensures { result ≡ self.now.index }
    {
        self.index
    }

    pub fn status(&self) -> Status
        ensures { result ≡ self.now.status }
    {
        self.status
    }

    pub fn counts(&self) -> Counts
        ensures { result ≡ self.now.counts }
    {
        self.counts
    }

    // How many values stand on the stack.
    pub fn depth(&self) -> usize
        ensures told { result ≡ length self.now.stack }
        ensures most { result ≤ 256 }
    {
        self.stack.len()
    }

    // The value at a place of the stack, counted from the bottom.
    pub fn value(&self, i: usize) -> Option<u32>
        ensures { result ≡ placed i self.now.stack }
    {
        self.stack.get(i)
    }

    // A local variable; an empty one and one past the last get none.
    pub fn local(&self, i: usize) -> Option<u32>
        ensures { result ≡ local_at i self.now.locals }
    {
        self.locals.get(i).copied().flatten()
    }

    // How many blocks stand.
    pub fn block_count(&self) -> usize
        ensures told { result ≡ length self.now.blocks }
        ensures most { result ≤ 32 }
    {
        self.blocks.len()
    }

    // The block at a place, counted from the bottom.
    pub fn block(&self, i: usize) -> Option<Block>
        ensures { result ≡ placed i self.now.blocks }
    {
        self.blocks.get(i)
    }
}
