// What the instructions do to a frame in small: values on and off the stack, blocks up and down.
ghost use Rattle.std.specs.Prelude.{◌≡◌};
ghost use Rattle.frame.specs.Operations.{pop_left, pop_out, push_left, push_out, put_up_left, put_up_out, remove_left, remove_out};

use crate::blocks::{Block, BlockType};
use crate::faults::FaultKind;
use crate::frames::Frame;

impl Frame {
    // A value more, within the table's maximum.
    #[tactic(auto, unfolding(crate::specs::Operations::push_left, crate::specs::Operations::push_out))]
    pub fn push_value(&mut self, value: u32, maximum: usize) -> Result<(), FaultKind>
        ensures told { result ≡ push_out maximum self.old }
        ensures left { self.new ≡ push_left maximum value self.old }
    {
        if self.stack.len() >= maximum {
            return Err(FaultKind::StackFull);
        }
        self.stack.push(value).map_err(|_| FaultKind::StackFull)
    }

    // The topmost value, taken off.
    #[tactic(auto, unfolding(crate::specs::Operations::pop_left, crate::specs::Operations::pop_out))]
    pub fn pop_value(&mut self) -> Result<u32, FaultKind>
        ensures told { result ≡ pop_out self.old }
        ensures left { self.new ≡ pop_left self.old }
    {
        self.stack.pop().ok_or(FaultKind::TooFewValues)
    }

    // A block at the stack's length.
    #[tactic(auto, unfolding(crate::specs::Operations::put_up_left, crate::specs::Operations::put_up_out))]
    pub fn push_block(&mut self, typ: BlockType) -> Result<(), FaultKind>
        ensures told { result ≡ put_up_out self.old }
        ensures left { self.new ≡ put_up_left typ self.old }
    {
        let level = self.stack.len();
        self.blocks
            .push(Block { typ, level })
            .map_err(|_| FaultKind::TooManyBlocks)
    }

    // The topmost block, removed, and the stack cut to its level.
    #[tactic(auto, unfolding(crate::specs::Operations::remove_left, crate::specs::Operations::remove_out))]
    pub fn pop_block(&mut self) -> Result<Block, FaultKind>
        ensures told { result ≡ remove_out self.old }
        ensures left { self.new ≡ remove_left self.old }
    {
        let block = self.blocks.pop().ok_or(FaultKind::NoBlock)?;
        self.stack
            .cut(block.level)
            .map_err(|_| FaultKind::BelowLevel)?;
        Ok(block)
    }
}
