// The readers of a table: every index gets an answer, and one past the end gets none.
ghost use Rattle.std.specs.Prelude.{◌≡◌};
ghost use Rattle.table.specs.Reading.{constant_at, constant_count, instruction_at, instruction_count, limits_of, node_at, node_count, row_at, shape_at};
ghost use Rattle.table.specs.Tables.{parts};

use crate::fields::{count, nth};
use crate::instructions::{Instruction, Limits, Word};
use crate::records::{Node, Shape};
use crate::tables::Table;

impl Table<'_> {
    // The most values that may stand on the stack.
    pub fn maximum_depth(&self) -> u16
        ensures { result ≡ (parts self.now).maximum }
    {
        self.maximum
    }

    // How many local variables the table uses.
    pub fn locals(&self) -> usize
        ensures { result ≡ (parts self.now).locals }
    {
        self.locals as usize
    }

    pub fn instruction_count(&self) -> usize
        ensures { result ≡ instruction_count (parts self.now) }
    {
        count::<Word>(self.instructions)
    }

    pub fn node_count(&self) -> usize
        ensures { result ≡ node_count (parts self.now) }
    {
        count::<Node>(self.nodes)
    }

    pub fn constant_count(&self) -> usize
        ensures { result ≡ constant_count (parts self.now) }
    {
        count::<u32>(self.constants)
    }

    pub fn limits(&self) -> Limits
        ensures { result ≡ limits_of (parts self.now) }
    {
        Limits {
            instructions: self.instruction_count(),
            constants: self.constant_count(),
            locals: self.locals(),
        }
    }

    #[tactic(auto, unfolding(crate::specs::Reading::instruction_at))]
    pub fn instruction(&self, i: usize) -> Option<Instruction>
        ensures { result ≡ instruction_at (parts self.now) i }
    {
        nth::<Word>(self.instructions, i)?.decode(self.limits())
    }

    #[tactic(auto, unfolding(crate::specs::Reading::shape_at))]
    pub fn shape(&self, i: usize) -> Option<Shape>
        ensures { result ≡ shape_at (parts self.now) i }
    {
        nth(self.shapes, i)
    }

    // Nodes count from 1. Number 0 wraps to the largest number, which is past the end of every part: one comparison refuses both.
    #[tactic(auto, unfolding(crate::specs::Reading::node_at))]
    pub fn node(&self, number: usize) -> Option<Node>
        ensures { result ≡ node_at (parts self.now) number }
    {
        nth(self.nodes, number.wrapping_sub(1))
    }

    pub fn constant(&self, i: usize) -> Option<u32>
        ensures { result ≡ constant_at (parts self.now) i }
    {
        nth(self.constants, i)
    }

    pub fn row(&self, i: usize) -> Option<u32>
        ensures { result ≡ row_at (parts self.now) i }
    {
        nth(self.rows, i)
    }
}
