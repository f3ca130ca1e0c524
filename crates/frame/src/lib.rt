// The frame: a script in progress. Its value stack, locals, block table, index, status and counts, in fixed memory.
// `Frame::new` makes one, or refuses too many arguments (number 5); readers give every part, operations change it in small.
// Value stack and block table are one type, FixedStack of the crate stacks, which contracts see as a list.
// It rests on stacks alone; specs/Frames.antt says what a frame holds.
// Its page is docs/frame.md.
#![tactic(auto)]

pub mod blocks;
pub mod faults;
pub mod frames;
pub mod operations;
pub mod stack;
