// The value stack of a frame: at most 256 handles.
pub use stacks::stack::{FixedStack, Full, TooFew};

pub type Stack = FixedStack<u32, 256>;
