// What an iterator gives when it is asked for its next value.
// Kept: a stop is no error, and the Rust that was ported has it under this name.
#[derive(Clone, Copy, Debug, PartialEq, Eq)]
pub enum PyIterReturn {
    Return(u32),
    StopIteration(Option<u32>),
}

// What went wrong, where the machine asks its host for an exception.
#[derive(Clone, Copy, Debug, PartialEq, Eq)]
pub enum FailKind {
    UnboundLocal = 1,
    NoEnter = 2,
    NoExit = 3,
    NothingToReraise = 4,
}
