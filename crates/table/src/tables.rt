// A table: two numbers, and five parts that are borrowed from the bytes it was loaded from.
// Kept: clauses read a table through `parts`: tried as a Model, which a struct with a lifetime can have only if it is not Copy.
#[derive(Clone, Copy, Debug, PartialEq, Eq)]
pub struct Table<'a> {
    pub(crate) maximum: u16,
    pub(crate) locals: u16,
    pub(crate) instructions: &'a [u8],
    pub(crate) shapes: &'a [u8],
    pub(crate) nodes: &'a [u8],
    pub(crate) constants: &'a [u8],
    pub(crate) rows: &'a [u8],
}
