ghost use Rattle.std.specs.Prelude.{◌≡◌, ◌≤◌, length};
ghost use Rattle.std.proofs.Common.{rules};
ghost use Rattle.table.specs.Layout.{layout_of, span_at};

use crate::fields::Record;

// A part's place in the bytes, as its pair gives it.
#[derive(Clone, Copy, Debug, PartialEq, Eq)]
pub struct Span {
    pub offset: u32,
    pub length: u32,
}

// The header: four numbers and the five parts' places, as they stand in the bytes.
#[derive(Clone, Copy, Debug, PartialEq, Eq)]
pub struct Layout {
    pub maximum: u16,
    pub locals: u16,
    pub zero: u16,
    pub pairs: u16,
    pub instructions: Span,
    pub shapes: Span,
    pub nodes: Span,
    pub constants: Span,
    pub rows: Span,
}

impl Record for Span {
    const SIZE: usize = 8;

    ghost SIZE = { 8 };

    ghost from = { span_at };

    ghost sized = { Prim.search rules };

    fn read(bytes: &[u8], at: usize) -> Span {
        Span {
            offset: u32::read(bytes, at),
            length: u32::read(bytes, at + 4),
        }
    }
}

impl Layout {
    #[tactic(auto, unfolding(crate::specs::Layout::layout_of))]
    pub fn read(bytes: &[u8]) -> Layout
        requires { 48 ≤ length bytes.now }
        ensures { result ≡ layout_of bytes.now }
    {
        Layout {
            maximum: u16::read(bytes, 0),
            locals: u16::read(bytes, 2),
            zero: u16::read(bytes, 4),
            pairs: u16::read(bytes, 6),
            instructions: Span::read(bytes, 8),
            shapes: Span::read(bytes, 16),
            nodes: Span::read(bytes, 24),
            constants: Span::read(bytes, 32),
            rows: Span::read(bytes, 40),
        }
    }
}
