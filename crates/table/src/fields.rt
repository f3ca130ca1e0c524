// What stands at one place in a table's bytes, and the parts as lists of such records. Multi-byte numbers are little-endian.
ghost use Rattle.std.specs.Prelude.{◌≡◌, ℕ, ◌+◌, ◌≤◌, List, length};
ghost use Rattle.std.proofs.Common.{rules};
ghost use Rattle.table.specs.Fields.{u16_at, u32_at};
ghost use Rattle.table.specs.Reading.{record_at, records};

// A number or a record that takes as many bytes wherever it stands.
pub(crate) trait Record: Copy {
    const SIZE: usize;

    ghost SIZE: { ℕ };

    ghost from: { List ℕ → ℕ → Self };

    // The one that begins at a byte.
    fn read(bytes: &[u8], at: usize) -> Self
        requires { at + SIZE ≤ length bytes.now }
        ensures { result ≡ from bytes.now at };

    ghost sized: { 1 ≤ SIZE };
}

impl Record for u16 {
    const SIZE: usize = 2;

    ghost SIZE = { 2 };

    ghost from = { u16_at };

    ghost sized = { Prim.search rules };

    #[tactic(auto, unfolding(crate::specs::Fields::u16_at))]
    fn read(bytes: &[u8], at: usize) -> u16 {
        u16::from_le_bytes([bytes[at], bytes[at + 1]])
    }
}

impl Record for u32 {
    const SIZE: usize = 4;

    ghost SIZE = { 4 };

    ghost from = { u32_at };

    ghost sized = { Prim.search rules };

    #[tactic(auto, unfolding(crate::specs::Fields::u32_at))]
    fn read(bytes: &[u8], at: usize) -> u32 {
        u32::from_le_bytes([bytes[at], bytes[at + 1], bytes[at + 2], bytes[at + 3]])
    }
}

// How many records a part holds.
pub(crate) fn count<R: Record>(part: &[u8]) -> usize
    ensures { result ≡ records R.SIZE part.now }
{
    part.len() / R::SIZE
}

// Record i of a part, or none past the end.
pub(crate) fn nth<R: Record>(part: &[u8], i: usize) -> Option<R>
    ensures { result ≡ record_at R.SIZE R.from part.now i }
{
    if i >= count::<R>(part) {
        return None;
    }
    Some(R::read(part, R::SIZE * i))
}
