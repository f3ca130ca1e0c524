// From bytes to a table that borrows them, or the first refusal.
ghost use Rattle.std.specs.Prelude.{◌≡◌, ◌+◌, ◌≤◌, length, Ok};
ghost use Rattle.table.specs.Header.{ending, placing};
ghost use Rattle.table.specs.Lawful.{Loaded};
ghost use Rattle.table.specs.Loading.{decodable, loading};
ghost use Rattle.table.specs.Parts.{cutting, part};
ghost use Rattle.table.specs.Reading.{instruction_count};
ghost use Rattle.table.specs.Tables.{answered, parts};

use crate::fields::Record;
use crate::header::sized;
use crate::instructions::Word;
use crate::layout::{Layout, Span};
use crate::refusals::Refusal;
use crate::tables::Table;

impl Span {
    // The bytes at a part's place.
    fn part(self, bytes: &[u8]) -> &[u8]
        requires { ending self ≤ length bytes.now }
        ensures { result.now ≡ part bytes.now self }
    {
        &bytes[self.offset as usize..][..self.length as usize]
    }
}

impl Layout {
    // The table whose parts lie where the header says.
    #[tactic(auto, using(crate::proofs::Placing::placing_says), unfolding(crate::specs::Parts::cutting))]
    fn cut(self, bytes: &[u8]) -> Table<'_>
        requires { placing (length bytes.now) self ≡ Ok tt }
        ensures { parts result ≡ cutting bytes.now self }
    {
        Table {
            maximum: self.maximum,
            locals: self.locals,
            instructions: self.instructions.part(bytes),
            shapes: self.shapes.part(bytes),
            nodes: self.nodes.part(bytes),
            constants: self.constants.part(bytes),
            rows: self.rows.part(bytes),
        }
    }
}

impl Table<'_> {
    // The first instruction that cannot be decoded is refused.
    #[tactic(auto, using(crate::proofs::Decodable::decodable_none))]
    fn decodable(&self) -> Result<(), Refusal>
        ensures { result ≡ decodable (parts self.now) 0 (instruction_count (parts self.now)) }
    {
        let limits = self.limits();
        for at in 0..limits.instructions {
            let word = Word::read(self.instructions, Word::SIZE * at);
            word.decode(limits)
                .ok_or(Refusal::Instruction { at, word, limits })?;
        }
        Ok(())
    }
}

#[tactic(auto, using(crate::proofs::Loaded::loaded), unfolding(crate::specs::Loading::loading))]
pub fn load(bytes: &[u8]) -> Result<Table<'_>, Refusal>
    ensures value { answered result ≡ loading bytes.now }
    ensures law { Loaded bytes.now (answered result) }
{
    sized(bytes.len())?;
    let layout = Layout::read(bytes);
    layout.placed(bytes.len())?;
    layout.numbered()?;
    layout.measured()?;
    let table = layout.cut(bytes);
    table.decodable()?;
    Ok(table)
}
