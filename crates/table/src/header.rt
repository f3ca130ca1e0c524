// What load asks of the header, in its order: the size, the parts' places, the numbers, the parts' lengths.
ghost use Rattle.std.specs.Prelude.{◌≡◌};
ghost use Rattle.table.specs.Header.{counted, ending, matched, measured, numbered, placed, placing, ranged, sized};

use crate::demands::demand;
use crate::fields::Record;
use crate::instructions::Word;
use crate::layout::{Layout, Span};
use crate::records::Node;
use crate::refusals::{Field, Part, Refusal};

pub fn sized(bytes: usize) -> Result<(), Refusal>
    ensures { result ≡ sized bytes }
{
    demand((48..=65_536).contains(&bytes), Refusal::Size { bytes })
}

impl Span {
    // One past the part's last byte.
    pub fn end(self) -> usize
        ensures { result ≡ ending self }
    {
        self.offset as usize + self.length as usize
    }

    fn placed(self, part: Part, earliest: usize, bytes: usize) -> Result<(), Refusal>
        ensures { result ≡ placed part earliest bytes self }
    {
        let offset = self.offset as usize;
        demand(
            earliest <= offset,
            Refusal::Begins {
                part,
                offset,
                earliest,
            },
        )?;
        let end = self.end();
        demand(end <= bytes, Refusal::Ends { part, end, bytes })
    }

    // From `least` to `most` records, and nothing besides.
    fn counted<R: Record>(self, part: Part, least: usize, most: usize) -> Result<(), Refusal>
        ensures { result ≡ counted part R.SIZE least most self }
    {
        let length = self.length as usize;
        demand(
            length % R::SIZE == 0 && (least..=most).contains(&(length / R::SIZE)),
            Refusal::Records {
                part,
                length: self.length,
            },
        )
    }

    fn matched(self, part: Part, expected: u32) -> Result<(), Refusal>
        ensures { result ≡ matched part expected self }
    {
        let length = self.length;
        demand(
            length == expected,
            Refusal::Uneven {
                part,
                length,
                expected,
            },
        )
    }
}

fn ranged(field: Field, least: u16, most: u16, found: u16) -> Result<(), Refusal>
    ensures { result ≡ ranged field least most found }
{
    demand(
        (least..=most).contains(&found),
        Refusal::Number { field, found },
    )
}

impl Layout {
    // Each part begins at or after its forerunner's end, the first at or after byte 48, and ends within the table.
    #[tactic(auto, unfolding(crate::specs::Header::placing))]
    pub fn placed(self, bytes: usize) -> Result<(), Refusal>
        ensures { result ≡ placing bytes self }
    {
        self.instructions.placed(Part::Instructions, 48, bytes)?;
        self.shapes
            .placed(Part::Shapes, self.instructions.end(), bytes)?;
        self.nodes.placed(Part::Nodes, self.shapes.end(), bytes)?;
        self.constants
            .placed(Part::Constants, self.nodes.end(), bytes)?;
        self.rows.placed(Part::Rows, self.constants.end(), bytes)
    }

    #[tactic(auto, unfolding(crate::specs::Header::numbered))]
    pub fn numbered(self) -> Result<(), Refusal>
        ensures { result ≡ numbered self }
    {
        ranged(Field::MaximumDepth, 1, 256, self.maximum)?;
        ranged(Field::Locals, 0, 64, self.locals)?;
        ranged(Field::Zero, 0, 0, self.zero)?;
        ranged(Field::PairCount, 5, 5, self.pairs)
    }

    #[tactic(auto, unfolding(crate::specs::Header::measured))]
    pub fn measured(self) -> Result<(), Refusal>
        ensures { result ≡ measured self }
    {
        self.instructions
            .counted::<Word>(Part::Instructions, 1, 4096)?;
        self.shapes.matched(Part::Shapes, self.instructions.length)?;
        self.nodes.counted::<Node>(Part::Nodes, 0, 1024)?;
        self.constants.counted::<u32>(Part::Constants, 0, 1024)?;
        self.rows.matched(Part::Rows, self.instructions.length)
    }
}
