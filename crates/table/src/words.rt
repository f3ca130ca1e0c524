// A refusal in words: its number, its place, what was found and what was expected.
ghost use Rattle.std.specs.Prelude.{◌≡◌, Some};
ghost use Rattle.table.specs.Words.{expected_operands, expected_records, explanation, field_name, field_range, kind_name, known, part_name};

use crate::instructions::{Instruction, Limits, Word};
use crate::names::Operand;
use crate::records::NodeKind;
use crate::refusals::{Field, Part, Refusal};
use std::error::Error;
use std::fmt;

impl fmt::Display for Part {
    ghost output = { λ p. Some (part_name p) };

    fn fmt<W: fmt::Write>(&self, f: &mut fmt::Formatter<W>) -> fmt::Result {
        f.write_str(self.name())
    }
}

impl fmt::Display for Field {
    ghost output = { λ f. Some (field_name f) };

    fn fmt<W: fmt::Write>(&self, f: &mut fmt::Formatter<W>) -> fmt::Result {
        f.write_str(self.name())
    }
}

impl fmt::Display for NodeKind {
    ghost output = { λ k. Some (kind_name k) };

    fn fmt<W: fmt::Write>(&self, f: &mut fmt::Formatter<W>) -> fmt::Result {
        f.write_str(self.name())
    }
}

impl Part {
    // What the part is called: a text, which cannot fail. The Display writes it. So too in Field and NodeKind.
    fn name(self) -> &'static str
        ensures { result.now ≡ part_name self }
    {
        match self {
            Part::Instructions => "instructions",
            Part::Shapes => "shapes",
            Part::Nodes => "nodes",
            Part::Constants => "constants",
            Part::Rows => "rows",
        }
    }

    // The records that it may have.
    // Kept: a text by a match, as the range of a Field is, since a type has one Display, which is its name.
    fn records(self) -> &'static str
        ensures { result.now ≡ expected_records self }
    {
        match self {
            Part::Instructions => "1 to 4096 records of 4",
            Part::Shapes => "a record of 4 for each instruction",
            Part::Nodes => "0 to 1024 records of 8",
            Part::Constants => "0 to 1024 records of 4",
            Part::Rows => "a record of 4 for each instruction",
        }
    }
}

impl Field {
    fn name(self) -> &'static str
        ensures { result.now ≡ field_name self }
    {
        match self {
            Field::MaximumDepth => "maximum depth",
            Field::Locals => "number of locals",
            Field::Zero => "third header number",
            Field::PairCount => "pair count",
        }
    }

    fn range(self) -> &'static str
        ensures { result.now ≡ field_range self }
    {
        match self {
            Field::MaximumDepth => "1 to 256",
            Field::Locals => "0 to 64",
            Field::Zero => "0",
            Field::PairCount => "5",
        }
    }
}

impl NodeKind {
    fn name(self) -> &'static str
        ensures { result.now ≡ kind_name self }
    {
        match self {
            NodeKind::Loop => "a Loop",
            NodeKind::TryExcept => "a TryExcept",
            NodeKind::Finally => "a Finally",
            NodeKind::FinallyHandler => "a FinallyHandler",
            NodeKind::ExceptHandler => "an ExceptHandler",
            NodeKind::Unknown(_) => "no known block",
        }
    }
}

// The x and y that a word with this operand may have.
#[derive(Drop)]
struct Expected {
    operand: Operand,
    limits: Limits,
}

impl fmt::Display for Expected {
    ghost output = { λ e. Some (expected_operands e.operand e.limits) };

    fn fmt<W: fmt::Write>(&self, f: &mut fmt::Formatter<W>) -> fmt::Result {
        let Limits {
            instructions,
            constants,
            locals,
        } = self.limits;
        match self.operand {
            Operand::Nothing => write!(f, "x 0 and y 0"),
            Operand::Constant(_) => write!(
                f,
                "x 0 and a y below {constants}, the number of constants"
            ),
            Operand::Local(_) => write!(f, "x 0 and a y below {locals}, the number of locals"),
            Operand::Count(_) => write!(f, "x 0 and a y of at most 255"),
            Operand::Target(_) => write!(
                f,
                "x 0 and a y below {instructions}, the number of instructions"
            ),
            Operand::Flag(_) => write!(f, "an x of 0 or 1 and y 0"),
        }
    }
}

// Some instruction of the opcode, if there is one.
fn example(opcode: u8) -> Option<Instruction>
    ensures { result ≡ known opcode }
{
    let limits = Limits {
        instructions: 1,
        constants: 1,
        locals: 1,
    };
    Word { opcode, x: 0, y: 0 }.decode(limits)
}

impl fmt::Display for Refusal {
    ghost output = { λ r. Some (explanation r) };

    fn fmt<W: fmt::Write>(&self, f: &mut fmt::Formatter<W>) -> fmt::Result {
        match *self {
            Refusal::Size { bytes } => write!(
                f,
                "refused 1: the table has {bytes} bytes; expected 48 to 65536"
            ),
            Refusal::Begins {
                part,
                offset,
                earliest,
            } => write!(
                f,
                "refused 2: the {part} begin at byte {offset}; expected byte {earliest} or later"
            ),
            Refusal::Ends { part, end, bytes } => write!(
                f,
                "refused 2: the {part} end at byte {end}; expected {bytes} at most, where the table ends"
            ),
            Refusal::Number { field, found } => {
                let range = field.range();
                write!(f, "refused 3: the {field} is {found}; expected {range}")
            }
            Refusal::Records { part, length } => {
                let records = part.records();
                write!(
                    f,
                    "refused 3: the {part} take {length} bytes; expected {records}"
                )
            }
            Refusal::Uneven {
                part,
                length,
                expected,
            } => write!(
                f,
                "refused 3: the {part} take {length} bytes; expected {expected}, 4 for each instruction"
            ),
            Refusal::Instruction { at, word, limits } => {
                let Word { opcode, x, y } = word;
                let Some(instruction) = example(opcode) else {
                    return write!(
                        f,
                        "refused 4 at instruction {at}: there is no opcode {opcode}"
                    );
                };
                let name = instruction.name();
                let expected = Expected {
                    operand: instruction.operand(),
                    limits,
                };
                write!(
                    f,
                    "refused 4 at instruction {at} ({name}): x is {x} and y is {y}; expected {expected}"
                )
            }
        }
    }
}

impl Error for Refusal {}
