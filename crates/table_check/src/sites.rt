// An instruction of a table in its place: with its shape, and the node that it stands in.
ghost use Rattle.std.specs.Prelude.{◌≡◌, ◌+◌, ◌<◌, ◌^◌, Some};
ghost use Rattle.rules.specs.Reading.{shape_for, standing};
ghost use Rattle.rules.specs.declared.rule.Whose.TheVariants.{Own};
ghost use Rattle.table.specs.Reading.{instruction_at};
ghost use Rattle.table.specs.Tables.{parts};

use rules::effects::depth_after;
use rules::reading::shape_for;
use rules::rule::Whose;
use rules::subjects::Subject;
use table::instructions::Instruction;
use table::records::Shape;
use table::tables::Table;

#[derive(Clone, Copy, Debug, PartialEq, Eq)]
pub struct Site<'t> {
    pub table: &'t Table<'t>,
    pub at: usize,
    pub op: Instruction,
    pub shape: Shape,
    pub own: Subject,
    // the instruction at this place
    ghost decodes: { instruction_at (parts table.now) at ≡ Some op },
    // what stands before it
    ghost shaped: { shape ≡ shape_for (parts table.now) at },
    // the topmost block there
    ghost owned: { own ≡ record { whose = Own; node = standing (parts table.now) at } },
    // the next place is a number of the machine
    ghost followed: { at + 1 < 2 ^ 64 },
}

impl<'t> Site<'t> {
    ghost use Rattle.std.specs.Prelude.{MatchOption, None};
    ghost use Rattle.rules.specs.Arrivals.{child};
    ghost use Rattle.rules.specs.Effects.{depth_after};

    // None past the end, and where the word is no instruction.
    #[tactic(auto, unfolding(table::specs::Reading::instruction_at))]
    pub fn new(table: &'t Table<'t>, at: usize) -> Option<Site<'t>>
        ensures { MatchOption result (instruction_at (parts table.now) at ≡ None) (λ s. (s.table.now ≡ table.now) × (s.at ≡ at)) }
    {
        let op = table.instruction(at)?;
        Some(Site {
            table,
            at,
            op,
            shape: shape_for(table, at),
            own: Subject::at(table, at, Whose::Own),
        })
    }

    // The depth with which the next instruction is reached.
    pub fn depth_after(&self) -> i32
        ensures { result ≡ depth_after self.now.shape.depth self.now.op }
    {
        depth_after(self.shape.depth, self.op)
    }

    // The node in which the next instruction stands.
    pub fn child(&self) -> Subject
        ensures node { result.node ≡ child (parts self.now.table.now) self.now.at }
        ensures whose { result.whose ≡ Whose.Child }
    {
        Subject::at(self.table, self.at + 1, Whose::Child)
    }
}
