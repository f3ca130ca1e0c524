// Where control comes to, with which depth and in which node.
ghost use Rattle.std.specs.Prelude.{◌≡◌};
ghost use Rattle.rules.specs.Arrivals.{arrives, comes, is_depth, opens_at};
ghost use Rattle.table.specs.Tables.{parts};

use crate::reading::shape_for;
use crate::rule::{Rule, Way, Whose};
use crate::subjects::Subject;
use table::demands::demand;
use table::records::{NodeKind, Shape};
use table::tables::Table;

// No depth is below 0.
#[tactic(auto, using(std::proofs::lemmas::Int::ints), unfolding(crate::specs::Arrivals::is_depth))]
pub fn is_depth(found: u16, expected: i32) -> bool
    ensures { result ≡ is_depth found expected }
{
    found as i32 == expected
}

// Control comes to an instruction that exists, with this depth.
#[tactic(auto, unfolding(crate::specs::Arrivals::comes))]
pub fn comes(table: &Table<'_>, way: Way, to: usize, depth: i32) -> Result<(), Rule>
    ensures { result ≡ comes (parts table.now) way to depth }
{
    let instructions = table.instruction_count();
    demand(
        to < instructions,
        Rule::Exists {
            way,
            instructions,
            to,
        },
    )?;
    let shape = shape_for(table, to);
    demand(
        is_depth(shape.depth, depth),
        Rule::Depth {
            way,
            expected: depth,
            found: shape.depth,
        },
    )
}

// Control comes to an instruction that exists, with this depth and in this node.
#[tactic(auto, unfolding(crate::specs::Arrivals::arrives))]
pub fn arrives(table: &Table<'_>, way: Way, to: usize, depth: i32, node: u16) -> Result<(), Rule>
    ensures { result ≡ arrives (parts table.now) way to depth node }
{
    comes(table, way, to, depth)?;
    let shape = shape_for(table, to);
    demand(
        shape.node == node,
        Rule::Node {
            way,
            expected: node,
            found: shape.node,
        },
    )
}

// Control comes from the instruction before, with this depth, to a child node of this kind that is put up where the shape stands.
#[tactic(auto, unfolding(crate::specs::Arrivals::opens_at))]
pub fn opens_at(
    table: &Table<'_>,
    to: usize,
    shape: Shape,
    kind: NodeKind,
    depth: i32,
) -> Result<(), Rule>
    ensures { result ≡ opens_at (parts table.now) to shape kind depth }
{
    comes(table, Way::Next, to, depth)?;
    let child = Subject::at(table, to, Whose::Child);
    child.has_kind(kind)?;
    child.has_parent(shape.node)?;
    child.has_level(shape.depth)
}
