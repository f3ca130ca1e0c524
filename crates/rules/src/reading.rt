// Nodes and shapes by number: node 0 stands for no block, and what the table lacks is read as zeros.
ghost use Rattle.std.specs.Prelude.{◌≡◌};
ghost use Rattle.rules.specs.Reading.{node_for, shape_for};
ghost use Rattle.table.specs.Tables.{parts};

use table::records::{Node, NodeKind, Shape};
use table::tables::Table;

const NO_BLOCK: Node = Node {
    kind: NodeKind::Unknown(0),
    end: 0,
    parent: 0,
    level: 0,
    handler: 0,
};

#[tactic(auto, unfolding(crate::specs::Reading::node_for))]
pub fn node_for(table: &Table<'_>, number: usize) -> Node
    ensures { result ≡ node_for (parts table.now) number }
{
    table.node(number).unwrap_or(NO_BLOCK)
}

#[tactic(auto, unfolding(crate::specs::Reading::shape_for))]
pub fn shape_for(table: &Table<'_>, at: usize) -> Shape
    ensures { result ≡ shape_for (parts table.now) at }
{
    table.shape(at).unwrap_or(Shape { depth: 0, node: 0 })
}
