// From a node to its parent, and so on to the bottom: at most 32 nodes.
ghost use Rattle.std.specs.Prelude.{◌≡◌, pos};
ghost use Rattle.rules.specs.Climbing.{arriving, leaving, nearest_loop, within};
ghost use Rattle.table.specs.Tables.{parts};

use crate::reading::node_for;
use table::records::{Node, NodeKind};
use table::tables::Table;

// The most nodes from a block to the bottom.
const MOST_NODES: u8 = 32;

// Where a climb comes out: the nearest Loop, if there is one, and the depth at which it is reached.
#[derive(Clone, Copy, Debug, PartialEq, Eq)]
pub struct Landing {
    pub node: Option<u16>,
    pub depth: i32,
}

// Whether at most 32 nodes lead to the bottom, the node itself counted.
// Kept: two walks to the parents, each a `for` that answers early: one looks for the bottom, the other for a Loop, with a depth to carry.
#[tactic(auto, using(crate::proofs::Climbs::bottom_steps))]
pub fn within(table: &Table<'_>, number: usize) -> bool
    ensures { result ≡ within (parts table.now) 32 number }
{
    let mut at = number;
    for _step in 0..MOST_NODES {
        if at == 0 {
            return true;
        }
        at = node_for(table, at).parent as usize;
    }
    at == 0
}

// The depth that is left when a node's block is removed: a with statement's clean-up takes one value more.
#[tactic(auto, unfolding(crate::specs::Climbing::leaving))]
fn leaving(node: Node) -> i32
    ensures { result ≡ leaving node }
{
    match node.kind {
        NodeKind::Finally => node.level as i32 - node.end as i32,
        _ => node.level as i32,
    }
}

// From a node to the nearest Loop, as a break or a continue goes.
#[tactic(auto, using(crate::proofs::Climbs::loop_steps), unfolding(crate::specs::Reading::same_kind))]
pub fn climb(table: &Table<'_>, node: u16, depth: u16) -> Landing
    ensures found { result.node ≡ nearest_loop (parts table.now) node }
    ensures reached { result.depth ≡ arriving (parts table.now) 32 node (pos depth) }
{
    let mut at = node;
    let mut deep = depth as i32;
    for _step in 0..MOST_NODES {
        let here = node_for(table, at as usize);
        if matches!(here.kind, NodeKind::Loop) {
            return Landing {
                node: Some(at),
                depth: deep,
            };
        }
        deep = leaving(here);
        at = here.parent;
    }
    Landing {
        node: None,
        depth: deep,
    }
}
