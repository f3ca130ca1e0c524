// The rules of a node.
ghost use Rattle.std.specs.Prelude.{◌≡◌};
ghost use Rattle.rules.specs.Reading.{node_for};
ghost use Rattle.table_check.specs.Nodes.{checking_node, except_handled, finally_handled, handled, handler_node, handling, known, listed, may_handle, most_end, placed};
ghost use Rattle.table.specs.Tables.{parts};

use rules::climbing::within;
use rules::reading::{node_for, shape_for};
use rules::rule::{Rule, Whose};
use rules::subjects::Subject;
use table::demands::demand;
use table::records::{Node, NodeKind};
use table::tables::Table;

fn known(kind: NodeKind) -> bool
    ensures { result ≡ known kind }
{
    !matches!(kind, NodeKind::Unknown(_))
}

// The highest end that a kind may have.
fn most_end(kind: NodeKind) -> u8
    ensures { result ≡ most_end kind }
{
    match kind {
        NodeKind::Finally | NodeKind::FinallyHandler => 1,
        _ => 0,
    }
}

fn may_handle(kind: NodeKind) -> bool
    ensures { result ≡ may_handle kind }
{
    matches!(kind, NodeKind::TryExcept | NodeKind::Finally)
}

// A node of a table: its number, and what it declares.
#[derive(Clone, Copy, Debug, PartialEq, Eq)]
struct Declared<'t> {
    table: &'t Table<'t>,
    number: usize,
    node: Node,
    // the node of this number
    ghost read: { node ≡ node_for (parts table.now) number },
}

impl<'t> Declared<'t> {
    fn new(table: &'t Table<'t>, number: usize) -> Declared<'t>
        ensures table { result.table.now ≡ table.now }
        ensures number { result.number ≡ number }
    {
        Declared {
            table,
            number,
            node: node_for(table, number),
        }
    }

    // Kind and end are as listed.
    #[tactic(auto, unfolding(crate::specs::Nodes::listed))]
    fn listed(&self) -> Result<(), Rule>
        ensures { result ≡ listed self.now.node }
    {
        let Node { kind, end, .. } = self.node;
        demand(known(kind), Rule::KnownKind { found: kind })?;
        let most = most_end(kind);
        demand(end <= most, Rule::EndListed { most, found: end })
    }

    // The parent has a lower number, the level lies from the parent's to the maximum, and the bottom is near enough.
    #[tactic(auto, unfolding(crate::specs::Nodes::placed))]
    fn placed(&self) -> Result<(), Rule>
        ensures { result ≡ placed (parts self.now.table.now) self.now.number self.now.node }
    {
        let number = self.number;
        let Node { parent, level, .. } = self.node;
        demand(
            (parent as usize) < number,
            Rule::ParentBelow {
                number,
                found: parent,
            },
        )?;
        let least = node_for(self.table, parent as usize).level;
        demand(
            least <= level,
            Rule::LevelFromParent {
                least,
                found: level,
            },
        )?;
        let most = self.table.maximum_depth();
        demand(
            level <= most,
            Rule::LevelWithinMaximum { most, found: level },
        )?;
        demand(within(self.table, number), Rule::NodesToBottom)
    }

    // The handler is an instruction, and none but a TryExcept and a Finally has one.
    #[tactic(auto, unfolding(crate::specs::Nodes::handling))]
    fn handling(&self) -> Result<(), Rule>
        ensures { result ≡ handling (parts self.now.table.now) self.now.node }
    {
        let Node { kind, handler, .. } = self.node;
        let instructions = self.table.instruction_count();
        demand(
            (handler as usize) < instructions,
            Rule::HandlerExists {
                instructions,
                found: handler,
            },
        )?;
        demand(
            may_handle(kind) || handler == 0,
            Rule::NoHandler { found: handler },
        )
    }

    // The node that stands where the handler begins.
    fn handler_node(&self) -> Subject
        ensures node { result.node ≡ handler_node (parts self.now.table.now) self.now.node }
        ensures whose { result.whose ≡ Whose.Handler }
    {
        Subject::at(self.table, self.node.handler as usize, Whose::Handler)
    }

    // The handler begins with this depth, in a node of this kind that has the parent and the level of the node itself.
    #[tactic(auto, unfolding(crate::specs::Nodes::handled))]
    fn handled(&self, depth: u32, kind: NodeKind) -> Result<(), Rule>
        ensures { result ≡ handled (parts self.now.table.now) self.now.node depth kind }
    {
        let found = shape_for(self.table, self.node.handler as usize).depth;
        demand(
            found as u32 == depth,
            Rule::HandlerDepth {
                expected: depth,
                found,
            },
        )?;
        let there = self.handler_node();
        there.has_kind(kind)?;
        there.has_parent(self.node.parent)?;
        there.has_level(self.node.level)
    }

    // A TryExcept's handler finds the exception's value above the level, in an ExceptHandler.
    #[tactic(auto, unfolding(crate::specs::Nodes::except_handled))]
    fn except_handled(&self) -> Result<(), Rule>
        ensures { result ≡ except_handled (parts self.now.table.now) self.now.node }
    {
        let depth = self.node.level as u32 + 1;
        let most = self.table.maximum_depth();
        demand(
            depth <= most as u32,
            Rule::HandlerWithinMaximum { most, found: depth },
        )?;
        self.handled(depth, NodeKind::ExceptHandler)
    }

    // A Finally's handler begins at the level, in a FinallyHandler of the same end.
    #[tactic(auto, unfolding(crate::specs::Nodes::finally_handled))]
    fn finally_handled(&self) -> Result<(), Rule>
        ensures { result ≡ finally_handled (parts self.now.table.now) self.now.node }
    {
        self.handled(self.node.level as u32, NodeKind::FinallyHandler)?;
        self.handler_node().has_end(self.node.end)
    }
}

// The first rule that a node breaks.
#[tactic(auto, unfolding(crate::specs::Nodes::checking_node))]
pub fn check_node(table: &Table<'_>, number: usize) -> Result<(), Rule>
    ensures { result ≡ checking_node (parts table.now) number }
{
    let declared = Declared::new(table, number);
    declared.listed()?;
    declared.placed()?;
    declared.handling()?;
    match declared.node.kind {
        NodeKind::TryExcept => declared.except_handled(),
        NodeKind::Finally => declared.finally_handled(),
        _ => Ok(()),
    }
}
