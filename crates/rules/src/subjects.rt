// A node as a rule speaks of it: with whose it is, and a test for each of its parts.
ghost use Rattle.std.specs.Prelude.{◌≡◌};
ghost use Rattle.rules.specs.Reading.{standing};
ghost use Rattle.rules.specs.Subjects.{has_end, has_handler, has_kind, has_level, has_parent};
ghost use Rattle.table.specs.Tables.{parts};

use crate::reading::{node_for, shape_for};
use crate::rule::{Rule, Whose};
use table::demands::demand;
use table::records::{Node, NodeKind};
use table::tables::Table;

#[derive(Clone, Copy, Debug, PartialEq, Eq)]
pub struct Subject {
    pub whose: Whose,
    pub node: Node,
}

// Kept: five tests of one shape, since each reads another part and names a rule that is a case of its own, with that part's numbers.
impl Subject {
    // The node that stands before an instruction.
    pub fn at(table: &Table<'_>, at: usize, whose: Whose) -> Subject
        ensures node { result.node ≡ standing (parts table.now) at }
        ensures whose { result.whose ≡ whose }
    {
        let shape = shape_for(table, at);
        Subject {
            whose,
            node: node_for(table, shape.node as usize),
        }
    }

    #[tactic(auto, unfolding(crate::specs::Reading::same_kind))]
    pub fn has_kind(self, expected: NodeKind) -> Result<(), Rule>
        ensures { result ≡ has_kind self.whose self.node expected }
    {
        let whose = self.whose;
        let found = self.node.kind;
        demand(
            found == expected,
            Rule::Kind {
                whose,
                expected,
                found,
            },
        )
    }

    pub fn has_end(self, expected: u8) -> Result<(), Rule>
        ensures { result ≡ has_end self.whose self.node expected }
    {
        let whose = self.whose;
        let found = self.node.end;
        demand(
            found == expected,
            Rule::End {
                whose,
                expected,
                found,
            },
        )
    }

    pub fn has_parent(self, expected: u16) -> Result<(), Rule>
        ensures { result ≡ has_parent self.whose self.node expected }
    {
        let whose = self.whose;
        let found = self.node.parent;
        demand(
            found == expected,
            Rule::Parent {
                whose,
                expected,
                found,
            },
        )
    }

    pub fn has_level(self, expected: u16) -> Result<(), Rule>
        ensures { result ≡ has_level self.whose self.node expected }
    {
        let whose = self.whose;
        let found = self.node.level;
        demand(
            found == expected,
            Rule::Level {
                whose,
                expected,
                found,
            },
        )
    }

    pub fn has_handler(self, expected: u16) -> Result<(), Rule>
        ensures { result ≡ has_handler self.whose self.node expected }
    {
        let whose = self.whose;
        let found = self.node.handler;
        demand(
            found == expected,
            Rule::Handler {
                whose,
                expected,
                found,
            },
        )
    }
}
