// A broken rule in words: what was found and what was expected.
ghost use Rattle.std.specs.Prelude.{◌≡◌, Some};
ghost use Rattle.rules.specs.Words.{rule_text, way_text, whose_text};

use crate::rule::{Rule, Way, Whose};
use std::error::Error;
use std::fmt;

impl fmt::Display for Way {
    ghost output = { λ w. Some (way_text w) };

    fn fmt<W: fmt::Write>(&self, f: &mut fmt::Formatter<W>) -> fmt::Result {
        f.write_str(self.text())
    }
}

impl fmt::Display for Whose {
    ghost output = { λ w. Some (whose_text w) };

    fn fmt<W: fmt::Write>(&self, f: &mut fmt::Formatter<W>) -> fmt::Result {
        f.write_str(self.text())
    }
}

impl Way {
    // What a rule calls the way: a text, which cannot fail. The Display writes it. So too in Whose.
    fn text(self) -> &'static str
        ensures { result.now ≡ way_text self }
    {
        match self {
            Way::Start => "it begins the table and",
            Way::Next => "the next instruction",
            Way::Target => "the target",
        }
    }
}

impl Whose {
    fn text(self) -> &'static str
        ensures { result.now ≡ whose_text self }
    {
        match self {
            Whose::Own => "its node",
            Whose::Child => "the next instruction's node",
            Whose::Handler => "the node at its handler",
        }
    }
}

impl fmt::Display for Rule {
    ghost output = { λ r. Some (rule_text r) };

    fn fmt<W: fmt::Write>(&self, f: &mut fmt::Formatter<W>) -> fmt::Result {
        match *self {
            Rule::KnownKind { found } => {
                let byte = u8::from(found);
                write!(f, "its kind is {byte}; expected 1 to 5")
            }
            Rule::EndListed { most, found } => {
                write!(f, "its end is {found}; expected at most {most}")
            }
            Rule::ParentBelow { number, found } => write!(
                f,
                "its parent is {found}; expected less than {number}, its own number"
            ),
            Rule::LevelFromParent { least, found } => write!(
                f,
                "its level is {found}; expected at least {least}, its parent's level"
            ),
            Rule::LevelWithinMaximum { most, found } => write!(
                f,
                "its level is {found}; expected at most {most}, the maximum depth"
            ),
            Rule::NodesToBottom => f.write_str(
                "its way to the bottom is longer than 32 nodes; expected at most 32",
            ),
            Rule::HandlerExists {
                instructions,
                found,
            } => write!(
                f,
                "its handler is {found}; expected less than {instructions}, the number of instructions"
            ),
            Rule::NoHandler { found } => write!(
                f,
                "its handler is {found}; expected 0, since its kind has none"
            ),
            Rule::HandlerDepth { expected, found } => write!(
                f,
                "its handler begins with depth {found}; expected {expected}"
            ),
            Rule::HandlerWithinMaximum { most, found } => write!(
                f,
                "its handler begins with depth {found}; expected at most {most}, the maximum depth"
            ),
            Rule::Kind {
                whose,
                expected,
                found,
            } => write!(f, "{whose} is {found}; expected {expected}"),
            Rule::End {
                whose,
                expected,
                found,
            } => write!(f, "{whose} has end {found}; expected {expected}"),
            Rule::Parent {
                whose,
                expected,
                found,
            } => write!(f, "{whose} has parent {found}; expected {expected}"),
            Rule::Level {
                whose,
                expected,
                found,
            } => write!(f, "{whose} has level {found}; expected {expected}"),
            Rule::Handler {
                whose,
                expected,
                found,
            } => write!(f, "{whose} has handler {found}; expected {expected}"),
            Rule::Decodes => {
                f.write_str("its word is no instruction; expected one that is listed")
            }
            Rule::NodeExists { nodes, found } => write!(
                f,
                "its node is {found}; expected at most {nodes}, the number of nodes"
            ),
            Rule::DepthFromLevel { least, found } => write!(
                f,
                "its depth is {found}; expected at least {least}, its node's level"
            ),
            Rule::DepthWithinMaximum { most, found } => write!(
                f,
                "its depth is {found}; expected at most {most}, the maximum depth"
            ),
            Rule::TakesAboveLevel {
                level,
                takes,
                found,
            } => write!(
                f,
                "its depth is {found}; expected at least {takes} above level {level}"
            ),
            Rule::ValuesNeeded { least, found } => write!(
                f,
                "its depth is {found}; expected at least {least}, the values that it needs"
            ),
            Rule::Exists {
                way,
                instructions,
                to,
            } => write!(
                f,
                "{way} would be instruction {to}; expected one below {instructions}"
            ),
            // what was expected can be below 0
            Rule::Depth {
                way,
                expected,
                found,
            } => write!(f, "{way} has depth {found}; expected {expected}"),
            Rule::Node {
                way,
                expected,
                found,
            } => write!(f, "{way} has node {found}; expected {expected}"),
            Rule::Removable { found } => write!(
                f,
                "its node is {found}; expected a Loop, a TryExcept or a Finally"
            ),
            Rule::AboveParent { least, found } => write!(
                f,
                "its node has level {found}; expected more than {least}, the parent's level"
            ),
            Rule::LoopStands => { f.write_str("the Loop around it is missing; expected one") }
        }
    }
}

impl Error for Rule {}
