// The rules that a table's nodes and shapes have to keep, and what the check of them is made of.
// Each rule has a name and carries what was expected and found; the functions read nodes and shapes, climb from node to node,
// say what each instruction takes and gives, and try where control comes to. They rest on the crate table and allocate nothing.
// specs/NodeRules.antt and specs/ShapeRules.antt are the rules themselves, one definition for each.
// Its page is docs/check.md.
#![tactic(auto)]

pub mod arrivals;
pub mod climbing;
pub mod effects;
pub mod reading;
pub mod rule;
pub mod subjects;
mod words;
