// The check: which tables keep the rules, and so may run.
// `check` reads a table once, before anything runs: it passes it, or names the first node (10) or instruction (11) that breaks a rule.
// It rests on the crates table and rules, reads the table in place and allocates nothing.
// specs/Passed.antt says what its answer means, specs/Nodes.antt and specs/Shapes.antt the order of the tests.
// Its page is docs/check.md.
#![tactic(auto)]

pub mod broken;
pub mod checking;
mod nodes;
mod shapes;
mod sites;
