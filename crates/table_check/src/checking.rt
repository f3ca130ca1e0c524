// All nodes, then all instructions, each from the first on: the first that breaks a rule is refused.
ghost use Rattle.std.specs.Prelude.{◌≡◌};
ghost use Rattle.table_check.specs.Checking.{all_instructions, all_nodes, checking, instruction_kept, node_kept};
ghost use Rattle.table_check.specs.Passed.{Checked};
ghost use Rattle.table.specs.Tables.{parts};

use crate::broken::Broken;
use crate::nodes::check_node;
use crate::shapes::check_instruction;
use table::tables::Table;

#[tactic(auto, using(crate::proofs::Turns::turns), unfolding(crate::specs::Checking::all_nodes, crate::specs::Checking::node_kept))]
fn all_nodes(table: &Table<'_>) -> Result<(), Broken>
    ensures { result ≡ all_nodes (parts table.now) }
{
    for number in 1..=table.node_count() {
        check_node(table, number).map_err(|rule| Broken::Node { number, rule })?;
    }
    Ok(())
}

#[tactic(auto, using(crate::proofs::Turns::turns), unfolding(crate::specs::Checking::all_instructions, crate::specs::Checking::instruction_kept))]
fn all_instructions(table: &Table<'_>) -> Result<(), Broken>
    ensures { result ≡ all_instructions (parts table.now) }
{
    for at in 0..table.instruction_count() {
        check_instruction(table, at).map_err(|rule| Broken::Instruction { at, rule })?;
    }
    Ok(())
}

#[tactic(auto, using(crate::proofs::Law::checked), unfolding(crate::specs::Checking::checking))]
pub fn check(table: &Table<'_>) -> Result<(), Broken>
    ensures value { result ≡ checking (parts table.now) }
    ensures law { Checked (parts table.now) result }
{
    all_nodes(table)?;
    all_instructions(table)
}
