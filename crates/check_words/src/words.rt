ghost use Rattle.std.specs.Prelude.{◌≡◌, IfOk, string_bytes};
ghost use Rattle.check_words.specs.Words.{explanation};
ghost use Rattle.table.specs.Tables.{parts};

use std::alloc::{AllocError, Global};
use table::tables::Table;
use table_check::broken::Broken;

// Kept: a function, and no Display: the words name the instruction, which the table has and the refusal does not.
// A refusal of the check: number, place, the instruction's name where it has one, and the rule.
pub fn explain(heap: Global, table: &Table<'_>, broken: Broken) -> Result<String, AllocError>
    ensures { IfOk result (λ s. string_bytes s ≡ explanation (parts table.now) broken) }
{
    match broken {
        Broken::Node { number, rule } => format!(in heap; "refused 10 at node {number}: {rule}"),
        Broken::Instruction { at, rule } => match table.instruction(at) {
            None => format!(in heap; "refused 11 at instruction {at}: {rule}"),
            Some(instruction) => {
                let name = instruction.name();
                format!(in heap; "refused 11 at instruction {at} ({name}): {rule}")
            }
        },
    }
}
