// A table as lines of text: the header, the names of the columns, and a line for each instruction.
ghost use Rattle.std.specs.Prelude.{◌≡◌, IfOk, string_bytes};
ghost use Rattle.listing.specs.Lines.{head_text, line_at, listing_text};
ghost use Rattle.table.specs.Tables.{parts};

use std::alloc::{AllocError, Global};
use table::records::Shape;
use table::tables::Table;

fn head(heap: Global, table: &Table) -> Result<String, AllocError>
    ensures { IfOk result (λ s. string_bytes s ≡ head_text (parts table.now)) }
{
    let maximum = table.maximum_depth();
    let locals = table.locals();
    let instructions = table.instruction_count();
    let nodes = table.node_count();
    let constants = table.constant_count();
    format!(in heap;
        "maximum depth {maximum}, locals {locals}\n\
         instructions {instructions}, nodes {nodes}, constants {constants}\n\
         index        row  instruction                      depth  node\n"
    )
}

// The line of an instruction; no line where one of its three records is missing.
#[tactic(auto, using(crate::proofs::Columns::number_column, crate::proofs::Columns::instruction_column))]
fn line(heap: Global, table: &Table, i: usize) -> Result<String, AllocError>
    ensures { IfOk result (λ s. string_bytes s ≡ line_at (parts table.now) i) }
{
    let (Some(row), Some(instruction), Some(shape)) = (
        table.row(i),
        table.instruction(i),
        table.shape(i),
    ) else {
        return Ok(String::new(heap));
    };
    let Shape { depth, node } = shape;
    let code = instruction.to_string(heap)?;
    format!(in heap; "{i:>5}{row:>11}  {code:<31}{depth:>7}{node:>6}\n")
}

// The whole listing of a table.
// Kept: a function, and no Display: a line pads an instruction's name and operand as one text, which is made on the heap, and a Display is
// given none.
#[tactic(auto, using(crate::proofs::Listing::lines_none))]
pub fn list(heap: Global, table: &Table) -> Result<String, AllocError>
    ensures { IfOk result (λ s. string_bytes s ≡ listing_text (parts table.now)) }
{
    let mut text = head(heap, table)?;
    for i in 0..table.instruction_count() {
        text.push_str(&line(heap, table, i)?)?;
    }
    Ok(text)
}
