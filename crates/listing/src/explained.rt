// A refusal in words: its number, its place, what was found and what was expected.
ghost use Rattle.std.specs.Prelude.{◌≡◌, IfOk, string_bytes};
ghost use Rattle.table.specs.Words.{explanation};

use std::alloc::{AllocError, Global};
use table::refusals::Refusal;

pub fn explain(heap: Global, refusal: Refusal) -> Result<String, AllocError>
    ensures { IfOk result (λ s. string_bytes s ≡ explanation refusal) }
{
    refusal.to_string(heap)
}
