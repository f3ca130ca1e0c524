ghost use Rattle.std.specs.Prelude.{◌≡◌, IfOk};
ghost use Rattle.reports.specs.Reports.{judging, reporting, told};
ghost use Rattle.table.specs.Tables.{parts};

use check_words::words;
use listing::lines::list;
use std::alloc::{AllocError, Global};
use table::loading::load;
use table::tables::Table;
use table_check::checking::check;

#[derive(Drop)]
pub enum Report {
    // a table that keeps the rules
    Passed { listing: String },
    // a table that breaks one, and the words for that
    Broken { listing: String, words: String },
    // no table, and the words for that
    Refused { words: String },
}

fn judge(heap: Global, table: &Table<'_>) -> Result<Report, AllocError>
    ensures { IfOk result (λ p. told p ≡ judging (parts table.now)) }
{
    let listing = list(heap, table)?;
    match check(table) {
        Ok(()) => Ok(Report::Passed { listing }),
        Err(broken) => {
            let words = words::explain(heap, table, broken)?;
            Ok(Report::Broken { listing, words })
        }
    }
}

pub fn report_on(heap: Global, bytes: &[u8]) -> Result<Report, AllocError>
    ensures { IfOk result (λ p. told p ≡ reporting bytes.now) }
{
    match load(bytes) {
        Ok(table) => judge(heap, &table),
        Err(refusal) => {
            let words = refusal.to_string(heap)?;
            Ok(Report::Refused { words })
        }
    }
}
