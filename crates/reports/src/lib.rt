// What is told of bytes: the table's listing with the check's verdict, or why load refuses them.
// `report_on` builds it, for any bytes, and its text is the value of a definition: specs/Reports.antt.
// It rests on the crates table, table_check, listing and check_words.
// Want of memory is the only way in which it fails.
// Its pages are docs/code-table.md and docs/check.md.
#![tactic(auto)]

pub mod reports;
