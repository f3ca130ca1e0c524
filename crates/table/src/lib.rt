// The code table: what a traffic office's compiler writes, and what the machine runs.
// `load` takes bytes and gives a table that borrows them, or the refusal (numbers 1 to 4); the readers give its parts.
// Instructions and refusals have a Display. It rests on the standard library alone, copies no byte and allocates nothing.
// specs/Loading.antt says what load answers, specs/Lawful.antt which bytes are a table, specs/Reading.antt what the readers answer.
// Its page is docs/code-table.md.
#![tactic(auto)]

pub mod demands;
mod fields;
mod header;
pub mod instructions;
mod layout;
pub mod loading;
pub mod names;
mod reading;
pub mod records;
pub mod refusals;
pub mod tables;
mod words;
