// A code table, and the refusal of one, as text that a person reads.
// `list` gives the header and a line for each instruction, `explain` a refusal in words, which is what table displays of it.
// It rests on the crate table, and every text is the value of a definition: specs/Lines.antt, and table's specs/Words.antt.
// Want of memory is the only way in which its functions fail.
// Its page is docs/code-table.md.
#![tactic(auto)]

pub mod explained;
pub mod lines;
