// What the check refuses, in words that a person reads: number, place, what was found and what was expected.
// `explain` gives the text: it names the instruction, so it wants the table; the broken rule's own words are the Display of rules.
// It rests on the crates table, rules and table_check, and every text is the value of a definition in specs/Words.antt.
// Want of memory is the only way in which its functions fail.
// Its page is docs/check.md.
#![tactic(auto)]

pub mod words;
