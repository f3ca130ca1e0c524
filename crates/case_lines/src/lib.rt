// What the programs of cases share: bytes written as hexadecimal digits, and an answer to each line that is read.
// It rests on nothing but the standard library; what its calls promise is in specs/Hex.antt and specs/Lines.antt.
#![tactic(auto)]

pub mod bytes;
pub mod lines;
#[cfg(test)]
mod tests;
