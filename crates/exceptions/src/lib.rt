// Exceptions by number: the link of each to its context, the levels that hold those being handled, and linking.
// The traits' meaning is here too: the links of a host, and its answers to the questions still to come.
// No ring of links ever arises, a walk over them is shorter than there are exceptions, and each says so in a contract.
// It rests on the crate stacks, for the levels; the crate hosts builds the questions themselves and two hosts on it.
// Its page is docs/links-and-levels.md, and docs/hosts.md has the questions.
#![tactic(auto)]

pub mod levels;
pub mod linking;
pub mod links;
pub mod questions;
pub mod world;
