// Cases at the edges of the two hosts, and of linking over them: what each answers there, run.
// A tape that ends inside a question, kinds above 2, exceptions past the limit, stops with and without a value.
// Devices whose charge falls, for each question that uses one, and links that are made, cut and left alone.
// A third host, the echo, which rests on a byte being below 256, and linking up to its last exception.
// It rests on the crates exceptions and hosts.
// Their pages are docs/hosts.md and docs/links-and-levels.md.
#![tactic(auto)]

// Not for the tests alone: that such a host proves, and edits of it do not, is a case too.
mod echo;
#[cfg(test)]
mod linking;
#[cfg(test)]
mod rack;
#[cfg(test)]
mod tape;
