// Hosts: the trait of what the machine asks of the world outside it, and two implementations of it.
// A host answers each question as its meaning says, then means the rest, and no question moves a link.
// The tape answers from bytes that are lent to it, and the rack from the charges of eight devices.
// It rests on the crate exceptions, which has the questions, the links and the meaning of a host.
// Its page is docs/hosts.md.
#![tactic(auto)]

pub mod host;
pub mod rack;
pub mod tape;
