//! The ledger and the node of `nitro`, for a program in C that calls them in its own process. `library/nitro.c` is the only
//! caller: it has the table of handles, tests what it is given, and does what is done with the state file.
//!
//! A handle is a slot in the caller's memory, which points to a core that this crate owns: a machine, and the answer that the
//! caller hasn't been given. `take` takes a line of the service, and gives the row that its file gets. Once that is on the
//! disk, `give` gives the answer. The bytes are those that the service writes.
#![tactic(auto)]

mod cores;
mod ends;
mod heads;
mod ledger;
mod loose;
mod node;
mod opened;
mod slots;
mod status;
