//! Bytes from outside and bytes that are put there.
#![tactic(auto)]

mod read_memory;
mod sink;
mod source;
mod standard_input;
mod standard_output;
mod written_memory;

pub use read_memory::{CalmSource, ListSource};
pub use sink::{Gave, Sink, SinkFailed, put_all};
pub use source::{READ_LIMIT, ReadEnd, Source, Took, read_all};
pub use standard_input::StdSource;
pub use standard_output::StdSink;
pub use written_memory::{CalmSink, ListSink};
