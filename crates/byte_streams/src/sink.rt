//! Where the text goes.

ghost use Rattle.std.specs.Prelude.{◌≡◌, ◌≤◌, ℕ, List, Option, OnOk, OnErr};
ghost use Rattle.std.specs.Io.KnownBytes.{Appends};
ghost use Rattle.byte_streams.specs.OutsideSource.{Rose};
ghost use Rattle.byte_streams.specs.OutsideSink.{PutGives, AppendsPart};

use std::error::Error;
use std::fmt;

/// What a sink answers.
#[derive(Clone, Copy, Debug, PartialEq, Eq)]
pub enum Gave {
    Took(usize),
    Failed,
}

/// Where bytes go.
pub trait Sink {
    /// The bytes that were written, where the sink shows them.
    ghost held: { Self → Option (List ℕ) };

    /// How often it has failed.
    ghost faults: { Self → ℕ };

    fn put(&mut self, piece: &[u8]) -> Gave
        ensures gives { PutGives (held self.old) (held self.new) piece.now result }
        ensures later { faults self.old ≤ faults self.new }
        ensures failed { result ≡ Gave.Failed → Rose (faults self.old) (faults self.new) };
}

/// The sink failed.
#[derive(Clone, Copy, Debug, PartialEq, Eq)]
pub struct SinkFailed;

impl fmt::Display for SinkFailed {
    ghost use Rattle.std.specs.Prelude.{Some, codes};

    ghost output = { λ _. Some (codes "the sink failed") };

    fn fmt<W: fmt::Write>(&self, f: &mut fmt::Formatter<W>) -> fmt::Result {
        write!(f, "the sink failed")
    }
}

impl Error for SinkFailed {}

/// Writes the text piece by piece.
pub fn put_all<K: Sink>(sink: &mut K, text: &[u8]) -> Result<(), SinkFailed>
    ensures ok { OnOk result (Appends (K.held sink.old) (K.held sink.new) text.now) }
    ensures part { OnErr result (AppendsPart (K.held sink.old) (K.held sink.new) text.now) }
    ensures failed { OnErr result (Rose (K.faults sink.old) (K.faults sink.new)) }
    ensures later { K.faults sink.old ≤ K.faults sink.new }
{
    let mut rest = text;
    while !rest.is_empty() {
        match sink.put(rest) {
            Gave::Took(count) => {
                let (_, others) = rest.split_at(count);
                rest = others;
            }
            Gave::Failed => return Err(SinkFailed),
        }
    }
    Ok(())
}
