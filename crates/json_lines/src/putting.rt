//! The lines of a text, written as JSON.

ghost use Rattle.std.specs.Prelude.{◌≡◌, OnOk, IsErrOf};
ghost use Rattle.std.specs.Io.KnownBytes.{Appends};
ghost use Rattle.byte_streams.specs.OutsideSource.{Rose};
ghost use Rattle.byte_streams.specs.OutsideSink.{AppendsPart};
ghost use Rattle.json_lines.specs.Json.{json_of};

use crate::objects::json_of;
use byte_streams::{Sink, put_all};
use std::alloc::Global;

/// Why the JSON of a text wasn't written whole.
#[derive(Clone, Copy, Debug, PartialEq, Eq)]
pub enum JsonFault {
    /// Nothing was written.
    NoMemory,
    /// The sink failed, and a part was written.
    Sink,
}

/// Writes the lines of a text, each as one JSON object in a line of its own.
pub fn put_as_json<K: Sink>(alloc: Global, text: &[u8], sink: &mut K) -> Result<(), JsonFault>
    ensures put { OnOk result (Appends (K.held sink.old) (K.held sink.new) (json_of text.now)) }
    ensures part { IsErrOf result JsonFault.Sink →
        AppendsPart (K.held sink.old) (K.held sink.new) (json_of text.now) }
    ensures failed { IsErrOf result JsonFault.Sink → Rose (K.faults sink.old) (K.faults sink.new) }
    ensures no_memory { IsErrOf result JsonFault.NoMemory → sink.new ≡ sink.old }
{
    let Ok(json) = json_of(alloc, text) else {
        return Err(JsonFault::NoMemory);
    };
    match put_all(sink, &json) {
        Ok(()) => Ok(()),
        Err(_) => Err(JsonFault::Sink),
    }
}
