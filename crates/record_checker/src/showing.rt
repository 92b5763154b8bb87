//! From arguments and a source to a status, and the text that was written.

ghost use Rattle.std.specs.Prelude.{◌≡◌, true, IfOk};
ghost use Rattle.record_checker.specs.Answering.{Given, IsReadTo, given};
ghost use Rattle.record_checker.specs.Running.{sunk};
ghost use Rattle.record_checker.specs.Showing.{EndsAs, IsShowing, asks};

use crate::running::bytes_of;
use crate::shown_text::record_text;
use crate::status::Status;
use crate::verdict_lines::fault_line;
use byte_streams::{ReadEnd, Sink, Source, put_all, read_all};
use channel_values::{ByteFault, Label, NoMemory};
use record_reader::read_record;
use std::alloc::Global;

/// How a showing ends, and the text that it owes.
#[derive(Drop)]
struct Ended {
    status: Status,
    text: Vec<u8>,
}

/// The end of a showing of these bytes.
#[tactic(auto, using(crate::proofs::ShowEnds::shown_end, crate::proofs::ShowEnds::unspelled_end))]
fn end_of_bytes(alloc: Global, bytes: &[u8]) -> Result<Ended, NoMemory>
    ensures { (g : Given) → asks g.words ≡ true → IsReadTo g bytes.now
        → IfOk result (λ ended. EndsAs g ended.status ended.text.items) }
{
    match read_record(alloc, bytes) {
        Ok(value) => {
            let text = record_text(alloc, &value)?;
            Ok(Ended {
                status: Status::Done,
                text: text.into_bytes(),
            })
        }
        Err(ByteFault::NoMemory) => Err(NoMemory),
        Err(fault) => {
            let line = fault_line(alloc, fault)?;
            Ok(Ended {
                status: Status::Unspelled(fault),
                text: line.into_bytes(),
            })
        }
    }
}

/// Whether the words are the one word.
fn asks(words: &[Label]) -> bool
    ensures { result ≡ asks words.now }
{
    match words {
        [word] => word.as_str() == "show",
        _ => false,
    }
}

/// The end of a showing by the words and the source.
#[tactic(auto, using(byte_streams::proofs::Known::keeps_all))]
fn work<S: Source>(alloc: Global, words: &[Label], source: &mut S) -> Result<Ended, NoMemory>
    ensures { IfOk result (λ ended.
        EndsAs (given S.remaining S.faults words.now source.old source.new) ended.status ended.text.items) }
{
    if !asks(words) {
        return Ok(Ended {
            status: Status::Usage,
            text: bytes_of(alloc, "usage\n")?,
        });
    }
    match read_all(alloc, source) {
        Ok(bytes) => end_of_bytes(alloc, &bytes),
        Err(ReadEnd::NoMemory) => Err(NoMemory),
        Err(ReadEnd::Failed) => Ok(Ended {
            status: Status::ReadFault,
            text: bytes_of(alloc, "read fault\n")?,
        }),
        Err(ReadEnd::TooLong) => Ok(Ended {
            status: Status::TooLong,
            text: bytes_of(alloc, "too long\n")?,
        }),
    }
}

/// Reads a record, and writes its entries, sums and endings as text, whether they are sound or not.
#[tactic(auto, using(crate::proofs::ShowCompletes::completes))]
pub fn run_show<S: Source, K: Sink>(
    alloc: Global,
    words: &[Label],
    source: &mut S,
    sink: &mut K,
) -> Status
    ensures { IsShowing (given S.remaining S.faults words.now source.old source.new)
        (sunk K.held K.faults sink.old sink.new) result }
{
    let Ok(ended) = work(alloc, words, source) else {
        return Status::NoMemory;
    };
    match put_all(sink, &ended.text) {
        Ok(()) => ended.status,
        Err(_) => Status::WriteFault,
    }
}
