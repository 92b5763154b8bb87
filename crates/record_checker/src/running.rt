//! From arguments and a source to a status, and the text that was written.

ghost use Rattle.std.specs.Prelude.{◌≡◌, ℕ, List, true, Ok, IfOk};
ghost use Rattle.run_record.specs.Reading.{record_of};
ghost use Rattle.record_checker.specs.Answering.{Given, IsReadTo, asks, given, EndsAs};
ghost use Rattle.record_checker.specs.Running.{IsRun, sunk};

use crate::answering::Answering;
use crate::checking::{Verdict, check_record};
use crate::status::Status;
use crate::verdict_lines::{fault_line, verdict_line};
use byte_streams::{ReadEnd, Sink, Source, put_all, read_all};
use channel_values::{ByteFault, Label, NoMemory};
use record_reader::read_record;
use run_record::Record;
use std::alloc::Global;

/// How a run ends, and the text that it owes.
#[derive(Drop)]
struct Ended {
    status: Status,
    text: Vec<u8>,
}

/// The bytes of a line that is written as it is.
pub(crate) fn bytes_of(alloc: Global, line: &str) -> Result<Vec<u8>, NoMemory>
    ensures { IfOk result (λ bytes. bytes.items ≡ line.now) }
{
    let line = String::from_str(alloc, line)?;
    Ok(line.into_bytes())
}

/// The end of a run on the record that some bytes spell.
#[tactic(auto, using(crate::proofs::Ending::sound_end, crate::proofs::Ending::unsound_end))]
fn end_of_record<A: Answering>(
    alloc: Global,
    answering: &A,
    value: &Record,
) -> Result<Ended, NoMemory>
    requires { A.ready answering.now }
    ensures { (given : Given) (bytes : List ℕ) → asks A.asked given.words ≡ true → IsReadTo given bytes
        → record_of bytes ≡ Ok value.now
        → IfOk result (λ ended. EndsAs A.asked given ended.status ended.text.items) }
{
    match check_record(alloc, value)? {
        Verdict::Sound => Ok(Ended {
            status: Status::Done,
            text: answering.answer(alloc, value)?,
        }),
        verdict => {
            let line = verdict_line(alloc, verdict)?;
            Ok(Ended {
                status: Status::Unsound(verdict),
                text: line.into_bytes(),
            })
        }
    }
}

/// The end of a run on these bytes.
#[tactic(auto, using(crate::proofs::Ending::unspelled_end))]
fn end_of_bytes<A: Answering>(alloc: Global, answering: &A, bytes: &[u8]) -> Result<Ended, NoMemory>
    requires { A.ready answering.now }
    ensures { (given : Given) → asks A.asked given.words ≡ true → IsReadTo given bytes.now
        → IfOk result (λ ended. EndsAs A.asked given ended.status ended.text.items) }
{
    match read_record(alloc, bytes) {
        Ok(value) => end_of_record(alloc, answering, &value),
        Err(ByteFault::NoMemory) => Err(NoMemory),
        Err(fault) => {
            let line = fault_line(alloc, fault)?;
            Ok(Ended {
                status: Status::Unspelled(fault),
                text: line.into_bytes(),
            })
        }
    }
}

/// Whether the words are the program's one word.
fn asks<A: Answering>(answering: &A, words: &[Label]) -> bool
    ensures { result ≡ asks A.asked words.now }
{
    match words {
        [word] => word.as_str() == answering.word(),
        _ => false,
    }
}

/// The end of a run on the words and the source.
#[tactic(auto, using(byte_streams::proofs::Known::keeps_all))]
fn work<A: Answering, S: Source>(
    alloc: Global,
    answering: &A,
    words: &[Label],
    source: &mut S,
) -> Result<Ended, NoMemory>
    requires { A.ready answering.now }
    ensures { IfOk result (λ ended.
        EndsAs A.asked (given S.remaining S.faults words.now source.old source.new) ended.status ended.text.items) }
{
    if !asks(answering, words) {
        return Ok(Ended {
            status: Status::Usage,
            text: bytes_of(alloc, "usage\n")?,
        });
    }
    match read_all(alloc, source) {
        Ok(bytes) => end_of_bytes(alloc, answering, &bytes),
        Err(ReadEnd::NoMemory) => Err(NoMemory),
        Err(ReadEnd::Failed) => Ok(Ended {
            status: Status::ReadFault,
            text: bytes_of(alloc, "read fault\n")?,
        }),
        Err(ReadEnd::TooLong) => Ok(Ended {
            status: Status::TooLong,
            text: bytes_of(alloc, "too long\n")?,
        }),
    }
}

/// Does all that such a program does: reads a record, checks it, and writes the answer, or one line on what is wrong.
#[tactic(auto, using(crate::proofs::Completes::completes))]
pub fn run_on_record<A: Answering, S: Source, K: Sink>(
    alloc: Global,
    answering: &A,
    words: &[Label],
    source: &mut S,
    sink: &mut K,
) -> Status
    requires { A.ready answering.now }
    ensures { IsRun A.asked (given S.remaining S.faults words.now source.old source.new)
        (sunk K.held K.faults sink.old sink.new) result }
{
    let Ok(ended) = work(alloc, answering, words, source) else {
        return Status::NoMemory;
    };
    match put_all(sink, &ended.text) {
        Ok(()) => ended.status,
        Err(_) => Status::WriteFault,
    }
}
