//! From arguments and a source to a status and the picture that was written.

ghost use Rattle.std.specs.Prelude.{◌≡◌, ℕ, List, true, IfOk, IfErr, IsOk};
ghost use Rattle.std.specs.Io.KnownBytes.{Keeps, Appends};
ghost use Rattle.byte_streams.specs.OutsideSink.{AppendsPart};
ghost use Rattle.byte_streams.specs.OutsideSource.{Rose};
ghost use Rattle.picture.specs.declared.drawing.Status.{Status};
ghost use Rattle.run_text.specs.Lines.{line_feeds, IsInLines};
ghost use Rattle.channel_values.specs.Reading.{Fails};
ghost use Rattle.run_record.specs.Reading.{record_of};
ghost use Rattle.picture.specs.Drawing.{told, asks, is_record, code_of, AreDrawn, HasFault, EndsAs, puts_nothing};

use byte_streams::{ReadEnd, Sink, Source, put_all, read_all};
use channel_values::{ByteFault, Dest, Label};
use record_reader::read_record;
use record_run::{run_of, told_of};
use run_picture::picture_of;
use run_text::{LineFault, Unread, read_run};
use std::alloc::Global;

/// How a drawing ended, numbered as the ends of runs are.
#[derive(Clone, Copy, Debug, PartialEq, Eq)]
pub enum Status {
    Done,
    NoMemory,
    Usage,
    /// The text is none of a run.
    Unread(LineFault),
    /// The bytes are no record.
    Unspelled(ByteFault),
    ReadFault,
    WriteFault,
    TooLong,
}

/// Why bytes aren't drawn.
#[derive(Clone, Copy, Debug, PartialEq, Eq)]
pub enum Undrawn {
    NoMemory,
    /// Faults of a text.
    Line(LineFault),
    /// Faults of a record.
    Byte(ByteFault),
}

impl Status {
    /// The status number that the program ends with.
    pub fn code(self) -> u8
        ensures { result ≡ code_of self }
    {
        match self {
            Status::Done => 0,
            Status::NoMemory => 1,
            Status::Usage => 2,
            Status::Unread(_) | Status::Unspelled(_) => 3,
            Status::ReadFault => 4,
            Status::WriteFault => 5,
            Status::TooLong => 6,
        }
    }
}

/// Whether the words ask for a picture.
fn asks(words: &[Label]) -> bool
    ensures { result ≡ asks words.now }
{
    match words {
        [word] => word.as_str() == "picture",
        _ => false,
    }
}

/// The picture of a text.
fn picture_of_text(alloc: Global, text: &[u8]) -> Result<Vec<u8>, Unread>
    ensures { IfErr result (IsInLines (line_feeds text.now)) }
{
    let run = read_run(alloc, text)?;
    match picture_of(alloc, &run) {
        Ok(svg) => Ok(svg),
        Err(_) => Err(Unread::NoMemory),
    }
}

/// Whether bytes begin as those of each record do, and those of no text.
fn is_record(bytes: &[u8]) -> bool
    ensures { result ≡ is_record bytes.now }
{
    match bytes {
        [first, ..] => *first == 0,
        [] => false,
    }
}

/// The picture of a record, with these names.
fn picture_of_record(
    alloc: Global,
    labels: &[(Dest, Label)],
    bytes: &[u8],
) -> Result<Vec<u8>, ByteFault>
    ensures spelled { IfOk result (λ svg. IsOk (record_of bytes.now)) }
    ensures fault { IfErr result (λ fault. Fails fault (record_of bytes.now)) }
{
    let value = read_record(alloc, bytes)?;
    let told = told_of(alloc, labels, &value)?;
    let run = run_of(alloc, &value, &told)?;
    let svg = picture_of(alloc, &run)?;
    Ok(svg)
}

/// The picture of the record or the text that bytes are.
#[tactic(auto, using(crate::proofs::Faults::record_is_drawn, crate::proofs::Faults::text_is_drawn, crate::proofs::Faults::byte_fault))]
fn picture_of_bytes(
    alloc: Global,
    labels: &[(Dest, Label)],
    bytes: &[u8],
) -> Result<Vec<u8>, Undrawn>
    ensures drawn { IfOk result (λ svg. AreDrawn bytes.now) }
    ensures fault { IfErr result (HasFault bytes.now) }
{
    if is_record(bytes) {
        return match picture_of_record(alloc, labels, bytes) {
            Ok(svg) => Ok(svg),
            Err(ByteFault::NoMemory) => Err(Undrawn::NoMemory),
            Err(fault) => Err(Undrawn::Byte(fault)),
        };
    }
    match picture_of_text(alloc, bytes) {
        Ok(svg) => Ok(svg),
        Err(Unread::NoMemory) => Err(Undrawn::NoMemory),
        Err(Unread::Line(fault)) => Err(Undrawn::Line(fault)),
    }
}

/// The picture of what the source says, or the end without one.
fn work<S: Source>(
    alloc: Global,
    words: &[Label],
    labels: &[(Dest, Label)],
    source: &mut S,
) -> Result<Vec<u8>, Status>
    ensures done { IfOk result (λ svg. EndsAs words.now (told S.remaining S.faults source.old source.new) Status.Done) }
    ensures ends { IfErr result (EndsAs words.now (told S.remaining S.faults source.old source.new)) }
    ensures nothing { IfErr result (λ status. puts_nothing status ≡ true) }
{
    if !asks(words) {
        return Err(Status::Usage);
    }
    let bytes = match read_all(alloc, source) {
        Ok(bytes) => bytes,
        Err(ReadEnd::NoMemory) => return Err(Status::NoMemory),
        Err(ReadEnd::Failed) => return Err(Status::ReadFault),
        Err(ReadEnd::TooLong) => return Err(Status::TooLong),
    };
    match picture_of_bytes(alloc, labels, &bytes) {
        Ok(svg) => Ok(svg),
        Err(Undrawn::NoMemory) => Err(Status::NoMemory),
        Err(Undrawn::Line(fault)) => Err(Status::Unread(fault)),
        Err(Undrawn::Byte(fault)) => Err(Status::Unspelled(fault)),
    }
}

/// Reads the text or the record of a run, and writes its picture. People and channels of a
/// record are called by these labels.
pub fn draw<S: Source, K: Sink>(
    alloc: Global,
    words: &[Label],
    labels: &[(Dest, Label)],
    source: &mut S,
    sink: &mut K,
) -> Status
    // Every status but running out of memory and a fault of the sink has its cause.
    ensures ends { EndsAs words.now (told S.remaining S.faults source.old source.new) result }

    // A picture was written whole, or nothing, unless the sink failed; then a part of one was written.
    ensures done { result ≡ Status.Done → (svg : List ℕ)
        × Appends (K.held sink.old) (K.held sink.new) svg }
    ensures write_fault { result ≡ Status.WriteFault → Rose (K.faults sink.old) (K.faults sink.new)
        × ((svg : List ℕ) × AppendsPart (K.held sink.old) (K.held sink.new) svg) }
    ensures nothing { puts_nothing result ≡ true → Keeps (K.held sink.old) (K.held sink.new) }
{
    let svg = match work(alloc, words, labels, source) {
        Ok(svg) => svg,
        Err(status) => return status,
    };
    match put_all(sink, &svg) {
        Ok(()) => Status::Done,
        Err(_) => Status::WriteFault,
    }
}
