//! From arguments and a source to a status, and the line that was written.

ghost use Rattle.std.specs.Prelude.{◌≡◌, ◌≢◌, ◌≤◌, ℕ, List, Some, length, IfOk, string_bytes};
ghost use Rattle.std.specs.Io.KnownBytes.{Keeps, Consumes, Appends, IsAtEnd};
ghost use Rattle.byte_streams.specs.OutsideSink.{AppendsPart};
ghost use Rattle.byte_streams.specs.OutsideSource.{Rose};
ghost use Rattle.script_lint.specs.Linting.{EndsAs, Given, asked, broken_line, code_of, given, race_of, rule_text};
ghost use Rattle.script_lint.specs.Linting.{sound_line};
ghost use Rattle.script_lint.specs.declared.lint.Status.{Status};

use byte_streams::{ReadEnd, Sink, Source, put_all, read_all};
use channel_values::{Label, NoMemory};
use script_reader::{Rule, ScriptFault, read_script};
use std::alloc::{AllocError, Global};

/// How a lint ended, numbered as the ends of runs are. A script that is refused has the step, counted from 1, and the rule that
/// it breaks first; step 0 is the whole script.
#[derive(Clone, Copy, Debug, PartialEq, Eq)]
pub enum Status {
    Done,
    NoMemory,
    Usage,
    Script(u32, Rule),
    ReadFault,
    WriteFault,
    TooLong,
}

impl Status {
    /// The status number that the program ends with.
    pub fn code(self) -> u8
        ensures { result ≡ code_of self }
    {
        match self {
            Status::Done => 0,
            Status::NoMemory => 1,
            Status::Usage => 2,
            Status::Script(_, _) => 3,
            Status::ReadFault => 4,
            Status::WriteFault => 5,
            Status::TooLong => 6,
        }
    }
}

/// How a lint ends, and the text that it owes.
#[derive(Drop)]
struct Ended {
    status: Status,
    text: Vec<u8>,
}

fn race_of(word: &str) -> Option<bool>
    ensures { result ≡ race_of word.now }
{
    match word {
        "run" => Some(false),
        "race" => Some(true),
        _ => None,
    }
}

/// Whether the rules are those of a race, if the words ask for a lint.
fn asked(words: &[Label]) -> Option<bool>
    ensures { result ≡ asked words.now }
{
    match words {
        [word] => race_of(word.as_str()),
        _ => None,
    }
}

fn rule_text(rule: Rule) -> &'static str
    ensures { result.now ≡ rule_text rule }
{
    match rule {
        Rule::NotJson => "1 NotJson",
        Rule::Shape => "2 Shape",
        Rule::Name => "3 Name",
        Rule::Limit => "4 Limit",
        Rule::NotInRace => "6 NotInRace",
    }
}

fn broken_line(alloc: Global, step: u32, rule: Rule) -> Result<String, AllocError>
    ensures { IfOk result (λ text. string_bytes text ≡ broken_line step rule) }
{
    let rule = rule_text(rule);
    format!(in alloc; "script {step} {rule}\n")
}

fn sound_line(alloc: Global, steps: usize) -> Result<String, AllocError>
    ensures { IfOk result (λ text. string_bytes text ≡ sound_line steps) }
{
    format!(in alloc; "sound steps {steps}\n")
}

/// The bytes of a line that is written as it is.
fn bytes_of(alloc: Global, line: &str) -> Result<Vec<u8>, NoMemory>
    ensures { IfOk result (λ bytes. bytes.items ≡ line.now) }
{
    let line = String::from_str(alloc, line)?;
    Ok(line.into_bytes())
}

/// What the bytes of a script come to.
#[tactic(auto, using(crate::proofs::Ends::sound_end, crate::proofs::Ends::broken_end))]
fn end_of_bytes(alloc: Global, race: bool, bytes: &[u8]) -> Result<Ended, NoMemory>
    ensures { (g : Given) → asked g.words ≡ Some race → Consumes g.before g.after bytes.now → IsAtEnd g.after
        → length bytes.now ≤ 4194304 → IfOk result (λ ended. EndsAs g ended.status ended.text.items) }
{
    match read_script(alloc, bytes, race) {
        Ok(script) => {
            let line = sound_line(alloc, script.steps.as_slice().len())?;
            drop(script);
            Ok(Ended {
                status: Status::Done,
                text: line.into_bytes(),
            })
        }
        Err(ScriptFault::NoMemory) => Err(NoMemory),
        Err(ScriptFault::Broken { step, rule }) => {
            let line = broken_line(alloc, step, rule)?;
            Ok(Ended {
                status: Status::Script(step, rule),
                text: line.into_bytes(),
            })
        }
    }
}

/// What the words and the source come to.
#[tactic(auto, using(crate::proofs::Ends::cut_end, crate::proofs::Ends::long_end))]
fn work<S: Source>(alloc: Global, words: &[Label], source: &mut S) -> Result<Ended, NoMemory>
    ensures { IfOk result (λ ended.
        EndsAs (given S.Source words.now source.old source.new) ended.status ended.text.items) }
{
    let Some(race) = asked(words) else {
        return Ok(Ended {
            status: Status::Usage,
            text: bytes_of(alloc, "usage\n")?,
        });
    };
    match read_all(alloc, source) {
        Ok(bytes) => end_of_bytes(alloc, race, &bytes),
        Err(ReadEnd::NoMemory) => Err(NoMemory),
        Err(ReadEnd::Failed) => Ok(Ended {
            status: Status::ReadFault,
            text: bytes_of(alloc, "read fault\n")?,
        }),
        Err(ReadEnd::TooLong) => Ok(Ended {
            status: Status::TooLong,
            text: bytes_of(alloc, "too long\n")?,
        }),
    }
}

/// Reads a script by the rules of a run or of a race, by the one word, and writes how many steps it has, or its first
/// fault.
pub fn run_lint<S: Source, K: Sink>(
    alloc: Global,
    words: &[Label],
    source: &mut S,
    sink: &mut K,
) -> Status
    // Every status but running out of memory and a fault of the sink has its cause, and its line was written whole.
    ensures ended { result ≢ Status.NoMemory → result ≢ Status.WriteFault → (text : List ℕ)
        × EndsAs (given S.Source words.now source.old source.new) result text
        × Appends (K.held sink.old) (K.held sink.new) text }

    // At a fault of the sink a part was written of the line of another end.
    ensures write_fault { result ≡ Status.WriteFault → Rose (K.faults sink.old) (K.faults sink.new)
        × ((other : Status) × (text : List ℕ)
        × EndsAs (given S.Source words.now source.old source.new) other text
        × AppendsPart (K.held sink.old) (K.held sink.new) text) }

    // Out of memory nothing was written.
    ensures no_memory { result ≡ Status.NoMemory → Keeps (K.held sink.old) (K.held sink.new) }
{
    let Ok(ended) = work(alloc, words, source) else {
        return Status::NoMemory;
    };
    match put_all(sink, &ended.text) {
        Ok(()) => ended.status,
        Err(_) => Status::WriteFault,
    }
}
