//! The top call: from arguments and a source to a status and the text that was written.

ghost use Rattle.std.specs.Prelude.{◌≡◌, ◌≤◌, ℕ, List, [], Some, None, length, All, IfOk, IfSome, IsNone, string_bytes};
ghost use Rattle.std.specs.Io.KnownBytes.{Consumes, IsAtEnd};
ghost use Rattle.call_history.specs.Flows.{AreConserved};
ghost use Rattle.call_history.specs.History.{Legal, newest_first, flows_of};
ghost use Rattle.support_rules.specs.Real.{real};
ghost use Rattle.network_rounds.specs.Views.{players};
ghost use Rattle.network_rounds.specs.Journals.{WritesJournals};
ghost use Rattle.network_rounds.specs.Players.{Player};
ghost use Rattle.script_race.specs.Raced.{RacersAreInTime};
ghost use Rattle.command_words.specs.Words.{asked};
ghost use Rattle.command_words.specs.declared.asking.Asked.{Asked};
ghost use Rattle.script_run.specs.declared.run.Status.{Status};
ghost use Rattle.node_guarantees.specs.Ways.{ways};
ghost use Rattle.script_run.specs.Laws.{IsLegalIn, PaysItsLoad};
ghost use Rattle.script_run.specs.Promises.{IsRun, sunk};
ghost use Rattle.script_run.specs.Run.{Given, IsUnread, given, code_of, wanted, EndsAs, rule_text, owed};

use crate::fault::LoadFault;
use crate::load::load_script;
use byte_streams::{ReadEnd, Sink, Source, put_all, read_all};
use channel_values::{Label, NoMemory};
use command_words::{Asked, asked};
use network_node::Node;
use network_rounds::{Cast, RoundFault};
use node_guarantees::ReportedNode;
use play_report::report_play;
use report_text::{Load, Report, text_of};
use script_race::report_race;
use script_reader::{Rule, ScriptFault, read_script_with_signers};
use sequential_ledger::Ledger;
use std::alloc::{AllocError, Global};
use std::sync::Wait;
use std::thread::Threads;

/// How a run ended. A script that is refused has the step, counted from 1, and the rule that it breaks
/// first; step 0 is the whole script.
#[derive(Clone, Copy, Debug, PartialEq, Eq)]
pub enum Status {
    Done,
    NoMemory,
    Usage,
    Script(u32, Rule),
    ReadFault,
    WriteFault,
    TooLong,
    /// The history of a race has no room for another entry.
    Full,
}

impl Status {
    /// The status number that the program ends with.
    pub fn code(self) -> u8
        ensures { result ≡ code_of self }
    {
        match self {
            Status::Done => 0,
            Status::NoMemory => 1,
            Status::Usage => 2,
            Status::Script(_, _) => 3,
            Status::ReadFault => 4,
            Status::WriteFault => 5,
            Status::TooLong => 6,
            Status::Full => 12,
        }
    }
}

/// What a run answers. The report is there where the script was played.
#[derive(Drop)]
pub struct Ended {
    pub status: Status,
    pub report: Option<Report>,
}

fn without_report(status: Status) -> Ended
    ensures { result ≡ record { status = status; report = None } }
{
    Ended {
        status,
        report: None,
    }
}

/// The end of a script that was read whole.
#[tactic(auto, using(crate::proofs::Ends::breaks_in_run, crate::proofs::Ends::plays_in_run))]
fn run_script<P: ReportedNode>(alloc: Global, bytes: &[u8]) -> Result<Ended, NoMemory>
    ensures ends { (cast : List Player) (given : Given) → wanted given.words ≡ Some Asked.Run
        → Consumes given.before given.after bytes.now → IsAtEnd given.after → length bytes.now ≤ 4194304
        → IfOk result (λ ended. EndsAs P.ways cast given ended.status ended.report) }
    ensures legal { IfOk result (λ ended. IfSome ended.report IsLegalIn) }
{
    match read_script_with_signers(alloc, bytes, false) {
        Err(ScriptFault::NoMemory) => Err(NoMemory),
        Err(ScriptFault::Broken { step, rule }) => Ok(without_report(Status::Script(step, rule))),
        Ok((script, signers)) => {
            let steps = script.steps.as_slice();
            let report = report_play::<P, Ledger>(alloc, steps, signers, None)?;
            Ok(Ended {
                status: Status::Done,
                report: Some(report),
            })
        }
    }
}

/// The end of a script in a race with this cast.
#[tactic(auto, using(script_reader::proofs::Bounds::all_may_race, crate::proofs::Ends::breaks_in_race, crate::proofs::Ends::plays_in_race, crate::proofs::Ends::full_in_race))]
fn race_script<R: Threads + Wait + Sync, P: ReportedNode + Send>(
    rt: &R,
    alloc: Global,
    bytes: &[u8],
    cast: Vec<Cast>,
) -> Result<Ended, NoMemory>
    requires unseen { All (λ c. c.notes.entries.items ≡ []) cast.items }
    requires writes { WritesJournals P.ways P.lost }
    requires timely { RacersAreInTime P.ways P.stands }
    ensures ends { (given : Given) → wanted given.words ≡ Some Asked.Race
        → Consumes given.before given.after bytes.now → IsAtEnd given.after → length bytes.now ≤ 4194304
        → IfOk result (λ ended. EndsAs P.ways (players tells told cast.items) given ended.status ended.report) }
    ensures legal { IfOk result (λ ended. IfSome ended.report IsLegalIn) }
{
    match read_script_with_signers(alloc, bytes, true) {
        Err(ScriptFault::NoMemory) => Err(NoMemory),
        Err(ScriptFault::Broken { step, rule }) => Ok(without_report(Status::Script(step, rule))),
        Ok((script, signers)) => {
            let steps = script.steps.as_slice();
            match report_race::<R, P>(rt, alloc, steps, signers, cast) {
                Err(RoundFault::NoMemory) => Err(NoMemory),
                Err(RoundFault::Full(_)) => Ok(without_report(Status::Full)),
                Ok(report) => Ok(Ended {
                    status: Status::Done,
                    report: Some(report),
                }),
            }
        }
    }
}

/// The end of the script that the source has.
#[tactic(auto, using(crate::proofs::Ends::fails_in_run, crate::proofs::Ends::long_in_run))]
fn run_source<P: ReportedNode, S: Source>(alloc: Global, source: &mut S) -> Result<Ended, NoMemory>
    ensures ends { (words : List (List ℕ)) (cast : List Player) → wanted words ≡ Some Asked.Run
        → IfOk result (λ ended.
        EndsAs P.ways cast (given S.Source words source.old source.new) ended.status ended.report) }
    ensures legal { IfOk result (λ ended. IfSome ended.report IsLegalIn) }
{
    match read_all(alloc, source) {
        Ok(bytes) => run_script::<P>(alloc, &bytes),
        Err(ReadEnd::NoMemory) => Err(NoMemory),
        Err(ReadEnd::Failed) => Ok(without_report(Status::ReadFault)),
        Err(ReadEnd::TooLong) => Ok(without_report(Status::TooLong)),
    }
}

/// The end of the script that the source has, in a race.
#[tactic(auto, using(crate::proofs::Ends::fails_in_race, crate::proofs::Ends::long_in_race))]
fn race_source<R: Threads + Wait + Sync, P: ReportedNode + Send, S: Source>(
    rt: &R,
    alloc: Global,
    source: &mut S,
    cast: Vec<Cast>,
) -> Result<Ended, NoMemory>
    requires unseen { All (λ c. c.notes.entries.items ≡ []) cast.items }
    requires writes { WritesJournals P.ways P.lost }
    requires timely { RacersAreInTime P.ways P.stands }
    ensures ends { (words : List (List ℕ)) → wanted words ≡ Some Asked.Race
        → IfOk result (λ ended. EndsAs P.ways (players tells told cast.items)
        (given S.Source words source.old source.new) ended.status ended.report) }
    ensures legal { IfOk result (λ ended. IfSome ended.report IsLegalIn) }
{
    match read_all(alloc, source) {
        Ok(bytes) => race_script::<R, P>(rt, alloc, &bytes, cast),
        Err(ReadEnd::NoMemory) => Err(NoMemory),
        Err(ReadEnd::Failed) => Ok(without_report(Status::ReadFault)),
        Err(ReadEnd::TooLong) => Ok(without_report(Status::TooLong)),
    }
}

/// The end of a load. Nothing is read for it.
#[tactic(auto, using(crate::proofs::Counts::wanted_load, crate::proofs::Counts::wanted_no_load))]
fn run_load<P: ReportedNode>(alloc: Global, seed: u64, count: u32) -> Result<Ended, NoMemory>
    requires some { 1 ≤ count }
    requires few { count ≤ 1000 }
    ensures ends { (cast : List Player) (given : Given) → asked given.words ≡ Some (Asked.Load seed count)
        → IsUnread given
        → IfOk result (λ ended. EndsAs P.ways cast given ended.status ended.report) }
    ensures legal { IfOk result (λ ended. IfSome ended.report IsLegalIn) }
{
    match load_script(alloc, seed, count) {
        Err(LoadFault::NoMemory) => Err(NoMemory),
        Err(LoadFault::OneName) => Ok(without_report(Status::Usage)),
        Ok((script, signers)) => {
            let load = Some(Load { seed, count });
            let report = report_play::<P, Ledger>(alloc, script.steps.as_slice(), signers, load)?;
            Ok(Ended {
                status: Status::Done,
                report: Some(report),
            })
        }
    }
}

/// The end of a run of the words and the source with nodes of this type, in one thread. There is none where they ask
/// for a race.
#[tactic(auto, using(byte_streams::proofs::Known::keeps_all, crate::proofs::Counts::some_payments, crate::proofs::Counts::few_payments, crate::proofs::Counts::wanted_none, crate::proofs::Counts::wanted_run, crate::proofs::Counts::wanted_race))]
pub(crate) fn end_in_one_thread<P: ReportedNode, S: Source>(
    alloc: Global,
    words: &[Label],
    source: &mut S,
) -> Option<Result<Ended, NoMemory>>
    ensures ends { (cast : List Player) → IfSome result (λ end. IfOk end (λ ended. EndsAs P.ways cast
        (given S.Source words.now source.old source.new) ended.status ended.report)) }
    ensures legal { IfSome result (λ end. IfOk end (λ ended. IfSome ended.report IsLegalIn)) }
    ensures race { IsNone result → wanted words.now ≡ Some Asked.Race }
    ensures untouched { IsNone result → source.new ≡ source.old }
{
    let Ok(asked) = asked(alloc, words) else {
        return Some(Err(NoMemory));
    };
    match asked {
        None => Some(Ok(without_report(Status::Usage))),
        Some(Asked::Run) => Some(run_source::<P, S>(alloc, source)),
        Some(Asked::Race) => None,
        Some(Asked::Load { seed, count }) => Some(run_load::<P>(alloc, seed, count)),
    }
}

/// The end of a race of the script that the source has, between the nodes of the network and this cast.
pub(crate) fn end_in_race<R: Threads + Wait + Sync, S: Source>(
    rt: &R,
    alloc: Global,
    source: &mut S,
    cast: Vec<Cast>,
) -> Result<Ended, NoMemory>
    requires unseen { All (λ c. c.notes.entries.items ≡ []) cast.items }
    ensures ends { (words : List (List ℕ)) → wanted words ≡ Some Asked.Race
        → IfOk result (λ ended. EndsAs ways (players tells told cast.items)
        (given S.Source words source.old source.new) ended.status ended.report) }
    ensures legal { IfOk result (λ ended. IfSome ended.report IsLegalIn) }
{
    race_source::<R, Node, S>(rt, alloc, source, cast)
}

fn rule_text(rule: Rule) -> &'static str
    ensures { result.now ≡ rule_text rule }
{
    match rule {
        Rule::NotJson => "1 NotJson",
        Rule::Shape => "2 Shape",
        Rule::Name => "3 Name",
        Rule::Limit => "4 Limit",
        Rule::NotInRace => "6 NotInRace",
    }
}

/// A line that is no history.
pub fn line_of(alloc: Global, status: Status) -> Result<String, AllocError>
    ensures { IfOk result (λ text. string_bytes text ≡ owed status None) }
{
    match status {
        Status::Usage => String::from_str(alloc, "usage\n"),
        Status::Script(step, rule) => {
            let rule = rule_text(rule);
            format!(in alloc; "script {step} {rule}\n")
        }
        Status::ReadFault => String::from_str(alloc, "read fault\n"),
        Status::TooLong => String::from_str(alloc, "too long\n"),
        Status::Full => String::from_str(alloc, "full\n"),
        Status::Done | Status::NoMemory | Status::WriteFault => Ok(String::new(alloc)),
    }
}

/// The bytes that an end owes.
fn owed(alloc: Global, ended: &Ended) -> Result<Vec<u8>, NoMemory>
    requires { IfSome ended.now.report IsLegalIn }
    ensures { IfOk result (λ text. text.items ≡ owed ended.now.status ended.now.report) }
{
    match (ended.status, &ended.report) {
        (Status::Done, Some(report)) => text_of(report),
        (status, _) => {
            let line = line_of(alloc, status)?;
            Ok(line.into_bytes())
        }
    }
}

/// Writes what an end owes.
#[tactic(auto, using(crate::proofs::Putting::none_put, crate::proofs::Putting::all_put, crate::proofs::Putting::part_put))]
fn put_end<P: ReportedNode, K: Sink>(
    alloc: Global,
    end: Result<Ended, NoMemory>,
    sink: &mut K,
) -> Ended
    requires { IfOk end (λ ended. IfSome ended.report IsLegalIn) }
    ensures { (cast : List Player) (g : Given)
        → IfOk end (λ ended. EndsAs P.ways cast g ended.status ended.report)
        → IfOk end (λ ended. IfSome ended.report PaysItsLoad)
        → IsRun P.ways cast g (sunk K.Sink sink.old sink.new) result.status result.report }
{
    let Ok(ended) = end else {
        return without_report(Status::NoMemory);
    };
    let Ok(text) = owed(alloc, &ended) else {
        return without_report(Status::NoMemory);
    };
    match put_all(sink, &text) {
        Ok(()) => ended,
        Err(_) => Ended {
            status: Status::WriteFault,
            report: ended.report,
        },
    }
}

/// Plays the script that it reads or that of a load, and writes the text of its report. It starts no thread and waits
/// for nobody, so it returns. It answers nothing where the words ask for a race: then nothing was read and nothing
/// written.
pub fn run_in_one_thread<S: Source, K: Sink>(
    alloc: Global,
    words: &[Label],
    source: &mut S,
    sink: &mut K,
) -> Option<Ended>
    ensures ends { (cast : List Player) → IfSome result (λ ended. IsRun ways cast
        (given S.Source words.now source.old source.new) (sunk K.Sink sink.old sink.new) ended.status ended.report) }
    ensures race { IsNone result → wanted words.now ≡ Some Asked.Race }
    ensures untouched { IsNone result → (source.new ≡ source.old) × (sink.new ≡ sink.old) }
{
    let end = end_in_one_thread::<Node, S>(alloc, words, source)?;
    Some(put_end::<Node, K>(alloc, end, sink))
}

/// Reads the script or makes that of a load, plays it and writes the text of its report. What is no race is done in one
/// thread. In a race the cast, of at most 16 actors that have seen nothing, acts beside the nodes.
///
/// What it promises stands in the record `IsRun`, clause by clause:
/// - `ended`, `write_fault`, `no_memory`: each status has its cause, and what it owes was written: whole, in part,
///   not at all.
/// - `legal`: each reply of the history is the sequential adjudicator's at its place.
/// - `conserved`: of each asset, what was deposited is what the channels hold and what the persons were paid.
/// - `keeps`: each person with a node keeps its share and is paid on its exit, where its premises hold.
/// - `tells`: the report describes the play of the script that was asked for.
/// - `pays`: a load pays what it says.
/// - `complete`: a sound script runs to its end, unless memory runs out or the sink fails.
pub fn run_words<R: Threads + Wait + Sync, S: Source, K: Sink>(
    rt: &R,
    alloc: Global,
    words: &[Label],
    source: &mut S,
    sink: &mut K,
    cast: Vec<Cast>,
) -> Ended
    requires few { length cast.items ≤ 16 }
    requires unseen { All (λ c. c.notes.entries.items ≡ []) cast.items }
    ensures run { IsRun ways (players tells told cast.items) (given S.Source words.now source.old source.new)
        (sunk K.Sink sink.old sink.new) result.status result.report }
    ensures legal { IfSome result.report (λ report. Legal real (newest_first report.history)) }
    ensures conserved { IfSome result.report (λ report. AreConserved (flows_of report.history)) }
{
    if let Some(ended) = run_in_one_thread(alloc, words, source, sink) {
        return ended;
    }
    let end = end_in_race(rt, alloc, source, cast);
    put_end::<Node, K>(alloc, end, sink)
}
