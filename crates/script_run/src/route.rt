//! Routes over two intermediaries: from arguments to a status and the text that was written.

ghost use Rattle.std.specs.Prelude.{◌≡◌, ◌≤◌, ℕ, List, Some, None, IfOk, IfSome, string_bytes};
ghost use Rattle.node_guarantees.specs.Ways.{ways};
ghost use Rattle.script_run.specs.Laws.{IsLegalIn};
ghost use Rattle.script_run.specs.Promises.{IsRoute, sunk};
ghost use Rattle.script_run.specs.Routes.{EndsAs, asked, head_line, route_text, wanted, word_of};
ghost use Rattle.script_run.specs.declared.run.Status.{Status};

use crate::route_words::asked;
use crate::run::Status;
use byte_streams::{Sink, put_all};
use channel_values::{Label, NoMemory};
use hop_script::{Ending, HopFault, hop_script};
use network_node::Node;
use play_report::report_play;
use report_text::{Report, tail_of};
use sequential_ledger::Ledger;
use std::alloc::{AllocError, Global};

/// What a route answers. The report is there where it was played.
#[derive(Drop)]
pub struct RouteEnded {
    pub status: Status,
    pub report: Option<Report>,
}

/// How a route ends, and the text that it owes.
#[derive(Drop)]
struct Routed {
    ended: RouteEnded,
    text: Vec<u8>,
}

fn without_report(status: Status) -> RouteEnded
    ensures { result ≡ record { status = status; report = None } }
{
    RouteEnded {
        status,
        report: None,
    }
}

fn word_of(ending: Ending) -> &'static str
    ensures { result.now ≡ word_of ending }
{
    match ending {
        Ending::Close => "close",
        Ending::Exit => "exit",
    }
}

fn head_line(alloc: Global, ending: Ending, count: u32) -> Result<String, AllocError>
    ensures { IfOk result (λ text. string_bytes text ≡ head_line ending count) }
{
    let word = word_of(ending);
    format!(in alloc; "hop {word} {count}\n")
}

/// The text of a route that was played.
fn route_text(
    alloc: Global,
    ending: Ending,
    count: u32,
    report: &Report,
) -> Result<Vec<u8>, NoMemory>
    requires { IsLegalIn report.now }
    ensures { IfOk result (λ text. text.items ≡ route_text ending count report.now) }
{
    let tail = tail_of(report)?;
    let line = head_line(alloc, ending, count)?;
    let mut text = line.into_bytes();
    text.extend_from_slice(&tail)?;
    Ok(text)
}

fn usage(alloc: Global) -> Result<Routed, NoMemory>
    ensures ends { (words : List (List ℕ)) → wanted words ≡ None
        → IfOk result (λ h. EndsAs ways words h.ended.status h.ended.report h.text.items) }
    ensures report { IfOk result (λ h. h.ended.report ≡ None) }
{
    let line = String::from_str(alloc, "usage\n")?;
    Ok(Routed {
        ended: without_report(Status::Usage),
        text: line.into_bytes(),
    })
}

/// The end of a route.
#[tactic(auto, using(crate::proofs::RouteEnds::wanted_none, crate::proofs::RouteEnds::ends_played))]
fn played(alloc: Global, ending: Ending, count: u32) -> Result<Routed, NoMemory>
    requires few { count ≤ 40 }
    ensures ends { (words : List (List ℕ)) → asked words ≡ Some (ending, count)
        → IfOk result (λ h. EndsAs ways words h.ended.status h.ended.report h.text.items) }
    ensures legal { IfOk result (λ h. IfSome h.ended.report IsLegalIn) }
{
    match hop_script(alloc, ending, count) {
        Err(HopFault::NoMemory) => Err(NoMemory),
        Err(HopFault::OneName) => usage(alloc),
        Ok((script, signers)) => {
            let steps = script.steps.as_slice();
            let report = report_play::<Node, Ledger>(alloc, steps, signers, None)?;
            let text = route_text(alloc, ending, count, &report)?;
            let ended = RouteEnded {
                status: Status::Done,
                report: Some(report),
            };
            Ok(Routed { ended, text })
        }
    }
}

/// The end of the route that the words ask for.
#[tactic(auto, using(crate::proofs::RouteEnds::nothing_wanted))]
fn work(alloc: Global, words: &[Label]) -> Result<Routed, NoMemory>
    ensures ends { IfOk result (λ h. EndsAs ways words.now h.ended.status h.ended.report h.text.items) }
    ensures legal { IfOk result (λ h. IfSome h.ended.report IsLegalIn) }
{
    match asked(words) {
        None => usage(alloc),
        Some((ending, count)) => played(alloc, ending, count),
    }
}

/// Plays the payments over two intermediaries that the words ask for, and writes the text of the play. It starts no
/// thread and waits for nobody, so it returns.
#[tactic(auto, using(crate::proofs::RoutePutting::none_put, crate::proofs::RoutePutting::all_put, crate::proofs::RoutePutting::part_put))]
pub fn run_route<K: Sink>(alloc: Global, words: &[Label], sink: &mut K) -> RouteEnded
    ensures { IsRoute ways words.now (sunk K.Sink sink.old sink.new) result.status result.report }
{
    let Ok(routed) = work(alloc, words) else {
        return without_report(Status::NoMemory);
    };
    match put_all(sink, &routed.text) {
        Ok(()) => routed.ended,
        Err(_) => RouteEnded {
            status: Status::WriteFault,
            report: routed.ended.report,
        },
    }
}
