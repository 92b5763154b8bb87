//! The report of a race.

ghost use Rattle.std.specs.Prelude.{◌≡◌, ◌≤◌, [], true, All, IfOk, length};
ghost use Rattle.call_history.specs.History.{Legal, newest_first};
ghost use Rattle.network_rounds.specs.Views.{players};
ghost use Rattle.network_rounds.specs.Journals.{WritesJournals};
ghost use Rattle.script_steps.specs.Bounds.{Fits, persons_of, signers_of};
ghost use Rattle.script_steps.specs.Conditions.{runs_in_race};
ghost use Rattle.support_rules.specs.Real.{real};
ghost use Rattle.script_race.specs.Raced.{RacersAreInTime, IsOfRace};

use crate::replay::race;
use lms_signatures::Signer;
use network_rounds::{Cast, RoundFault};
use node_guarantees::ReportedNode;
use play_report::report_of;
use report_text::Report;
use script_steps::{STEP_LIMIT, Step};
use std::alloc::Global;
use std::sync::Wait;
use std::thread::Threads;

/// Plays the steps in a race with this cast, whose notes are empty, and says what came of them. The signers are those
/// of the people that the steps declare.
pub fn report_race<R: Threads + Wait + Sync, P: ReportedNode + Send>(
    rt: &R,
    alloc: Global,
    steps: &[Step],
    signers: Vec<Signer>,
    cast: Vec<Cast>,
) -> Result<Report, RoundFault>
    requires fit { All Fits steps.now }
    requires may_race { All (λ step. runs_in_race step ≡ true) steps.now }
    requires few { persons_of steps.now ≤ 16 }
    requires short { length steps.now ≤ STEP_LIMIT }
    requires fresh { signers.items ≡ signers_of steps.now }
    requires unseen { All (λ c. c.notes.entries.items ≡ []) cast.items }
    // Nodes write what they do into their journals, and where they race their watchers are in time.
    requires writes { WritesJournals P.ways P.lost }
    requires timely { RacersAreInTime P.ways P.stands }
    // The report is that of a race, and it keeps its promises to each person with a node.
    ensures raced { IfOk result (λ report.
        IsOfRace P.ways (players tells told cast.items) report steps.now) }

    // Each reply of the history is the sequential adjudicator's at its place.
    ensures legal { IfOk result (λ report. Legal real (newest_first report.history)) }
{
    let race = race::<R, P>(rt, alloc, steps, signers, cast)?;
    let (names, rounds, history, members) = race.into_parts();
    let report = report_of(alloc, names, rounds, history, &members, None)?;
    Ok(report)
}
