//! The report of what a run or a race came to, and that of a play.

ghost use Rattle.std.specs.Prelude.{◌≡◌, ◌≤◌, All, IfOk, OnOk, length, map, flat_map};
ghost use Rattle.std.specs.List.{AllByRecursion};
ghost use Rattle.call_history.specs.History.{Legal, flows_of, newest_first};
ghost use Rattle.asset_holder.specs.Receipts.{assets_of};
ghost use Rattle.run_record.specs.Sums.{sums_of};
ghost use Rattle.channel_safety.specs.Valid.{IsValidEvent};
ghost use Rattle.support_rules.specs.Real.{real};
ghost use Rattle.script_play.specs.Play.{SceneOf};
ghost use Rattle.script_steps.specs.Bounds.{Fits, persons_of, rounds_of, signers_of};
ghost use Rattle.play_report.specs.Members.{AllFixed, AllFollowed, ArePartsOf, IsMade};
ghost use Rattle.play_report.specs.Reported.{journal_of, IsPlayed};
ghost use Rattle.play_report.specs.Shares.{known_shares, known_exits, known_ending};

use crate::endings::endings_of;
use crate::judging::judge_all;
use crate::sharing::{exits_of, have_followed, shares_of};
use crate::walking::{journals_are_valid, journals_of, openings_are_fixed};
use call_history::Entry;
use channel_safety::entries_are_valid;
use channel_values::{Dest, Label, Listed, NoMemory};
use lms_signatures::Signer;
use network::{Docket, Member};
use node_guarantees::ReportedNode;
use premises::Journal;
use report_text::{Load, Report, Share, assets_of, balances_of};
use run_record::{Ending, Sum, sums_of};
use script_play::{Scene, play};
use script_steps::{STEP_LIMIT, Step};
use std::alloc::Global;
use step_meanings::Names;

/// What is said of the people with nodes, in their order: their journals, what each can get of each asset, and how it
/// ended. Also what it could get when it was commanded to exit.
#[derive(Drop)]
struct Tales {
    journals: Vec<Journal>,
    shares: Vec<Share>,
    exits: Vec<Share>,
    ends: Vec<Ending>,
}

/// What is said of people whose nodes have followed the whole history.
fn tales_of<P: ReportedNode>(
    alloc: Global,
    history: &[Entry],
    members: &[Member<P>],
) -> Result<Tales, NoMemory>
    ensures journals { IfOk result (λ t. t.journals.items ≡ map (journal_of P.ways) members.now) }
    ensures valid { IfOk result (λ t. AllByRecursion (λ j. AllByRecursion IsValidEvent j.events) t.journals.items) }
    ensures fixed { OnOk result (AllFixed P.ways members.now) }
    ensures shares { IfOk result (λ t. t.shares.items
        ≡ flat_map (λ m. known_shares P.ways P.shares (assets_of (flows_of history.now)) m.node) members.now) }
    ensures exits { IfOk result (λ t. t.exits.items
        ≡ flat_map (λ m. known_exits P.ways P.exits (assets_of (flows_of history.now)) m.node) members.now) }
    ensures ends { IfOk result (λ t. t.ends.items
        ≡ map (λ m. known_ending P.ways P.facts P.shares (assets_of (flows_of history.now)) m.node) members.now) }
    ensures followed { OnOk result (AllFollowed P.ways P.lost (length history.now) members.now) }
{
    let journals = journals_of(alloc, members)?;
    openings_are_fixed(members);
    journals_are_valid(&journals);
    let assets = assets_of(alloc, history)?;
    have_followed(members, history.len())?;
    let shares = shares_of(alloc, &assets, members)?;
    let exits = exits_of(alloc, &assets, members)?;
    let ends = endings_of(alloc, &assets, members)?;
    Ok(Tales {
        journals,
        shares,
        exits,
        ends,
    })
}

/// The sums of the flows of a history.
fn sums_in(alloc: Global, history: &[Entry]) -> Result<Vec<Sum>, NoMemory>
    requires { Legal real (newest_first history.now) }
    ensures { IfOk result (λ sums. sums.items ≡ sums_of (flows_of history.now)) }
{
    let balances = balances_of(alloc, history)?;
    let sums = sums_of(alloc, &balances);
    drop(balances);
    sums
}

/// The declared people and channels of these names.
fn labels_of(names: Names) -> Listed<(Dest, Label)>
    ensures { result ≡ names.labels }
{
    let Names {
        people,
        channels,
        states,
        labels,
    } = names;
    drop(people);
    drop(channels);
    drop(states);
    labels
}

/// The report of these parts of a scene: what names stand for, how long the history was after each round, the entries
/// in the order of time, and the nodes. It notes the load that its script was made of, if it was.
pub fn report_of<P: ReportedNode>(
    alloc: Global,
    names: Names,
    rounds: Listed<u32>,
    history: Vec<Entry>,
    members: &[Member<P>],
    load: Option<Load>,
) -> Result<Report, NoMemory>
    requires legal { Legal real (newest_first history.items) }
    ensures made { (s : SceneOf P) → ArePartsOf names rounds history.items members.now s
        → IfOk result (λ report. IsMade P.ways P.lost P.shares P.exits P.facts load report s) }
    ensures history { IfOk result (λ report. report.history ≡ history.items) }
{
    let labels = labels_of(names);
    let tales = tales_of(alloc, &history, members)?;
    entries_are_valid(&history);
    let premises = judge_all(alloc, &history, &tales.journals)?;
    let sums = sums_in(alloc, &history)?;
    Ok(Report {
        history: Listed::make(history),
        journals: Listed::make(tales.journals),
        rounds,
        labels,
        premises: Listed::make(premises),
        shares: Listed::make(tales.shares),
        exits: Listed::make(tales.exits),
        ends: Listed::make(tales.ends),
        sums: Listed::make(sums),
        load,
    })
}

/// Plays the steps, and says what came of them. The signers are those of the people that the steps declare. Of a load
/// the report notes what it was made from.
pub fn report_play<P: ReportedNode, D: Docket>(
    alloc: Global,
    steps: &[Step],
    signers: Vec<Signer>,
    load: Option<Load>,
) -> Result<Report, NoMemory>
    requires fit { All Fits steps.now }
    requires few { persons_of steps.now ≤ 16 }
    requires rounds { rounds_of steps.now ≤ 4096 }
    requires short { length steps.now ≤ STEP_LIMIT }
    requires fresh { signers.items ≡ signers_of steps.now }
    // The report is that of the play, and it keeps its promises to each person with a node.
    ensures played { IfOk result (λ report. IsPlayed P.ways load report steps.now) }

    // Each reply of the history is the sequential adjudicator's at its place.
    ensures legal { IfOk result (λ report. Legal real (newest_first report.history)) }
{
    let scene: Scene<P, D> = play(alloc, steps, signers)?;
    let (names, rounds, history, members) = scene.into_parts();
    report_of(alloc, names, rounds, history, &members, load)
}
