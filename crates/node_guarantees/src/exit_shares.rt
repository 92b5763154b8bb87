//! An honest participant's exit pays its share. The laws are over model lists, the newest first. Their parts carry no
//! types, so that they are valid is a premise. They are also over histories and journals of values, in the order of
//! time. There `adds` says which fixed parts the command of each event adds to the plan, by the number of events
//! before it.

ghost use Rattle.std.specs.Prelude.{List, ℕ};
ghost use Rattle.call_history.specs.declared.entry.Entry.{Entry};
ghost use Rattle.channel_safety.specs.Journals.{Line};
ghost use Rattle.channel_safety.specs.Occurring.{AreValid};
ghost use Rattle.node_guarantees.specs.NetworkExits.{NetworkExitsPay, NetworkLeaversArePaid};
ghost use Rattle.channel_values.specs.Parts.{FixedParts};
ghost use Rattle.call_history.specs.History.{newest_first};
ghost use Rattle.network.specs.Valid.{AddsFixed, newest_lines};

use call_history::{Entry, Event};
use network::values_are_valid;

/// `network_exits_pay` of each history and journal whose parts are valid.
pub fn exits_of_models_pay()
    ensures { (h : List Entry) (journal : List Line) → AreValid h journal → NetworkExitsPay h journal }
{}

/// `network_leavers_are_paid` likewise.
pub fn leavers_of_models_are_paid()
    ensures { (h : List Entry) (journal : List Line) → AreValid h journal → NetworkLeaversArePaid h journal }
{}

/// An honest participant that plans and leaves fairly is paid at least its share once its channels are final and the
/// calls of its exit stand. Its watchers are in time, nothing is forged, and no strings that are hashed collide.
pub fn network_exits_pay(history: &[Entry], journal: &[Event])
    ensures { (adds : ℕ → List FixedParts) → AddsFixed adds
        → NetworkExitsPay (newest_first history.now) (newest_lines journal.now adds) }
{
    values_are_valid(history, journal);
}

/// And so at least the share that it had at any place before, after which it signed no state until its channels were
/// final.
pub fn network_leavers_are_paid(history: &[Entry], journal: &[Event])
    ensures { (adds : ℕ → List FixedParts) → AddsFixed adds
        → NetworkLeaversArePaid (newest_first history.now) (newest_lines journal.now adds) }
{
    values_are_valid(history, journal);
}
