//! Nobody lowers the share of an honest participant. The laws are over model lists, the newest first. Their parts
//! carry no types, so that they are valid is a premise. They are also over histories and journals of values, in the
//! order of time. There `adds` says which fixed parts the command of each event adds to the plan, by the number of
//! events before it.

ghost use Rattle.std.specs.Prelude.{List, ℕ};
ghost use Rattle.call_history.specs.declared.entry.Entry.{Entry};
ghost use Rattle.channel_safety.specs.Journals.{Line};
ghost use Rattle.channel_safety.specs.Occurring.{AreValid};
ghost use Rattle.node_guarantees.specs.Shares.{NetworkStepsKeepPossible, NetworkSharesAreKept};
ghost use Rattle.channel_values.specs.Parts.{FixedParts};
ghost use Rattle.call_history.specs.History.{newest_first};
ghost use Rattle.network.specs.Valid.{AddsFixed, newest_lines};

use call_history::{Entry, Event};
use network::values_are_valid;

/// What others sign after a participant's state ends in an outcome that was possible then, or in a payment channel in
/// one that is no worse for it.
pub fn network_steps_keep_possible()
    ensures { NetworkStepsKeepPossible }
{}

/// `network_shares_are_kept` of each history and journal whose parts are valid.
pub fn shares_of_models_are_kept()
    ensures { (h : List Entry) (journal : List Line) → AreValid h journal → NetworkSharesAreKept h journal }
{}

/// Nobody lowers the share of an honest participant that plans fairly, and its own signatures only as far as they
/// may. Its watchers are in time, nothing is forged, and no strings that are hashed collide.
pub fn network_shares_are_kept(history: &[Entry], journal: &[Event])
    ensures { (adds : ℕ → List FixedParts) → AddsFixed adds
        → NetworkSharesAreKept (newest_first history.now) (newest_lines journal.now adds) }
{
    values_are_valid(history, journal);
}
