//! The laws over histories and journals of values, in the order of time. `adds` says which fixed parts
//! the command of each event adds to the plan, by the number of events before it.

ghost use Rattle.std.specs.Prelude.{ℕ, List};
ghost use Rattle.channel_values.specs.Parts.{FixedParts};
ghost use Rattle.call_history.specs.History.{newest_first};
ghost use Rattle.network.specs.Valid.{AddsFixed, newest_lines};
ghost use Rattle.further_laws.specs.Network.{RacedWatchersAreInTime, RacedOutcomesAreNotOlder, RacedSharesAreKept, RacedExitsPay, RacedLeaversArePaid};

use call_history::{Entry, Event};
use network::values_are_valid;

/// In a race a participant's watchers are in time, where no hashed strings collide. It notes states only of channels
/// that it opened with a duration of at least two.
pub fn raced_watchers_are_in_time(history: &[Entry], journal: &[Event])
    ensures { (adds : ℕ → List FixedParts) → AddsFixed adds
        → RacedWatchersAreInTime (newest_first history.now) (newest_lines journal.now adds) }
{
    values_are_valid(history, journal);
}

/// So no channel of an honest participant becomes final with an outcome older than its newest supported state, where
/// nothing is forged and no hashed strings collide.
pub fn raced_outcomes_are_not_older(history: &[Entry], journal: &[Event])
    ensures { (adds : ℕ → List FixedParts) → AddsFixed adds
        → RacedOutcomesAreNotOlder (newest_first history.now) (newest_lines journal.now adds) }
{
    values_are_valid(history, journal);
}

/// Nobody lowers the share of an honest participant that plans fairly, and its own signatures only as far as they may,
/// likewise.
pub fn raced_shares_are_kept(history: &[Entry], journal: &[Event])
    ensures { (adds : ℕ → List FixedParts) → AddsFixed adds
        → RacedSharesAreKept (newest_first history.now) (newest_lines journal.now adds) }
{
    values_are_valid(history, journal);
}

/// An honest participant that plans and leaves fairly is paid at least its share once its channels are final and the
/// calls of its exit stand, likewise.
pub fn raced_exits_pay(history: &[Entry], journal: &[Event])
    ensures { (adds : ℕ → List FixedParts) → AddsFixed adds
        → RacedExitsPay (newest_first history.now) (newest_lines journal.now adds) }
{
    values_are_valid(history, journal);
}

/// And so at least the share that it had at any place before, after which it signed no state until its channels were
/// final.
pub fn raced_leavers_are_paid(history: &[Entry], journal: &[Event])
    ensures { (adds : ℕ → List FixedParts) → AddsFixed adds
        → RacedLeaversArePaid (newest_first history.now) (newest_lines journal.now adds) }
{
    values_are_valid(history, journal);
}
