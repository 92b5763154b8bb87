//! That the values of a history and a journal are such as the premises of the laws say.

ghost use Rattle.std.specs.Prelude.{ℕ, List};
ghost use Rattle.channel_values.specs.Parts.{FixedParts};
ghost use Rattle.call_history.specs.History.{newest_first};
ghost use Rattle.channel_safety.specs.Occurring.{AreValid};
ghost use Rattle.network.specs.Valid.{AddsFixed, adds_of, newest_lines};

use call_history::{Entry, Event};
use channel_safety::{adds_are_valid, entries_are_valid, events_are_valid};
use channel_values::{Fixed, Listed};

/// The fixed parts, states, outcomes and names in a history and a journal are such as their types promise. Both are in
/// the order of time, and `adds` says what the command of each event adds to the plan.
pub fn values_are_valid(history: &[Entry], journal: &[Event])
    ensures { (adds : ℕ → List FixedParts) → AddsFixed adds
        → AreValid (newest_first history.now) (newest_lines journal.now adds) }
{
    entries_are_valid(history);
    events_are_valid(journal);
}

/// Where `adds` has what each command adds, and beyond its end no command adds any, commands add fixed parts.
pub fn additions_are_fixed(adds: &[Listed<Fixed>])
    ensures { AddsFixed (adds_of adds.now) }
{
    adds_are_valid(adds);
}
