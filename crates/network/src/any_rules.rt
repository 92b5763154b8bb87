//! The laws of channel_safety over histories and journals of values, in the order of time, under any rules that keep
//! final states. `adds` says which fixed parts the command of each event adds to the plan.

ghost use Rattle.std.specs.Prelude.{ℕ, List};
ghost use Rattle.channel_values.specs.Parts.{FixedParts};
ghost use Rattle.call_history.specs.History.{newest_first};
ghost use Rattle.network.specs.AnyRules.{AnyOutcomesAreNotOlder, AnyChainsHaveTheSteps, FewOfAnyChallengesAreCleared};
ghost use Rattle.network.specs.Valid.{AddsFixed, newest_lines};

use crate::validity::values_are_valid;
use call_history::{Entry, Event};

/// `network_outcomes_are_not_older` under any rules, where names determine fixed parts and digests determine states.
pub fn any_outcomes_are_not_older(history: &[Entry], journal: &[Event])
    ensures { (adds : ℕ → List FixedParts) → AddsFixed adds
        → AnyOutcomesAreNotOlder (newest_first history.now) (newest_lines journal.now adds) }
{
    values_are_valid(history, journal);
}

/// `network_chains_have_the_steps` likewise.
pub fn any_chains_have_the_steps(history: &[Entry], journal: &[Event])
    ensures { (adds : ℕ → List FixedParts) → AddsFixed adds
        → AnyChainsHaveTheSteps (newest_first history.now) (newest_lines journal.now adds) }
{
    values_are_valid(history, journal);
}

/// `few_network_challenges_are_cleared` likewise.
pub fn few_of_any_challenges_are_cleared(history: &[Entry], journal: &[Event])
    ensures { (adds : ℕ → List FixedParts) → AddsFixed adds
        → FewOfAnyChallengesAreCleared (newest_first history.now) (newest_lines journal.now adds) }
{
    values_are_valid(history, journal);
}
