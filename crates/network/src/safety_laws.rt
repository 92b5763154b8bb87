//! The laws over histories and journals of values, in the order of time. `adds` says which fixed parts
//! the command of each event adds to the plan, by the number of events before it.

ghost use Rattle.std.specs.Prelude.{ℕ, List};
ghost use Rattle.channel_values.specs.Parts.{FixedParts};
ghost use Rattle.call_history.specs.History.{newest_first};
ghost use Rattle.network.specs.Network.{NetworkOutcomesAreNotOlder, NetworkChainsHaveTheSteps, FewNetworkChallengesAreCleared};
ghost use Rattle.network.specs.Valid.{AddsFixed, newest_lines};

use crate::validity::values_are_valid;
use call_history::{Entry, Event};

/// No channel of an honest participant with watchers in time becomes final with an outcome older than its newest
/// supported state, where nothing is forged and no hashed strings collide.
pub fn network_outcomes_are_not_older(history: &[Entry], journal: &[Event])
    ensures { (adds : ℕ → List FixedParts) → AddsFixed adds
        → NetworkOutcomesAreNotOlder (newest_first history.now) (newest_lines journal.now adds) }
{
    values_are_valid(history, journal);
}

/// Each step after the last state that an honest participant signed is in each supported chain that is shown at that
/// turn or later.
pub fn network_chains_have_the_steps(history: &[Entry], journal: &[Event])
    ensures { (adds : ℕ → List FixedParts) → AddsFixed adds
        → NetworkChainsHaveTheSteps (newest_first history.now) (newest_lines journal.now adds) }
{
    values_are_valid(history, journal);
}

/// Of the challenges that an honest participant signs in a channel of n, at most n - 1 are cleared by another entry
/// than a conclude.
pub fn few_network_challenges_are_cleared(history: &[Entry], journal: &[Event])
    ensures { (adds : ℕ → List FixedParts) → AddsFixed adds
        → FewNetworkChallengesAreCleared (newest_first history.now) (newest_lines journal.now adds) }
{
    values_are_valid(history, journal);
}
