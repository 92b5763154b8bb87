//! The law over any rules that keep final states. The function is empty: its contract is the law.

ghost use Rattle.further_laws.specs.AnyRules.{AnyRacedOutcomesAreNotOlder};

/// In a race no channel of an honest participant becomes final with an outcome older than its newest supported state,
/// where nothing is forged and nothing collides. That its watchers are in time is no premise: the race brings it about.
pub fn any_raced_outcomes_are_not_older()
    ensures { AnyRacedOutcomesAreNotOlder }
{}
