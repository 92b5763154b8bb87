//! The premises of the laws can hold together.

ghost use Rattle.further_laws.specs.RaceWitness.{PremisesHold};

/// There is a race of two rounds in which every premise of `any_raced_outcomes_are_not_older` holds, a watcher answers
/// old states, and a channel of the participant becomes final.
pub fn premises_can_hold()
    ensures { PremisesHold }
{}
