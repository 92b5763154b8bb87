//! What an honest participant is safe from, over any rules.

ghost use Rattle.channel_safety.specs.Settled.{FinalOutcomesAreTold};
ghost use Rattle.channel_safety.specs.SafetyLaws.{OutcomesAreNotOlder, HeldChainsAreSupported, ShownChainsHaveTheSteps, FewChallengesAreCleared, HonestTakePart};

/// At the entry by which a channel of an honest participant becomes final, its outcome isn't older than the newest
/// supported state. So it is with watchers in time, nothing forged and no collision. Each state that the participant
/// noted, and each supported chain that was shown by then, has a turn of at most the recorded one, or that same
/// outcome.
pub fn outcomes_are_not_older()
    ensures { OutcomesAreNotOlder }
{}

/// What is held of a channel is its first round so far, each state with its mover's mark, or a supported chain.
pub fn held_chains_are_supported()
    ensures { HeldChainsAreSupported }
{}

/// Each step after the last state that an honest participant signed is in each supported chain that is shown at that
/// turn or later.
pub fn shown_chains_have_the_steps()
    ensures { ShownChainsHaveTheSteps }
{}

/// Of an honest participant's challenges in a channel of n, at most n - 1 are followed by another entry that raises
/// the turn before they run out. A conclude isn't counted.
pub fn few_challenges_are_cleared()
    ensures { FewChallengesAreCleared }
{}

/// Where no digests collide, the digest of an outcome says what a final channel ended with. It has settled on an
/// outcome of an entry. Any outcome with the recorded digest that a transfer or a claim gives is that one.
pub fn final_outcomes_are_told()
    ensures { FinalOutcomesAreTold }
{}

/// An honest participant is in each channel that its journal opens.
pub fn honest_participants_take_part()
    ensures { HonestTakePart }
{}
