//! The laws over model lists, the newest first. Their parts carry no types, so that they are valid is a premise. Each
//! function is empty: its contract is the law.

ghost use Rattle.std.specs.Prelude.{List};
ghost use Rattle.call_history.specs.declared.entry.Entry.{Entry};
ghost use Rattle.channel_safety.specs.Journals.{Line};
ghost use Rattle.channel_safety.specs.Occurring.{AreValid};
ghost use Rattle.network.specs.Network.{NetworkOutcomesAreNotOlder, NetworkChainsHaveTheSteps, FewNetworkChallengesAreCleared};

/// `network_outcomes_are_not_older` of each history and journal whose parts are valid.
pub fn outcomes_of_models_are_not_older()
    ensures { (h : List Entry) (journal : List Line) → AreValid h journal → NetworkOutcomesAreNotOlder h journal }
{}

/// `network_chains_have_the_steps` likewise.
pub fn chains_of_models_have_the_steps()
    ensures { (h : List Entry) (journal : List Line) → AreValid h journal → NetworkChainsHaveTheSteps h journal }
{}

/// `few_network_challenges_are_cleared` likewise.
pub fn few_challenges_of_models_are_cleared()
    ensures { (h : List Entry) (journal : List Line) → AreValid h journal → FewNetworkChallengesAreCleared h journal }
{}
