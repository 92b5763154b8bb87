//! What steps and supported chains keep for each participant.

ghost use Rattle.channel_values.specs.Rules.{KeepsFinal};
ghost use Rattle.support_rules.specs.Real.{real};
ghost use Rattle.support_rules.specs.May.{StepsKeepMay, SupportKeepsMay};

/// A final state stays final and keeps its outcome, and no step leads to a final state before turn 2n.
pub fn finality_is_kept()
    ensures { KeepsFinal real }
{}

/// What others sign after a participant's last state ends in an outcome that was possible then, or in a payment
/// channel in one that is no worse.
pub fn steps_keep_may()
    ensures { StepsKeepMay }
{}

/// What a supported chain ends with was possible at the state that a participant's mark stands on, where that is of
/// one of its own turns, or in a payment channel is no worse.
pub fn support_keeps_may()
    ensures { SupportKeepsMay }
{}
