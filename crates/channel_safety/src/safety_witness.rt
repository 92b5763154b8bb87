//! The premises of the laws can hold together.

ghost use Rattle.channel_safety.specs.SafetyWitness.{RunsOutSafely};

/// There are rules, a history and a journal under which every premise holds, and in which a challenge of a channel of
/// the participant runs out.
pub fn premises_can_hold()
    ensures { RunsOutSafely }
{}
