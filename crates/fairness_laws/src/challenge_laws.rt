//! Laws alone: a node calls no challenge but one that it signed right before, as itself.

ghost use Rattle.fairness_laws.specs.Owning.{NodesStandOwning, NodesCallTheirOwn};

/// Whatever comes to a node of a legal history, it stands for that history. Unless memory failed it, each challenge
/// that it called was signed right before, for the newest state of its chain, at its own place in the channel.
pub fn nodes_call_own_challenges()
    ensures keeps { NodesStandOwning }
    ensures calls { NodesCallTheirOwn }
{}
