//! Laws alone: what a node does with the network's own rules and tables keeps its standing. Each function is empty: its
//! contract is the law.

ghost use Rattle.node_guarantees.specs.Commanded.{NodesFollowCommands};
ghost use Rattle.node_guarantees.specs.WayLaws.{NodesAreKept};

/// Whatever a node is commanded, handed or shown of a legal history, it stands for that history, and its journal is
/// honest.
pub fn nodes_are_kept()
    ensures { NodesAreKept }
{}

/// Each event of its journal stands with the command of its step.
pub fn nodes_follow_commands()
    ensures { NodesFollowCommands }
{}
