//! Laws alone: in a race the network's node is safe and its person keeps its share, with no premise that its watchers
//! are in time. Each function is empty: its contract is the law.

ghost use Rattle.network_node.specs.RaceFairnessLaws.{RacedPlansKeepShares, RacingNodesAreInTime, RacingNodesAreSafe, RacingNodesKeepShares};

/// In a race nobody lowers the share of a node's person, its own signatures only as far as they may, and an exit pays
/// it. Nothing is forged, no hashed strings collide, and its channels have durations of two or more.
pub fn raced_plans_keep_shares()
    ensures { RacedPlansKeepShares }
{}

/// The watchers of a node of a world are in time, likewise, whether memory failed the node or not.
pub fn racing_nodes_are_in_time()
    ensures { RacingNodesAreInTime }
{}

/// So no channel of its person becomes final with an outcome older than its newest supported state.
pub fn racing_nodes_are_safe()
    ensures { RacingNodesAreSafe }
{}

/// And nobody lowers its person's share, and it can leave with it.
pub fn racing_nodes_keep_shares()
    ensures { RacingNodesKeepShares }
{}
