//! Laws alone: what a node with the network's tables signs, calls, takes and sees of a direct payment channel of two
//! people. That is at each stage of the channel, over any rules of channels.

ghost use Rattle.script_run.specs.Signed.{PairsSign};
ghost use Rattle.script_run.specs.Taken.{RootsTake};

/// While a direct payment channel opens, each of its two people signs its states of the set-up, and then the channel
/// runs. From Close on each signs a final state at its turn.
pub fn pairs_sign()
    ensures { PairsSign }
{}

/// The table of its partner takes what one node wants in a channel that holds its own funds, where both know the same
/// of it.
pub fn roots_take()
    ensures { RootsTake }
{}
