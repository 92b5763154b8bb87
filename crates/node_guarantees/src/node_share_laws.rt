//! Laws alone: what a node knows says what its person can get. Each function is empty: its contract is the law.

ghost use Rattle.node_guarantees.specs.NodeShareLaws.{NodesTellShares, PlacesTellShares, UnheldIsNothing};

/// At each place of a legal history and of a journal that a node's rules give, what it knows there determines three
/// things. They are which channels count, the share of its person in each asset, and whether the plan is funded.
pub fn places_tell_shares()
    ensures { PlacesTellShares }
{}

/// So does a node that stands for a legal history and followed all of it.
pub fn nodes_tell_shares()
    ensures { NodesTellShares }
{}

/// Of an asset that no channel holds or held, by what the node knows at such a place, the share of its person is 0.
pub fn unheld_is_nothing()
    ensures { UnheldIsNothing }
{}
