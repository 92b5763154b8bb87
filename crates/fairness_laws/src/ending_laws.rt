//! A law alone: a checker finds no fault in how a person with a node ended. The function is empty: its contract is
//! the law.

ghost use Rattle.fairness_laws.specs.EndingLaws.{NodesEndWell};

/// In its plan each channel stands once, each ledger stands before the parts on it, and at most two channels can end
/// with two outcomes. Its shares follow from the plan and the states that it signed last. So it is where nothing is
/// forged and no hashed strings collide, those of its key and of all that its commands name among them.
pub fn nodes_end_well()
    ensures { NodesEndWell }
{}
