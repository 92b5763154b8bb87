//! What people vote for is what the laws on moves ask for.

ghost use Rattle.share_laws.specs.Targets.{ApartFits, JointFits, SetAsideFits, TakenBackFits, TogetherFits};

/// What a ledger of two people sets aside, and what goes back of it, is a move of the ledger for each of the two.
pub fn ledger_targets_fit()
    ensures set_aside { SetAsideFits }
    ensures taken_back { TakenBackFits }
{}

/// The outcomes of a joint channel pay the ends and the intermediary apart or together.
pub fn joint_targets_fit()
    ensures apart { ApartFits }
    ensures together { TogetherFits }
    ensures between { JointFits }
{}
