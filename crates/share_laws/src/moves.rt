//! What a participant's own signature moves, under one choice of what its channels end with.

ghost use Rattle.share_laws.specs.SigningLaws.{FairMovesKeepWorth, JointMovesKeepWorth, LedgerMovesKeepWorth, PaymentsLowerWorth};

/// A ledger may set money aside for a part of the plan, or take it back. A joint channel may join what its guarantors
/// guarantee, or part it. Neither changes what the plan is worth, where the ledgers are funded.
pub fn moves_keep_worth()
    ensures ledgers { LedgerMovesKeepWorth }
    ensures joints { JointMovesKeepWorth }
    ensures fair { FairMovesKeepWorth }
{}

/// A payment lowers what the plan is worth by no more than what is paid.
pub fn payments_lower_worth()
    ensures { PaymentsLowerWorth }
{}
