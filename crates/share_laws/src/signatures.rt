//! The laws at a place: after so many entries, when a participant signs a state.

ghost use Rattle.share_laws.specs.Signatures.{PaymentsLowerSharesBy, SignaturesKeepShares};
ghost use Rattle.share_laws.specs.Votes.{MovesEndAsWanted, VotesKeepShares};

/// Where a participant's plan is funded, a state that it signs lowers its share in no asset. That is so if each
/// outcome with which the channel can end then is fair, or the channel only starts to count.
pub fn signatures_keep_shares()
    ensures { SignaturesKeepShares }
{}

/// A state by which it pays lowers its share in each asset by no more than what it pays of that.
pub fn payments_lower_shares_by()
    ensures { PaymentsLowerSharesBy }
{}

/// The move toward a target is a pass, a veto, a proposal or a vote. It can end with the outcome that it follows or
/// with the target, so it keeps the share where the target is fair.
pub fn votes_keep_shares()
    ensures ends { MovesEndAsWanted }
    ensures shares { VotesKeepShares }
{}
