//! What a participant wants to sign keeps its share.

ghost use Rattle.share_laws.specs.Wanted.{FirstStatesKeepShares, PaymentsAfford, WantedRepeatsKeepShares, WantedVotesKeepShares};

/// The move toward a target that a ledger or a joint channel has for a part of a funded plan keeps the share. So does
/// a state that repeats an outcome.
pub fn wanted_states_keep_shares()
    ensures votes { WantedVotesKeepShares }
    ensures repeats { WantedRepeatsKeepShares }
    ensures first { FirstStatesKeepShares }
{}

/// A payment of k lowers what the items afford its person by at most k.
pub fn payments_afford()
    ensures { PaymentsAfford }
{}
