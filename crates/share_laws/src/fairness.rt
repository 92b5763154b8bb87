//! What an honest participant signs is fair to its share.

ghost use Rattle.share_laws.specs.Fairly.{SignersAreFair, SignersAreFairAtPlaces};

/// A participant that signs well, in a channel of its own that isn't final and goes on to count, is fair to its
/// share. A payment lowers the share by no more than what was ordered. No other state lowers it where the plan is
/// funded. To sign well is to sign the first states of a channel, to repeat an outcome, or to pay what was ordered.
/// It is also to move toward what a ledger or a joint channel has for a part of the plan.
pub fn signers_are_fair()
    ensures line { SignersAreFair }
    ensures places { SignersAreFairAtPlaces }
{}
