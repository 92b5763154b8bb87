//! What a participant's own signature does to its share.

ghost use Rattle.share_laws.specs.SigningLaws.{PaymentsLowerShares, SigningsKeepShares, StartsKeepShares};

/// Where a plan is funded, what a participant signs in a channel doesn't lower its share, by what can come of it
/// under each choice. Each such outcome could come before, affords no less, or is a ledger's or a joint channel's
/// move.
pub fn signings_keep_shares()
    ensures { SigningsKeepShares }
{}

/// A payment lowers the share by no more than what is paid, whether the plan is funded or not.
pub fn payments_lower_shares()
    ensures { PaymentsLowerShares }
{}

/// A channel that starts to count lowers no share.
pub fn starts_keep_shares()
    ensures { StartsKeepShares }
{}
