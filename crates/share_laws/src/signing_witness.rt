//! The premises of the laws on moves can hold together.

ghost use Rattle.share_laws.specs.Witness.{PremisesHold};

/// In a small plan that is funded, a ledger sets money aside for a channel and a joint channel joins what two ledgers
/// guarantee, and both are fair.
pub fn premises_can_hold()
    ensures { PremisesHold }
{}
