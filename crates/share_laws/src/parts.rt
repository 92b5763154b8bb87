//! What a part of the plan has, whatever the other channels end with.

ghost use Rattle.share_laws.specs.Nominal.{FundedIsNominal};
ghost use Rattle.share_laws.specs.Settled.{EndsAsItCan, HasBacks, MayJoins};

/// A channel that can end in one way ends so under each choice.
pub fn channels_end_as_they_can()
    ensures { EndsAsItCan }
{}

/// What a part has of a ledger, and what its joint channel may pay, by its channels that can end in one way, it has
/// under each choice.
pub fn parts_have_it_at_each_choice()
    ensures backs { HasBacks }
    ensures joins { MayJoins }
{}

/// A funded part that its ledgers name is worth what its outcomes pay.
pub fn funded_parts_are_worth_their_amounts()
    ensures { FundedIsNominal }
{}
