//! What the histories of shared adjudicators are. The function is empty: its contract is the law.

ghost use Rattle.adjudicator.specs.Shared.{SharedHistoriesAreLegal};

/// A legal history of a book over an adjudicator is a legal history: each entry has its number, and the reply that the
/// definition of the adjudicator gives.
pub fn shared_histories_are_legal()
    ensures { SharedHistoriesAreLegal }
{}
