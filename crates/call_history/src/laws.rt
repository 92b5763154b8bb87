//! Laws over every legal history, and of the formats. Each function is empty: its contract is the law.

ghost use Rattle.std.specs.Prelude.{List};
ghost use Rattle.channel_values.specs.Rules.{Rules};
ghost use Rattle.call_history.specs.Flows.{AreCovered};
ghost use Rattle.call_history.specs.History.{Legal, flows_of, IsConserved, IsWithinDeposits, PaysWhatIsHeld};
ghost use Rattle.call_history.specs.Payouts.{TransferLowersBoth, ClaimLowersBoth};
ghost use Rattle.call_history.specs.declared.entry.Entry.{Entry};
ghost use Rattle.channel_values.specs.Spelled.{SpelledOnce, WrittenBack, ReadAgain, FrontsFail, TrailingFails};
ghost use Rattle.call_history.specs.Spelling.{call, message};
ghost use Rattle.call_history.specs.Limits.{IsCall, IsMessage};
ghost use Rattle.call_history.specs.Reading.{call_of, message_of};
ghost use Rattle.call_history.specs.Same.{SameCallsAreOne};

/// Of each asset, what was deposited is what the channels hold and the persons were paid.
#[tactic(auto, using(crate::proofs::Conservation::conserved))]
pub fn every_legal_history_conserves()
    ensures { (r : Rules) (h : List Entry) → Legal r h → IsConserved h }
{}

/// No channel holds, and no person was paid, more of an asset than was deposited of it.
#[tactic(auto, using(crate::proofs::Conservation::within_deposits))]
pub fn nobody_holds_more_than_was_deposited()
    ensures { (r : Rules) (h : List Entry) → Legal r h → IsWithinDeposits h }
{}

/// A transfer and a claim pay at most what the paying channel holds, so over every legal history no channel paid out
/// more than it received.
#[tactic(auto, using(crate::proofs::Legality::pays_what_is_held, crate::proofs::Legality::covered))]
pub fn no_channel_pays_more_than_it_holds()
    ensures each { (r : Rules) (h : List Entry) → PaysWhatIsHeld r h }
    ensures all { (r : Rules) (h : List Entry) → Legal r h → AreCovered (flows_of h) }
{}

/// What an accepted transfer or claim pays is taken from one item's rest and from what one channel holds: both are
/// lowered by it.
pub fn payouts_lower_both()
    ensures transfer { (r : Rules) (h : List Entry) → TransferLowersBoth r h }
    ensures claim { (r : Rules) (h : List Entry) → ClaimLowersBoth r h }
{}

/// A call and its bytes determine each other.
pub fn laws_of_calls()
    ensures once { SpelledOnce call IsCall }
    ensures back { WrittenBack call_of call }
    ensures again { ReadAgain call_of call IsCall }
    ensures fronts { FrontsFail call_of }
    ensures trailing { TrailingFails call_of call IsCall }
{}

/// A message and its bytes determine each other.
pub fn laws_of_messages()
    ensures once { SpelledOnce message IsMessage }
    ensures back { WrittenBack message_of message }
    ensures again { ReadAgain message_of message IsMessage }
    ensures fronts { FrontsFail message_of }
    ensures trailing { TrailingFails message_of message IsMessage }
{}

/// `same_call` answers true of two calls exactly where they are one.
pub fn same_calls_are_one()
    ensures { SameCallsAreOne }
{}
