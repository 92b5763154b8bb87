//! Laws of the text. Each function is empty: its contract is the law.

ghost use Rattle.std.specs.Prelude.{List};
ghost use Rattle.call_history.specs.Flows.{AreConserved};
ghost use Rattle.call_history.specs.History.{Legal, newest_first, flows_of};
ghost use Rattle.call_history.specs.declared.entry.Entry.{Entry};
ghost use Rattle.call_history.specs.declared.funds.Flow.{Flow};
ghost use Rattle.support_rules.specs.Real.{real};
ghost use Rattle.report_text.specs.Printed.{AssetsAreThoseDeposited, ReceiversComeOnce};

/// The assets of a legal history are printed rising, and they are exactly those of which something was deposited.
pub fn printed_assets_are_those_deposited()
    ensures { (h : List Entry) → Legal real (newest_first h) → AssetsAreThoseDeposited h }
{}

/// Each balance is printed once, in the order in which its owner first received something of the asset.
pub fn printed_balances_come_once()
    ensures { (flows : List Flow) → ReceiversComeOnce flows }
{}

/// Of each asset of a legal history, what is printed as deposited is what is printed as held and as paid.
#[tactic(auto, using(crate::proofs::Numbers::conserved_in_time))]
pub fn printed_numbers_are_conserved()
    ensures { (h : List Entry) → Legal real (newest_first h) → AreConserved (flows_of h) }
{}
