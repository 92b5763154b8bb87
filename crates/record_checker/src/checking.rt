//! The verdict on a record.

ghost use Rattle.std.specs.Prelude.{◌≡◌, ◌↔◌, IfOk};
ghost use Rattle.call_history.specs.Flows.{AreWithinAmounts};
ghost use Rattle.call_history.specs.History.{newest_first, flows_of};
ghost use Rattle.run_record.specs.Sound.{IsLegal, HasPlan, HasShares, HasSums, sums_wanted};
ghost use Rattle.record_checker.specs.Faults.{Says, Differs, Lacks};

use crate::comparing::first_difference;
use crate::past::Past;
use crate::plans::first_bad_plan;
use crate::shares::first_bad_share;
use crate::walking::{Walked, walk_through};
use asset_holder::Balances;
use call_history::Flow;
use channel_values::NoMemory;
use run_record::{Record, sums_of};
use std::alloc::Global;

/// What is said of a record.
#[derive(Clone, Copy, Debug, PartialEq, Eq)]
pub enum Verdict {
    Sound,
    /// The number of the first entry that doesn't have its number, or whose reply isn't the adjudicator's.
    Reply(usize),
    /// The place, from 0, at which the sums are first other than those of the flows.
    Sums(usize),
    /// The place of the first ending whose plan doesn't keep the conditions of a share.
    Plan(usize),
    /// The place of the first ending whose shares aren't those of its plan.
    Share(usize),
}

/// The first ending whose plan doesn't keep the conditions of a share.
#[tactic(auto, using(crate::proofs::Lacking::plans_told))]
fn plan_fault(alloc: Global, value: &Record, past: &Past) -> Result<Option<usize>, NoMemory>
    requires { past.now ≡ newest_first value.now.history }
    ensures { IfOk result (Lacks (HasPlan value.now.history) value.now.ends) }
{
    first_bad_plan(alloc, past, value.ends.as_slice())
}

/// The first ending whose shares aren't those of its plan.
fn share_fault(
    alloc: Global,
    value: &Record,
    past: &Past,
    balances: &Balances,
) -> Result<Option<usize>, NoMemory>
    requires past { past.now ≡ newest_first value.now.history }
    requires flows { balances.now ≡ flows_of value.now.history }
    ensures { IfOk result (Lacks (HasShares value.now.history) value.now.ends) }
{
    let assets = balances.listed_assets(alloc)?;
    first_bad_share(alloc, past, &assets, value.ends.as_slice())
}

/// The verdict on the endings, where the history is legal and the sums are those of its flows.
fn check_ends(
    alloc: Global,
    value: &Record,
    past: &Past,
    balances: &Balances,
) -> Result<Verdict, NoMemory>
    requires summed { HasSums value.now }
    requires past { past.now ≡ newest_first value.now.history }
    requires flows { balances.now ≡ flows_of value.now.history }
    ensures { IfOk result (λ verdict. Says verdict value.now) }
{
    if let Some(place) = plan_fault(alloc, value, past)? {
        return Ok(Verdict::Plan(place));
    }
    match share_fault(alloc, value, past, balances)? {
        Some(place) => Ok(Verdict::Share(place)),
        None => Ok(Verdict::Sound),
    }
}

/// The first place at which the sums aren't those of the flows.
fn sum_fault(alloc: Global, value: &Record, balances: &Balances) -> Result<Option<usize>, NoMemory>
    requires flows { balances.now ≡ flows_of value.now.history }
    requires within { AreWithinAmounts balances.now }
    ensures { IfOk result (Differs value.now.sums (sums_wanted value.now.history)) }
{
    let wanted = sums_of(alloc, balances)?;
    Ok(first_difference(value.sums.as_slice(), &wanted))
}

/// The verdict on the sums and the endings, where the history is legal.
fn check_sums(
    alloc: Global,
    value: &Record,
    past: &Past,
    flows: Vec<Flow>,
) -> Result<Verdict, NoMemory>
    requires legal { IsLegal value.now.history }
    requires past { past.now ≡ newest_first value.now.history }
    requires flows { flows.items ≡ flows_of value.now.history }
    requires within { AreWithinAmounts flows.items }
    ensures { IfOk result (λ verdict. Says verdict value.now) }
{
    let balances = Balances::of(alloc, flows)?;
    match sum_fault(alloc, value, &balances)? {
        Some(place) => Ok(Verdict::Sums(place)),
        None => check_ends(alloc, value, past, &balances),
    }
}

/// What is said of a record: that it is sound, or its first fault.
#[tactic(auto, using(call_history::proofs::Conservation::within_in_time, crate::proofs::Faults::one_verdict))]
pub fn check_record(alloc: Global, value: &Record) -> Result<Verdict, NoMemory>
    ensures says { IfOk result (λ verdict. Says verdict value.now) }

    // No other verdict holds of it.
    ensures exact { IfOk result (λ verdict. (v : Verdict) → (verdict ≡ v) ↔ Says v value.now) }
{
    match walk_through(alloc, value.history.as_slice())? {
        Walked::Wrong(number) => Ok(Verdict::Reply(number)),
        Walked::Whole(past, flows) => check_sums(alloc, value, &past, flows),
    }
}
