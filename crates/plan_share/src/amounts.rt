//! Which items are for a destination.

ghost use Rattle.std.specs.Prelude.{◌≡◌, ◌≤◌, ◌<◌, ◌^◌};
ghost use Rattle.std.specs.Cmp.Lexicographic.{pointwise};
ghost use Rattle.channel_values.specs.Amounts.{aff};
ghost use Rattle.channel_values.specs.Outcomes.{total, is_same};
ghost use Rattle.share_laws.specs.Funded.{up_to};
ghost use Rattle.share_laws.specs.Worth.{second_amt};
ghost use Rattle.plan_share.specs.Pages.{is_same_item};

use channel_values::{Dest, Item};
use funding_plans::amt;

/// What a reach affords a destination.
pub(crate) fn afforded(items: &[Item], reach: u128, to: &Dest) -> u64
    ensures { result ≡ aff items.now reach to.now }
{
    match items {
        [] => 0,
        [item, others @ ..] => {
            if item.to.is(to) {
                reach.min(item.amount as u128) as u64
            } else {
                afforded(others, reach.saturating_sub(item.amount as u128), to)
            }
        }
    }
}

/// The sum of the items up to a destination's, and with it.
pub(crate) fn sum_up_to(items: &[Item], to: &Dest) -> u64
    requires { total items.now < 2 ^ 64 }
    ensures bound { result ≤ total items.now }
    ensures value { result ≡ up_to items.now to.now }
{
    match items {
        [] => 0,
        [item, others @ ..] => {
            if item.to.is(to) {
                item.amount
            } else {
                item.amount + sum_up_to(others, to)
            }
        }
    }
}

/// The amount of the second destination of a guarantee's list.
pub(crate) fn second_amount(items: &[Item], list: &[Dest]) -> u64
    ensures { result ≡ second_amt items.now list.now }
{
    match list {
        [_, second, ..] => amt(items, second),
        _ => 0,
    }
}

pub(crate) fn are_same_items(items: &[Item], others: &[Item]) -> bool
    ensures { result ≡ pointwise is_same_item items.now others.now }
{
    items == others
}

pub(crate) fn are_same_dests(list: &[Dest], other: &[Dest]) -> bool
    ensures { result ≡ pointwise is_same list.now other.now }
{
    list == other
}
