//! The deposits and transfers of a channel that holds its own funds.

ghost use Rattle.std.specs.Prelude.{◌≡◌, ◌≤◌, ◌<◌, ◌^◌};
ghost use Rattle.channel_values.specs.Amounts.{aff};
ghost use Rattle.channel_values.specs.Outcomes.{total};
ghost use Rattle.ledger_channel.specs.Roots as roots;

use channel_values::{Dest, Item};

/// What is held of an asset.
pub(crate) fn held_of(held: &[(u32, u64)], asset: u32) -> u64
    ensures { result ≡ roots.held_of asset held.now }
{
    match held {
        [] => 0,
        [first, others @ ..] => {
            if first.0 == asset {
                first.1
            } else {
                held_of(others, asset)
            }
        }
    }
}

/// The sum of the items before a destination's.
pub(crate) fn ahead_of(items: &[Item], to: &Dest) -> u64
    requires { total items.now < 2 ^ 64 }
    ensures bound { result ≤ total items.now }
    ensures value { result ≡ roots.ahead_of items.now to.now }
{
    match items {
        [] => 0,
        [item, others @ ..] => {
            if item.to.is(to) {
                0
            } else {
                item.amount + ahead_of(others, to)
            }
        }
    }
}

/// What a balance affords a destination.
pub(crate) fn afforded(items: &[Item], balance: u64, to: &Dest) -> u64
    ensures { result ≡ aff items.now balance to.now }
{
    match items {
        [] => 0,
        [item, others @ ..] => {
            if item.to.is(to) {
                item.amount.min(balance)
            } else {
                afforded(others, balance.saturating_sub(item.amount), to)
            }
        }
    }
}
