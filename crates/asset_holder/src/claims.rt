//! Destinations that are paid in the order of a guarantee's list.

ghost use Rattle.std.specs.Prelude.{◌≡◌, ◌<◌, length};
ghost use Rattle.channel_values.specs.Amounts.{amt, due};
ghost use Rattle.channel_values.specs.Places.{dest_in};

use channel_values::{Dest, Item};

/// The amount of a destination's item, or 0.
fn amount_for(items: &[Item], to: &Dest) -> u64
    ensures { result ≡ amt items.now to.now }
{
    match items {
        [] => 0,
        [first, _rest @ ..] if first.to.is(to) => first.amount,
        [_, rest @ ..] => amount_for(rest, to),
    }
}

/// The least of the target's amount for the destination at a position of the list, and what a balance leaves above
/// the target's amounts for the destinations before it. A destination without an item has amount 0.
#[tactic(auto, using(channel_values::proofs::Before::before_more))]
pub fn claimable(target_items: &[Item], list: &[Dest], position: usize, balance: u64) -> u64
    requires { position < length list.now }
    ensures { result ≡ due (λ k. amt target_items.now (dest_in list.now k)) position balance }
{
    let mut left = balance;
    for k in 0..position {
        left = left.saturating_sub(amount_for(target_items, &list[k]));
    }
    amount_for(target_items, &list[position]).min(left)
}
