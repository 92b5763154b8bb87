//! Items that are paid in their order.

ghost use Rattle.std.specs.Prelude.{◌≡◌, ◌<◌, ◌≤◌, length};
ghost use Rattle.channel_values.specs.Amounts.{due};
ghost use Rattle.channel_values.specs.Places.{amount_at};
ghost use Rattle.asset_holder.specs.Lowered.{lowered};

use channel_values::Item;

/// The least of an item's amount and what a balance leaves above the items before it.
#[tactic(auto, using(channel_values::proofs::Before::before_more))]
pub fn affordable(items: &[Item], index: usize, balance: u64) -> u64
    requires { index < length items.now }
    ensures { result ≡ due (amount_at items.now) index balance }
{
    let mut left = balance;
    for place in 0..index {
        left = left.saturating_sub(items[place].amount);
    }
    items[index].amount.min(left)
}

/// That item falls by the amount; the rest stays.
pub fn lower(items: &mut [Item], index: usize, amount: u64)
    requires index { index < length items.old }
    requires within { amount ≤ amount_at items.old index }
    ensures { items.new ≡ lowered items.old index amount }
{
    items[index].amount -= amount;
}
