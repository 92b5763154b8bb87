//! What an outcome has for an asset, and what is left of it.

ghost use Rattle.std.specs.Prelude.{◌≡◌, ◌≤◌, length, Some, None, MatchOption};
ghost use Rattle.channel_values.specs.Outcomes.{IsShape};
ghost use Rattle.asset_holder.specs.Payments.{amount_of_item};
ghost use Rattle.call_history.specs.Dues.{shape_in};
ghost use Rattle.call_history.specs.Rest.{less_paid};

use crate::paid::PaidItems;
use arrayvec::ArrayVec;
use call_history::shape_in;
use channel_values::{Item, Name, Outcome, Shape};

/// What an outcome has for an asset. It keeps the limits of outcomes.
pub(crate) fn valid_shape(outcome: &Outcome, asset: u32) -> Option<&Shape>
    ensures found { MatchOption result (shape_in outcome.now asset ≡ None)
        (λ s. shape_in outcome.now asset ≡ Some s.now) }
    ensures valid { MatchOption result (Unit {0}) (λ s. IsShape s.now) }
{
    let _assets = outcome.assets();
    shape_in(outcome, asset)
}

/// The items of a channel's outcome for an asset, less what was paid of them.
pub(crate) fn rest_of(
    paid: &PaidItems,
    channel: &Name,
    items: &[Item],
    asset: u32,
) -> ArrayVec<Item, 16>
    requires { length items.now ≤ 16 }
    ensures { result.items ≡ less_paid (amount_of_item paid.now channel.now asset) 0 items.now }
{
    let mut rest = ArrayVec::new();
    for (place, item) in items.iter().enumerate() {
        let paid = paid.paid_of(channel, asset, place as u8);
        rest.push(Item {
            to: item.to,
            amount: item.amount.saturating_sub(paid),
        });
    }
    rest
}
