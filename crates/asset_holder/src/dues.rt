//! What is due.

ghost use Rattle.std.specs.Prelude.{◌≡◌, ◌<◌, ◌≤◌, ◌+◌, ◌^◌, length, IfOk};
ghost use Rattle.channel_values.specs.Outcomes.{IsShape};
ghost use Rattle.channel_values.specs.declared.value.Shape.TheVariants.{Allocation};
ghost use Rattle.channel_values.specs.Amounts.{due};
ghost use Rattle.channel_values.specs.Places.{dest_in, place_of};
ghost use Rattle.asset_holder.specs.Payments.{amount_of_item};
ghost use Rattle.call_history.specs.Dues.{rest_at, rest_of, transfer_due, claim_due};

use crate::claims::claimable;
use crate::items::affordable;
use crate::paid::PaidItems;
use crate::rests::{rest_of, valid_shape};
use call_history::{Due, Refusal, place_of};
use channel_values::{Dest, Item, Name, Outcome, Shape};

/// The amount due of an item.
fn item_due(
    paid: &PaidItems,
    held: u64,
    channel: &Name,
    items: &[Item],
    asset: u32,
    index: usize,
) -> u64
    requires items { IsShape (Allocation items.now) }
    requires index { index < length items.now }
    ensures value { result ≡ due (rest_at (amount_of_item paid.now channel.now asset) items.now) index held }
    ensures fits { 0 < result → amount_of_item paid.now channel.now asset index + result < 2 ^ 64 }
{
    let rest = rest_of(paid, channel, items, asset);
    affordable(rest.as_slice(), index, held)
}

/// The amount due of a claim for the destination at a position of the list.
fn listed_due(
    paid: &PaidItems,
    held: u64,
    target: &Name,
    items: &[Item],
    list: &[Dest],
    asset: u32,
    position: usize,
) -> u64
    requires items { IsShape (Allocation items.now) }
    requires position { position < length list.now }
    ensures value { result ≡ due (rest_of (amount_of_item paid.now target.now asset) items.now list.now) position held }
    ensures fits { 0 < result
        → amount_of_item paid.now target.now asset (place_of items.now (dest_in list.now position)) + result < 2 ^ 64 }
{
    let rest = rest_of(paid, target, items, asset);
    claimable(rest.as_slice(), list, position, held)
}

/// What a transfer of an item pays, or the first refusal. `paid` is what was paid so far, and `held` what the channel
/// holds of the asset.
pub fn transfer_due(
    paid: &PaidItems,
    held: u64,
    channel: &Name,
    outcome: &Outcome,
    asset: u32,
    index: u8,
) -> Result<Due, Refusal>
    ensures due { result ≡ transfer_due (amount_of_item paid.now channel.now asset) held outcome.now asset index }
    ensures held { IfOk result (λ d. d.amount ≤ held) }
    ensures fits { IfOk result (λ d. amount_of_item paid.now channel.now asset d.place + d.amount < 2 ^ 64) }
{
    let Some(shape) = valid_shape(outcome, asset) else {
        return Err(Refusal::NoAsset);
    };
    let Shape::Allocation(items) = shape else {
        return Err(Refusal::WrongKind);
    };
    let items = items.as_slice();
    if usize::from(index) >= items.len() {
        return Err(Refusal::NoItem);
    }
    let amount = item_due(paid, held, channel, items, asset, usize::from(index));
    if amount == 0 {
        return Err(Refusal::NothingDue(held));
    }
    Ok(Due {
        to: items[usize::from(index)].to,
        place: index,
        amount,
    })
}

/// What a claim for the destination at a position of the guarantor's list pays, or the first refusal. `paid` is what
/// was paid so far, and `held` what the guarantor holds of the asset.
pub fn claim_due(
    paid: &PaidItems,
    held: u64,
    guarantor_outcome: &Outcome,
    target: &Name,
    target_outcome: &Outcome,
    asset: u32,
    position: u8,
) -> Result<Due, Refusal>
    ensures due { result ≡ claim_due (amount_of_item paid.now target.now asset) held
        guarantor_outcome.now target.now target_outcome.now asset position }
    ensures held { IfOk result (λ d. d.amount ≤ held) }
    ensures fits { IfOk result (λ d. amount_of_item paid.now target.now asset d.place + d.amount < 2 ^ 64) }
{
    let Some(promise) = valid_shape(guarantor_outcome, asset) else {
        return Err(Refusal::NoAsset);
    };
    let Some(shape) = valid_shape(target_outcome, asset) else {
        return Err(Refusal::NoAsset);
    };
    let Shape::Guarantee(named, list) = promise else {
        return Err(Refusal::WrongKind);
    };
    let Shape::Allocation(items) = shape else {
        return Err(Refusal::WrongKind);
    };
    if *named != *target {
        return Err(Refusal::WrongTarget);
    }
    let list = list.as_slice();
    let items = items.as_slice();
    if usize::from(position) >= list.len() {
        return Err(Refusal::NotListed);
    }
    let to = list[usize::from(position)];
    let place = place_of(items, &to);
    if place >= items.len() {
        return Err(Refusal::NoItem);
    }
    let amount = listed_due(
        paid,
        held,
        target,
        items,
        list,
        asset,
        usize::from(position),
    );
    if amount == 0 {
        return Err(Refusal::NothingDue(held));
    }
    Ok(Due {
        to,
        place: place as u8,
        amount,
    })
}
