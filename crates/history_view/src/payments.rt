//! What a payment makes of what is left of its channel's outcome.

ghost use Rattle.std.specs.Prelude.{◌≡◌, ◌≤◌, Some, OnOk};
ghost use Rattle.std.specs.List.{AllByRecursion};
ghost use Rattle.std.specs.Option.{option_to_list};
ghost use Rattle.channel_values.specs.Outcomes.{IsShape, IsAssetOutcome};
ghost use Rattle.call_history.specs.Dues.{shape_in};
ghost use Rattle.call_history.specs.History.{listed_dest, place_in, payment_of};
ghost use Rattle.history_view.specs.Views.{channel_paid, views_with};

use crate::lowering::lowered_outcome;
use call_history::{
    Call, ChannelView, ChannelViews, ClaimCall, Op, Payment, Reply, listed_dest, place_of, shape_in,
};
use channel_values::{AssetOutcome, Dest, NoMemory, Shape};

/// The place of a destination's item in a shape.
fn place_within(shape: &Shape, to: &Dest) -> usize
    requires { IsShape shape.now }
    ensures value { result ≡ place_in (Some shape.now) (Some to.now) }
    ensures fits { result ≤ 16 }
{
    match shape {
        Shape::Allocation(items) => place_of(items.as_slice(), to),
        Shape::Guarantee(_, _) => 0,
    }
}

/// The place of a destination's item among those of an asset.
fn place_among(assets: &[AssetOutcome], asset: u32, to: &Dest) -> usize
    requires { AllByRecursion IsAssetOutcome assets.now }
    ensures value { result ≡ place_in (shape_in assets.now asset) (Some to.now) }
    ensures fits { result ≤ 16 }
{
    match assets {
        [] => 0,
        [first, ..] if first.asset == asset => place_within(&first.shape, to),
        [_, rest @ ..] => place_among(rest, asset, to),
    }
}

/// The place of the item of which an accepted claim pays.
fn claimed_place(claim: &ClaimCall) -> u8
    ensures { result ≡ place_in (shape_in claim.now.target_outcome claim.now.asset)
        (listed_dest (shape_in claim.now.guarantor_outcome claim.now.asset) claim.now.position) }
{
    match listed_dest(
        shape_in(&claim.guarantor_outcome, claim.asset),
        claim.position,
    ) {
        Some(to) => place_among(claim.target_outcome.assets(), claim.asset, &to) as u8,
        None => 0,
    }
}

/// What an accepted transfer or claim pays of an item.
pub(crate) fn payment_of(op: &Op, reply: &Reply) -> Option<Payment>
    ensures { option_to_list result ≡ payment_of op.now reply.now }
{
    match (op, reply) {
        (Op::Call(Call::Transfer(transfer)), Reply::Paid(amount)) => Some(Payment {
            channel: transfer.channel,
            asset: transfer.asset,
            place: transfer.index,
            amount: *amount,
        }),
        (Op::Call(Call::Claim(claim)), Reply::Paid(amount)) => Some(Payment {
            channel: claim.target,
            asset: claim.asset,
            place: claimed_place(claim),
            amount: *amount,
        }),
        _ => None,
    }
}

fn lower_rest(view: &mut ChannelView, payment: Payment) -> Result<(), NoMemory>
    ensures { OnOk result (view.new ≡ channel_paid payment view.old) }
{
    let alloc = view.held.allocator();
    if let Some(rest) = view.rest.take() {
        let lowered = lowered_outcome(
            alloc,
            &rest,
            payment.asset,
            usize::from(payment.place),
            payment.amount,
        )?;
        view.rest = Some(lowered);
    }
    Ok(())
}

/// Lowers what is left of the item that was paid.
pub(crate) fn pay_item(views: &mut ChannelViews, payment: Payment) -> Result<(), NoMemory>
    ensures { OnOk result (views.new ≡ views_with (channel_paid payment) payment.channel views.old) }
{
    let mut view = views.take(&payment.channel)?;
    lower_rest(&mut view, payment)?;
    views.put(view)
}
