//! What a flow makes of what channels hold and of what persons were paid.

ghost use Rattle.std.specs.Prelude.{◌≡◌, ◌<◌, ◌+◌, ◌^◌, OnOk};
ghost use Rattle.history_view.specs.Views.{held_amount, view_of, channel_gave, channel_got, views_gave, views_got, paid_got, views_with};
ghost use Rattle.history_view.specs.Room.{HasRoom};

use crate::balances::{lower_held, raise_held, raise_paid};
use call_history::{ChannelView, ChannelViews, Flow, PaidAmounts};
use channel_values::{Dest, Name, NoMemory};

fn lower_view(view: &mut ChannelView, asset: u32, amount: u64) -> Result<(), NoMemory>
    ensures { OnOk result (view.new ≡ channel_gave asset amount view.old) }
{
    lower_held(&mut view.held, asset, amount)
}

fn raise_view(view: &mut ChannelView, asset: u32, amount: u64) -> Result<(), NoMemory>
    requires { held_amount view.old.held asset + amount < 2 ^ 64 }
    ensures { OnOk result (view.new ≡ channel_got asset amount view.old) }
{
    raise_held(&mut view.held, asset, amount)
}

/// The source gives, if it is a channel.
fn give(
    views: &mut ChannelViews,
    from: Option<Name>,
    asset: u32,
    amount: u64,
) -> Result<(), NoMemory>
    ensures { OnOk result (views.new ≡ views_gave from asset amount views.old) }
{
    let Some(source) = from else {
        return Ok(());
    };
    let mut view = views.take(&source)?;
    lower_view(&mut view, asset, amount)?;
    views.put(view)
}

/// A channel receives.
fn receive(
    views: &mut ChannelViews,
    channel: &Name,
    asset: u32,
    amount: u64,
) -> Result<(), NoMemory>
    requires { held_amount (view_of views.old channel.now).held asset + amount < 2 ^ 64 }
    ensures { OnOk result (views.new ≡ views_with (channel_got asset amount) channel.now views.old) }
{
    let mut view = views.take(channel)?;
    raise_view(&mut view, asset, amount)?;
    views.put(view)
}

/// The destination receives.
fn deliver(
    views: &mut ChannelViews,
    paid: &mut PaidAmounts,
    to: Dest,
    asset: u32,
    amount: u64,
) -> Result<(), NoMemory>
    requires { HasRoom to asset amount views.old paid.old }
    ensures views { OnOk result (views.new ≡ views_got to asset amount views.old) }
    ensures paid { OnOk result (paid.new ≡ paid_got to asset amount paid.old) }
{
    match to {
        Dest::Person(person) => raise_paid(paid, &person, asset, amount),
        Dest::Channel(channel) => receive(views, &channel, asset, amount),
    }
}

/// Moves funds from their source to their destination.
pub(crate) fn move_funds(
    views: &mut ChannelViews,
    paid: &mut PaidAmounts,
    flow: Flow,
) -> Result<(), NoMemory>
    requires { HasRoom flow.to flow.asset flow.amount
        (views_gave flow.from flow.asset flow.amount views.old) paid.old }
    ensures views { OnOk result (views.new
        ≡ views_got flow.to flow.asset flow.amount (views_gave flow.from flow.asset flow.amount views.old)) }
    ensures paid { OnOk result (paid.new ≡ paid_got flow.to flow.asset flow.amount paid.old) }
{
    give(views, flow.from, flow.asset, flow.amount)?;
    deliver(views, paid, flow.to, flow.asset, flow.amount)
}
