//! What one more entry makes of a view.

ghost use Rattle.std.specs.Prelude.{◌≡◌, List, [], ◌∷◌, true, OnOk};
ghost use Rattle.channel_values.specs.Rules.{Rules};
ghost use Rattle.call_history.specs.History.{flow_of, payment_of, Legal};
ghost use Rattle.call_history.specs.Rows.{fixed_of};
ghost use Rattle.call_history.specs.Told.{told_row};
ghost use Rattle.call_history.specs.declared.entry.Entry.{Entry as AnEntry};
ghost use Rattle.call_history.specs.Naming.{name_of, NamesChannels};
ghost use Rattle.history_view.specs.Standing.{StandsFor};
ghost use Rattle.history_view.specs.Few.{OfFew};
ghost use Rattle.history_view.specs.Views.{views_turned, views_moved, views_paid, paid_moved, followed, unseen};
ghost use Rattle.history_view.specs.Room.{HaveRoom, turns_short, CanFollow};

use crate::flows::move_funds;
use crate::payments::{pay_item, payment_of};
use crate::turning::turn_channel;
use call_history::{ChannelViews, Entry, Op, PaidAmounts, WorldView, fixed_of, flow_of, time_set};
use channel_values::NoMemory;
use std::alloc::Global;

/// Moves the funds of an accepted call, if it moves any.
fn follow_flow(
    views: &mut ChannelViews,
    paid: &mut PaidAmounts,
    entry: &Entry,
) -> Result<(), NoMemory>
    requires { HaveRoom (flow_of entry.now.op entry.now.reply) views.old paid.old }
    ensures views { OnOk result (views.new ≡ views_moved (flow_of entry.now.op entry.now.reply) views.old) }
    ensures paid { OnOk result (paid.new ≡ paid_moved (flow_of entry.now.op entry.now.reply) paid.old) }
{
    match flow_of(&entry.op, &entry.reply) {
        Some(flow) => move_funds(views, paid, flow),
        None => Ok(()),
    }
}

/// Lowers the item that an accepted call pays, if it pays any.
fn follow_payment(views: &mut ChannelViews, entry: &Entry) -> Result<(), NoMemory>
    ensures { OnOk result (views.new ≡ views_paid (payment_of entry.now.op entry.now.reply) views.old) }
{
    match payment_of(&entry.op, &entry.reply) {
        Some(payment) => pay_item(views, payment),
        None => Ok(()),
    }
}

/// What the entry makes of what is known of channels and of payments. The time is that before it.
fn follow_calls(
    views: &mut ChannelViews,
    paid: &mut PaidAmounts,
    now: u64,
    entry: &Entry,
) -> Result<(), NoMemory>
    requires room { HaveRoom (flow_of entry.now.op entry.now.reply) views.old paid.old }
    requires short { turns_short name_of entry.now.op (fixed_of entry.now.op)
        (told_row now entry.now.op entry.now.reply) views.old ≡ true }
    ensures views { OnOk result (views.new ≡ views_paid (payment_of entry.now.op entry.now.reply)
        (views_moved (flow_of entry.now.op entry.now.reply)
        (views_turned name_of entry.now.op (fixed_of entry.now.op)
        (told_row now entry.now.op entry.now.reply) views.old))) }
    ensures paid { OnOk result (paid.new ≡ paid_moved (flow_of entry.now.op entry.now.reply) paid.old) }
{
    turn_channel(views, now, entry)?;
    follow_flow(views, paid, entry)?;
    follow_payment(views, entry)
}

fn follow_entry(view: &mut WorldView, entry: &Entry) -> Result<(), NoMemory>
    requires room { HaveRoom (flow_of entry.now.op entry.now.reply) view.old.channels view.old.paid }
    requires short { turns_short name_of entry.now.op (fixed_of entry.now.op)
        (told_row view.old.now entry.now.op entry.now.reply) view.old.channels ≡ true }
    ensures { OnOk result (view.new ≡ followed name_of entry.now view.old) }
{
    follow_calls(&mut view.channels, &mut view.paid, view.now, entry)?;
    if let Some(to) = time_set(entry) {
        view.now = to;
    }
    view.count = entry.number;
    Ok(())
}

/// No channel has more than four people.
fn of_few(op: &Op)
    ensures { OfFew (fixed_of op.now) }
{
    if let Some(fixed) = fixed_of(op) {
        let _ = fixed.keys();
    }
}

/// Brings the view forward by the entry that follows on what it has seen. After `NoMemory` it isn't used again.
pub fn follow(view: &mut WorldView, entry: &Entry) -> Result<(), NoMemory>
    requires { CanFollow name_of entry.now view.old }
    ensures followed { OnOk result (view.new ≡ followed name_of entry.now view.old) }

    // Where the entry makes a longer legal history of the one that the view stands for.
    ensures stands { (r : Rules) (h : List AnEntry) → NamesChannels r → StandsFor r h view.old → Legal r (entry.now ∷ h)
        → OnOk result (StandsFor r (entry.now ∷ h) view.new) }
{
    of_few(&entry.op);
    follow_entry(view, entry)
}

/// The view of no entry.
pub fn unseen(alloc: Global) -> WorldView
    ensures unseen { result ≡ unseen }
    ensures stands { (r : Rules) → StandsFor r [] result }
{
    WorldView {
        now: 0,
        count: 0,
        channels: ChannelViews::new(alloc),
        paid: PaidAmounts::new(alloc),
    }
}
