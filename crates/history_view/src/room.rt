//! Whether a view can follow an entry.

ghost use Rattle.std.specs.Prelude.{◌≡◌, ◌↔◌, IsTrue};
ghost use Rattle.call_history.specs.Flows.{comes_from};
ghost use Rattle.std.specs.Option.{option_map};
ghost use Rattle.call_history.specs.History.{flow_of};
ghost use Rattle.call_history.specs.Naming.{name_of};
ghost use Rattle.call_history.specs.Rows.{fixed_of};
ghost use Rattle.call_history.specs.Told.{told_row};
ghost use Rattle.history_view.specs.Views.{view_of, views_gave, held_amount};
ghost use Rattle.history_view.specs.Room.{HasRoom, HaveRoom, is_short, turns_short, CanFollow};

use crate::readers::{held_amount, paid_amount, view_of};
use call_history::{Call, Entry, Flow, Op, WorldView, fixed_of, flow_of, told_row};
use channel_values::{Chain, Dest, Name, channel_name};

fn is_source(from: Option<Name>, channel: &Name) -> bool
    ensures { result ≡ comes_from channel.now from }
{
    match from {
        Some(source) => source == *channel,
        None => false,
    }
}

/// What the channel holds of the asset once the source has given.
#[tactic(auto, using(crate::proofs::Rooms::held_of_source, crate::proofs::Rooms::held_of_other))]
fn held_after(view: &WorldView, from: Option<Name>, channel: &Name, asset: u32, amount: u64) -> u64
    ensures { result
        ≡ held_amount (view_of (views_gave from asset amount view.entry.now.channels) channel.now).held asset }
{
    let held = held_amount(view, channel, asset);
    if is_source(from, channel) {
        held.saturating_sub(amount)
    } else {
        held
    }
}

fn has_room(view: &WorldView, flow: Flow) -> bool
    ensures { IsTrue result
        ↔ HasRoom flow.to flow.asset flow.amount
        (views_gave flow.from flow.asset flow.amount view.entry.now.channels) view.entry.now.paid }
{
    match flow.to {
        Dest::Person(person) => flow.amount <= u64::MAX - paid_amount(view, &person, flow.asset),
        Dest::Channel(channel) => flow.amount
            <= u64::MAX - held_after(view, flow.from, &channel, flow.asset, flow.amount),
    }
}

fn have_room(view: &WorldView, entry: &Entry) -> bool
    ensures { IsTrue result
        ↔ HaveRoom (flow_of entry.now.op entry.now.reply) view.entry.now.channels view.entry.now.paid }
{
    match flow_of(&entry.op, &entry.reply) {
        Some(flow) => has_room(view, flow),
        None => true,
    }
}

/// The chain that is shown of the channel.
fn shown_of<'a>(view: &'a WorldView, channel: &Name) -> Option<&'a Chain>
    ensures { option_map (λ m. m.now) result ≡ (view_of view.entry.now.channels channel.now).shown }
{
    match view_of(view, channel) {
        None => None,
        Some(known) => known.shown.as_ref(),
    }
}

fn is_short(op: &Op, shown: Option<&Chain>) -> bool
    ensures { result ≡ is_short op.now (option_map (λ m. m.now) shown.entry) }
{
    match (op, shown) {
        (Op::Call(Call::Respond(_)), Some(chain)) => chain.states.as_slice().len() <= 255,
        _ => true,
    }
}

/// Whether the entry's answer, if it gives one, has room on the chain that is shown.
fn turns_short(view: &WorldView, entry: &Entry) -> bool
    ensures { result ≡ turns_short name_of entry.now.op (fixed_of entry.now.op)
        (told_row view.entry.now.now entry.now.op entry.now.reply) view.entry.now.channels }
{
    let Some(fixed) = fixed_of(&entry.op) else {
        return true;
    };
    if told_row(view.now, entry).is_none() {
        return true;
    }
    is_short(&entry.op, shown_of(view, &channel_name(fixed.bytes())))
}

/// Whether the entry is the next one, what its call pays has room where it goes, and its answer has room on its chain.
pub fn can_follow(view: &WorldView, entry: &Entry) -> bool
    ensures { IsTrue result ↔ CanFollow name_of entry.now view.entry.now }
{
    entry.number > 0
        && entry.number - 1 == view.count
        && have_room(view, entry)
        && turns_short(view, entry)
}
