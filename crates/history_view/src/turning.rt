//! What a turning call makes of what is known of its channel.

ghost use Rattle.std.specs.Prelude.{◌≡◌, true, IfOk, OnOk};
ghost use Rattle.channel_values.specs.Rules.{top_outcome};
ghost use Rattle.call_history.specs.History.{settles};
ghost use Rattle.call_history.specs.Rows.{fixed_of};
ghost use Rattle.call_history.specs.Told.{told_row};
ghost use Rattle.call_history.specs.Naming.{name_of};
ghost use Rattle.history_view.specs.Views.{newer_shown, shown_after, channel_turned, view_of, views_with, views_turned};
ghost use Rattle.history_view.specs.Room.{is_short, turns_short};

use crate::lowering::outcome_of;
use call_history::{
    Call, ChallengeCall, ChannelView, ChannelViews, Entry, Op, answered, fixed_of, newest,
    told_row, top_turn,
};
use channel_values::{Chain, Name, NoMemory, Outcome, channel_name};
use std::alloc::Global;

/// The newer chain, at equal turns the later one.
fn newer_shown(before: Option<Chain>, chain: &Chain) -> Result<Chain, NoMemory>
    ensures { IfOk result (λ c. c ≡ newer_shown before chain.now) }
{
    let Some(shown) = before else {
        return chain.copy();
    };
    if top_turn(chain.states.as_slice()) < top_turn(shown.states.as_slice()) {
        Ok(shown)
    } else {
        chain.copy()
    }
}

/// The chain that is shown after an accepted turning call.
fn shown_after(op: &Op, before: Option<Chain>) -> Result<Option<Chain>, NoMemory>
    requires { is_short op.now before ≡ true }
    ensures { IfOk result (λ shown. shown ≡ shown_after op.now before) }
{
    match op {
        Op::Call(
            Call::Challenge(ChallengeCall { chain, .. })
            | Call::Checkpoint { chain }
            | Call::Conclude { chain },
        ) => {
            let newer = newer_shown(before, chain)?;
            Ok(Some(newer))
        }
        Op::Call(Call::Respond(respond)) => match before {
            None => Ok(None),
            Some(shown) => {
                let next = respond.next.copy()?;
                let longer = answered(&respond.fixed, shown, next)?;
                Ok(Some(longer))
            }
        },
        _ => Ok(before),
    }
}

/// The outcome of a chain's last state; that of a chain of no state is empty.
fn top_outcome(alloc: Global, chain: &Chain) -> Result<Outcome, NoMemory>
    ensures { IfOk result (λ outcome. outcome ≡ top_outcome chain.now.states) }
{
    match newest(chain.states.as_slice()) {
        Some(last) => last.outcome().copy(),
        None => outcome_of(alloc, Vec::new(alloc)),
    }
}

/// The outcome that the channel settles on after an accepted turning call.
fn settled_after(
    alloc: Global,
    op: &Op,
    before: Option<Outcome>,
) -> Result<Option<Outcome>, NoMemory>
    ensures { IfOk result (λ settled. settled ≡ settles op.now before) }
{
    match op {
        Op::Call(Call::Challenge(ChallengeCall { chain, .. }) | Call::Conclude { chain }) => {
            let outcome = top_outcome(alloc, chain)?;
            Ok(Some(outcome))
        }
        _ => Ok(before),
    }
}

fn turn_view(
    view: &mut ChannelView,
    op: &Op,
    turn: u64,
    deadline: Option<u64>,
) -> Result<(), NoMemory>
    requires { is_short op.now view.old.shown ≡ true }
    ensures { OnOk result (view.new ≡ channel_turned op.now (turn, deadline) view.old) }
{
    let alloc = view.held.allocator();
    view.shown = shown_after(op, view.shown.take())?;
    view.settled = settled_after(alloc, op, view.settled.take())?;
    view.rest = settled_after(alloc, op, view.rest.take())?;
    view.turn = turn;
    view.deadline = deadline;
    Ok(())
}

/// Turns what is known of the channel.
fn turn_known(
    views: &mut ChannelViews,
    channel: &Name,
    op: &Op,
    turn: u64,
    deadline: Option<u64>,
) -> Result<(), NoMemory>
    requires { is_short op.now (view_of views.old channel.now).shown ≡ true }
    ensures { OnOk result (views.new ≡ views_with (channel_turned op.now (turn, deadline)) channel.now views.old) }
{
    let mut view = views.take(channel)?;
    turn_view(&mut view, op, turn, deadline)?;
    views.put(view)
}

/// Turns what is known of the entry's channel, if the entry turns one. The time is that before it.
pub(crate) fn turn_channel(
    views: &mut ChannelViews,
    now: u64,
    entry: &Entry,
) -> Result<(), NoMemory>
    requires { turns_short name_of entry.now.op (fixed_of entry.now.op)
        (told_row now entry.now.op entry.now.reply) views.old ≡ true }
    ensures { OnOk result (views.new
        ≡ views_turned name_of entry.now.op (fixed_of entry.now.op)
        (told_row now entry.now.op entry.now.reply) views.old) }
{
    let Some(fixed) = fixed_of(&entry.op) else {
        return Ok(());
    };
    let Some((turn, deadline)) = told_row(now, entry) else {
        return Ok(());
    };
    let channel = channel_name(fixed.bytes());
    turn_known(views, &channel, &entry.op, turn, deadline)
}
