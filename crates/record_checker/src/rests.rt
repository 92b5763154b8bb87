//! What is left of the outcomes of channels: a table, of which an entry changes at most one row.

ghost use Rattle.std.specs.Prelude.{◌≡◌, ◌≤◌, ◌∷◌, ℕ, List, Some, IfOk, OnOk, option_copied, if◌then◌else◌};
ghost use Rattle.std.specs.Map.{lookup};
ghost use Rattle.std.specs.Str.{bytes_eq};
ghost use Rattle.call_history.specs.History.{Legal, now_of};
ghost use Rattle.call_history.specs.declared.entry.Entry.{Entry as AnEntry};
ghost use Rattle.record_checker.specs.Past as past;
ghost use Rattle.record_checker.specs.Past.{AreRests};
ghost use Rattle.history_view.specs.Views.{view_of};
ghost use Rattle.support_rules.specs.Real.{real};

use call_history::{
    Call, ChallengeCall, ChannelView, ChannelViews, Entry, Op, PaidAmounts, Reply, WorldView,
    flow_of,
};
use channel_values::{Listed, Name, NoMemory, Outcome, channel_name};
use history_view::{follow, view_of};
use indexmap::IndexMap;
use std::alloc::Global;

pub(crate) fn copied(rest: Option<&Outcome>) -> Result<Option<Outcome>, NoMemory>
    ensures { IfOk result (λ o. o ≡ option_copied rest.entry) }
{
    match rest {
        None => Ok(None),
        Some(rest) => {
            let copy = rest.copy()?;
            Ok(Some(copy))
        }
    }
}

/// What is left of a channel's outcome, by the table.
pub(crate) fn rest_in<'a>(
    rests: &'a IndexMap<Name, Option<Outcome>>,
    channel: &Name,
) -> Option<&'a Outcome>
    ensures { option_copied result ≡ past.rest_in rests.now.entries channel.now }
{
    match rests.get(channel) {
        None => None,
        Some(rest) => rest.as_ref(),
    }
}

/// The channel's row is this one, and the others stay.
fn put(
    rests: &mut IndexMap<Name, Option<Outcome>>,
    channel: Name,
    rest: Option<Outcome>,
) -> Result<(), NoMemory>
    ensures { OnOk result ((c : List ℕ) → lookup (bytes_eq c) rests.new.entries
        ≡ (if bytes_eq channel c then Some rest else lookup (bytes_eq c) rests.old.entries)) }
{
    rests.insert(channel, rest)?;
    Ok(())
}

/// The channel of whose outcome a call may change what is left.
fn changed_by(op: &Op) -> Option<Name>
    ensures { result ≡ past.changed_by op.now }
{
    match op {
        Op::Call(Call::Challenge(ChallengeCall { chain, .. }) | Call::Conclude { chain }) => {
            Some(channel_name(chain.fixed.bytes()))
        }
        Op::Call(Call::Transfer(transfer)) => Some(transfer.channel),
        Op::Call(Call::Claim(claim)) => Some(claim.target),
        _ => None,
    }
}

/// The channel of whose outcome the entry may change what is left: none where its call was refused.
fn changed(entry: &Entry) -> Option<Name>
    ensures { result ≡ past.changed entry.now }
{
    match &entry.reply {
        Reply::No(_) => None,
        _ => changed_by(&entry.op),
    }
}

/// What the entry's call moves.
fn moved(entry: &Entry) -> u64
    ensures { result ≡ past.moved entry.now }
{
    match flow_of(&entry.op, &entry.reply) {
        None => 0,
        Some(flow) => flow.amount,
    }
}

/// A view that knows of one channel, and of it no more than what is left, before the entry of this number.
fn alone(
    alloc: Global,
    now: u64,
    number: u32,
    channel: &Name,
    rest: Option<Outcome>,
) -> Result<WorldView, NoMemory>
    ensures { IfOk result (λ w. w ≡ past.alone now number channel.now rest) }
{
    let mut channels = ChannelViews::new(alloc);
    channels.push(ChannelView {
        channel: *channel,
        turn: 0,
        deadline: None,
        held: Listed::make(Vec::new(alloc)),
        shown: None,
        settled: None,
        rest,
    })?;
    Ok(WorldView {
        now,
        count: number.saturating_sub(1),
        channels,
        paid: PaidAmounts::new(alloc),
    })
}

/// What is left of a channel's outcome, by a view.
fn rest_seen<'a>(view: &'a WorldView, channel: &Name) -> Option<&'a Outcome>
    ensures { option_copied result ≡ (view_of view.entry.now.channels channel.now).rest }
{
    match view_of(view, channel) {
        None => None,
        Some(known) => known.rest.as_ref(),
    }
}

/// What is left of a channel's outcome after the entry. The time is that before it.
fn rest_after(
    alloc: Global,
    now: u64,
    entry: &Entry,
    channel: &Name,
    rest: Option<Outcome>,
) -> Result<Option<Outcome>, NoMemory>
    requires { 1 ≤ entry.now.number }
    ensures { IfOk result (λ left. left ≡ past.rest_after now entry.now channel.now rest) }
{
    let _amount = moved(entry);
    let mut view = alone(alloc, now, entry.number, channel, rest)?;
    follow(&mut view, entry)?;
    copied(rest_seen(&view, channel))
}

/// Brings the table forward by an entry. The time is that before it.
pub(crate) fn note(
    alloc: Global,
    rests: &mut IndexMap<Name, Option<Outcome>>,
    now: u64,
    entry: &Entry,
) -> Result<(), NoMemory>
    requires { 1 ≤ entry.now.number }
    ensures { (h : List AnEntry) → now ≡ now_of h → Legal real (entry.now ∷ h) → AreRests h rests.old.entries
        → OnOk result (AreRests (entry.now ∷ h) rests.new.entries) }
{
    let Some(channel) = changed(entry) else {
        return Ok(());
    };
    let rest = copied(rest_in(rests, &channel))?;
    let left = rest_after(alloc, now, entry, &channel, rest)?;
    put(rests, channel, left)
}
