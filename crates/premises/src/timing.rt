//! Whether a participant's watchers were in time.

ghost use Rattle.std.specs.Prelude.{◌≡◌, ℕ, suc, ◌+◌, ◌<◌, ◌≤◌, ◌^◌, IfSome, IfOk, List, map, fold, length, true};
ghost use Rattle.std.specs.List.{list_any};
ghost use Rattle.std.specs.Option.{option_map};
ghost use Rattle.call_history.specs.Same as same;
ghost use Rattle.call_history.specs.Rows.{fixed_of};
ghost use Rattle.call_history.specs.History.{is_named, turning};
ghost use Rattle.call_history.specs.declared.call.Op.TheVariants as ops;
ghost use Rattle.support_rules.specs.Real.{real};
ghost use Rattle.premises.specs.Own.{is_string};
ghost use Rattle.premises.specs.Timing as timing;
ghost use Rattle.premises.specs.Looks.{noted_channel, channel_noted, next_look, end_is_answered, op_is_answered, entry_is_answered, are_answered};

use call_bytes::{is_op, read_message};
use call_history::{
    Call, ChallengeCall, Deed, Entry, Event, Op, RespondCall, fixed_of, time_after, time_set,
};
use channel_values::{ByteFault, Fixed, Listed, Name, NoMemory, channel_name};
use std::alloc::Global;

// ---- the channel of an entry and of an event

fn is_named(fixed: Option<&Fixed>, channel: &Name) -> bool
    ensures { result ≡ is_named real channel.now (option_map (λ m. m.now) fixed.entry) }
{
    match fixed {
        None => false,
        Some(fixed) => channel_name(fixed.bytes()) == *channel,
    }
}

fn turns(entry: &Entry, channel: &Name) -> bool
    ensures { result ≡ turning real channel.now entry.now }
{
    entry.reply.is_accepted() && is_named(fixed_of(&entry.op), channel)
}

fn fixed_of_call(call: &Call) -> Option<&Fixed>
    ensures { option_map (λ m. m.now) result ≡ fixed_of (ops.Call call.now) }
{
    match call {
        Call::Challenge(ChallengeCall { chain, .. })
        | Call::Checkpoint { chain }
        | Call::Conclude { chain } => Some(&chain.fixed),
        Call::Respond(RespondCall { fixed, .. }) | Call::Refute { fixed, .. } => Some(fixed),
        _ => None,
    }
}

/// The channel of which a deed noted a state.
fn noted_channel(alloc: Global, deed: &Deed) -> Result<Option<Name>, NoMemory>
    ensures { IfOk result (λ o. o ≡ noted_channel deed.now) }
{
    match deed {
        Deed::Signed(channel, _, _) => Ok(Some(*channel)),
        Deed::Handled(bytes, None) => match read_message(alloc, bytes.as_slice()) {
            Ok(message) => Ok(Some(message.0)),
            Err(ByteFault::NoMemory) => Err(NoMemory),
            Err(_) => Ok(None),
        },
        _ => Ok(None),
    }
}

pub(crate) fn noted_channels(
    alloc: Global,
    journal: &[Event],
) -> Result<Vec<Option<Name>>, NoMemory>
    ensures { IfOk result (λ v. v.items ≡ map channel_noted journal.now) }
{
    let mut channels = Vec::new(alloc);
    for event in journal {
        let channel = noted_channel(alloc, &event.deed)?;
        channels.push(channel)?;
    }
    Ok(channels)
}

fn is_channel(own: &Option<Name>, channel: &Name) -> bool
    ensures { result ≡ is_string own.now channel.now }
{
    match own {
        None => false,
        Some(own) => *own == *channel,
    }
}

// ---- where a challenge runs out

fn reaches(deadline: u128, time: Option<u64>) -> bool
    ensures { result ≡ timing.reaches deadline time }
{
    match time {
        None => false,
        Some(time) => deadline <= u128::from(time),
    }
}

/// The entries up to the first that sets a time at or past the deadline, unless one of them turns the channel's row.
fn until_end<'a>(channel: &Name, deadline: u128, newer: &'a [Entry]) -> Option<&'a [Entry]>
    ensures value { option_map (λ m. m.now) result ≡ timing.until_end real channel.now deadline newer.now }
    ensures within { IfSome result (λ m. length m.now ≤ length newer.now) }
{
    for (count, entry) in newer.iter().enumerate() {
        if turns(entry, channel) {
            return None;
        }
        if reaches(deadline, time_set(entry)) {
            return Some(&newer[..count]);
        }
    }
    None
}

// ---- looks

fn is_among(call: &Call, after: &[Entry]) -> bool
    ensures { result ≡ list_any (λ q. same.is_op call.now q.op) after.now }
{
    after.iter().any(|entry| is_op(call, &entry.op))
}

fn is_for(call: &Call, channel: &Name) -> bool
    ensures { result ≡ is_named real channel.now (fixed_of (ops.Call call.now)) }
{
    is_named(fixed_of_call(call), channel)
}

fn is_entered(channel: &Name, after: &[Entry], call: &Call) -> bool
    ensures { result ≡ timing.is_entered real channel.now after.now call.now }
{
    !is_for(call, channel) || is_among(call, after)
}

fn are_entered(channel: &Name, after: &[Entry], calls: &[Call]) -> bool
    ensures { result ≡ timing.are_entered real channel.now after.now calls.now }
{
    calls.iter().all(|call| is_entered(channel, after, call))
}

/// Whether a look answers for a challenge, the last of the first `seen` entries, before the end of `mid`.
fn looks_well(channel: &Name, seen: usize, mid: &[Entry], event: &Event) -> bool
    requires { seen + length mid.now < 2 ^ 64 }
    ensures { result ≡ timing.looks_well real channel.now seen mid.now event.now.seen event.now.deed }
{
    match &event.deed {
        Deed::Watched(_, calls) => {
            let place = event.seen as usize;
            seen <= place
                && place <= seen + mid.len()
                && are_entered(channel, &mid[place - seen..], calls.as_slice())
        }
        _ => false,
    }
}

fn next_look(
    channel: &Name,
    seen: usize,
    mid: &[Entry],
    before: bool,
    event: &Event,
    noted: &Option<Name>,
) -> bool
    requires size { seen + length mid.now < 2 ^ 64 }
    requires known { noted.now ≡ channel_noted event.now }
    ensures { result ≡ next_look real channel.now seen mid.now before event.now }
{
    if is_channel(noted, channel) && event.seen as usize <= seen + mid.len() {
        false
    } else {
        before || looks_well(channel, seen, mid, event)
    }
}

/// Whether a look answers for a challenge that runs out after `mid`.
#[tactic(auto, using(crate::proofs::Passing::noted_at))]
fn looks_answer(
    channel: &Name,
    seen: usize,
    mid: &[Entry],
    journal: &[Event],
    noted: &[Option<Name>],
) -> bool
    requires size { seen + length mid.now < 2 ^ 64 }
    requires known { noted.now ≡ map channel_noted journal.now }
    ensures { result ≡ fold (next_look real channel.now seen mid.now) true journal.now }
{
    let mut answered = true;
    for (place, event) in journal.iter().enumerate() {
        answered = next_look(channel, seen, mid, answered, event, &noted[place]);
    }
    answered
}

// ---- challenges

fn challenge_is_answered(
    journal: &[Event],
    noted: &[Option<Name>],
    newer: &[Entry],
    seen: usize,
    now: u64,
    fixed: &Fixed,
) -> bool
    requires size { suc seen + length newer.now < 2 ^ 64 }
    requires known { noted.now ≡ map channel_noted journal.now }
    ensures { result
        ≡ end_is_answered real (real.named fixed.now) (suc seen) journal.now
        (timing.until_end real (real.named fixed.now) (now + fixed.now.duration) newer.now) }
{
    let channel = channel_name(fixed.bytes());
    let deadline = u128::from(now) + u128::from(fixed.duration());
    match until_end(&channel, deadline, newer) {
        None => true,
        Some(mid) => looks_answer(&channel, seen + 1, mid, journal, noted),
    }
}

fn entry_is_answered(
    journal: &[Event],
    noted: &[Option<Name>],
    newer: &[Entry],
    seen: usize,
    now: u64,
    entry: &Entry,
) -> bool
    requires size { suc seen + length newer.now < 2 ^ 64 }
    requires known { noted.now ≡ map channel_noted journal.now }
    ensures { result ≡ entry_is_answered real journal.now newer.now seen now entry.now }
{
    match &entry.op {
        Op::Call(Call::Challenge(challenge)) => {
            !entry.reply.is_accepted()
                || challenge_is_answered(journal, noted, newer, seen, now, &challenge.chain.fixed)
        }
        _ => true,
    }
}

/// Whether a look answers for each challenge that runs out.
#[tactic(auto, using(crate::proofs::Passing::answers_left))]
pub(crate) fn are_answered(journal: &[Event], noted: &[Option<Name>], history: &[Entry]) -> bool
    requires { noted.now ≡ map channel_noted journal.now }
    ensures { result ≡ are_answered real journal.now 0 0 history.now }
{
    let mut now: u64 = 0;
    for (seen, entry) in history.iter().enumerate() {
        if !entry_is_answered(journal, noted, &history[seen + 1..], seen, now, entry) {
            return false;
        }
        now = time_after(now, entry);
    }
    true
}
