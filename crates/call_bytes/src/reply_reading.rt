//! Replies from their canonical bytes. None takes memory.

ghost use Rattle.std.specs.Prelude.{◌≡◌};
ghost use Rattle.channel_values.specs.Reading.{Tells};
ghost use Rattle.call_bytes.specs.Reading as reads;

use crate::numbers::{accepted_of, named_of, numbered_of, plain_of, step_of, support_of};
use call_history::{Refusal, Reply};
use channel_values::{
    ByteFault, StepFault, SupportFault, place_of, take_byte, take_name, take_u64,
};

/// What a number stands for, with the bytes after it; its place is the fault where it stands for nothing.
pub fn or_bad<T: Copy>(place: usize, found: Option<T>, rest: &[u8]) -> Result<(T, &[u8]), ByteFault>
    ensures { Tells (λ x. (x.0, x.1.now)) result (reads.or_bad place found rest.now) }
{
    match found {
        None => Err(ByteFault::BadTag(place)),
        Some(value) => Ok((value, rest)),
    }
}

#[tactic(auto, unfolding(crate::specs::Reading::step_at))]
fn take_step(whole: usize, bytes: &[u8]) -> Result<(StepFault, &[u8]), ByteFault>
    ensures { Tells (λ x. (x.0, x.1.now)) result (reads.step_at whole bytes.now) }
{
    let place = place_of(whole, bytes);
    let (number, rest) = take_byte(whole, bytes)?;
    or_bad(place, step_of(number), rest)
}

/// A fault of a chain. One that has no place has 0 there.
#[tactic(auto, unfolding(crate::specs::Reading::support_at))]
fn take_support(whole: usize, bytes: &[u8]) -> Result<(SupportFault, &[u8]), ByteFault>
    ensures { Tells (λ x. (x.0, x.1.now)) result (reads.support_at whole bytes.now) }
{
    let (tag, rest) = take_byte(whole, bytes)?;
    if tag == 0 || tag > 4 {
        return Err(ByteFault::BadTag(place_of(whole, bytes)));
    }
    let at_place = rest;
    let (place, rest) = take_u64(whole, at_place)?;
    if tag == 1 && place != 0 {
        return Err(ByteFault::BadTag(place_of(whole, at_place)));
    }
    let at_step = place_of(whole, rest);
    let (step, rest) = take_byte(whole, rest)?;
    or_bad(at_step, support_of(tag, place, step), rest)
}

#[tactic(auto, unfolding(crate::specs::Reading::unsupported_at))]
fn take_unsupported(whole: usize, bytes: &[u8]) -> Result<(Refusal, &[u8]), ByteFault>
    ensures { Tells (λ x. (x.0, x.1.now)) result (reads.unsupported_at whole bytes.now) }
{
    let (fault, rest) = take_support(whole, bytes)?;
    Ok((Refusal::NotSupported(fault), rest))
}

#[tactic(auto, unfolding(crate::specs::Reading::bad_step_at))]
fn take_bad_step(whole: usize, bytes: &[u8]) -> Result<(Refusal, &[u8]), ByteFault>
    ensures { Tells (λ x. (x.0, x.1.now)) result (reads.bad_step_at whole bytes.now) }
{
    let (fault, rest) = take_step(whole, bytes)?;
    Ok((Refusal::BadStep(fault), rest))
}

#[tactic(auto, unfolding(crate::specs::Reading::numbered_at))]
fn take_numbered(
    whole: usize,
    place: usize,
    tag: u8,
    bytes: &[u8],
) -> Result<(Refusal, &[u8]), ByteFault>
    ensures { Tells (λ x. (x.0, x.1.now)) result (reads.numbered_at whole place tag bytes.now) }
{
    let (n, rest) = take_u64(whole, bytes)?;
    or_bad(place, numbered_of(tag, n), rest)
}

#[tactic(auto, unfolding(crate::specs::Reading::named_at))]
fn take_named(
    whole: usize,
    place: usize,
    tag: u8,
    bytes: &[u8],
) -> Result<(Refusal, &[u8]), ByteFault>
    ensures { Tells (λ x. (x.0, x.1.now)) result (reads.named_at whole place tag bytes.now) }
{
    let (name, rest) = take_name(whole, bytes)?;
    or_bad(place, named_of(tag, name), rest)
}

/// What a refusal keeps, after a tag that stands at a place.
fn take_kept(
    whole: usize,
    place: usize,
    tag: u8,
    bytes: &[u8],
) -> Result<(Refusal, &[u8]), ByteFault>
    ensures { Tells (λ x. (x.0, x.1.now)) result (reads.kept_at whole place tag bytes.now) }
{
    if tag == 2 {
        return take_unsupported(whole, bytes);
    }
    if tag == 9 {
        return take_bad_step(whole, bytes);
    }
    match tag {
        3 | 7 | 10 | 12 | 14 | 15 | 23 | 24 => take_numbered(whole, place, tag, bytes),
        16 | 17 => take_named(whole, place, tag, bytes),
        _ => or_bad(place, plain_of(tag), bytes),
    }
}

#[tactic(auto, unfolding(crate::specs::Reading::refusal_at))]
fn take_refusal(whole: usize, bytes: &[u8]) -> Result<(Refusal, &[u8]), ByteFault>
    ensures { Tells (λ x. (x.0, x.1.now)) result (reads.refusal_at whole bytes.now) }
{
    let place = place_of(whole, bytes);
    let (tag, rest) = take_byte(whole, bytes)?;
    take_kept(whole, place, tag, rest)
}

#[tactic(auto, unfolding(crate::specs::Reading::refused_at))]
fn take_refused(whole: usize, bytes: &[u8]) -> Result<(Reply, &[u8]), ByteFault>
    ensures { Tells (λ x. (x.0, x.1.now)) result (reads.refused_at whole bytes.now) }
{
    let (why, rest) = take_refusal(whole, bytes)?;
    Ok((Reply::No(why), rest))
}

#[tactic(auto, unfolding(crate::specs::Reading::accepted_at))]
fn take_accepted(
    whole: usize,
    place: usize,
    tag: u8,
    bytes: &[u8],
) -> Result<(Reply, &[u8]), ByteFault>
    ensures { Tells (λ x. (x.0, x.1.now)) result (reads.accepted_at whole place tag bytes.now) }
{
    let (n, rest) = take_u64(whole, bytes)?;
    or_bad(place, accepted_of(tag, n), rest)
}

/// What a reply says, after a tag that stands at a place.
fn take_told(whole: usize, place: usize, tag: u8, bytes: &[u8]) -> Result<(Reply, &[u8]), ByteFault>
    ensures { Tells (λ x. (x.0, x.1.now)) result (reads.told_at whole place tag bytes.now) }
{
    match tag {
        7 => take_refused(whole, bytes),
        1 | 2 | 3 | 4 | 5 | 6 => take_accepted(whole, place, tag, bytes),
        _ => Err(ByteFault::BadTag(place)),
    }
}

/// A reply, and the bytes after it; a fault's place is counted in `whole` bytes, of which `bytes` are the last.
#[tactic(auto, unfolding(crate::specs::Reading::reply_at))]
pub fn take_reply(whole: usize, bytes: &[u8]) -> Result<(Reply, &[u8]), ByteFault>
    ensures { Tells (λ x. (x.0, x.1.now)) result (reads.reply_at whole bytes.now) }
{
    let place = place_of(whole, bytes);
    let (tag, rest) = take_byte(whole, bytes)?;
    take_told(whole, place, tag, rest)
}
