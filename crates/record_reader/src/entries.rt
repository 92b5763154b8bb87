//! Entries and sums from their canonical bytes.

ghost use Rattle.std.specs.Prelude.{◌≡◌};
ghost use Rattle.record_reader.specs.Taking.{Takes};
ghost use Rattle.run_record.specs.Reading as reads;

use crate::numbers::sum_of;
use call_bytes::{or_bad, take_call, take_reply};
use call_history::{Entry, Op};
use channel_values::{ByteFault, Take, place_of, take_byte, take_name, take_u32, take_u64};
use run_record::Sum;
use std::alloc::Global;

#[tactic(auto, unfolding(run_record::specs::Reading::called_at))]
fn take_called(alloc: Global, whole: usize, bytes: &[u8]) -> Result<(Op, &[u8]), ByteFault>
    ensures { Takes result (reads.called_at whole bytes.now) }
{
    let (call, rest) = take_call(alloc, whole, bytes)?;
    Ok((Op::Call(call), rest))
}

#[tactic(auto, unfolding(run_record::specs::Reading::time_at))]
fn take_time(whole: usize, bytes: &[u8]) -> Result<(Op, &[u8]), ByteFault>
    ensures { Takes result (reads.time_at whole bytes.now) }
{
    let (time, rest) = take_u64(whole, bytes)?;
    Ok((Op::Time(time), rest))
}

#[tactic(auto, unfolding(run_record::specs::Reading::op_at))]
fn take_op(alloc: Global, whole: usize, bytes: &[u8]) -> Result<(Op, &[u8]), ByteFault>
    ensures { Takes result (reads.op_at whole bytes.now) }
{
    let place = place_of(whole, bytes);
    let (tag, rest) = take_byte(whole, bytes)?;
    match tag {
        1 => take_called(alloc, whole, rest),
        2 => take_time(whole, rest),
        _ => Err(ByteFault::BadTag(place)),
    }
}

/// A reader of entries, whatever was read before them.
pub(crate) struct Entries;

impl Take for Entries {
    type Value = Entry;

    ghost at = { reads.next_at reads.entry_at };

    #[tactic(auto, unfolding(run_record::specs::Reading::entry_at))]
    fn take<'a>(
        alloc: Global,
        whole: usize,
        _seen: &[Entry],
        bytes: &'a [u8],
    ) -> Result<(Entry, &'a [u8]), ByteFault> {
        let (number, rest) = take_u32(whole, bytes)?;
        let (by, rest) = take_u32(whole, rest)?;
        let (op, rest) = take_op(alloc, whole, rest)?;
        let (reply, rest) = take_reply(whole, rest)?;
        let entry = Entry {
            number,
            by,
            op,
            reply,
        };
        Ok((entry, rest))
    }
}

/// A reader of sums, whatever was read before them.
pub(crate) struct Sums;

impl Take for Sums {
    type Value = Sum;

    ghost at = { reads.next_at reads.sum_at };

    #[tactic(auto, unfolding(run_record::specs::Reading::sum_at))]
    fn take<'a>(
        _alloc: Global,
        whole: usize,
        _seen: &[Sum],
        bytes: &'a [u8],
    ) -> Result<(Sum, &'a [u8]), ByteFault> {
        let place = place_of(whole, bytes);
        let (tag, rest) = take_byte(whole, bytes)?;
        let (kind, rest) = or_bad(place, sum_of(tag), rest)?;
        let (name, rest) = take_name(whole, rest)?;
        let (asset, rest) = take_u32(whole, rest)?;
        let (amount, rest) = take_u64(whole, rest)?;
        let sum = Sum {
            kind,
            name,
            asset,
            amount,
        };
        Ok((sum, rest))
    }
}
