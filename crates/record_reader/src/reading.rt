//! Records from their canonical bytes.

ghost use Rattle.std.specs.Prelude.{◌≡◌, IfOk, Ok};
ghost use Rattle.channel_values.specs.Reading.{Gives};
ghost use Rattle.record_reader.specs.Taking.{Takes};
ghost use Rattle.run_record.specs.Spelling as spelling;
ghost use Rattle.run_record.specs.Limits.{IsRecord, KeepsRecord};
ghost use Rattle.run_record.specs.Reading.{record_at, record_of};
ghost use Rattle.run_record.specs.declared.run_record.Record.{Record as AnyRecord};

use crate::endings::Endings;
use crate::entries::{Entries, Sums};
use channel_values::{ByteFault, ended, take_long_list, take_short_list};
use run_record::{MOST_ENDS, Record};
use std::alloc::Global;

#[tactic(auto, unfolding(run_record::specs::Reading::record_at, run_record::specs::Reading::few_at, run_record::specs::Reading::list_at))]
fn take_record(alloc: Global, whole: usize, bytes: &[u8]) -> Result<(Record, &[u8]), ByteFault>
    ensures { Takes result (record_at whole bytes.now) }
{
    let (history, rest) = take_long_list::<Entries>(alloc, whole, bytes)?;
    let (sums, rest) = take_long_list::<Sums>(alloc, whole, rest)?;
    let (ends, rest) = take_short_list::<Endings>(alloc, whole, MOST_ENDS, rest)?;
    let record = Record {
        history,
        sums,
        ends,
    };
    Ok((record, rest))
}

#[tactic(auto, unfolding(channel_values::specs::Reading::all_of))]
fn record_from(alloc: Global, bytes: &[u8]) -> Result<Record, ByteFault>
    ensures { Gives (λ x. x) result (record_of bytes.now) }
{
    let whole = bytes.len();
    let (record, rest) = take_record(alloc, whole, bytes)?;
    ended(whole, record, rest)
}

/// The record that the bytes spell, all of the bytes, or the first fault.
pub fn read_record(alloc: Global, bytes: &[u8]) -> Result<Record, ByteFault>
    // What is read keeps the limits, and the input is its spelling.
    ensures found { IfOk result (λ r. IsRecord r × (bytes.now ≡ spelling.run_record r)) }
    // So it may be written.
    ensures keeps { IfOk result KeepsRecord }
    // A spelling is read, unless memory runs out.
    ensures only { (r : AnyRecord)
        → IsRecord r → bytes.now ≡ spelling.run_record r → Gives (λ x. x) result (Ok r) }
    // Which fault it is.
    ensures exact { Gives (λ x. x) result (record_of bytes.now) }
{
    record_from(alloc, bytes)
}
