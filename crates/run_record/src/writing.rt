//! The canonical bytes of records.

ghost use Rattle.std.specs.Prelude.{◌≡◌, ◌<◌, ◌^◌, ◌++◌, ◌∷◌, length, OnOk, OnErr};
ghost use Rattle.std.specs.List.{flat_map, All, AllByRecursion};
ghost use Rattle.run_record.specs.Spelling as spelling;
ghost use Rattle.run_record.specs.Limits as limits;
ghost use Rattle.run_record.specs.Limits.{IsRecord, KeepsRecord};

use crate::putting::{
    put_all_known, put_chains, put_entries, put_many, put_parts, put_shares, put_sums,
};
use crate::run_record::{Ending, Record, Sum};
use call_history::{Entry, HeldChain, Known};
use channel_values::{NoMemory, put_count, put_name};
use funding_plans::Part;

fn put_few_parts(out: &mut Vec<u8>, parts: &[Part]) -> Result<(), NoMemory>
    ensures put { OnOk result (out.new.items ≡ out.old.items ++ spelling.few spelling.part parts.now) }
    ensures fits { OnOk result (AllByRecursion limits.IsPart parts.now) }
{
    put_count(out, parts.len())?;
    put_parts(out, parts)
}

fn put_few_known(out: &mut Vec<u8>, known: &[Known]) -> Result<(), NoMemory>
    ensures put { OnOk result (out.new.items ≡ out.old.items ++ spelling.few spelling.known_state known.now) }
    ensures fits { OnOk result (AllByRecursion limits.IsKnown known.now) }
{
    put_count(out, known.len())?;
    put_all_known(out, known)
}

fn put_few_chains(out: &mut Vec<u8>, chains: &[HeldChain]) -> Result<(), NoMemory>
    requires { All limits.KeepsHeldChain chains.now }
    ensures put { OnOk result (out.new.items ≡ out.old.items ++ spelling.few spelling.held_chain chains.now) }
    ensures fits { OnOk result (AllByRecursion limits.IsHeldChain chains.now) }
{
    put_count(out, chains.len())?;
    put_chains(out, chains)
}

fn put_many_shares(out: &mut Vec<u8>, shares: &[(u32, u128)]) -> Result<(), NoMemory>
    requires { length shares.now < 2 ^ 32 }
    ensures put { OnOk result (out.new.items ≡ out.old.items ++ spelling.many spelling.share shares.now) }
    ensures fits { OnOk result (AllByRecursion limits.IsShare shares.now) }
{
    put_many(out, shares.len())?;
    put_shares(out, shares)
}

#[tactic(auto, unfolding(crate::specs::Spelling::ending))]
fn put_ending(out: &mut Vec<u8>, ending: &Ending) -> Result<(), NoMemory>
    requires { limits.KeepsEnding ending.now }
    ensures put { OnOk result (out.new.items ≡ out.old.items ++ spelling.ending ending.now) }
    ensures fits { OnOk result (limits.IsEnding ending.now) }
{
    put_name(out, &ending.person)?;
    put_few_parts(out, ending.plan.parts.as_slice())?;
    put_few_known(out, ending.known.as_slice())?;
    put_few_chains(out, ending.chains.as_slice())?;
    put_many_shares(out, ending.shares.as_slice())
}

fn put_endings(out: &mut Vec<u8>, ends: &[Ending]) -> Result<(), NoMemory>
    requires { All limits.KeepsEnding ends.now }
    ensures put { OnOk result (out.new.items ≡ out.old.items ++ flat_map spelling.ending ends.now) }
    ensures fits { OnOk result (AllByRecursion limits.IsEnding ends.now) }
{
    for ending in ends {
        put_ending(out, ending)?;
    }
    Ok(())
}

fn put_many_entries(out: &mut Vec<u8>, entries: &[Entry]) -> Result<(), NoMemory>
    requires few { length entries.now < 2 ^ 32 }
    requires keeps { All limits.KeepsEntry entries.now }
    ensures put { OnOk result (out.new.items ≡ out.old.items ++ spelling.many spelling.entry entries.now) }
    ensures fits { OnOk result (AllByRecursion limits.IsEntry entries.now) }
{
    put_many(out, entries.len())?;
    put_entries(out, entries)
}

fn put_many_sums(out: &mut Vec<u8>, sums: &[Sum]) -> Result<(), NoMemory>
    requires { length sums.now < 2 ^ 32 }
    ensures put { OnOk result (out.new.items ≡ out.old.items ++ spelling.many spelling.summed sums.now) }
    ensures fits { OnOk result (AllByRecursion limits.IsSum sums.now) }
{
    put_many(out, sums.len())?;
    put_sums(out, sums)
}

fn put_few_endings(out: &mut Vec<u8>, ends: &[Ending]) -> Result<(), NoMemory>
    requires { All limits.KeepsEnding ends.now }
    ensures put { OnOk result (out.new.items ≡ out.old.items ++ spelling.few spelling.ending ends.now) }
    ensures fits { OnOk result (AllByRecursion limits.IsEnding ends.now) }
{
    put_count(out, ends.len())?;
    put_endings(out, ends)
}

/// Appends the one spelling; where there is no memory, a part of it may stay.
#[tactic(auto, unfolding(crate::specs::Spelling::run_record))]
fn put_record(out: &mut Vec<u8>, value: &Record) -> Result<(), NoMemory>
    requires { KeepsRecord value.now }
    ensures put { OnOk result (out.new.items ≡ out.old.items ++ spelling.run_record value.now) }
    ensures fits { OnOk result (IsRecord value.now) }
{
    put_many_entries(out, value.history.as_slice())?;
    put_many_sums(out, value.sums.as_slice())?;
    put_few_endings(out, value.ends.as_slice())
}

/// Appends the one spelling, or nothing where there is no memory.
pub fn write_record(value: &Record, out: &mut Vec<u8>) -> Result<(), NoMemory>
    requires { KeepsRecord value.now }
    ensures written { OnOk result (out.new.items ≡ out.old.items ++ spelling.run_record value.now) }
    ensures valid { OnOk result (IsRecord value.now) }
    ensures kept { OnErr result (out.new.items ≡ out.old.items) }
{
    let mut text = Vec::new(*out.allocator());
    put_record(&mut text, value)?;
    out.extend_from_slice(&text)?;
    Ok(())
}
