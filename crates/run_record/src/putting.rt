//! The canonical bytes of the parts of a record. When memory runs out, some of them may stay.

ghost use Rattle.std.specs.Prelude.{◌≡◌, ◌≤◌, ◌<◌, ◌^◌, ◌++◌, ◌∷◌, length, OnOk};
ghost use Rattle.std.specs.Int.{w32, w64, to_be_bytes};
ghost use Rattle.std.specs.List.{flat_map, All, AllByRecursion};
ghost use Rattle.channel_values.specs.Outcomes.{IsName};
ghost use Rattle.channel_values.specs.Spelling.{flag};
ghost use Rattle.call_bytes.specs.Spelling.{long};
ghost use Rattle.run_record.specs.Spelling as spelling;
ghost use Rattle.run_record.specs.Limits as limits;

use crate::numbers::sum_number;
use crate::run_record::Sum;
use call_bytes::{put_named, put_numbered, put_reply, put_u64, write_call};
use call_history::{Entry, HeldChain, Known, Op};
use channel_values::{Name, NoMemory, put_flag, put_name, write_chain};
use funding_plans::{Part, Virtual};

fn put_u32(out: &mut Vec<u8>, n: u32) -> Result<(), NoMemory>
    ensures { OnOk result (out.new.items ≡ out.old.items ++ to_be_bytes w32 n) }
{
    out.extend_from_slice(&n.to_be_bytes())?;
    Ok(())
}

/// A count of four bytes.
pub(crate) fn put_many(out: &mut Vec<u8>, length: usize) -> Result<(), NoMemory>
    requires { length < 2 ^ 32 }
    ensures { OnOk result (out.new.items ≡ out.old.items ++ to_be_bytes w32 length) }
{
    put_u32(out, length as u32)
}

// ---- entries

#[tactic(auto, unfolding(crate::specs::Spelling::op))]
fn put_op(out: &mut Vec<u8>, op: &Op) -> Result<(), NoMemory>
    requires { limits.KeepsOp op.now }
    ensures put { OnOk result (out.new.items ≡ out.old.items ++ spelling.op op.now) }
    ensures fits { OnOk result (limits.IsOp op.now) }
{
    match op {
        Op::Call(call) => {
            out.push(1)?;
            write_call(call, out)
        }
        Op::Time(time) => put_numbered(out, 2, *time),
    }
}

#[tactic(auto, unfolding(crate::specs::Spelling::entry))]
fn put_entry(out: &mut Vec<u8>, entry: &Entry) -> Result<(), NoMemory>
    requires { limits.KeepsEntry entry.now }
    ensures put { OnOk result (out.new.items ≡ out.old.items ++ spelling.entry entry.now) }
    ensures fits { OnOk result (limits.IsEntry entry.now) }
{
    put_u32(out, entry.number)?;
    put_u32(out, entry.by)?;
    put_op(out, &entry.op)?;
    put_reply(out, &entry.reply)
}

pub(crate) fn put_entries(out: &mut Vec<u8>, entries: &[Entry]) -> Result<(), NoMemory>
    requires { All limits.KeepsEntry entries.now }
    ensures put { OnOk result (out.new.items ≡ out.old.items ++ flat_map spelling.entry entries.now) }
    ensures fits { OnOk result (AllByRecursion limits.IsEntry entries.now) }
{
    for entry in entries {
        put_entry(out, entry)?;
    }
    Ok(())
}

// ---- sums

fn put_number(out: &mut Vec<u8>, asset: u32, amount: u64) -> Result<(), NoMemory>
    ensures { OnOk result (out.new.items ≡ out.old.items ++ (to_be_bytes w32 asset ++ long amount)) }
{
    out.extend_from_slice(&asset.to_be_bytes())?;
    out.extend_from_slice(&amount.to_be_bytes())?;
    Ok(())
}

/// A tag, a name, an asset and an amount.
fn put_amount(
    out: &mut Vec<u8>,
    tag: u8,
    name: &Name,
    asset: u32,
    amount: u64,
) -> Result<(), NoMemory>
    ensures put { OnOk result (out.new.items
        ≡ out.old.items ++ (tag ∷ (name.now ++ (to_be_bytes w32 asset ++ long amount)))) }
    ensures fits { OnOk result (IsName name.now) }
{
    out.push(tag)?;
    put_name(out, name)?;
    put_number(out, asset, amount)
}

#[tactic(auto, unfolding(crate::specs::Spelling::summed))]
fn put_sum(out: &mut Vec<u8>, sum: &Sum) -> Result<(), NoMemory>
    ensures put { OnOk result (out.new.items ≡ out.old.items ++ spelling.summed sum.now) }
    ensures fits { OnOk result (limits.IsSum sum.now) }
{
    put_amount(out, sum_number(sum.kind), &sum.name, sum.asset, sum.amount)
}

pub(crate) fn put_sums(out: &mut Vec<u8>, sums: &[Sum]) -> Result<(), NoMemory>
    ensures put { OnOk result (out.new.items ≡ out.old.items ++ flat_map spelling.summed sums.now) }
    ensures fits { OnOk result (AllByRecursion limits.IsSum sums.now) }
{
    for sum in sums {
        put_sum(out, sum)?;
    }
    Ok(())
}

// ---- endings

#[tactic(auto, unfolding(crate::specs::Spelling::pair))]
fn put_pair(out: &mut Vec<u8>, first: &Name, second: &Name) -> Result<(), NoMemory>
    ensures put { OnOk result (out.new.items ≡ out.old.items ++ spelling.pair (first.now, second.now)) }
    ensures fits { OnOk result (limits.IsPair (first.now, second.now)) }
{
    put_name(out, first)?;
    put_name(out, second)
}

fn put_terms(out: &mut Vec<u8>, asset: u32, total: u64, side_b: bool) -> Result<(), NoMemory>
    ensures { OnOk result (out.new.items ≡ out.old.items ++ (to_be_bytes w32 asset ++ (long total ++ flag side_b))) }
{
    put_u32(out, asset)?;
    put_u64(out, total)?;
    put_flag(out, side_b)
}

#[tactic(auto, unfolding(crate::specs::Spelling::virtual_part))]
fn put_virtual(out: &mut Vec<u8>, v: &Virtual) -> Result<(), NoMemory>
    ensures put { OnOk result (out.new.items ≡ out.old.items ++ spelling.virtual_part v.now) }
    ensures fits { OnOk result (limits.IsVirtual v.now) }
{
    put_pair(out, &v.ledger_a, &v.ledger_b)?;
    put_pair(out, &v.guarantor_a, &v.guarantor_b)?;
    put_pair(out, &v.joint, &v.channel)?;
    put_terms(out, v.asset, v.total, v.side_b)
}

fn put_two(out: &mut Vec<u8>, ledger: &Name, channel: &Name) -> Result<(), NoMemory>
    ensures put { OnOk result (out.new.items ≡ out.old.items ++ (2 ∷ (ledger.now ++ channel.now))) }
    ensures fits { OnOk result (IsName ledger.now × IsName channel.now) }
{
    out.push(2)?;
    put_name(out, ledger)?;
    put_name(out, channel)
}

fn put_tagged(out: &mut Vec<u8>, tag: u8, v: &Virtual) -> Result<(), NoMemory>
    ensures put { OnOk result (out.new.items ≡ out.old.items ++ (tag ∷ spelling.virtual_part v.now)) }
    ensures fits { OnOk result (limits.IsVirtual v.now) }
{
    out.push(tag)?;
    put_virtual(out, v)
}

#[tactic(auto, unfolding(crate::specs::Spelling::part))]
fn put_part(out: &mut Vec<u8>, part: &Part) -> Result<(), NoMemory>
    ensures put { OnOk result (out.new.items ≡ out.old.items ++ spelling.part part.now) }
    ensures fits { OnOk result (limits.IsPart part.now) }
{
    match part {
        Part::Root(channel) => put_named(out, 1, channel),
        Part::OnLedger(ledger, channel) => put_two(out, ledger, channel),
        Part::End(v) => put_tagged(out, 3, v),
        Part::Middle(v) => put_tagged(out, 4, v),
    }
}

pub(crate) fn put_parts(out: &mut Vec<u8>, parts: &[Part]) -> Result<(), NoMemory>
    ensures put { OnOk result (out.new.items ≡ out.old.items ++ flat_map spelling.part parts.now) }
    ensures fits { OnOk result (AllByRecursion limits.IsPart parts.now) }
{
    for part in parts {
        put_part(out, part)?;
    }
    Ok(())
}

#[tactic(auto, unfolding(crate::specs::Spelling::known_state))]
fn put_known(out: &mut Vec<u8>, known: &Known) -> Result<(), NoMemory>
    ensures put { OnOk result (out.new.items ≡ out.old.items ++ spelling.known_state known.now) }
    ensures fits { OnOk result (limits.IsKnown known.now) }
{
    put_name(out, &known.channel)?;
    out.extend_from_slice(known.last.bytes())?;
    Ok(())
}

pub(crate) fn put_all_known(out: &mut Vec<u8>, known: &[Known]) -> Result<(), NoMemory>
    ensures put { OnOk result (out.new.items ≡ out.old.items ++ flat_map spelling.known_state known.now) }
    ensures fits { OnOk result (AllByRecursion limits.IsKnown known.now) }
{
    for state in known {
        put_known(out, state)?;
    }
    Ok(())
}

#[tactic(auto, unfolding(crate::specs::Spelling::held_chain))]
fn put_held_chain(out: &mut Vec<u8>, held: &HeldChain) -> Result<(), NoMemory>
    requires { limits.KeepsHeldChain held.now }
    ensures put { OnOk result (out.new.items ≡ out.old.items ++ spelling.held_chain held.now) }
    ensures fits { OnOk result (limits.IsHeldChain held.now) }
{
    put_name(out, &held.channel)?;
    write_chain(&held.chain, out)
}

pub(crate) fn put_chains(out: &mut Vec<u8>, chains: &[HeldChain]) -> Result<(), NoMemory>
    requires { All limits.KeepsHeldChain chains.now }
    ensures put { OnOk result (out.new.items ≡ out.old.items ++ flat_map spelling.held_chain chains.now) }
    ensures fits { OnOk result (AllByRecursion limits.IsHeldChain chains.now) }
{
    for held in chains {
        put_held_chain(out, held)?;
    }
    Ok(())
}

fn put_wide(out: &mut Vec<u8>, n: u128) -> Result<(), NoMemory>
    ensures { OnOk result (out.new.items ≡ out.old.items ++ spelling.wide n) }
{
    put_u64(out, (n / 0x1_0000_0000_0000_0000) as u64)?;
    put_u64(out, (n % 0x1_0000_0000_0000_0000) as u64)
}

#[tactic(auto, unfolding(crate::specs::Spelling::share))]
fn put_share(out: &mut Vec<u8>, share: &(u32, u128)) -> Result<(), NoMemory>
    ensures put { OnOk result (out.new.items ≡ out.old.items ++ spelling.share share.now) }
    ensures fits { OnOk result (limits.IsShare share.now) }
{
    put_u32(out, share.0)?;
    put_wide(out, share.1)
}

pub(crate) fn put_shares(out: &mut Vec<u8>, shares: &[(u32, u128)]) -> Result<(), NoMemory>
    ensures put { OnOk result (out.new.items ≡ out.old.items ++ flat_map spelling.share shares.now) }
    ensures fits { OnOk result (AllByRecursion limits.IsShare shares.now) }
{
    for share in shares {
        put_share(out, share)?;
    }
    Ok(())
}
