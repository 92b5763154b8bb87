//! Endings from their canonical bytes.

ghost use Rattle.std.specs.Prelude.{◌≡◌};
ghost use Rattle.record_reader.specs.Taking.{TakesValue};
ghost use Rattle.run_record.specs.Reading as reads;

use call_history::{HeldChain, Known};
use channel_values::{
    ByteFault, Name, Take, place_of, take_byte, take_chain, take_flag, take_long_list, take_name,
    take_short_list, take_state, take_u32, take_u64,
};
use funding_plans::{Part, Plan, Virtual};
use run_record::{Ending, MOST_CHAINS, MOST_KNOWN, MOST_PARTS};
use std::alloc::Global;

#[tactic(auto, unfolding(run_record::specs::Reading::pair_at))]
fn take_pair(whole: usize, bytes: &[u8]) -> Result<((Name, Name), &[u8]), ByteFault>
    ensures { TakesValue result (reads.pair_at whole bytes.now) }
{
    let (first, rest) = take_name(whole, bytes)?;
    let (second, rest) = take_name(whole, rest)?;
    Ok(((first, second), rest))
}

#[tactic(auto, unfolding(run_record::specs::Reading::virtual_at))]
fn take_virtual(whole: usize, bytes: &[u8]) -> Result<(Virtual, &[u8]), ByteFault>
    ensures { TakesValue result (reads.virtual_at whole bytes.now) }
{
    let (ledgers, rest) = take_pair(whole, bytes)?;
    let (guarantors, rest) = take_pair(whole, rest)?;
    let (channels, rest) = take_pair(whole, rest)?;
    let (asset, rest) = take_u32(whole, rest)?;
    let (total, rest) = take_u64(whole, rest)?;
    let (side_b, rest) = take_flag(whole, rest)?;
    let ledger_a = ledgers.0;
    let ledger_b = ledgers.1;
    let guarantor_a = guarantors.0;
    let guarantor_b = guarantors.1;
    let joint = channels.0;
    let channel = channels.1;
    let v = Virtual {
        ledger_a,
        ledger_b,
        guarantor_a,
        guarantor_b,
        joint,
        channel,
        asset,
        total,
        side_b,
    };
    Ok((v, rest))
}

#[tactic(auto, unfolding(run_record::specs::Reading::root_at))]
fn take_root(whole: usize, bytes: &[u8]) -> Result<(Part, &[u8]), ByteFault>
    ensures { TakesValue result (reads.root_at whole bytes.now) }
{
    let (channel, rest) = take_name(whole, bytes)?;
    Ok((Part::Root(channel), rest))
}

#[tactic(auto, unfolding(run_record::specs::Reading::on_ledger_at))]
fn take_on_ledger(whole: usize, bytes: &[u8]) -> Result<(Part, &[u8]), ByteFault>
    ensures { TakesValue result (reads.on_ledger_at whole bytes.now) }
{
    let (ledger, rest) = take_name(whole, bytes)?;
    let (channel, rest) = take_name(whole, rest)?;
    Ok((Part::OnLedger(ledger, channel), rest))
}

#[tactic(auto, unfolding(run_record::specs::Reading::end_at))]
fn take_end(whole: usize, bytes: &[u8]) -> Result<(Part, &[u8]), ByteFault>
    ensures { TakesValue result (reads.end_at whole bytes.now) }
{
    let (v, rest) = take_virtual(whole, bytes)?;
    Ok((Part::End(v), rest))
}

#[tactic(auto, unfolding(run_record::specs::Reading::middle_at))]
fn take_middle(whole: usize, bytes: &[u8]) -> Result<(Part, &[u8]), ByteFault>
    ensures { TakesValue result (reads.middle_at whole bytes.now) }
{
    let (v, rest) = take_virtual(whole, bytes)?;
    Ok((Part::Middle(v), rest))
}

#[tactic(auto, unfolding(run_record::specs::Reading::part_at))]
fn take_part(whole: usize, bytes: &[u8]) -> Result<(Part, &[u8]), ByteFault>
    ensures { TakesValue result (reads.part_at whole bytes.now) }
{
    let place = place_of(whole, bytes);
    let (tag, rest) = take_byte(whole, bytes)?;
    match tag {
        1 => take_root(whole, rest),
        2 => take_on_ledger(whole, rest),
        3 => take_end(whole, rest),
        4 => take_middle(whole, rest),
        _ => Err(ByteFault::BadTag(place)),
    }
}

/// A reader of parts of plans, whatever was read before them.
struct Parts;

impl Take for Parts {
    type Value = Part;

    ghost at = { reads.next_at reads.part_at };

    fn take<'a>(
        _alloc: Global,
        whole: usize,
        _seen: &[Part],
        bytes: &'a [u8],
    ) -> Result<(Part, &'a [u8]), ByteFault> {
        let (part, rest) = take_part(whole, bytes)?;
        Ok((part, rest))
    }
}

/// A reader of known states, whatever was read before them.
struct KnownStates;

impl Take for KnownStates {
    type Value = Known;

    ghost at = { reads.next_at reads.known_at };

    #[tactic(auto, unfolding(run_record::specs::Reading::known_at))]
    fn take<'a>(
        alloc: Global,
        whole: usize,
        _seen: &[Known],
        bytes: &'a [u8],
    ) -> Result<(Known, &'a [u8]), ByteFault> {
        let (channel, rest) = take_name(whole, bytes)?;
        let (last, rest) = take_state(alloc, whole, rest)?;
        Ok((Known { channel, last }, rest))
    }
}

/// A reader of held chains, whatever was read before them.
struct HeldChains;

impl Take for HeldChains {
    type Value = HeldChain;

    ghost at = { reads.next_at reads.held_chain_at };

    #[tactic(auto, unfolding(run_record::specs::Reading::held_chain_at))]
    fn take<'a>(
        alloc: Global,
        whole: usize,
        _seen: &[HeldChain],
        bytes: &'a [u8],
    ) -> Result<(HeldChain, &'a [u8]), ByteFault> {
        let (channel, rest) = take_name(whole, bytes)?;
        let (chain, rest) = take_chain(alloc, whole, rest)?;
        Ok((HeldChain { channel, chain }, rest))
    }
}

/// A number of 16 bytes: its upper half, and its lower.
#[tactic(auto, unfolding(run_record::specs::Reading::wide_at))]
fn take_wide(whole: usize, bytes: &[u8]) -> Result<(u128, &[u8]), ByteFault>
    ensures { TakesValue result (reads.wide_at whole bytes.now) }
{
    let (upper, rest) = take_u64(whole, bytes)?;
    let (lower, rest) = take_u64(whole, rest)?;
    Ok((
        upper as u128 * 0x1_0000_0000_0000_0000 + lower as u128,
        rest,
    ))
}

/// A reader of shares, whatever was read before them.
struct Shares;

impl Take for Shares {
    type Value = (u32, u128);

    ghost at = { reads.next_at reads.share_at };

    #[tactic(auto, unfolding(run_record::specs::Reading::share_at))]
    fn take<'a>(
        _alloc: Global,
        whole: usize,
        _seen: &[(u32, u128)],
        bytes: &'a [u8],
    ) -> Result<((u32, u128), &'a [u8]), ByteFault> {
        let (asset, rest) = take_u32(whole, bytes)?;
        let (amount, rest) = take_wide(whole, rest)?;
        Ok(((asset, amount), rest))
    }
}

/// A reader of endings, whatever was read before them.
pub(crate) struct Endings;

impl Take for Endings {
    type Value = Ending;

    ghost at = { reads.next_at reads.ending_at };

    #[tactic(auto, unfolding(run_record::specs::Reading::ending_at, run_record::specs::Reading::few_at, run_record::specs::Reading::list_at))]
    fn take<'a>(
        alloc: Global,
        whole: usize,
        _seen: &[Ending],
        bytes: &'a [u8],
    ) -> Result<(Ending, &'a [u8]), ByteFault> {
        let (person, rest) = take_name(whole, bytes)?;
        let (parts, rest) = take_short_list::<Parts>(alloc, whole, MOST_PARTS, rest)?;
        let (known, rest) = take_short_list::<KnownStates>(alloc, whole, MOST_KNOWN, rest)?;
        let (chains, rest) = take_short_list::<HeldChains>(alloc, whole, MOST_CHAINS, rest)?;
        let (shares, rest) = take_long_list::<Shares>(alloc, whole, rest)?;
        let ending = Ending {
            person,
            plan: Plan { me: person, parts },
            known,
            chains,
            shares,
        };
        Ok((ending, rest))
    }
}
