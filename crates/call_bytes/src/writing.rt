//! The canonical bytes of calls and messages.

ghost use Rattle.std.specs.Prelude.{◌≡◌, ◌++◌, ◌∷◌, [], OnOk, OnErr};
ghost use Rattle.std.specs.Int.{w32, w64, to_be_bytes};
ghost use Rattle.channel_values.specs.Outcomes.{IsName, IsOutcome};
ghost use Rattle.channel_values.specs.Parts.{IsFixed};
ghost use Rattle.channel_values.specs.Chains.{IsSigned, IsChain, KeepsLimits};
ghost use Rattle.channel_values.specs.Spelling.{outcome as spell, fixed as spell_fixed, signed as spell_signed, chain as spell_chain};
ghost use Rattle.call_history.specs.Spelling.{call, message};
ghost use Rattle.call_history.specs.Limits.{IsCall, IsMessage, KeepsCall, IsShort};
ghost use Rattle.call_history.specs.declared.call.Call.TheVariants as calls;

use call_history::{Call, ChallengeCall, ClaimCall, DepositCall, RespondCall, TransferCall};
use channel_values::{
    Chain, Fixed, Name, NoMemory, Outcome, Signed, put_name, put_sized, write_chain, write_signed,
};

/// An asset, and what is expected and brought of it.
fn put_amounts(out: &mut Vec<u8>, asset: u32, expected: u64, amount: u64) -> Result<(), NoMemory>
    ensures { OnOk result (out.new.items ≡ out.old.items
        ++ (to_be_bytes w32 asset ++ (to_be_bytes w64 expected ++ to_be_bytes w64 amount))) }
{
    out.extend_from_slice(&asset.to_be_bytes())?;
    out.extend_from_slice(&expected.to_be_bytes())?;
    out.extend_from_slice(&amount.to_be_bytes())?;
    Ok(())
}

#[tactic(auto, unfolding(call_history::specs::Spelling::call))]
fn put_deposit(out: &mut Vec<u8>, deposit: &DepositCall) -> Result<(), NoMemory>
    ensures put { OnOk result (out.new.items ≡ out.old.items ++ call (calls.Deposit deposit.now)) }
    ensures fits { OnOk result (IsCall (calls.Deposit deposit.now)) }
{
    out.push(1)?;
    put_name(out, &deposit.channel)?;
    put_amounts(out, deposit.asset, deposit.expected, deposit.amount)
}

/// A channel's name, and its outcome.
fn put_ending(out: &mut Vec<u8>, channel: &Name, outcome: &Outcome) -> Result<(), NoMemory>
    ensures put { OnOk result (out.new.items ≡ out.old.items ++ (channel.now ++ spell outcome.now)) }
    ensures fits { OnOk result (IsName channel.now × IsOutcome outcome.now) }
{
    put_name(out, channel)?;
    out.extend_from_slice(outcome.bytes())?;
    Ok(())
}

/// An asset, and a place in a list.
fn put_place(out: &mut Vec<u8>, asset: u32, place: u8) -> Result<(), NoMemory>
    ensures { OnOk result (out.new.items ≡ out.old.items ++ (to_be_bytes w32 asset ++ (place ∷ []))) }
{
    out.extend_from_slice(&asset.to_be_bytes())?;
    out.push(place)?;
    Ok(())
}

#[tactic(auto, unfolding(call_history::specs::Spelling::call))]
fn put_transfer(out: &mut Vec<u8>, transfer: &TransferCall) -> Result<(), NoMemory>
    ensures put { OnOk result (out.new.items ≡ out.old.items ++ call (calls.Transfer transfer.now)) }
    ensures fits { OnOk result (IsCall (calls.Transfer transfer.now)) }
{
    out.push(7)?;
    put_ending(out, &transfer.channel, &transfer.outcome)?;
    put_place(out, transfer.asset, transfer.index)
}

/// A chain after a call's tag.
#[tactic(auto, unfolding(channel_values::specs::Spelling::chain))]
fn put_chain(out: &mut Vec<u8>, tag: u8, chain: &Chain) -> Result<(), NoMemory>
    requires { KeepsLimits chain.now }
    ensures put { OnOk result (out.new.items ≡ out.old.items ++ (tag ∷ spell_chain chain.now)) }
    ensures fits { OnOk result (IsChain chain.now) }
{
    out.push(tag)?;
    write_chain(chain, out)
}

#[tactic(auto, unfolding(call_history::specs::Spelling::call))]
fn put_challenge(out: &mut Vec<u8>, challenge: &ChallengeCall) -> Result<(), NoMemory>
    requires { KeepsCall (calls.Challenge challenge.now) }
    ensures put { OnOk result (out.new.items ≡ out.old.items ++ call (calls.Challenge challenge.now)) }
    ensures fits { OnOk result (IsCall (calls.Challenge challenge.now)) }
{
    put_chain(out, 2, &challenge.chain)?;
    out.push(challenge.challenger)?;
    put_sized(out, challenge.signature.as_slice())
}

#[tactic(auto, unfolding(call_history::specs::Spelling::call))]
fn put_respond(out: &mut Vec<u8>, respond: &RespondCall) -> Result<(), NoMemory>
    requires { KeepsCall (calls.Respond respond.now) }
    ensures put { OnOk result (out.new.items ≡ out.old.items ++ call (calls.Respond respond.now)) }
    ensures fits { OnOk result (IsCall (calls.Respond respond.now)) }
{
    out.push(3)?;
    out.extend_from_slice(respond.fixed.bytes())?;
    out.extend_from_slice(respond.from.bytes())?;
    write_signed(&respond.next, out)
}

fn put_refute(out: &mut Vec<u8>, fixed: &Fixed, next: &Signed) -> Result<(), NoMemory>
    requires { IsShort next.now }
    ensures put { OnOk result (out.new.items ≡ out.old.items
        ++ (4 ∷ (spell_fixed fixed.now ++ spell_signed next.now))) }
    ensures fits { OnOk result (IsFixed fixed.now × IsSigned next.now) }
{
    out.push(4)?;
    out.extend_from_slice(fixed.bytes())?;
    write_signed(next, out)
}

#[tactic(auto, unfolding(call_history::specs::Spelling::call))]
fn put_claim(out: &mut Vec<u8>, claim: &ClaimCall) -> Result<(), NoMemory>
    ensures put { OnOk result (out.new.items ≡ out.old.items ++ call (calls.Claim claim.now)) }
    ensures fits { OnOk result (IsCall (calls.Claim claim.now)) }
{
    out.push(8)?;
    put_ending(out, &claim.guarantor, &claim.guarantor_outcome)?;
    put_ending(out, &claim.target, &claim.target_outcome)?;
    put_place(out, claim.asset, claim.position)
}

/// Appends the one spelling; where there is no memory, a part of it may stay.
#[tactic(auto, unfolding(call_history::specs::Spelling::call))]
fn put_call(out: &mut Vec<u8>, value: &Call) -> Result<(), NoMemory>
    requires { KeepsCall value.now }
    ensures put { OnOk result (out.new.items ≡ out.old.items ++ call value.now) }
    ensures fits { OnOk result (IsCall value.now) }
{
    match value {
        Call::Deposit(deposit) => put_deposit(out, deposit),
        Call::Challenge(challenge) => put_challenge(out, challenge),
        Call::Respond(respond) => put_respond(out, respond),
        Call::Refute { fixed, next } => put_refute(out, fixed, next),
        Call::Checkpoint { chain } => put_chain(out, 5, chain),
        Call::Conclude { chain } => put_chain(out, 6, chain),
        Call::Transfer(transfer) => put_transfer(out, transfer),
        Call::Claim(claim) => put_claim(out, claim),
    }
}

/// Appends the one spelling, or nothing where there is no memory.
pub fn write_call(value: &Call, out: &mut Vec<u8>) -> Result<(), NoMemory>
    requires { KeepsCall value.now }
    ensures written { OnOk result (out.new.items ≡ out.old.items ++ call value.now) }
    ensures valid { OnOk result (IsCall value.now) }
    ensures kept { OnErr result (out.new.items ≡ out.old.items) }
{
    let mut spelling = Vec::new(*out.allocator());
    put_call(&mut spelling, value)?;
    out.extend_from_slice(&spelling)?;
    Ok(())
}

/// Appends the one spelling; where there is no memory, a part of it may stay.
#[tactic(auto, unfolding(call_history::specs::Spelling::message))]
fn put_message(out: &mut Vec<u8>, channel: &Name, signed: &Signed) -> Result<(), NoMemory>
    requires { IsShort signed.now }
    ensures put { OnOk result (out.new.items ≡ out.old.items ++ message (channel.now, signed.now)) }
    ensures fits { OnOk result (IsMessage (channel.now, signed.now)) }
{
    put_name(out, channel)?;
    write_signed(signed, out)
}

/// Appends the one spelling of a channel's name and a signed state of it, or nothing where there is no memory.
pub fn write_message(channel: &Name, signed: &Signed, out: &mut Vec<u8>) -> Result<(), NoMemory>
    requires { IsShort signed.now }
    ensures written { OnOk result (out.new.items ≡ out.old.items ++ message (channel.now, signed.now)) }
    ensures valid { OnOk result (IsMessage (channel.now, signed.now)) }
    ensures kept { OnErr result (out.new.items ≡ out.old.items) }
{
    let mut spelling = Vec::new(*out.allocator());
    put_message(&mut spelling, channel, signed)?;
    out.extend_from_slice(&spelling)?;
    Ok(())
}
