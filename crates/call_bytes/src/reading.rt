//! Calls and messages from their canonical bytes.

ghost use Rattle.std.specs.Prelude.{◌≡◌, IfOk, Ok};
ghost use Rattle.channel_values.specs.Reading.{Gives};
ghost use Rattle.call_history.specs.Spelling as spelling;
ghost use Rattle.call_history.specs.Limits.{IsCall, IsMessage, KeepsCall};
ghost use Rattle.call_history.specs.Reading.{deposit_at, challenge_at, respond_at, refute_at, checkpoint_at, conclude_at, transfer_at, claim_at, call_at, message_at, call_of, message_of};
ghost use Rattle.call_history.specs.declared.call.Call.{Call as AnyCall};

use call_history::{Call, ChallengeCall, ClaimCall, DepositCall, RespondCall, TransferCall};
use channel_values::{
    ByteFault, Name, Signed, ended, place_of, take_byte, take_chain, take_fixed, take_name,
    take_outcome, take_signature, take_signed, take_state, take_u32, take_u64,
};
use std::alloc::Global;

#[tactic(auto, unfolding(call_history::specs::Reading::deposit_at))]
fn take_deposit(whole: usize, bytes: &[u8]) -> Result<(Call, &[u8]), ByteFault>
    ensures { Gives (λ x. (x.0, x.1.now)) result (deposit_at whole bytes.now) }
{
    let (channel, rest) = take_name(whole, bytes)?;
    let (asset, rest) = take_u32(whole, rest)?;
    let (expected, rest) = take_u64(whole, rest)?;
    let (amount, rest) = take_u64(whole, rest)?;
    let deposit = DepositCall {
        channel,
        asset,
        expected,
        amount,
    };
    Ok((Call::Deposit(deposit), rest))
}

#[tactic(auto, unfolding(call_history::specs::Reading::challenge_at))]
fn take_challenge(alloc: Global, whole: usize, bytes: &[u8]) -> Result<(Call, &[u8]), ByteFault>
    ensures { Gives (λ x. (x.0, x.1.now)) result (challenge_at whole bytes.now) }
{
    let (chain, rest) = take_chain(alloc, whole, bytes)?;
    let (challenger, rest) = take_byte(whole, rest)?;
    let (signature, rest) = take_signature(alloc, whole, rest)?;
    let challenge = ChallengeCall {
        chain,
        challenger,
        signature,
    };
    Ok((Call::Challenge(challenge), rest))
}

#[tactic(auto, unfolding(call_history::specs::Reading::respond_at))]
fn take_respond(alloc: Global, whole: usize, bytes: &[u8]) -> Result<(Call, &[u8]), ByteFault>
    ensures { Gives (λ x. (x.0, x.1.now)) result (respond_at whole bytes.now) }
{
    let (fixed, rest) = take_fixed(alloc, whole, bytes)?;
    let (from, rest) = take_state(alloc, whole, rest)?;
    let (next, rest) = take_signed(alloc, whole, rest)?;
    let respond = RespondCall { fixed, from, next };
    Ok((Call::Respond(respond), rest))
}

#[tactic(auto, unfolding(call_history::specs::Reading::refute_at))]
fn take_refute(alloc: Global, whole: usize, bytes: &[u8]) -> Result<(Call, &[u8]), ByteFault>
    ensures { Gives (λ x. (x.0, x.1.now)) result (refute_at whole bytes.now) }
{
    let (fixed, rest) = take_fixed(alloc, whole, bytes)?;
    let (next, rest) = take_signed(alloc, whole, rest)?;
    Ok((Call::Refute { fixed, next }, rest))
}

#[tactic(auto, unfolding(call_history::specs::Reading::checkpoint_at))]
fn take_checkpoint(alloc: Global, whole: usize, bytes: &[u8]) -> Result<(Call, &[u8]), ByteFault>
    ensures { Gives (λ x. (x.0, x.1.now)) result (checkpoint_at whole bytes.now) }
{
    let (chain, rest) = take_chain(alloc, whole, bytes)?;
    Ok((Call::Checkpoint { chain }, rest))
}

#[tactic(auto, unfolding(call_history::specs::Reading::conclude_at))]
fn take_conclude(alloc: Global, whole: usize, bytes: &[u8]) -> Result<(Call, &[u8]), ByteFault>
    ensures { Gives (λ x. (x.0, x.1.now)) result (conclude_at whole bytes.now) }
{
    let (chain, rest) = take_chain(alloc, whole, bytes)?;
    Ok((Call::Conclude { chain }, rest))
}

#[tactic(auto, unfolding(call_history::specs::Reading::transfer_at))]
fn take_transfer(alloc: Global, whole: usize, bytes: &[u8]) -> Result<(Call, &[u8]), ByteFault>
    ensures { Gives (λ x. (x.0, x.1.now)) result (transfer_at whole bytes.now) }
{
    let (channel, rest) = take_name(whole, bytes)?;
    let (outcome, rest) = take_outcome(alloc, whole, rest)?;
    let (asset, rest) = take_u32(whole, rest)?;
    let (index, rest) = take_byte(whole, rest)?;
    let transfer = TransferCall {
        channel,
        outcome,
        asset,
        index,
    };
    Ok((Call::Transfer(transfer), rest))
}

#[tactic(auto, unfolding(call_history::specs::Reading::claim_at))]
fn take_claim(alloc: Global, whole: usize, bytes: &[u8]) -> Result<(Call, &[u8]), ByteFault>
    ensures { Gives (λ x. (x.0, x.1.now)) result (claim_at whole bytes.now) }
{
    let (guarantor, rest) = take_name(whole, bytes)?;
    let (guarantor_outcome, rest) = take_outcome(alloc, whole, rest)?;
    let (target, rest) = take_name(whole, rest)?;
    let (target_outcome, rest) = take_outcome(alloc, whole, rest)?;
    let (asset, rest) = take_u32(whole, rest)?;
    let (position, rest) = take_byte(whole, rest)?;
    let claim = ClaimCall {
        guarantor,
        guarantor_outcome,
        target,
        target_outcome,
        asset,
        position,
    };
    Ok((Call::Claim(claim), rest))
}

/// A call, and the bytes after it; a fault's place is counted in `whole` bytes, of which `bytes` are the last.
#[tactic(auto, unfolding(call_history::specs::Reading::call_at))]
pub fn take_call(alloc: Global, whole: usize, bytes: &[u8]) -> Result<(Call, &[u8]), ByteFault>
    ensures { Gives (λ x. (x.0, x.1.now)) result (call_at whole bytes.now) }
{
    let place = place_of(whole, bytes);
    let (tag, rest) = take_byte(whole, bytes)?;
    match tag {
        1 => take_deposit(whole, rest),
        2 => take_challenge(alloc, whole, rest),
        3 => take_respond(alloc, whole, rest),
        4 => take_refute(alloc, whole, rest),
        5 => take_checkpoint(alloc, whole, rest),
        6 => take_conclude(alloc, whole, rest),
        7 => take_transfer(alloc, whole, rest),
        8 => take_claim(alloc, whole, rest),
        _ => Err(ByteFault::BadTag(place)),
    }
}

#[tactic(auto, unfolding(call_history::specs::Reading::message_at))]
fn take_message(
    alloc: Global,
    whole: usize,
    bytes: &[u8],
) -> Result<((Name, Signed), &[u8]), ByteFault>
    ensures { Gives (λ x. (x.0, x.1.now)) result (message_at whole bytes.now) }
{
    let (channel, rest) = take_name(whole, bytes)?;
    let (signed, rest) = take_signed(alloc, whole, rest)?;
    Ok(((channel, signed), rest))
}

#[tactic(auto, unfolding(channel_values::specs::Reading::all_of))]
fn call_from(alloc: Global, bytes: &[u8]) -> Result<Call, ByteFault>
    ensures { Gives (λ x. x) result (call_of bytes.now) }
{
    let whole = bytes.len();
    let (call, rest) = take_call(alloc, whole, bytes)?;
    ended(whole, call, rest)
}

/// The call that the bytes spell, all of the bytes, or the first fault.
pub fn read_call(alloc: Global, bytes: &[u8]) -> Result<Call, ByteFault>
    // What is read keeps the limits, and the input is its spelling.
    ensures found { IfOk result (λ c. IsCall c × (bytes.now ≡ spelling.call c)) }
    // So it may be written.
    ensures keeps { IfOk result KeepsCall }
    // A spelling is read, unless memory runs out.
    ensures only { (c : AnyCall) → IsCall c → bytes.now ≡ spelling.call c → Gives (λ x. x) result (Ok c) }
    // Which fault it is.
    ensures exact { Gives (λ x. x) result (call_of bytes.now) }
{
    call_from(alloc, bytes)
}

#[tactic(auto, unfolding(channel_values::specs::Reading::all_of))]
fn message_from(alloc: Global, bytes: &[u8]) -> Result<(Name, Signed), ByteFault>
    ensures { Gives (λ x. x) result (message_of bytes.now) }
{
    let whole = bytes.len();
    let (message, rest) = take_message(alloc, whole, bytes)?;
    ended(whole, message, rest)
}

/// The channel and the signed state that the bytes spell, all of the bytes, or the first fault.
pub fn read_message(alloc: Global, bytes: &[u8]) -> Result<(Name, Signed), ByteFault>
    // What is read keeps the limits, and the input is its spelling.
    ensures found { IfOk result (λ m. IsMessage m × (bytes.now ≡ spelling.message m)) }
    // A spelling is read, unless memory runs out.
    ensures only { (m : spelling.Message)
        → IsMessage m → bytes.now ≡ spelling.message m → Gives (λ x. x) result (Ok m) }
    // Which fault it is.
    ensures exact { Gives (λ x. x) result (message_of bytes.now) }
{
    message_from(alloc, bytes)
}
