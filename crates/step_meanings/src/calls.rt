//! The calls that steps make.

ghost use Rattle.std.specs.Prelude.{◌≡◌, ◌≤◌, length, IfOk};
ghost use Rattle.script_steps.specs.Bounds.{Fits};
ghost use Rattle.script_steps.specs.declared.step.Step.TheVariants as steps;
ghost use Rattle.step_meanings.specs.Meanings.{doing, meaning};

use crate::chains::{chain_of, listed};
use crate::effect::Effect;
use crate::names::{Names, channel_by, digest_or_digits, position_of, sign_challenge};
use call_history::{Call, ChallengeCall, ClaimCall, DepositCall, Op, RespondCall, TransferCall};
use channel_values::{Label, NoMemory};
use script_steps::{ChallengeStep, ClaimStep, DepositStep, RespondStep, TransferStep};

pub(crate) fn deposit(known: &Names, keys: &DepositStep) -> Effect
    requires { Fits (steps.Deposit keys.now) }
    ensures { doing known.now result ≡ meaning known.now (steps.Deposit keys.now) }
{
    let declared = channel_by(known.channels.as_slice(), keys.channel.as_str());
    let Some(channel) = digest_or_digits(declared, keys.channel.as_str()) else {
        return Effect::Nothing;
    };
    Effect::Enter(Op::Call(Call::Deposit(DepositCall {
        channel,
        asset: keys.asset as u32,
        expected: keys.expected,
        amount: keys.amount,
    })))
}

pub(crate) fn respond(known: &Names, keys: &RespondStep) -> Result<Effect, NoMemory>
    ensures { IfOk result (λ e. doing known.now e ≡ meaning known.now (steps.Respond keys.now)) }
{
    let Some(fixed) = known.fixed_by(&keys.channel)? else {
        return Ok(Effect::Nothing);
    };
    let Some(before) = known.signed_by(&keys.from)? else {
        return Ok(Effect::Nothing);
    };
    let Some(next) = known.signed_by(&keys.state)? else {
        return Ok(Effect::Nothing);
    };
    let from = before.state;
    Ok(Effect::Enter(Op::Call(Call::Respond(RespondCall { fixed, from, next }))))
}

pub(crate) fn refute(known: &Names, channel: &Label, next: &Label) -> Result<Effect, NoMemory>
    ensures { IfOk result (λ e. doing known.now e ≡ meaning known.now (steps.Refute channel.now next.now)) }
{
    let Some(fixed) = known.fixed_by(channel)? else {
        return Ok(Effect::Nothing);
    };
    let Some(next) = known.signed_by(next)? else {
        return Ok(Effect::Nothing);
    };
    Ok(Effect::Enter(Op::Call(Call::Refute { fixed, next })))
}

pub(crate) fn checkpoint(
    known: &Names,
    channel: &Label,
    names: &[Label],
) -> Result<Effect, NoMemory>
    requires { length names.now ≤ 4 }
    ensures { IfOk result (λ e. doing known.now e ≡ meaning known.now (steps.Checkpoint channel.now names.now)) }
{
    let Some(chain) = known.chain_by(channel, names)? else {
        return Ok(Effect::Nothing);
    };
    Ok(Effect::Enter(Op::Call(Call::Checkpoint { chain })))
}

pub(crate) fn conclude(known: &Names, channel: &Label, names: &[Label]) -> Result<Effect, NoMemory>
    requires { length names.now ≤ 4 }
    ensures { IfOk result (λ e. doing known.now e ≡ meaning known.now (steps.Conclude channel.now names.now)) }
{
    let Some(chain) = known.chain_by(channel, names)? else {
        return Ok(Effect::Nothing);
    };
    Ok(Effect::Enter(Op::Call(Call::Conclude { chain })))
}

/// A transfer of an item of the outcome of a named state.
pub(crate) fn transfer(known: &Names, keys: &TransferStep) -> Result<Effect, NoMemory>
    requires { Fits (steps.Transfer keys.now) }
    ensures { IfOk result (λ e. doing known.now e ≡ meaning known.now (steps.Transfer keys.now)) }
{
    let Some(channel) = known.name_by(&keys.channel) else {
        return Ok(Effect::Nothing);
    };
    let Some(outcome) = known.outcome_by(&keys.state)? else {
        return Ok(Effect::Nothing);
    };
    Ok(Effect::Enter(Op::Call(Call::Transfer(TransferCall {
        channel,
        outcome,
        asset: keys.asset as u32,
        index: keys.index as u8,
    }))))
}

/// A claim, by the outcomes of two named states, of the guarantor and of its target.
pub(crate) fn claim(known: &Names, keys: &ClaimStep) -> Result<Effect, NoMemory>
    requires { Fits (steps.Claim keys.now) }
    ensures { IfOk result (λ e. doing known.now e ≡ meaning known.now (steps.Claim keys.now)) }
{
    let Some(guarantor) = known.name_by(&keys.guarantor) else {
        return Ok(Effect::Nothing);
    };
    let Some(guarantor_outcome) = known.outcome_by(&keys.state)? else {
        return Ok(Effect::Nothing);
    };
    let Some(target) = known.name_by(&keys.target) else {
        return Ok(Effect::Nothing);
    };
    let Some(target_outcome) = known.outcome_by(&keys.target_state)? else {
        return Ok(Effect::Nothing);
    };
    Ok(Effect::Enter(Op::Call(Call::Claim(ClaimCall {
        guarantor,
        guarantor_outcome,
        target,
        target_outcome,
        asset: keys.asset as u32,
        position: keys.position as u8,
    }))))
}

/// A challenge, signed where the chain has a state.
pub(crate) fn challenge(known: &mut Names, keys: &ChallengeStep) -> Result<Effect, NoMemory>
    requires { Fits (steps.Challenge keys.now) }
    ensures { IfOk result (λ e. doing known.new e ≡ meaning known.old (steps.Challenge keys.now)) }
{
    let Some(fixed) = known.fixed_by(&keys.channel)? else {
        return Ok(Effect::Nothing);
    };
    let Some(key) = known.people.key_by(keys.by.as_str()) else {
        return Ok(Effect::Nothing);
    };
    let challenger = position_of(fixed.keys(), &key);
    let listed = listed(
        known.alloc(),
        known.states.as_slice(),
        keys.chain.as_slice(),
    )?;
    let alloc = known.alloc();
    let signed = sign_challenge(
        alloc,
        &mut known.people,
        keys.by.as_str(),
        &fixed,
        &listed,
        challenger,
    )?;
    let Some(signature) = signed else {
        return Ok(Effect::Nothing);
    };
    let chain = chain_of(known.alloc(), &fixed, &listed)?;
    Ok(Effect::Enter(Op::Call(Call::Challenge(ChallengeCall {
        chain,
        challenger,
        signature,
    }))))
}
