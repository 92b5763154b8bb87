//! The messages and the commands of steps.

ghost use Rattle.std.specs.Prelude.{◌≡◌, length, IfOk};
ghost use Rattle.script_steps.specs.Bounds.{Fits};
ghost use Rattle.script_steps.specs.declared.step.Step.TheVariants as steps;
ghost use Rattle.step_meanings.specs.Meanings.{doing, telling, meaning, message_by, names_by, both_by};

use crate::chains::state_by;
use crate::effect::Effect;
use crate::names::Names;
use call_bytes::write_message;
use channel_values::{Fixed, Label, Listed, Name, NoMemory};
use network::{Command, LedgerFunding, Release, VirtualFunding};
use script_steps::{CatchStep, OpenOnStep, OpenStep, OpenVirtualStep, PayStep};
use std::slice;

/// The message of a named state, on its way to a person.
pub(crate) fn send(known: &Names, to: &Label, name: &Label) -> Result<Effect, NoMemory>
    ensures { IfOk result (λ e. doing known.now e ≡ meaning known.now (steps.Send to.now name.now)) }
{
    let Some(who) = known.who_by(to) else {
        return Ok(Effect::Nothing);
    };
    match message_by(known, name)? {
        Some(bytes) => Ok(Effect::Post(who, bytes)),
        None => Ok(Effect::Nothing),
    }
}

/// The message of the state of this name.
fn message_by(known: &Names, name: &Label) -> Result<Option<Listed<u8>>, NoMemory>
    ensures { IfOk result (λ m. m ≡ message_by known.now.states name.now) }
{
    let Some(found) = state_by(known.states.as_slice(), name.as_str()) else {
        return Ok(None);
    };
    if found.signed.signature.as_slice().len() > 9004 {
        return Ok(None);
    }
    let mut bytes = Vec::new(known.alloc());
    write_message(&found.channel, &found.signed, &mut bytes)?;
    Ok(Some(Listed::make(bytes)))
}

pub(crate) fn lose(known: &Names, to: &Label) -> Effect
    ensures { doing known.now result ≡ meaning known.now (steps.Drop to.now) }
{
    match known.who_by(to) {
        Some(who) => Effect::Lose(who),
        None => Effect::Nothing,
    }
}

/// A name for the state that a person's node signed of a channel.
pub(crate) fn catch(known: &Names, keys: &CatchStep) -> Result<Effect, NoMemory>
    ensures { IfOk result (λ e. doing known.now e ≡ meaning known.now (steps.Catch keys.now)) }
{
    let Some(person) = known.people.person_by(keys.from.as_str()) else {
        return Ok(Effect::Nothing);
    };
    let Some(channel) = known.name_by(&keys.channel) else {
        return Ok(Effect::Nothing);
    };
    let name = keys.name.copy()?;
    Ok(Effect::Catch(name, person.number, person.key, channel, keys.turn))
}

/// A command for the nodes of these people.
fn tell(known: &Names, who: &[Label], command: Command) -> Result<Effect, NoMemory>
    ensures { IfOk result (λ e. doing known.now e ≡ telling known.now who.now command) }
{
    let numbers = known.people.numbers_by(known.alloc(), who)?;
    Ok(Effect::Tell(numbers, command))
}

/// A command to open a channel.
pub(crate) fn open_channel(known: &Names, keys: &OpenStep) -> Result<Effect, NoMemory>
    ensures { IfOk result (λ e. doing known.now e ≡ meaning known.now (steps.Open keys.now)) }
{
    let Some(fixed) = known.fixed_by(&keys.channel)? else {
        return Ok(Effect::Nothing);
    };
    let outcome = keys.outcome.copy()?;
    tell(known, keys.who.as_slice(), Command::Open { fixed, outcome })
}

pub(crate) fn open_on(known: &Names, keys: &OpenOnStep) -> Result<Effect, NoMemory>
    requires { Fits (steps.OpenOn keys.now) }
    ensures { IfOk result (λ e. doing known.now e ≡ meaning known.now (steps.OpenOn keys.now)) }
{
    let Some(ledger) = known.name_by(&keys.ledger) else {
        return Ok(Effect::Nothing);
    };
    let Some(fixed) = known.fixed_by(&keys.channel)? else {
        return Ok(Effect::Nothing);
    };
    tell(
        known,
        keys.who.as_slice(),
        Command::OpenOn(LedgerFunding {
            ledger,
            fixed,
            asset: keys.asset as u32,
            amounts: keys.amounts,
        }),
    )
}

/// The names of the ledgers of these two names.
fn names_by(known: &Names, names: &[Label]) -> Option<(Name, Name)>
    ensures { result ≡ names_by known.now.channels names.now }
{
    let [a, b] = names else {
        return None;
    };
    let Some(first) = known.name_by(a) else {
        return None;
    };
    let Some(second) = known.name_by(b) else {
        return None;
    };
    Some((first, second))
}

/// The fixed parts of the channels of these two names.
fn both_by(known: &Names, names: &[Label]) -> Result<Option<(Fixed, Fixed)>, NoMemory>
    ensures { IfOk result (λ o. o ≡ both_by known.now.channels names.now) }
{
    let [a, b] = names else {
        return Ok(None);
    };
    let Some(first) = known.fixed_by(a)? else {
        return Ok(None);
    };
    let Some(second) = known.fixed_by(b)? else {
        return Ok(None);
    };
    Ok(Some((first, second)))
}

pub(crate) fn open_virtual(known: &Names, keys: &OpenVirtualStep) -> Result<Effect, NoMemory>
    requires { Fits (steps.OpenVirtual keys.now) }
    ensures { IfOk result (λ e. doing known.now e ≡ meaning known.now (steps.OpenVirtual keys.now)) }
{
    let Some(ledgers) = names_by(known, keys.ledgers.as_slice()) else {
        return Ok(Effect::Nothing);
    };
    let Some(guarantors) = both_by(known, keys.guarantors.as_slice())? else {
        return Ok(Effect::Nothing);
    };
    let Some(joint) = known.fixed_by(&keys.joint)? else {
        return Ok(Effect::Nothing);
    };
    let Some(channel) = known.fixed_by(&keys.channel)? else {
        return Ok(Effect::Nothing);
    };
    tell(
        known,
        keys.who.as_slice(),
        Command::OpenVirtual(VirtualFunding {
            route: keys.route,
            ledgers,
            guarantors,
            joint,
            channel,
            asset: keys.asset as u32,
            amounts: keys.amounts,
        }),
    )
}

pub(crate) fn pay(known: &Names, keys: &PayStep) -> Result<Effect, NoMemory>
    requires { Fits (steps.Pay keys.now) }
    ensures { IfOk result (λ e. doing known.now e ≡ meaning known.now (steps.Pay keys.now)) }
{
    let Some(channel) = known.name_by(&keys.channel) else {
        return Ok(Effect::Nothing);
    };
    tell(
        known,
        slice::from_ref(&keys.who),
        Command::Pay {
            channel,
            asset: keys.asset as u32,
            amount: keys.amount,
        },
    )
}

pub(crate) fn close(known: &Names, who: &[Label], channel: &Label) -> Result<Effect, NoMemory>
    ensures { IfOk result (λ e. doing known.now e ≡ meaning known.now (steps.Close who.now channel.now)) }
{
    let Some(channel) = known.name_by(channel) else {
        return Ok(Effect::Nothing);
    };
    tell(known, who, Command::Close { channel })
}

pub(crate) fn release(
    known: &Names,
    how: Release,
    who: &[Label],
    channel: &Label,
) -> Result<Effect, NoMemory>
    ensures { IfOk result (λ e. doing known.now e ≡ meaning known.now (steps.Release how who.now channel.now)) }
{
    let Some(channel) = known.name_by(channel) else {
        return Ok(Effect::Nothing);
    };
    tell(known, who, Command::Release { how, channel })
}

pub(crate) fn resend(known: &Names, who: &[Label], channel: &Label) -> Result<Effect, NoMemory>
    ensures { IfOk result (λ e. doing known.now e ≡ meaning known.now (steps.Resend who.now channel.now)) }
{
    let Some(channel) = known.name_by(channel) else {
        return Ok(Effect::Nothing);
    };
    tell(known, who, Command::Resend { channel })
}

pub(crate) fn exit(known: &Names, who: &[Label]) -> Result<Effect, NoMemory>
    ensures { IfOk result (λ e. doing known.now e ≡ meaning known.now (steps.Exit who.now)) }
{
    tell(known, who, Command::Exit)
}
