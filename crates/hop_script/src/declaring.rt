//! The people and the channels of a hop.

ghost use Rattle.std.specs.Prelude.{◌≡◌, ◌++◌, IfOk, OnOk};
ghost use Rattle.hop_script.specs.Hop.{channel, channels, declared, ledgers, onward, people, person, virtual_ledger};

use crate::parts::{label, three, two};
use channel_values::{Label, Listed, NoMemory};
use script_steps::{ChannelStep, PersonStep, Step};
use std::alloc::Global;

/// A person with a node and one watcher, whose seed has this byte alone.
fn person(alloc: Global, name: &str, letter: u8) -> Result<Step, NoMemory>
    ensures { IfOk result (λ s. s ≡ person name.now letter) }
{
    Ok(Step::Person(PersonStep {
        name: label(alloc, name)?,
        seed: [letter; 32],
        h: 10,
        node: true,
        watchers: 1,
    }))
}

fn channel(
    alloc: Global,
    name: &str,
    people: Listed<Label>,
    nonce: u64,
    app: u8,
) -> Result<Step, NoMemory>
    ensures { IfOk result (λ s. s ≡ channel name.now people nonce app) }
{
    Ok(Step::Channel(ChannelStep {
        name: label(alloc, name)?,
        people,
        nonce,
        app,
        duration: 5,
    }))
}

fn push_ledgers(alloc: Global, steps: &mut Listed<Step>) -> Result<(), NoMemory>
    ensures { OnOk result (steps.new ≡ steps.old ++ ledgers) }
{
    steps.push(channel(alloc, "LA", two(alloc, "A", "I1")?, 1, 0)?)?;
    steps.push(channel(alloc, "LI", two(alloc, "I1", "I2")?, 2, 0)?)?;
    steps.push(channel(alloc, "LB", two(alloc, "I2", "B")?, 3, 0)?)
}

/// What the virtual ledger of A and I2 takes.
fn push_virtual_ledger(alloc: Global, steps: &mut Listed<Step>) -> Result<(), NoMemory>
    ensures { OnOk result (steps.new ≡ steps.old ++ virtual_ledger) }
{
    steps.push(channel(alloc, "GA1", two(alloc, "A", "I1")?, 4, 2)?)?;
    steps.push(channel(alloc, "GB1", two(alloc, "I1", "I2")?, 5, 2)?)?;
    steps.push(channel(alloc, "J1", three(alloc, "A", "I1", "I2")?, 6, 0)?)?;
    steps.push(channel(alloc, "VL", two(alloc, "A", "I2")?, 7, 0)?)
}

/// What the channel of A and B takes.
fn push_onward(alloc: Global, steps: &mut Listed<Step>) -> Result<(), NoMemory>
    ensures { OnOk result (steps.new ≡ steps.old ++ onward) }
{
    steps.push(channel(alloc, "GA2", two(alloc, "A", "I2")?, 8, 2)?)?;
    steps.push(channel(alloc, "GB2", two(alloc, "I2", "B")?, 9, 2)?)?;
    steps.push(channel(alloc, "J2", three(alloc, "A", "I2", "B")?, 10, 0)?)?;
    steps.push(channel(alloc, "X2", two(alloc, "A", "B")?, 11, 1)?)
}

/// The steps that declare the people.
pub(crate) fn people(alloc: Global) -> Result<Listed<Step>, NoMemory>
    ensures { IfOk result (λ steps. steps ≡ people) }
{
    let a = person(alloc, "A", 0x41)?;
    let near = person(alloc, "I1", 0x31)?;
    let far = person(alloc, "I2", 0x32)?;
    let b = person(alloc, "B", 0x42)?;
    let steps = vec![in alloc; a, near, far, b]?;
    Ok(Listed::make(steps))
}

/// Appends the steps that declare the channels.
fn push_channels(alloc: Global, steps: &mut Listed<Step>) -> Result<(), NoMemory>
    ensures { OnOk result (steps.new ≡ steps.old ++ channels) }
{
    push_ledgers(alloc, steps)?;
    push_virtual_ledger(alloc, steps)?;
    push_onward(alloc, steps)
}

/// The steps that declare the channels.
pub(crate) fn channels(alloc: Global) -> Result<Listed<Step>, NoMemory>
    ensures { IfOk result (λ steps. steps ≡ channels) }
{
    let mut steps = Listed::make(Vec::new(alloc));
    push_channels(alloc, &mut steps)?;
    Ok(steps)
}

/// The steps that declare the people and the channels.
pub(crate) fn declared(alloc: Global) -> Result<Listed<Step>, NoMemory>
    ensures { IfOk result (λ steps. steps ≡ declared) }
{
    let mut steps = people(alloc)?;
    push_channels(alloc, &mut steps)?;
    Ok(steps)
}
