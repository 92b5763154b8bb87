//! The payments of a hop, and its end.

ghost use Rattle.std.specs.Prelude.{◌≡◌, ◌++◌, IfOk, OnOk};
ghost use Rattle.hop_script.specs.Hop.{closes, ending_steps, everyone, exchange, exits, ledger_closes, payment, payments, virtual_closes};
ghost use Rattle.script_reader.specs.step.Step.TheVariants as steps;

use crate::ending::Ending;
use crate::parts::{label, push_settled, three, two};
use channel_values::{Label, Listed, NoMemory};
use script_steps::{PayStep, Step};
use std::alloc::Global;

/// Appends a payment, and the round in which it is made.
fn push_payment(
    alloc: Global,
    steps: &mut Listed<Step>,
    who: &str,
    amount: u64,
) -> Result<(), NoMemory>
    ensures { OnOk result (steps.new ≡ steps.old ++ payment who.now amount) }
{
    steps.push(Step::Pay(PayStep {
        who: label(alloc, who)?,
        channel: label(alloc, "X2")?,
        asset: 0,
        amount,
    }))?;
    steps.push(Step::Rounds { count: 1 })
}

/// Appends a payment of 1 by A, and one of nothing by B, whose turn is next then.
fn push_exchange(alloc: Global, steps: &mut Listed<Step>) -> Result<(), NoMemory>
    ensures { OnOk result (steps.new ≡ steps.old ++ exchange) }
{
    push_payment(alloc, steps, "A", 1)?;
    push_payment(alloc, steps, "B", 0)
}

/// Appends so many of both.
pub(crate) fn push_payments(
    alloc: Global,
    steps: &mut Listed<Step>,
    count: u32,
) -> Result<(), NoMemory>
    ensures { OnOk result (steps.new ≡ steps.old ++ payments count) }
{
    for _ in 0..count {
        push_exchange(alloc, steps)?;
    }
    Ok(())
}

fn close(alloc: Global, who: Listed<Label>, channel: &str) -> Result<Step, NoMemory>
    ensures { IfOk result (λ s. s ≡ steps.Close who channel.now) }
{
    Ok(Step::Close {
        who,
        channel: label(alloc, channel)?,
    })
}

fn push_virtual_closes(alloc: Global, steps: &mut Listed<Step>) -> Result<(), NoMemory>
    ensures { OnOk result (steps.new ≡ steps.old ++ virtual_closes) }
{
    push_settled(steps, close(alloc, three(alloc, "A", "I2", "B")?, "X2")?)?;
    push_settled(steps, close(alloc, three(alloc, "A", "I1", "I2")?, "VL")?)
}

fn push_ledger_closes(alloc: Global, steps: &mut Listed<Step>) -> Result<(), NoMemory>
    ensures { OnOk result (steps.new ≡ steps.old ++ ledger_closes) }
{
    push_settled(steps, close(alloc, two(alloc, "A", "I1")?, "LA")?)?;
    push_settled(steps, close(alloc, two(alloc, "I1", "I2")?, "LI")?)?;
    push_settled(steps, close(alloc, two(alloc, "I2", "B")?, "LB")?)
}

fn push_closes(alloc: Global, steps: &mut Listed<Step>) -> Result<(), NoMemory>
    ensures { OnOk result (steps.new ≡ steps.old ++ closes) }
{
    push_virtual_closes(alloc, steps)?;
    push_ledger_closes(alloc, steps)
}

/// The names of all people.
fn everyone(alloc: Global) -> Result<Listed<Label>, NoMemory>
    ensures { IfOk result (λ names. names ≡ everyone) }
{
    let mut names = three(alloc, "A", "I1", "I2")?;
    names.push(label(alloc, "B")?)?;
    Ok(names)
}

fn push_exits(alloc: Global, steps: &mut Listed<Step>) -> Result<(), NoMemory>
    ensures { OnOk result (steps.new ≡ steps.old ++ exits) }
{
    steps.push(Step::Exit {
        who: everyone(alloc)?,
    })?;
    steps.push(Step::Rounds { count: 8 })?;
    steps.push(Step::Time { to: 5 })?;
    steps.push(Step::Rounds { count: 12 })
}

/// Appends the end.
pub(crate) fn push_ending(
    alloc: Global,
    steps: &mut Listed<Step>,
    ending: Ending,
) -> Result<(), NoMemory>
    ensures { OnOk result (steps.new ≡ steps.old ++ ending_steps ending) }
{
    match ending {
        Ending::Close => push_closes(alloc, steps),
        Ending::Exit => push_exits(alloc, steps),
    }
}
