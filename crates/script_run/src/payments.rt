//! The payments of a load.

ghost use Rattle.std.specs.Prelude.{◌≡◌, ◌++◌, ◌^◌, IfOk, OnOk};
ghost use Rattle.script_run.specs.Load.{next, drawn, payer, payments};

use crate::people::label;
use channel_values::{Listed, NoMemory};
use script_steps::{PayStep, Step};
use std::alloc::Global;

/// The number after another in the row of a seed.
fn next(number: u64) -> u64
    ensures { result ≡ next number }
{
    number
        .wrapping_mul(6364136223846793005)
        .wrapping_add(1442695040888963407)
}

/// Who pays at a place.
fn payer(place: u32) -> &'static str
    ensures { result.now ≡ payer place }
{
    if place % 2 == 1 { "A" } else { "B" }
}

/// Appends the payments of a load, each with a round after it.
pub(crate) fn push_payments(
    alloc: Global,
    steps: &mut Listed<Step>,
    seed: u64,
    count: u32,
) -> Result<(), NoMemory>
    ensures { OnOk result (steps.new ≡ steps.old ++ payments seed count) }
{
    let mut number = seed;
    for place in 0..count {
        number = next(number);
        steps.push(Step::Pay(PayStep {
            who: label(alloc, payer(place + 1))?,
            channel: label(alloc, "C")?,
            asset: 0,
            amount: (number >> 48) % 1000,
        }))?;
        steps.push(Step::Rounds { count: 1 })?;
    }
    Ok(())
}
