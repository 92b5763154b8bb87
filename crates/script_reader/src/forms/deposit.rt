//! The deposit step.

ghost use Rattle.std.specs.Prelude.{◌≡◌};
ghost use Rattle.serde_json.specs.View.{view};
ghost use Rattle.script_steps.specs.Rules.{Gives};
ghost use Rattle.script_reader.specs.Forms.{deposit_of};

use crate::kinds::{keys, number_at, place_at};
use script_steps::{DepositStep, Step, StepFault};
use serde_json::Value;
use std::alloc::Global;

pub(crate) fn deposit_of(alloc: Global, step: &Value) -> Result<Step, StepFault>
    ensures { Gives (λ s. s) result (deposit_of (view step.now)) }
{
    keys(step, 5)?;
    let channel = place_at(alloc, step, "channel")?;
    let asset = number_at(step, "asset")?;
    let expected = number_at(step, "expected")?;
    let amount = number_at(step, "amount")?;
    Ok(Step::Deposit(DepositStep {
        channel,
        asset,
        expected,
        amount,
    }))
}
