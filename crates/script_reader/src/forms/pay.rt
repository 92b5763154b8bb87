//! The pay step.

ghost use Rattle.std.specs.Prelude.{◌≡◌};
ghost use Rattle.serde_json.specs.View.{view};
ghost use Rattle.script_steps.specs.Rules.{Gives};
ghost use Rattle.script_reader.specs.Forms.{pay_of};

use crate::kinds::{keys, name_at, number_at};
use script_steps::{PayStep, Step, StepFault};
use serde_json::Value;
use std::alloc::Global;

pub(crate) fn pay_of(alloc: Global, step: &Value) -> Result<Step, StepFault>
    ensures { Gives (λ s. s) result (pay_of (view step.now)) }
{
    keys(step, 5)?;
    let who = name_at(alloc, step, "who")?;
    let channel = name_at(alloc, step, "channel")?;
    let asset = number_at(step, "asset")?;
    let amount = number_at(step, "amount")?;
    Ok(Step::Pay(PayStep {
        who,
        channel,
        asset,
        amount,
    }))
}
