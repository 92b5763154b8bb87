//! The respond step.

ghost use Rattle.std.specs.Prelude.{◌≡◌};
ghost use Rattle.serde_json.specs.View.{view};
ghost use Rattle.script_steps.specs.Rules.{Gives};
ghost use Rattle.script_reader.specs.Forms.{respond_of};

use crate::kinds::{keys, name_at};
use script_steps::{RespondStep, Step, StepFault};
use serde_json::Value;
use std::alloc::Global;

pub(crate) fn respond_of(alloc: Global, step: &Value) -> Result<Step, StepFault>
    ensures { Gives (λ s. s) result (respond_of (view step.now)) }
{
    keys(step, 4)?;
    let channel = name_at(alloc, step, "channel")?;
    let from = name_at(alloc, step, "from")?;
    let state = name_at(alloc, step, "state")?;
    Ok(Step::Respond(RespondStep {
        channel,
        from,
        state,
    }))
}
