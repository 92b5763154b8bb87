//! The catch step.

ghost use Rattle.std.specs.Prelude.{◌≡◌};
ghost use Rattle.serde_json.specs.View.{view};
ghost use Rattle.script_steps.specs.Rules.{Gives};
ghost use Rattle.script_reader.specs.Forms.{catch_of};

use crate::kinds::{keys, name_at, number_at};
use script_steps::{CatchStep, Step, StepFault};
use serde_json::Value;
use std::alloc::Global;

pub(crate) fn catch_of(alloc: Global, step: &Value) -> Result<Step, StepFault>
    ensures { Gives (λ s. s) result (catch_of (view step.now)) }
{
    keys(step, 5)?;
    let name = name_at(alloc, step, "name")?;
    let from = name_at(alloc, step, "from")?;
    let channel = name_at(alloc, step, "channel")?;
    let turn = number_at(step, "turn")?;
    Ok(Step::Catch(CatchStep {
        name,
        from,
        channel,
        turn,
    }))
}
