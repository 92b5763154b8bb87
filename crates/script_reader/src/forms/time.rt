//! The time step.

ghost use Rattle.std.specs.Prelude.{◌≡◌};
ghost use Rattle.serde_json.specs.View.{view};
ghost use Rattle.script_steps.specs.Rules.{Gives};
ghost use Rattle.script_reader.specs.Forms.{time_of};

use crate::kinds::{keys, number_at};
use script_steps::{Step, StepFault};
use serde_json::Value;

pub(crate) fn time_of(step: &Value) -> Result<Step, StepFault>
    ensures { Gives (λ s. s) result (time_of (view step.now)) }
{
    keys(step, 2)?;
    let to = number_at(step, "to")?;
    Ok(Step::Time { to })
}
