//! The rounds step.

ghost use Rattle.std.specs.Prelude.{◌≡◌};
ghost use Rattle.serde_json.specs.View.{view};
ghost use Rattle.script_steps.specs.Rules.{Gives};
ghost use Rattle.script_reader.specs.Forms.{rounds_of};

use crate::kinds::{keys, number_at};
use script_steps::{Step, StepFault};
use serde_json::Value;

pub(crate) fn rounds_of(step: &Value) -> Result<Step, StepFault>
    ensures { Gives (λ s. s) result (rounds_of (view step.now)) }
{
    keys(step, 2)?;
    let count = number_at(step, "count")?;
    Ok(Step::Rounds { count })
}
