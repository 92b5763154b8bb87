//! The drop step.

ghost use Rattle.std.specs.Prelude.{◌≡◌};
ghost use Rattle.serde_json.specs.View.{view};
ghost use Rattle.script_steps.specs.Rules.{Gives};
ghost use Rattle.script_reader.specs.Forms.{drop_of};

use crate::kinds::{keys, name_at};
use script_steps::{Step, StepFault};
use serde_json::Value;
use std::alloc::Global;

pub(crate) fn drop_of(alloc: Global, step: &Value) -> Result<Step, StepFault>
    ensures { Gives (λ s. s) result (drop_of (view step.now)) }
{
    keys(step, 2)?;
    let to = name_at(alloc, step, "to")?;
    Ok(Step::Drop { to })
}
