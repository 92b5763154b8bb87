//! The exit step.

ghost use Rattle.std.specs.Prelude.{◌≡◌};
ghost use Rattle.serde_json.specs.View.{view};
ghost use Rattle.script_steps.specs.Rules.{Gives};
ghost use Rattle.script_reader.specs.Forms.{exit_of};

use crate::kinds::{keys, names_at};
use script_steps::{Step, StepFault};
use serde_json::Value;
use std::alloc::Global;

pub(crate) fn exit_of(alloc: Global, step: &Value) -> Result<Step, StepFault>
    ensures { Gives (λ s. s) result (exit_of (view step.now)) }
{
    keys(step, 2)?;
    let who = names_at(alloc, step, "who")?;
    Ok(Step::Exit { who })
}
