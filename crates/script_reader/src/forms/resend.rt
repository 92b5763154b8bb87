//! The resend step.

ghost use Rattle.std.specs.Prelude.{◌≡◌};
ghost use Rattle.serde_json.specs.View.{view};
ghost use Rattle.script_steps.specs.Rules.{Gives};
ghost use Rattle.script_reader.specs.Forms.{resend_of};

use crate::kinds::{keys, name_at, names_at};
use script_steps::{Step, StepFault};
use serde_json::Value;
use std::alloc::Global;

pub(crate) fn resend_of(alloc: Global, step: &Value) -> Result<Step, StepFault>
    ensures { Gives (λ s. s) result (resend_of (view step.now)) }
{
    keys(step, 3)?;
    let who = names_at(alloc, step, "who")?;
    let channel = name_at(alloc, step, "channel")?;
    Ok(Step::Resend { who, channel })
}
