//! The settle step and the abandon step.

ghost use Rattle.std.specs.Prelude.{◌≡◌};
ghost use Rattle.serde_json.specs.View.{view};
ghost use Rattle.script_steps.specs.Rules.{Gives};
ghost use Rattle.script_reader.specs.Forms.{release_of};

use crate::kinds::{keys, name_at, names_at};
use network::Release;
use script_steps::{Step, StepFault};
use serde_json::Value;
use std::alloc::Global;

pub(crate) fn release_of(alloc: Global, how: Release, step: &Value) -> Result<Step, StepFault>
    ensures { Gives (λ s. s) result (release_of how (view step.now)) }
{
    keys(step, 3)?;
    let who = names_at(alloc, step, "who")?;
    let channel = name_at(alloc, step, "channel")?;
    Ok(Step::Release { how, who, channel })
}
