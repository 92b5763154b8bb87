//! The channel step.

ghost use Rattle.std.specs.Prelude.{◌≡◌};
ghost use Rattle.serde_json.specs.View.{view};
ghost use Rattle.script_steps.specs.Rules.{Gives};
ghost use Rattle.script_reader.specs.Forms.{channel_of};

use crate::kinds::{app_at, keys, name_at, names_at, number_at};
use script_steps::{ChannelStep, Step, StepFault};
use serde_json::Value;
use std::alloc::Global;

pub(crate) fn channel_of(alloc: Global, step: &Value) -> Result<Step, StepFault>
    ensures { Gives (λ s. s) result (channel_of (view step.now)) }
{
    keys(step, 6)?;
    let name = name_at(alloc, step, "name")?;
    let people = names_at(alloc, step, "people")?;
    let nonce = number_at(step, "nonce")?;
    let app = app_at(step, "app")?;
    let duration = number_at(step, "duration")?;
    Ok(Step::Channel(ChannelStep {
        name,
        people,
        nonce,
        app,
        duration,
    }))
}
