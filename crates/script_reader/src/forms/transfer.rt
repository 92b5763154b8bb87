//! The transfer step.

ghost use Rattle.std.specs.Prelude.{◌≡◌};
ghost use Rattle.serde_json.specs.View.{view};
ghost use Rattle.script_steps.specs.Rules.{Gives};
ghost use Rattle.script_reader.specs.Forms.{transfer_of};

use crate::kinds::{keys, name_at, number_at};
use script_steps::{Step, StepFault, TransferStep};
use serde_json::Value;
use std::alloc::Global;

pub(crate) fn transfer_of(alloc: Global, step: &Value) -> Result<Step, StepFault>
    ensures { Gives (λ s. s) result (transfer_of (view step.now)) }
{
    keys(step, 5)?;
    let channel = name_at(alloc, step, "channel")?;
    let state = name_at(alloc, step, "state")?;
    let asset = number_at(step, "asset")?;
    let index = number_at(step, "index")?;
    Ok(Step::Transfer(TransferStep {
        channel,
        state,
        asset,
        index,
    }))
}
