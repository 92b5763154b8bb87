//! The open step.

ghost use Rattle.std.specs.Prelude.{◌≡◌};
ghost use Rattle.serde_json.specs.View.{view};
ghost use Rattle.script_steps.specs.Rules.{Gives};
ghost use Rattle.script_reader.specs.Forms.{open_of};

use crate::kinds::{keys, name_at, names_at};
use crate::written::{OpenKeys, Written, outcome_at};
use script_steps::StepFault;
use serde_json::Value;
use std::alloc::Global;

pub(crate) fn open_of(alloc: Global, step: &Value) -> Result<Written, StepFault>
    ensures { Gives (λ w. w) result (open_of (view step.now)) }
{
    keys(step, 4)?;
    let who = names_at(alloc, step, "who")?;
    let channel = name_at(alloc, step, "channel")?;
    let outcome = outcome_at(alloc, step, "outcome")?;
    Ok(Written::Open(OpenKeys {
        who,
        channel,
        outcome,
    }))
}
