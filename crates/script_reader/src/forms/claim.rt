//! The claim step.

ghost use Rattle.std.specs.Prelude.{◌≡◌};
ghost use Rattle.serde_json.specs.View.{view};
ghost use Rattle.script_steps.specs.Rules.{Gives};
ghost use Rattle.script_reader.specs.Forms.{claim_of};

use crate::kinds::{keys, name_at, number_at};
use script_steps::{ClaimStep, Step, StepFault};
use serde_json::Value;
use std::alloc::Global;

pub(crate) fn claim_of(alloc: Global, step: &Value) -> Result<Step, StepFault>
    ensures { Gives (λ s. s) result (claim_of (view step.now)) }
{
    keys(step, 7)?;
    let guarantor = name_at(alloc, step, "guarantor")?;
    let state = name_at(alloc, step, "state")?;
    let target = name_at(alloc, step, "target")?;
    let target_state = name_at(alloc, step, "target_state")?;
    let asset = number_at(step, "asset")?;
    let position = number_at(step, "position")?;
    Ok(Step::Claim(ClaimStep {
        guarantor,
        state,
        target,
        target_state,
        asset,
        position,
    }))
}
