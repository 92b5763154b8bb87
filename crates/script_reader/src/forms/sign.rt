//! The sign step.

ghost use Rattle.std.specs.Prelude.{◌≡◌};
ghost use Rattle.serde_json.specs.View.{view};
ghost use Rattle.script_steps.specs.Rules.{Gives};
ghost use Rattle.script_reader.specs.Forms.{sign_of};

use crate::kinds::{flag_at, keys, name_at, number_at};
use crate::written::{SignKeys, Written, outcome_at};
use script_steps::StepFault;
use serde_json::Value;
use std::alloc::Global;

pub(crate) fn sign_of(alloc: Global, step: &Value) -> Result<Written, StepFault>
    ensures { Gives (λ w. w) result (sign_of (view step.now)) }
{
    keys(step, 9)?;
    let name = name_at(alloc, step, "name")?;
    let channel = name_at(alloc, step, "channel")?;
    let by = name_at(alloc, step, "by")?;
    let turn = number_at(step, "turn")?;
    let is_final = flag_at(step, "final")?;
    let outcome = outcome_at(alloc, step, "outcome")?;
    let votes = number_at(step, "votes")?;
    let proposal = outcome_at(alloc, step, "proposal")?;
    Ok(Written::Sign(SignKeys {
        name,
        channel,
        by,
        turn,
        is_final,
        outcome,
        votes,
        proposal,
    }))
}
