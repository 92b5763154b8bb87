//! The challenge step.

ghost use Rattle.std.specs.Prelude.{◌≡◌};
ghost use Rattle.serde_json.specs.View.{view};
ghost use Rattle.script_steps.specs.Rules.{Gives};
ghost use Rattle.script_reader.specs.Forms.{challenge_of};

use crate::kinds::{keys, name_at, names_at};
use script_steps::{ChallengeStep, Step, StepFault};
use serde_json::Value;
use std::alloc::Global;

pub(crate) fn challenge_of(alloc: Global, step: &Value) -> Result<Step, StepFault>
    ensures { Gives (λ s. s) result (challenge_of (view step.now)) }
{
    keys(step, 4)?;
    let channel = name_at(alloc, step, "channel")?;
    let chain = names_at(alloc, step, "chain")?;
    let by = name_at(alloc, step, "by")?;
    Ok(Step::Challenge(ChallengeStep { channel, chain, by }))
}
