//! The person step.

ghost use Rattle.std.specs.Prelude.{◌≡◌};
ghost use Rattle.serde_json.specs.View.{view};
ghost use Rattle.script_steps.specs.Rules.{Gives};
ghost use Rattle.script_reader.specs.Forms.{person_of};

use crate::kinds::{flag_at, keys, name_at, number_at, seed_at};
use script_steps::{PersonStep, Step, StepFault};
use serde_json::Value;
use std::alloc::Global;

pub(crate) fn person_of(alloc: Global, step: &Value) -> Result<Step, StepFault>
    ensures { Gives (λ s. s) result (person_of (view step.now)) }
{
    keys(step, 6)?;
    let name = name_at(alloc, step, "name")?;
    let seed = seed_at(step, "seed")?;
    let h = number_at(step, "h")?;
    let node = flag_at(step, "node")?;
    let watchers = number_at(step, "watchers")?;
    Ok(Step::Person(PersonStep {
        name,
        seed,
        h,
        node,
        watchers,
    }))
}
