//! The open_on step.

ghost use Rattle.std.specs.Prelude.{◌≡◌};
ghost use Rattle.serde_json.specs.View.{view};
ghost use Rattle.script_steps.specs.Rules.{Gives};
ghost use Rattle.script_reader.specs.Forms.{open_on_of};

use crate::kinds::{keys, name_at, names_at, number_at, numbers_at};
use crate::written::{OpenOnKeys, Written};
use script_steps::StepFault;
use serde_json::Value;
use std::alloc::Global;

pub(crate) fn open_on_of(alloc: Global, step: &Value) -> Result<Written, StepFault>
    ensures { Gives (λ w. w) result (open_on_of (view step.now)) }
{
    keys(step, 6)?;
    let who = names_at(alloc, step, "who")?;
    let ledger = name_at(alloc, step, "ledger")?;
    let channel = name_at(alloc, step, "channel")?;
    let asset = number_at(step, "asset")?;
    let amounts = numbers_at(alloc, step, "amounts")?;
    Ok(Written::OpenOn(OpenOnKeys {
        who,
        ledger,
        channel,
        asset,
        amounts,
    }))
}
