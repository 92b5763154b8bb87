//! The open_virtual step.

ghost use Rattle.std.specs.Prelude.{◌≡◌};
ghost use Rattle.serde_json.specs.View.{view};
ghost use Rattle.script_steps.specs.Rules.{Gives};
ghost use Rattle.script_reader.specs.Forms.{open_virtual_of};

use crate::kinds::{keys, name_at, names_at, number_at, numbers_at};
use crate::written::{OpenVirtualKeys, Written};
use script_steps::StepFault;
use serde_json::Value;
use std::alloc::Global;

pub(crate) fn open_virtual_of(alloc: Global, step: &Value) -> Result<Written, StepFault>
    ensures { Gives (λ w. w) result (open_virtual_of (view step.now)) }
{
    keys(step, 8)?;
    let who = names_at(alloc, step, "who")?;
    let ledgers = names_at(alloc, step, "ledgers")?;
    let guarantors = names_at(alloc, step, "guarantors")?;
    let joint = name_at(alloc, step, "joint")?;
    let channel = name_at(alloc, step, "channel")?;
    let asset = number_at(step, "asset")?;
    let amounts = numbers_at(alloc, step, "amounts")?;
    Ok(Written::OpenVirtual(OpenVirtualKeys {
        who,
        ledgers,
        guarantors,
        joint,
        channel,
        asset,
        amounts,
    }))
}
