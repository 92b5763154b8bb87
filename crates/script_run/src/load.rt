//! The script of a load.

ghost use Rattle.std.specs.Prelude.{◌≡◌, ◌≤◌, ◌++◌, All, IfOk, IfErr, OnOk, false, length, IsTrue, Err};
ghost use Rattle.script_reader.specs.Bounds.{Fits, persons_of, rounds_of, signers_of};
ghost use Rattle.script_reader.specs.Script.{start, AreChecked};
ghost use Rattle.script_run.specs.Load.{are_two, load_steps, ending};
ghost use Rattle.script_run.specs.declared.fault.LoadFault.TheVariants as faults;

use crate::fault::LoadFault;
use crate::payments::push_payments;
use crate::people::{beginning, label, party_of, people};
use channel_values::{Listed, NoMemory};
use lms_signatures::Signer;
use script_reader::Script;
use script_steps::{STEP_LIMIT, Step};
use std::alloc::Global;

/// Appends the steps after the payments.
fn push_ending(alloc: Global, steps: &mut Listed<Step>) -> Result<(), NoMemory>
    ensures { OnOk result (steps.new ≡ steps.old ++ ending) }
{
    steps.push(Step::Close {
        who: people(alloc)?,
        channel: label(alloc, "C")?,
    })?;
    steps.push(Step::Rounds { count: 6 })
}

/// The script of a load of `count` payments, and the signers of its two people, none of which has signed. Its steps
/// keep the rules of a script.
pub fn load_script(alloc: Global, seed: u64, count: u32) -> Result<(Script, Vec<Signer>), LoadFault>
    requires some { 1 ≤ count }
    requires few { count ≤ 1000 }
    ensures steps { IfOk result (λ r. r.0.steps ≡ load_steps seed count) }
    ensures signers { IfOk result (λ r. r.1.items ≡ signers_of r.0.steps) }

    // What a script keeps that is read.
    ensures kept { IfOk result (λ r. AreChecked (start false) r.0.steps) }
    ensures fit { IfOk result (λ r. All Fits r.0.steps) }
    ensures length { IfOk result (λ r. length r.0.steps ≤ STEP_LIMIT) }
    ensures people { IfOk result (λ r. persons_of r.0.steps ≤ 16) }
    ensures rounds { IfOk result (λ r. rounds_of r.0.steps ≤ 4096) }

    // There is no script exactly where both people would have one name, unless memory runs out.
    ensures two { OnOk result (IsTrue (are_two seed)) }
    ensures one_name { result ≡ Err faults.OneName → are_two seed ≡ false }
{
    let a = party_of(alloc, b'A', seed)?;
    let b = party_of(alloc, b'B', seed)?;
    if a.digest == b.digest {
        return Err(LoadFault::OneName);
    }
    let mut steps = beginning(alloc, &a, &b)?;
    push_payments(alloc, &mut steps, seed, count)?;
    push_ending(alloc, &mut steps)?;
    let signers = vec![in alloc; a.signer, b.signer]?;
    Ok((Script { steps }, signers))
}
