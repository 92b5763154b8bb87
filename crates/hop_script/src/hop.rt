//! The script of a hop.

ghost use Rattle.std.specs.Prelude.{◌≡◌, ◌≤◌, All, Err, IfOk, OnOk, IsTrue, false, length};
ghost use Rattle.script_reader.specs.Bounds.{Fits, persons_of, rounds_of, signers_of};
ghost use Rattle.script_reader.specs.Script.{start, AreChecked};
ghost use Rattle.hop_script.specs.Hop.{are_apart, hop_steps};
ghost use Rattle.hop_script.specs.declared.fault.HopFault.TheVariants as faults;

use crate::declaring::declared;
use crate::ending::Ending;
use crate::entering::entered;
use crate::fault::HopFault;
use crate::opening::push_openings;
use crate::paying::{push_ending, push_payments};
use lms_signatures::Signer;
use script_reader::Script;
use script_steps::STEP_LIMIT;
use std::alloc::Global;

/// The script of a hop with `count` payments, and the signers of its four people, none of which has signed. Its steps keep
/// the rules of a script, but that a channel of two people may stand on a virtual ledger.
pub fn hop_script(
    alloc: Global,
    ending: Ending,
    count: u32,
) -> Result<(Script, Vec<Signer>), HopFault>
    requires { count ≤ 40 }
    ensures steps { IfOk result (λ r. r.0.steps ≡ hop_steps ending count) }
    ensures signers { IfOk result (λ r. r.1.items ≡ signers_of r.0.steps) }

    // What a script keeps that is read.
    ensures kept { IfOk result (λ r. AreChecked (start false) r.0.steps) }
    ensures fit { IfOk result (λ r. All Fits r.0.steps) }
    ensures length { IfOk result (λ r. length r.0.steps ≤ STEP_LIMIT) }
    ensures people { IfOk result (λ r. persons_of r.0.steps ≤ 16) }
    ensures rounds { IfOk result (λ r. rounds_of r.0.steps ≤ 4096) }

    // There is none exactly where two people or two channels would have one name, unless memory runs out.
    ensures apart { OnOk result (IsTrue are_apart) }
    ensures one_name { result ≡ Err faults.OneName → are_apart ≡ false }
{
    let entered = entered(alloc)?;
    let mut steps = declared(alloc)?;
    push_openings(alloc, entered.context.people.as_slice(), &mut steps)?;
    push_payments(alloc, &mut steps, count)?;
    push_ending(alloc, &mut steps, ending)?;
    Ok((Script { steps }, entered.signers))
}
