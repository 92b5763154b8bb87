//! Plays the steps of a script.

ghost use Rattle.std.specs.Prelude.{◌≡◌, ◌≤◌, List, length, IfOk, All};
ghost use Rattle.std.specs.List.{cons_option};
ghost use Rattle.lms_signatures.specs.Signing.{Signing};
ghost use Rattle.script_steps.specs.Bounds.{Fits, persons_of, rounds_of, signers_of};
ghost use Rattle.script_steps.specs.Conditions.{signer_of};
ghost use Rattle.script_play.specs.Play.{play};

use crate::scene::Scene;
use channel_values::NoMemory;
use lms_signatures::Signer;
use network::{Docket, Party};
use script_steps::{STEP_LIMIT, Step};
use std::alloc::Global;
use std::collections::VecDeque;

/// The signer of the person that a step declares, the first of these.
fn signer_for(step: &Step, signers: &mut VecDeque<Signer>) -> Option<Signer>
    ensures { (later : List Signing) → signers.old.items ≡ cons_option (signer_of step.now) later
        → (result ≡ signer_of step.now) × (signers.new.items ≡ later) }
{
    match step {
        Step::Person(_) => signers.pop_front(),
        _ => None,
    }
}

/// Plays the steps, each on what those before it made, and lets each node see. The signers are those of the people that
/// the steps declare.
pub fn play<P: Party, D: Docket>(
    alloc: Global,
    steps: &[Step],
    signers: Vec<Signer>,
) -> Result<Scene<P, D>, NoMemory>
    requires fit { All Fits steps.now }
    requires few { persons_of steps.now ≤ 16 }
    requires rounds { rounds_of steps.now ≤ 4096 }
    requires short { length steps.now ≤ STEP_LIMIT }
    requires fresh { signers.items ≡ signers_of steps.now }
    ensures { IfOk result (λ scene. scene ≡ play P.ways steps.now) }
{
    let mut scene = Scene::make(alloc);
    let mut signers = VecDeque::from(signers);
    let mut number = 0;
    for step in steps {
        number += 1;
        let signer = signer_for(step, &mut signers);
        scene.play_step(number, step, signer)?;
    }
    scene.see_all()?;
    Ok(scene)
}
