//! Plays the steps of a script in a race.

ghost use Rattle.std.specs.Prelude.{◌≡◌, ◌≤◌, [], List, length, IfOk, All, true};
ghost use Rattle.std.specs.List.{cons_option};
ghost use Rattle.network_rounds.specs.Views.{players};
ghost use Rattle.lms_signatures.specs.Signing.{Signing};
ghost use Rattle.script_steps.specs.Bounds.{Fits, persons_of, signers_of};
ghost use Rattle.script_steps.specs.Conditions.{signer_of, runs_in_race};
ghost use Rattle.script_race.specs.Races.{IsRaceOf};
ghost use Rattle.script_race.specs.Driving.{race_of, IsSeated, KeepRaces, Racing};

use crate::racing::Race;
use lms_signatures::Signer;
use network::Party;
use network_rounds::{Cast, RoundFault};
use script_steps::{STEP_LIMIT, Step};
use std::alloc::Global;
use std::collections::VecDeque;
use std::sync::Wait;
use std::thread::Threads;

/// The signer of the person that a step declares, the first of these.
fn signer_for(step: &Step, signers: &mut VecDeque<Signer>) -> Option<Signer>
    ensures { (later : List Signing) → signers.old.items ≡ cons_option (signer_of step.now) later
        → (result ≡ signer_of step.now) × (signers.new.items ≡ later) }
{
    match step {
        Step::Person(_) => signers.pop_front(),
        _ => None,
    }
}

/// Plays the steps with this cast, whose notes are empty, each on what those before it made, and lets each node see.
/// The signers are those of the people that the steps declare.
pub fn race<R: Threads + Wait + Sync, P: Party + Send>(
    rt: &R,
    alloc: Global,
    steps: &[Step],
    signers: Vec<Signer>,
    cast: Vec<Cast>,
) -> Result<Race<P>, RoundFault>
    requires fit { All Fits steps.now }
    requires may_race { All (λ step. runs_in_race step ≡ true) steps.now }
    requires few { persons_of steps.now ≤ 16 }
    requires short { length steps.now ≤ STEP_LIMIT }
    requires fresh { signers.items ≡ signers_of steps.now }
    requires keep { KeepRaces P.ways P.stands P.lost }
    requires unseen { All (λ c. c.notes.entries.items ≡ []) cast.items }
    ensures raced { IfOk result (λ r.
        IsRaceOf P.ways steps.now (players tells told cast.items) (race_of tells told r)) }
    ensures seated { IfOk result (λ r. IsSeated r) }
    ensures racing { IfOk result (λ r. Racing tells told P.ways P.stands P.lost r) }
{
    let mut race = Race::make(alloc, cast)?;
    let mut signers = VecDeque::from(signers);
    let mut number = 0;
    for step in steps {
        number += 1;
        let signer = signer_for(step, &mut signers);
        race.play_step(rt, number, step, signer)?;
    }
    race.see_all(rt)?;
    Ok(race)
}
