//! When a state follows from another.

ghost use Rattle.std.specs.Prelude.{◌≡◌};
ghost use Rattle.std.specs.Result.{result_err};
ghost use Rattle.support_rules.specs.Steps.{persons, repeat_fault, step_fault};

use crate::app_rules::app_step;
use crate::consensus::is_same_outcome;
use channel_values::{Fixed, Name, State, StepFault, mover_at};

fn repeat(from: &State, to: &State) -> Result<(), StepFault>
    ensures { result_err result ≡ repeat_fault from.now to.now }
{
    if from.app_bytes() != to.app_bytes() {
        return Err(StepFault::Data);
    }
    if !is_same_outcome(from.outcome(), to.outcome()) {
        return Err(StepFault::Outcome);
    }
    Ok(())
}

/// Whether `to` follows from `from`, where `people` are the persons of the keys.
#[tactic(auto, unfolding(crate::specs::Steps::step_fault, crate::specs::Rules::app_fault))]
pub fn step(fixed: &Fixed, people: &[Name], from: &State, to: &State) -> Result<(), StepFault>
    requires { people.now ≡ persons fixed.now }
    ensures { result_err result ≡ step_fault fixed.now from.now to.now }
{
    if from.is_final() && !to.is_final() {
        return Err(StepFault::AfterFinal);
    }
    let n = fixed.keys().len();
    let is_set_up = to.turn() < 2 * n as u64;
    if to.is_final() && is_set_up {
        return Err(StepFault::EarlyFinal);
    }
    if is_set_up || to.is_final() {
        return repeat(from, to);
    }
    let mover = mover_at(fixed, to.turn());
    app_step(fixed.app(), people, mover, from, to)
}
