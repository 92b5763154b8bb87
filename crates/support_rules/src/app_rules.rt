//! The rules by which a state follows from another, by application.

ghost use Rattle.std.specs.Prelude.{◌≡◌, ◌≤◌, ◌<◌, length};
ghost use Rattle.std.specs.Result.{result_err};
ghost use Rattle.support_rules.specs.Rules.{app_fault, fixed_fault};

use crate::consensus::{consensus_step, is_same_outcome};
use crate::payment::payment_step;
use channel_values::{Name, State, StepFault};

fn fixed_step(from: &State, to: &State) -> Result<(), StepFault>
    ensures { result_err result ≡ fixed_fault from.now to.now }
{
    if !from.app_bytes().is_empty() || !to.app_bytes().is_empty() {
        return Err(StepFault::Data);
    }
    if !is_same_outcome(from.outcome(), to.outcome()) {
        return Err(StepFault::Outcome);
    }
    Ok(())
}

/// Whether `to` follows from `from` by a move of the person at `mover`.
#[tactic(auto, unfolding(crate::specs::Rules::app_fault))]
pub fn app_step(
    app: u8,
    people: &[Name],
    mover: usize,
    from: &State,
    to: &State,
) -> Result<(), StepFault>
    requires app { app ≤ 2 }
    requires several { 2 ≤ length people.now }
    requires few { length people.now ≤ 4 }
    requires pair { app ≡ 1 → length people.now ≡ 2 }
    requires mover { mover < length people.now }
    ensures { result_err result ≡ app_fault app people.now mover from.now to.now }
{
    match app {
        0 => consensus_step(people.len(), from, to),
        1 => payment_step(people, mover, from, to),
        _ => fixed_step(from, to),
    }
}
