//! The consensus move of a participant that works toward an outcome.

ghost use Rattle.std.specs.Prelude.{◌≡◌, ◌≤◌, ◌<◌, ◌+◌, ◌^◌, length, IfOk, IfErr, Ok};
ghost use Rattle.std.specs.Option.{option_copied};
ghost use Rattle.channel_values.specs.declared.fault.ByteFault.TheVariants as faults;
ghost use Rattle.channel_values.specs.Outcomes.{IsOutcome};
ghost use Rattle.channel_values.specs.Spelling.{outcome};
ghost use Rattle.support_rules.specs.Ballots.{Ballot, data_of};
ghost use Rattle.support_rules.specs.Toward as rules;

use crate::consensus::{is_same_outcome, vote_bytes, votes_of};
use channel_values::{ByteFault, NoMemory, Outcome, State};
use std::alloc::Global;

const LAST_TURN: u64 = 0xffff_ffff_ffff;

/// Whether the state that was signed last has the target, without votes.
fn is_settled(n: usize, target: &Outcome, own_last: Option<&State>) -> bool
    ensures { result ≡ rules.is_settled n target.now (option_copied own_last.entry) }
{
    match own_last {
        None => false,
        Some(state) => {
            is_same_outcome(state.outcome(), target)
                && match votes_of(n, state.app_bytes()) {
                    None => false,
                    Some((votes, _)) => votes == 0,
                }
        }
    }
}

/// The state that was made, where making it fails only if memory runs out.
pub fn unless_memory(made: Result<State, ByteFault>) -> Result<State, NoMemory>
    requires { IfErr made (λ fault. fault ≡ faults.NoMemory) }
    ensures { IfOk result (λ s. made ≡ Ok s) }
{
    match made {
        Ok(state) => Ok(state),
        Err(ByteFault::NoMemory) => Err(NoMemory),
        Err(_) => unreachable!(),
    }
}

/// A copy of an outcome, which is one.
fn copied(outcome: &Outcome) -> Result<Outcome, NoMemory>
    ensures value { IfOk result (λ o. o ≡ outcome.now) }
    ensures valid { IsOutcome outcome.now }
{
    let _ = outcome.assets();
    outcome.copy()
}

/// The state after the latest that has this outcome, and asks for these votes for a proposal.
#[tactic(auto, using(crate::proofs::Making::fault_of_memory))]
fn next_state(
    alloc: Global,
    latest: &State,
    ends: &Outcome,
    votes: u8,
    proposal: &Outcome,
) -> Result<State, NoMemory>
    requires { latest.now.turn + 1 < 2 ^ 48 }
    ensures { IfOk result (λ s. s ≡ rules.moved latest.now
        (record { outcome = ends.now; ballot = record { votes = votes; proposal = outcome proposal.now } })) }
{
    let app_bytes = vote_bytes(alloc, votes, proposal)?;
    let ends = copied(ends)?;
    let made = State::make(alloc, latest.turn() + 1, false, ends, app_bytes);
    unless_memory(made)
}

/// The state that is wanted next toward the target, of `n` participants, after the latest.
#[tactic(auto, unfolding(crate::specs::Toward::wanted_toward))]
pub fn move_toward(
    alloc: Global,
    n: usize,
    target: &Outcome,
    latest: &State,
    own_last: Option<&State>,
) -> Result<Option<State>, NoMemory>
    requires several { 2 ≤ n }
    requires few { n ≤ 4 }
    ensures { IfOk result (λ m. m ≡ rules.wanted_toward n target.now latest.now (option_copied own_last.entry)) }
{
    if latest.is_final() || latest.turn() == LAST_TURN {
        return Ok(None);
    }
    let Some((votes, proposal)) = votes_of(n, latest.app_bytes()) else {
        return Ok(None);
    };
    let now = latest.outcome();
    if votes != 0 {
        let state = if proposal != target.bytes() {
            next_state(alloc, latest, now, 0, target)?
        } else if votes == 1 {
            next_state(alloc, latest, target, 0, target)?
        } else {
            next_state(alloc, latest, now, votes - 1, target)?
        };
        return Ok(Some(state));
    }
    if !is_same_outcome(now, target) {
        let state = next_state(alloc, latest, now, n as u8 - 1, target)?;
        return Ok(Some(state));
    }
    if is_settled(n, target, own_last) {
        return Ok(None);
    }
    let state = next_state(alloc, latest, now, 0, target)?;
    Ok(Some(state))
}
