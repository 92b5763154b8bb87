//! What the types promise of a call's parts.

ghost use Rattle.std.specs.List.{AllByRecursion};
ghost use Rattle.channel_values.specs.Outcomes.{IsOutcome};
ghost use Rattle.channel_values.specs.Parts.{IsFixed, IsState};
ghost use Rattle.call_history.specs.Same.{HasValidParts};

use crate::call::Call;
use channel_values::{Chain, Fixed, Outcome, State};

fn fixed_is_valid(fixed: &Fixed)
    ensures { IsFixed fixed.now }
{
    let _nonce = fixed.nonce();
}

fn state_is_valid(state: &State)
    ensures { IsState state.now }
{
    let _turn = state.turn();
}

fn states_are_valid(states: &[State])
    ensures { AllByRecursion IsState states.now }
{
    for state in states {
        state_is_valid(state);
    }
}

fn chain_is_valid(chain: &Chain)
    ensures fixed { IsFixed chain.now.fixed }
    ensures states { AllByRecursion IsState chain.now.states }
{
    fixed_is_valid(&chain.fixed);
    states_are_valid(chain.states.as_slice());
}

fn outcome_is_valid(outcome: &Outcome)
    ensures { IsOutcome outcome.now }
{
    let _bytes = outcome.bytes();
}

/// A contract sees only the parts of a value: the fixed part, the states and the outcomes of a call are such as their
/// types promise.
pub fn parts_are_valid(call: &Call)
    ensures { HasValidParts call.now }
{
    match call {
        Call::Challenge(challenge) => chain_is_valid(&challenge.chain),
        Call::Checkpoint { chain } => chain_is_valid(chain),
        Call::Conclude { chain } => chain_is_valid(chain),
        Call::Respond(respond) => {
            fixed_is_valid(&respond.fixed);
            state_is_valid(&respond.from);
            state_is_valid(&respond.next.state);
        }
        Call::Refute { fixed, next } => {
            fixed_is_valid(fixed);
            state_is_valid(&next.state);
        }
        Call::Transfer(transfer) => outcome_is_valid(&transfer.outcome),
        Call::Claim(claim) => {
            outcome_is_valid(&claim.guarantor_outcome);
            outcome_is_valid(&claim.target_outcome);
        }
        Call::Deposit(_) => {}
    }
}
