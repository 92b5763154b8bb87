//! Whether a channel is final, and what is signed of a chain's last state.

ghost use Rattle.std.specs.Prelude.{◌≡◌};
ghost use Rattle.call_history.specs.Mode.{mode_at, is_final};
ghost use Rattle.channel_values.specs.Rules.{signs_challenge};
ghost use Rattle.support_rules.specs.Real.{real};

use call_history::{Row, Standing, mode, newest};
use channel_values::{
    Chain, Fixed, Name, Outcome, State, challenge_message, channel_name, outcome_digest,
    state_digest,
};
use lms_signatures::verifies;

/// Whether the channel of this row is final.
pub(crate) fn is_over(row: &Row, now: u64) -> bool
    ensures { result ≡ is_final (mode_at row.now.deadline now) }
{
    mode(row.deadline, now) == Standing::Final
}

/// The digest of a state of the channel.
pub(crate) fn digest_of(fixed: &Fixed, state: &State) -> Name
    ensures { result ≡ real.digest (real.named fixed.now) state.now }
{
    state_digest(&channel_name(fixed.bytes()), state.bytes())
}

/// The digest of an outcome.
pub(crate) fn digest_of_outcome(outcome: &Outcome) -> Name
    ensures { result ≡ real.outcome_digest outcome.now }
{
    outcome_digest(outcome.bytes())
}

/// Whether the key at the challenger's position verifies a challenge with the chain. Nobody challenges with a chain
/// of no state, and a participant that doesn't exist signs nothing.
pub fn is_challenge_signed(chain: &Chain, challenger: u8, signature: &[u8]) -> bool
    ensures { result ≡ signs_challenge real chain.now.fixed chain.now.states challenger signature.now }
{
    let Some(last) = newest(chain.states.as_slice()) else {
        return false;
    };
    let Some(key) = chain.fixed.keys().get(challenger as usize) else {
        return false;
    };
    let message = challenge_message(&digest_of(&chain.fixed, last), challenger);
    verifies(key, &message, signature)
}
