//! Whose signatures verify.

ghost use Rattle.std.specs.Prelude.{◌≡◌};
ghost use Rattle.std.specs.List.{slice_get};
ghost use Rattle.channel_values.specs.Spelling.{fixed as spelling, state as body};
ghost use Rattle.channel_values.specs.Digests.{name_of_channel, digest_of_state};
ghost use Rattle.channel_values.specs.Messages.{message_of_state};
ghost use Rattle.channel_values.specs.Rules.{signs_state, is_signed_well};
ghost use Rattle.channel_values.specs.Support.{is_marked_well};
ghost use Rattle.support_rules.specs.Real.{real};

use channel_values::{
    Fixed, Mark, Signed, State, channel_name, mover_at, state_digest, state_message,
};
use lms_signatures::verifies;

/// What is signed for a state of the channel.
pub(crate) fn message_of(fixed: &Fixed, state: &State) -> [u8; 33]
    ensures { result ≡ message_of_state (digest_of_state (name_of_channel (spelling fixed.now)) (body state.now)) }
{
    let channel = channel_name(fixed.bytes());
    state_message(&state_digest(&channel, state.bytes()))
}

/// Whether key `j` verifies the signature of the state. A participant that isn't there signs nothing.
pub fn signs_state(fixed: &Fixed, j: usize, state: &State, signature: &[u8]) -> bool
    ensures { result ≡ signs_state real fixed.now j state.now signature.now }
{
    let Some(key) = fixed.keys().get(j) else {
        return false;
    };
    verifies(key, &message_of(fixed, state), signature)
}

/// Whether key `j` verifies the state at the mark's place. A mark on no state verifies nothing.
pub fn mark_verifies(fixed: &Fixed, states: &[State], j: usize, mark: &Mark) -> bool
    ensures { result ≡ is_marked_well real fixed.now j mark.now.signature (slice_get states.now mark.now.place) }
{
    let Some(state) = states.get(mark.place as usize) else {
        return false;
    };
    signs_state(fixed, j, state, mark.signature.as_slice())
}

/// Whether the mover's key verifies the state.
pub fn is_signed_well(fixed: &Fixed, signed: &Signed) -> bool
    ensures { result ≡ is_signed_well real fixed.now signed.now }
{
    let mover = mover_at(fixed, signed.state.turn());
    signs_state(fixed, mover, &signed.state, signed.signature.as_slice())
}
