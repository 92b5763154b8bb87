//! The lines of a node's journal.

ghost use Rattle.std.specs.Prelude.{◌≡◌, IfOk};
ghost use Rattle.call_history.specs.declared.event.Deed.TheVariants as deeds;

use crate::call::Call;
use crate::standing::Standing;
use channel_values::{Listed, Name, NoMemory, State};

/// Why a node refuses a message or a command.
#[derive(Clone, Copy, Debug, PartialEq, Eq)]
pub enum NodeRefusal {
    /// The message isn't in the grammar.
    BadBytes,
    /// The channel or the ledger isn't in the plan, or the node isn't a participant of it.
    UnknownChannel,
    /// The first live channel that isn't open, and how it stands.
    NotOpen(Name, Standing),
    /// The turn isn't the next one, or the next one isn't the node's own: the turn that is next.
    NotNext(u64),
    /// The key of the state's mover doesn't verify it.
    BadSignature,
    /// The state doesn't follow, or the command's fixed parts, people or amounts don't fit.
    NotAStep,
    /// The state isn't accepted, or the command needs another stage: the stage.
    NotWanted(u8),
    /// A signature is needed, and the key has signed this often.
    KeySpent(u32),
    /// The plan would have too many channels: how many it has.
    TooMany(u32),
}

/// What a node did.
#[derive(Drop)]
pub enum Deed {
    /// It was given the command of this number.
    Commanded(u32, Option<NodeRefusal>),
    /// It was given a message of these bytes.
    Handled(Listed<u8>, Option<NodeRefusal>),
    /// It signed a state of a channel.
    Signed(Name, State, Listed<u8>),
    /// It signed a challenge of a channel with a chain that ends in this state, as the challenger at this position.
    SignedChallenge(Name, State, u8, Listed<u8>),
    /// It gave a call.
    Called(Call),
    /// Its watcher at this place looked, and gave these calls.
    Watched(u32, Listed<Call>),
}

/// What a node did, and how many entries it had followed then; for a look, how many its watcher had.
#[derive(Drop)]
pub struct Event {
    pub seen: u32,
    pub deed: Deed,
}

fn copy_calls(calls: &Listed<Call>) -> Result<Listed<Call>, NoMemory>
    ensures { IfOk result (λ c. c ≡ calls.now) }
{
    let mut copies = Vec::new(calls.allocator());
    for call in calls.as_slice() {
        let copy = call.copy()?;
        copies.push(copy)?;
    }
    Ok(Listed::make(copies))
}

fn copy_signed(channel: &Name, state: &State, signature: &Listed<u8>) -> Result<Deed, NoMemory>
    ensures { IfOk result (λ d. d ≡ deeds.Signed channel.now state.now signature.now) }
{
    let state = state.copy()?;
    let signature = signature.copy()?;
    Ok(Deed::Signed(*channel, state, signature))
}

fn copy_signed_challenge(
    channel: &Name,
    state: &State,
    challenger: u8,
    signature: &Listed<u8>,
) -> Result<Deed, NoMemory>
    ensures { IfOk result (λ d. d ≡ deeds.SignedChallenge channel.now state.now challenger signature.now) }
{
    let state = state.copy()?;
    let signature = signature.copy()?;
    Ok(Deed::SignedChallenge(*channel, state, challenger, signature))
}

impl Deed {
    fn copy(&self) -> Result<Deed, NoMemory>
        ensures { IfOk result (λ d. d ≡ self.now) }
    {
        match self {
            Deed::Commanded(step, refusal) => Ok(Deed::Commanded(*step, *refusal)),
            Deed::Handled(bytes, refusal) => {
                let bytes = bytes.copy()?;
                Ok(Deed::Handled(bytes, *refusal))
            }
            Deed::Signed(channel, state, signature) => copy_signed(channel, state, signature),
            Deed::SignedChallenge(channel, state, challenger, signature) => {
                copy_signed_challenge(channel, state, *challenger, signature)
            }
            Deed::Called(call) => {
                let call = call.copy()?;
                Ok(Deed::Called(call))
            }
            Deed::Watched(place, calls) => {
                let calls = copy_calls(calls)?;
                Ok(Deed::Watched(*place, calls))
            }
        }
    }
}

impl Event {
    /// A second event that equals this one.
    pub fn copy(&self) -> Result<Event, NoMemory>
        ensures { IfOk result (λ e. e ≡ self.now) }
    {
        let deed = self.deed.copy()?;
        Ok(Event {
            seen: self.seen,
            deed,
        })
    }
}
