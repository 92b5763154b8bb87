//! What a step asks for, once it is known what its names stand for.

use call_history::Op;
use channel_values::{Key, Label, Listed, Name};
use lms_signatures::Signer;
use network::Command;

/// What is to be done.
#[derive(Drop)]
pub enum Effect {
    Nothing,
    /// The script enters an op.
    Enter(Op),
    /// A node joins, with this number and this signer, and with so many watchers.
    Join(u32, Signer, u32),
    /// The nodes of these numbers are given a command, one after another.
    Tell(Listed<u32>, Command),
    /// A message is on its way to a person.
    Post(Name, Listed<u8>),
    /// All messages on their way to a person are lost.
    Lose(Name),
    /// The state of a channel that the node of this number and key signed at a turn gets a name.
    Catch(Label, u32, Key, Name, u64),
    /// So many rounds are played.
    Rounds(u64),
}
