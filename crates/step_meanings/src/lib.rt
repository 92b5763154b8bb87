//! What the steps of a script mean in a play: what their names stand for, and the calls and commands that follow.
#![tactic(auto)]

mod calls;
mod chains;
mod effect;
mod meeting;
mod names;
mod people;
mod telling;

pub use chains::{NamedState, chain_of, listed, state_by};
pub use effect::Effect;
pub use meeting::meet;
pub use names::{
    NamedChannel, Names, channel_by, digest_or_digits, position_of, sign_challenge,
    state_with_votes,
};
pub use people::{People, Person};
