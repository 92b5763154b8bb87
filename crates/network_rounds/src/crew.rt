//! A crew: who takes part in a round.

use crate::cast::Cast;
use crate::member::Letter;
use network::{Member, Party};

/// The nodes with their watchers and the cast, both in the order of their numbers, and the messages on their way. Its
/// maker ensures that nobody has the number of another, and no node the key of another. Rounds keep it so.
#[derive(Drop)]
pub struct Crew<P: Party> {
    pub nodes: Vec<Member<P>>,
    pub cast: Vec<Cast>,
    pub post: Vec<Letter>,
}
