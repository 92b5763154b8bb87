//! Actors of unknown behavior: they look, and enter calls of their own.

ghost use Rattle.std.specs.Prelude.{◌≡◌, List, [], ◌∷◌, ◌++◌, Bool, true};
ghost use Rattle.network_rounds.specs.Acts.{IsWithinLimits};
ghost use Rattle.network_rounds.specs.declared.actor.Act.{Act as AnAct};

use call_history::{Call, Entry};
use channel_values::{Listed, Name};

/// What an actor does.
#[derive(Drop)]
pub enum Act {
    Enter(Call),
    /// Sends a message to a person.
    Post(Name, Listed<u8>),
    Rest,
    /// It isn't asked again.
    Done,
    NoMemory,
}

/// The entries that an actor has seen, in the order of time.
#[derive(Drop)]
pub struct Notes {
    pub entries: Vec<Entry>,
}

pub trait Actor: Drop {
    // whether it says what it has answered, and what it says
    ghost tells: { Self → Bool };

    ghost told: { Self → List AnAct };

    /// What it does, given what it has seen. A call that it enters keeps the limits.
    fn act(&mut self, seen: &Notes) -> Act
        ensures limits { IsWithinLimits result }
        ensures told { tells self.old ≡ true → (tells self.new ≡ true)
            × (told self.new ≡ told self.old ++ result ∷ []) };
}
