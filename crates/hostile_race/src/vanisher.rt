//! An actor that begins a message and vanishes.

ghost use Rattle.std.specs.Prelude.{◌≡◌, false, [], Some, None};
ghost use Rattle.network_rounds.specs.Acts.{IsWithinLimits};
ghost use Rattle.network_rounds.specs.declared.actor.Act.TheVariants as acts;

use channel_values::{Listed, Name};
use network_rounds::{Act, Actor, Notes};

/// It posts the first half of a message at its first act, and is done at its second.
#[derive(Drop)]
pub(crate) struct Vanisher {
    to: Name,
    half: Option<Listed<u8>>,
}

impl Vanisher {
    /// One that is to post the first half of these bytes to a person.
    pub(crate) fn make(to: Name, mut message: Vec<u8>) -> Vanisher {
        message.truncate(message.len() / 2);
        Vanisher {
            to,
            half: Some(Listed::make(message)),
        }
    }

    /// What it does.
    fn answer(&mut self) -> Act
        ensures done { self.old.half ≡ None → result ≡ acts.Done }
        ensures left { self.new.half ≡ None }
        ensures limits { IsWithinLimits result }
    {
        match self.half.take() {
            Some(half) => Act::Post(self.to, half),
            None => Act::Done,
        }
    }
}

impl Actor for Vanisher {
    ghost tells = { λ _. false };

    ghost told = { λ _. [] };

    fn act(&mut self, _seen: &Notes) -> Act {
        self.answer()
    }
}
