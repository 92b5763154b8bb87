//! An actor that rests once and is done.

ghost use Rattle.std.specs.Prelude.{◌≡◌, false, [], if◌then◌else◌, true};
ghost use Rattle.network_rounds.specs.declared.actor.Act.TheVariants as acts;

use network_rounds::{Act, Actor, Notes};

/// It rests at its first act, and is done at its second.
#[derive(Drop)]
pub struct Idle {
    has_rested: bool,
}

impl Idle {
    /// One that hasn't rested yet.
    pub fn make() -> Idle
        ensures { result.has_rested ≡ false }
    {
        Idle { has_rested: false }
    }

    /// What it does.
    pub fn answer(&mut self) -> Act
        ensures act { result ≡ (if self.old.has_rested then acts.Done else acts.Rest) }
        ensures rested { self.new.has_rested ≡ true }
    {
        if self.has_rested {
            Act::Done
        } else {
            self.has_rested = true;
            Act::Rest
        }
    }
}

impl Actor for Idle {
    ghost tells = { λ _. false };

    ghost told = { λ _. [] };

    fn act(&mut self, _seen: &Notes) -> Act {
        self.answer()
    }
}
