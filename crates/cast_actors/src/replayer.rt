//! An actor that plays old challenges again.

ghost use Rattle.std.specs.Prelude.{◌≡◌, ◌⊎◌, false, [], find};
ghost use Rattle.std.specs.List.{list_all};
ghost use Rattle.std.specs.Option.{option_copied};
ghost use Rattle.cast_actors.specs.Replays.{is_short, is_challenge, replayed};
ghost use Rattle.network_rounds.specs.declared.actor.Act.TheVariants as acts;

use call_history::{Call, Entry, Op};
use channel_values::Mark;
use network_rounds::{Act, Actor, Notes};

/// The longest signature of the format.
const MOST_BYTES: usize = 9004;

/// It enters the oldest challenge that it has seen, again and again.
#[derive(Drop)]
pub struct Replayer;

fn is_short(signature: &[u8]) -> bool
    ensures { result ≡ is_short signature.now }
{
    signature.len() <= MOST_BYTES
}

fn are_short(marks: &[Mark]) -> bool
    ensures { result ≡ list_all (λ m. is_short m.signature) marks.now }
{
    marks.iter().all(|mark| is_short(mark.signature.as_slice()))
}

/// A challenge that keeps the limits of the format.
fn is_challenge(op: &Op) -> bool
    ensures { result ≡ is_challenge op.now }
{
    match op {
        Op::Call(Call::Challenge(challenge)) => {
            let chain = &challenge.chain;
            chain.states.as_slice().len() <= 4
                && chain.marks.as_slice().len() <= 4
                && are_short(chain.marks.as_slice())
                && is_short(challenge.signature.as_slice())
        }
        _ => false,
    }
}

fn oldest_challenge(entries: &[Entry]) -> Option<&Entry>
    ensures { option_copied result ≡ find (λ e. is_challenge e.op) entries.now }
{
    entries.iter().find(|entry| is_challenge(&entry.op))
}

impl Replayer {
    /// What it does, by its notes.
    pub fn answer(&self, seen: &Notes) -> Act
        ensures { (result ≡ acts.NoMemory) ⊎ (result ≡ replayed seen.now.entries.items) }
    {
        match oldest_challenge(seen.entries.as_slice()) {
            Some(entry) => match &entry.op {
                Op::Call(call) => match call.copy() {
                    Ok(call) => Act::Enter(call),
                    Err(_) => Act::NoMemory,
                },
                Op::Time(_) => Act::Rest,
            },
            None => Act::Rest,
        }
    }
}

impl Actor for Replayer {
    ghost tells = { λ _. false };

    ghost told = { λ _. [] };

    fn act(&mut self, seen: &Notes) -> Act {
        self.answer(seen)
    }
}
