//! An actor that enters a call in vain at each act.

ghost use Rattle.std.specs.Prelude.{◌≡◌, false, [], IfOk};
ghost use Rattle.network_rounds.specs.Acts.{IsWithinLimits};

use call_history::Call;
use channel_values::{Chain, Fixed, Listed, NoMemory};
use network_rounds::{Act, Actor, Notes};
use std::alloc::Global;

/// It enters at each act a checkpoint with an empty chain, of a channel of two keys that nobody uses.
#[derive(Drop)]
pub(crate) struct Flood {
    alloc: Global,
}

/// The empty chain of the channel.
fn empty_chain(alloc: Global) -> Result<Chain, NoMemory>
    ensures { IfOk result (λ c. (c.states ≡ []) × (c.marks ≡ [])) }
{
    let keys = vec![in alloc; [1; 56], [2; 56]]?;
    let Ok(fixed) = Fixed::make(alloc, keys, 0, 1, 1) else {
        return Err(NoMemory);
    };
    Ok(Chain {
        fixed,
        states: Listed::make(Vec::new(alloc)),
        marks: Listed::make(Vec::new(alloc)),
    })
}

impl Flood {
    pub(crate) fn make(alloc: Global) -> Flood {
        Flood { alloc }
    }

    /// What it does.
    fn answer(&self) -> Act
        ensures { IsWithinLimits result }
    {
        match empty_chain(self.alloc) {
            Ok(chain) => Act::Enter(Call::Checkpoint { chain }),
            Err(_) => Act::NoMemory,
        }
    }
}

impl Actor for Flood {
    ghost tells = { λ _. false };

    ghost told = { λ _. [] };

    fn act(&mut self, _seen: &Notes) -> Act {
        self.answer()
    }
}
