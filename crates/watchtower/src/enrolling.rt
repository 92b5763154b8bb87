//! Clients with their chains.

ghost use Rattle.std.specs.Prelude.{◌≡◌, OnOk};
ghost use Rattle.support_rules.specs.Real.{real};
ghost use Rattle.watchtower.specs.Replay.{handing, enrolling};

use crate::fault::HandFault;
use crate::tower::Tower;
use call_history::HeldChain;
use channel_values::{Name, NoMemory};

/// Hands a chain, which may be refused.
fn hand(tower: &mut Tower, client: &Name, held: &HeldChain) -> Result<(), NoMemory>
    ensures { OnOk result (tower.new
        ≡ record tower.old { clients = handing real client.now tower.old.clients held.now }) }
{
    let chain = held.chain.copy()?;
    match tower.hand(client, chain) {
        Err(HandFault::NoMemory) => Err(NoMemory),
        Ok(()) | Err(_) => Ok(()),
    }
}

/// Admits a client that isn't admitted yet, and hands its chains in their order. A chain that is refused is passed
/// over.
pub fn enroll(tower: &mut Tower, client: &Name, chains: &[HeldChain]) -> Result<(), NoMemory>
    ensures { OnOk result (tower.new
        ≡ record tower.old { clients = enrolling real tower.old.clients client.now chains.now }) }
{
    tower.admit(*client)?;
    for held in chains {
        hand(tower, client, held)?;
    }
    Ok(())
}
