//! The clients of a tower, by name and by place.

ghost use Rattle.std.specs.Prelude.{◌≡◌, not, map, OnOk, OnErr, IfOk};
ghost use Rattle.support_rules.specs.Real.{real};
ghost use Rattle.watchtower.specs.Towers.{is_admitted, admitted, with_chains, named, handed, hand_fault, fault_told};
ghost use Rattle.watchtower.specs.Holding.{AreIndexed};

use crate::client::{Client, check, named, put};
use crate::fault::HandFault;
use crate::holders::Holders;
use channel_values::{Chain, Listed, Name, NoMemory};
use indexmap::IndexSet;

/// Admits a client that isn't admitted yet.
#[tactic(auto, using(crate::proofs::Admitting::was_admitted, crate::proofs::Admitting::admitted_old, crate::proofs::Admitting::admitted_new, crate::proofs::Admitting::names_behind))]
pub(crate) fn admit(
    names: &mut IndexSet<Name>,
    clients: &mut Vec<Client>,
    client: Name,
) -> Result<bool, NoMemory>
    requires { names.old.keys ≡ map (λ c. c.name) clients.old.items }
    ensures answer { IfOk result (λ is_new. is_new ≡ not (is_admitted client clients.old.items)) }
    ensures ok { OnOk result (clients.new.items ≡ admitted client clients.old.items) }
    ensures err { OnErr result (clients.new.items ≡ clients.old.items) }
    ensures names { names.new.keys ≡ map (λ c. c.name) clients.new.items }
{
    if names.contains(&client) {
        return Ok(false);
    }
    let alloc = *clients.allocator();
    clients.reserve(1)?;
    names.insert(client)?;
    clients.push_reserved(Client {
        name: client,
        chains: Listed::make(Vec::new(alloc)),
    });
    Ok(true)
}

/// Takes a client's chain, of which the holder is noted first.
pub(crate) fn hand(
    names: &IndexSet<Name>,
    clients: &mut Vec<Client>,
    holders: &mut Holders,
    client: &Name,
    chain: Chain,
) -> Result<(), HandFault>
    requires names { names.now.keys ≡ map (λ c. c.name) clients.old.items }
    requires indexed { AreIndexed clients.old.items holders.old.channels.keys holders.old.places.items }
    ensures fault { fault_told result ≡ hand_fault real client.now (named chain) clients.old.items }
    ensures ok { OnOk result (clients.new.items ≡ with_chains client.now (handed (named chain)) clients.old.items) }
    ensures err { OnErr result (clients.new.items ≡ clients.old.items) }
    ensures names { names.now.keys ≡ map (λ c. c.name) clients.new.items }
    ensures indexed { AreIndexed clients.new.items holders.new.channels.keys holders.new.places.items }
{
    let Some(place) = names.get_index_of(client) else {
        return Err(HandFault::UnknownClient);
    };
    let new = named(chain);
    check(clients[place].chains.as_slice(), &new)?;
    holders.add(new.channel, place)?;
    put(&mut clients[place].chains, new)?;
    Ok(())
}
