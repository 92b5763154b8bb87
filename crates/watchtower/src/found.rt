//! What workers found.

ghost use Rattle.std.specs.Prelude.{◌≡◌, ◌<◌, List, length, take, slice_get, Some, IfOk, vec_len};
ghost use Rattle.std.specs.List.{All};
ghost use Rattle.network.specs.Watching.{Watching};
ghost use Rattle.watchtower.specs.declared.client.Client.{Client as AClient};
ghost use Rattle.watchtower.specs.Towers.{calls_of};
ghost use Rattle.watchtower.specs.Sharing.{AreFor};

use crate::client::Client;
use call_history::Call;
use channel_values::{Listed, NoMemory};
use network::Watcher;
use std::alloc::Global;

/// The calls for the client at a place.
#[derive(Drop)]
pub(crate) struct Found {
    pub(crate) place: usize,
    pub(crate) calls: Listed<Call>,
}

/// Adds the calls for the client at a place.
#[tactic(auto, using(crate::proofs::Finding::added))]
pub(crate) fn add(
    watcher: &Watcher,
    clients: &[Client],
    place: usize,
    found: &mut Vec<Found>,
) -> Result<(), NoMemory>
    requires inside { place < length clients.now }
    requires before { AreFor watcher.now clients.now found.old.items }
    ensures { AreFor watcher.now clients.now found.new.items }
{
    let calls = watcher.checkpoints(clients[place].chains.as_slice())?;
    found.push(Found {
        place,
        calls: Listed::make(calls),
    })?;
    Ok(())
}

/// All that was found, the last place first.
pub(crate) fn gathered(lists: Vec<Vec<Found>>, alloc: Global) -> Result<Vec<Found>, NoMemory>
    ensures { (w : Watching) (clients : List AClient) → All (λ list. AreFor w clients list.items) lists.items
        → IfOk result (λ found. AreFor w clients found.items) }
{
    let mut lists = lists;
    let mut found = Vec::new(alloc);
    while let Some(mut list) = lists.pop() {
        found.append(&mut list)?;
    }
    found.sort_unstable_by_key(|one: &Found| usize::MAX - one.place);
    Ok(found)
}

/// Drops what was found at lower places, which are the last.
fn skip(found: &mut Vec<Found>, place: usize)
    ensures { found.new.items ≡ take (length found.new.items) found.old.items }
{
    let mut kept = found.len();
    while kept > 0 && found[kept - 1].place < place {
        kept -= 1;
    }
    found.truncate(kept);
}

/// The calls for the client at a place: those that were found there, or, where none were, those that it has.
pub(crate) fn calls_at(
    watcher: &Watcher,
    client: &Client,
    place: usize,
    found: &mut Vec<Found>,
) -> Result<Vec<Call>, NoMemory>
    ensures calls { (clients : List AClient) → slice_get clients place ≡ Some client.now
        → AreFor watcher.now clients found.old.items
        → IfOk result (λ calls. calls.items ≡ calls_of watcher.now client.now.chains) }
    ensures kept { (clients : List AClient) → AreFor watcher.now clients found.old.items
        → AreFor watcher.now clients found.new.items }
{
    skip(found, place);
    let count = found.len();
    if count > 0 && found[count - 1].place == place {
        if let Some(last) = found.pop() {
            return Ok(last.calls.into_vec());
        }
    }
    watcher.checkpoints(client.chains.as_slice())
}
