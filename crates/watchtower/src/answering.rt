//! What a look answers.

ghost use Rattle.std.specs.Prelude.{◌≡◌, ◌++◌, map, slice_get, IfOk, OnOk};
ghost use Rattle.std.specs.Option.{option_map};
ghost use Rattle.std.specs.List.Sorted.{IsStrictlyIncreasing};
ghost use Rattle.watchtower.specs.Towers.{answers, calls_of};
ghost use Rattle.watchtower.specs.Looking.{Concerned, answer_at};
ghost use Rattle.watchtower.specs.Sharing.{AreFor};

use crate::client::Client;
use crate::found::{Found, calls_at};
use call_history::Call;
use channel_values::{Name, NoMemory};
use network::Watcher;
use std::alloc::Global;

/// A client, and the calls that it is answered.
pub type Answer = (Name, Vec<Call>);

fn client_at(clients: &[Client], place: usize) -> Option<&Client>
    ensures { option_map (λ m. m.now) result ≡ slice_get clients.now place }
{
    clients.get(place)
}

/// Adds the client at a place, where it has calls, which may have been found.
fn answer(
    watcher: &Watcher,
    clients: &[Client],
    place: usize,
    found: &mut Vec<Found>,
    told: &mut Vec<Answer>,
) -> Result<(), NoMemory>
    requires { AreFor watcher.now clients.now found.old.items }
    ensures found { OnOk result (AreFor watcher.now clients.now found.new.items) }
    ensures told { OnOk result (map (λ t. (t.0, t.1.items)) told.new.items
        ≡ map (λ t. (t.0, t.1.items)) told.old.items ++ answer_at watcher.now (slice_get clients.now place)) }
{
    let Some(client) = client_at(clients, place) else {
        return Ok(());
    };
    let calls = calls_at(watcher, client, place, found)?;
    if !calls.is_empty() {
        told.push((client.name, calls))?;
    }
    Ok(())
}

/// The clients at these places that have calls, with them. Some calls may have been found, the last place first.
pub(crate) fn answers(
    watcher: &Watcher,
    clients: &[Client],
    places: &[usize],
    mut found: Vec<Found>,
    alloc: Global,
) -> Result<Vec<Answer>, NoMemory>
    requires found { AreFor watcher.now clients.now found.items }
    requires rising { IsStrictlyIncreasing places.now }
    requires all { Concerned watcher.now clients.now places.now }
    ensures { IfOk result (λ told.
        map (λ t. (t.0, t.1.items)) told.items ≡ answers (calls_of watcher.now) clients.now) }
{
    let mut told = Vec::new(alloc);
    for place in places {
        answer(watcher, clients, *place, &mut found, &mut told)?;
    }
    Ok(told)
}
