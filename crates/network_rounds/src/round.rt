//! A round.

ghost use Rattle.std.specs.Prelude.{◌≡◌, OnOk, IfOk, All};
ghost use Rattle.network_rounds.specs.Members.{HasFollowed};
ghost use Rattle.network_rounds.specs.Rounds.{Runs};
ghost use Rattle.network_rounds.specs.Views.{Taking, Giving, crew_of};

use crate::crew::Crew;
use crate::fault::RoundFault;
use crate::gate::Gate;
use crate::member::Letter;
use crate::phase::{act_phase, watch_phase};
use crate::worker::Worker;
use adjudicator::Adjudicator;
use channel_values::NoMemory;
use network::Party;
use shared_object::{Book, Seat};
use std::alloc::Global;
use std::mem;
use std::sync::Wait;
use std::thread::Threads;

// The workers of the crew. An actor that is done is dropped.
fn take_workers<P: Party>(alloc: Global, crew: &mut Crew<P>) -> Result<Vec<Worker<P>>, NoMemory>
    ensures workers { IfOk result (λ ws. Taking crew.old.nodes.items crew.old.cast.items ws.items) }
    ensures post { OnOk result (crew.new.post.items ≡ crew.old.post.items) }
{
    let mut workers = Vec::new(alloc);
    let mut nodes = mem::replace(&mut crew.nodes, Vec::new(alloc));
    while !nodes.is_empty() {
        let member = nodes.remove(0);
        workers.push(Worker::Node(member, Vec::new(alloc)))?;
    }
    let mut actors = mem::replace(&mut crew.cast, Vec::new(alloc));
    while !actors.is_empty() {
        let cast = actors.remove(0);
        if !cast.done {
            workers.push(Worker::Actor(cast, Vec::new(alloc)))?;
        }
    }
    Ok(workers)
}

// The workers are a crew again, and what they sent is on its way.
fn give_back<P: Party>(
    alloc: Global,
    crew: &mut Crew<P>,
    mut workers: Vec<Worker<P>>,
) -> Result<(), NoMemory>
    ensures { OnOk result (Giving workers.items crew.new.nodes.items crew.new.cast.items crew.new.post.items) }
{
    crew.nodes = Vec::new(alloc);
    crew.cast = Vec::new(alloc);
    crew.post = Vec::new(alloc);
    while !workers.is_empty() {
        match workers.remove(0) {
            Worker::Node(member, mut sent) => {
                crew.nodes.push(member)?;
                crew.post.append(&mut sent)?;
            }
            Worker::Actor(cast, mut sent) => {
                crew.cast.push(cast)?;
                crew.post.append(&mut sent)?;
            }
        }
    }
    Ok(())
}

/// A round in threads. In the first phase each node looks, sees, handles what came for it, acts and enters its calls,
/// beside actors that are asked once. In the second the watchers of each node look and their calls are entered,
/// beside actors that are asked again. After a fault the crew and the seat aren't used again, and what was entered
/// stays.
pub fn race_round<R: Threads + Wait + Sync, G: Gate + Sync, P: Party + Send>(
    rt: &R,
    alloc: Global,
    book: &Book<Adjudicator>,
    seat: &mut Seat<Adjudicator>,
    crew: &mut Crew<P>,
    gate: &G,
) -> Result<(), RoundFault>
    requires book { seat.old.book ≡ book.now }
    requires followed { All (HasFollowed P.ways seat.old.seen) crew.old.nodes.items }
    ensures book { OnOk result (seat.new.book ≡ seat.old.book) }
    ensures runs { OnOk result
        (Runs P.ways (crew_of tells told crew.old) (crew_of tells told crew.new) seat.old seat.new) }
{
    let workers = take_workers(alloc, crew)?;
    let post = mem::replace(&mut crew.post, Vec::new(alloc));
    let acted = act_phase(rt, alloc, book, seat, gate, post.as_slice(), workers)?;
    let looked = watch_phase(rt, alloc, book, seat, gate, acted)?;
    give_back(alloc, crew, looked)?;
    Ok(())
}
