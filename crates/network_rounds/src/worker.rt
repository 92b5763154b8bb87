//! One worker of a phase: a node with its watchers, or an actor.

ghost use Rattle.std.specs.Prelude.{◌≡◌, ◌++◌, OnOk, IfOk};
ghost use Rattle.network_rounds.specs.Workers.{Acts, Watches, CanAct, CanWatch, IsReady};
ghost use Rattle.network_rounds.specs.Players.{AsksIf, posted};
ghost use Rattle.network_rounds.specs.Working.{Working};
ghost use Rattle.network_rounds.specs.Views.{player_of, worker_of};

use crate::cast::{Cast, play};
use crate::fault::RoundFault;
use crate::gate::Gate;
use crate::member::{Letter, act as act_as_node, watch as watch_as_node};
use adjudicator::Adjudicator;
use network::{Member, Party};
use shared_object::{Book, Seat};
use std::alloc::Global;
use std::sync::Wait;
use std::thread::Threads;

/// What each phase is called at a gate.
const ACTS: u32 = 1;

const WATCHES: u32 = 2;

/// A worker, and what it has sent in the round so far.
#[derive(Drop)]
pub enum Worker<P: Party> {
    Node(Member<P>, Vec<Letter>),
    Actor(Cast, Vec<Letter>),
}

/// A worker with its seat.
#[derive(Drop)]
pub struct Job<P: Party> {
    pub seat: Seat<Adjudicator>,
    pub worker: Worker<P>,
}

fn add(sent: &mut Vec<Letter>, letter: Option<Letter>) -> Result<(), RoundFault>
    ensures { OnOk result (sent.new.items ≡ sent.old.items ++ posted letter) }
{
    if let Some(letter) = letter {
        if sent.push(letter).is_err() {
            return Err(RoundFault::NoMemory);
        }
    }
    Ok(())
}

// An actor that isn't done is asked.
fn ask<R: Threads + Wait + Sync, G: Gate>(
    rt: &R,
    alloc: Global,
    book: &Book<Adjudicator>,
    gate: &G,
    phase: u32,
    cast: Cast,
    seat: &mut Seat<Adjudicator>,
    sent: &mut Vec<Letter>,
) -> Result<Cast, RoundFault>
    requires { seat.old.book ≡ book.now }
    ensures book { OnOk result (seat.new.book ≡ seat.old.book) }
    ensures asks { IfOk result (λ r. (more : _) × (sent.new.items ≡ sent.old.items ++ more)
        × Working (AsksIf (player_of tells told cast) (player_of tells told r) more) seat.old seat.new) }
{
    if cast.done {
        return Ok(cast);
    }
    let number = cast.number;
    gate.begin(phase, number);
    let (cast, letter) = play(rt, alloc, book, cast, seat)?;
    add(sent, letter)?;
    gate.finish(phase, number);
    Ok(cast)
}

/// The first phase: a node looks, sees, handles what came for it, acts and enters its calls; an actor is asked.
pub(crate) fn act<R: Threads + Wait + Sync, G: Gate, P: Party>(
    rt: &R,
    alloc: Global,
    book: &Book<Adjudicator>,
    gate: &G,
    post: &[Letter],
    job: Job<P>,
) -> Result<Job<P>, RoundFault>
    requires { IsReady (CanAct P.ways) book.now job.seat (worker_of tells told job.worker) }
    ensures book { IfOk result (λ d. d.seat.book ≡ job.seat.book) }
    ensures acts { IfOk result (λ d.
        Working (Acts P.ways post.now (worker_of tells told job.worker) (worker_of tells told d.worker))
        job.seat d.seat) }
{
    let Job { mut seat, worker } = job;
    match worker {
        Worker::Node(mut member, mut sent) => {
            let number = member.node.number();
            gate.begin(ACTS, number);
            let mut more = act_as_node(&mut member, rt, alloc, book, &mut seat, post)?;
            gate.finish(ACTS, number);
            sent.append(&mut more)?;
            Ok(Job {
                seat,
                worker: Worker::Node(member, sent),
            })
        }
        Worker::Actor(cast, mut sent) => {
            let cast = ask(rt, alloc, book, gate, ACTS, cast, &mut seat, &mut sent)?;
            Ok(Job {
                seat,
                worker: Worker::Actor(cast, sent),
            })
        }
    }
}

/// The second phase: each watcher of a node looks, and its calls are entered; an actor that isn't done is asked again.
pub(crate) fn watch<R: Threads + Wait + Sync, G: Gate, P: Party>(
    rt: &R,
    alloc: Global,
    book: &Book<Adjudicator>,
    gate: &G,
    job: Job<P>,
) -> Result<Job<P>, RoundFault>
    requires { IsReady CanWatch book.now job.seat (worker_of tells told job.worker) }
    ensures book { IfOk result (λ d. d.seat.book ≡ job.seat.book) }
    ensures watches { IfOk result (λ d.
        Working (Watches P.ways (worker_of tells told job.worker) (worker_of tells told d.worker))
        job.seat d.seat) }
{
    let Job { mut seat, worker } = job;
    match worker {
        Worker::Node(mut member, sent) => {
            let number = member.node.number();
            gate.begin(WATCHES, number);
            watch_as_node(&mut member, rt, alloc, book, &mut seat)?;
            gate.finish(WATCHES, number);
            Ok(Job {
                seat,
                worker: Worker::Node(member, sent),
            })
        }
        Worker::Actor(cast, mut sent) => {
            let cast = ask(rt, alloc, book, gate, WATCHES, cast, &mut seat, &mut sent)?;
            Ok(Job {
                seat,
                worker: Worker::Actor(cast, sent),
            })
        }
    }
}
