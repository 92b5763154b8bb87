//! A look that is shared out over workers.

ghost use Rattle.std.specs.Prelude.{◌≡◌, ◌<◌, ℕ, length, IfOk};
ghost use Rattle.std.specs.List.{All};
ghost use Rattle.crossbeam_queue.specs.Passes.{IsPassOf};
ghost use Rattle.watchtower.specs.Sharing.{AreFor};

use crate::client::Client;
use crate::found::{Found, add, gathered};
use channel_values::NoMemory;
use crossbeam_queue::protocol::{Lesson, Outcome, Protocol};
use crossbeam_queue::{Pass, RuledArrayQueue};
use network::Watcher;
use std::alloc::{AllocError, Global};
use std::marker::{Brand, PhantomData};
use std::sync::Wait;
use std::thread;
use std::thread::Threads;

/// How many clients there are, as the rule of a queue names it.
trait Count {
    ghost count: { ℕ };
}

impl Count for Brand {
    ghost count = { 0 };
}

/// The rule of the queue: each item is a place below the number of clients.
struct Below<C: Count> {
    of: PhantomData<C>,
}

impl<C: Count> Protocol<usize, ()> for Below<C> {
    ghost use Rattle.watchtower.specs.Sharing.{AreBelow};

    ghost holds = { λ items views. AreBelow C.count items };

    ghost first = { tt };
}

impl<C: Count> Outcome<usize, ()> for Below<C> {
    ghost use Rattle.std.specs.Prelude.{◌<◌};

    ghost then = { λ before place after. place < C.count };
}

impl<C: Count> Lesson<usize, ()> for Below<C> {
    ghost use Rattle.std.specs.Prelude.{⊤};

    ghost fact = { λ view items. ⊤ };
}

type Places<C> = RuledArrayQueue<usize, (), Below<C>>;

/// Pushes the places onto the queue, which has room for them. One that is no client's isn't pushed.
fn fill<C: Count, R: Wait>(
    rt: &R,
    queue: &Places<C>,
    pass: &mut Pass<usize, ()>,
    places: &[usize],
    count: usize,
)
    requires queue { IsPassOf queue.now pass.old }
    requires count { C.count ≡ count }
{
    for place in places {
        if *place < count {
            let _ = queue.push_as::<Below<C>, R>(rt, pass, *place);
        }
    }
}

/// Takes places until the queue is empty, and finds the calls for the clients there. It ends early where memory does.
fn work<C: Count, R: Wait>(
    rt: &R,
    queue: &Places<C>,
    watcher: &Watcher,
    clients: &[Client],
    alloc: Global,
) -> Vec<Found>
    requires { C.count ≡ length clients.now }
    ensures { AreFor watcher.now clients.now result.items }
{
    let mut found = Vec::new(alloc);
    let mut pass = queue.pass();
    for _ in rt.forever() {
        let Some(place) = queue.pop_as::<Below<C>, R>(rt, &mut pass) else {
            break;
        };
        if add(watcher, clients, place, &mut found).is_err() {
            break;
        }
    }
    found
}

/// What each of so many workers finds, each in a thread of its own, where one can be made.
fn work_beside<C: Count + Sync, R: Threads + Wait + Sync>(
    rt: &R,
    queue: &Places<C>,
    watcher: &Watcher,
    clients: &[Client],
    workers: usize,
    alloc: Global,
) -> Result<Vec<Vec<Found>>, AllocError>
    requires { C.count ≡ length clients.now }
    ensures { IfOk result (λ lists. All (λ list. AreFor watcher.now clients.now list.items) lists.items) }
{
    thread::map_indices(
        rt,
        alloc,
        workers,
        &|_worker: usize| -> Vec<Found>
            requires { C.count ≡ length clients.now }
            ensures { AreFor watcher.entry.now clients.entry.now result.items }
        { work(rt, queue, watcher, clients, alloc) },
    )
}

fn share_counted<C: Count + Sync, R: Threads + Wait + Sync>(
    rt: &R,
    watcher: &Watcher,
    clients: &[Client],
    places: &[usize],
    workers: usize,
    alloc: Global,
) -> Result<Vec<Vec<Found>>, NoMemory>
    requires count { C.count ≡ length clients.now }
    requires some { 0 < length places.now }
    ensures { IfOk result (λ lists. All (λ list. AreFor watcher.now clients.now list.items) lists.items) }
{
    let (queue, mut pass) = Places::<C>::ruled(alloc, places.len())?;
    fill(rt, &queue, &mut pass, places, clients.len());
    let lists = work_beside(rt, &queue, watcher, clients, workers, alloc)?;
    Ok(lists)
}

fn share<R: Threads + Wait + Sync>(
    rt: &R,
    watcher: &Watcher,
    clients: &[Client],
    places: &[usize],
    workers: usize,
    alloc: Global,
) -> Result<Vec<Vec<Found>>, NoMemory>
    requires { 0 < length places.now }
    ensures { IfOk result (λ lists. All (λ list. AreFor watcher.now clients.now list.items) lists.items) }
{
    share_counted::<Brand, R>(rt, watcher, clients, places, workers, alloc)
}

/// What workers find at these places, the last place first: nothing where memory ends.
#[tactic(auto, using(crate::proofs::Finding::none_found))]
pub(crate) fn found_beside<R: Threads + Wait + Sync>(
    rt: &R,
    watcher: &Watcher,
    clients: &[Client],
    places: &[usize],
    workers: usize,
    alloc: Global,
) -> Vec<Found>
    ensures { AreFor watcher.now clients.now result.items }
{
    if places.is_empty() {
        return Vec::new(alloc);
    }
    let Ok(lists) = share(rt, watcher, clients, places, workers, alloc) else {
        return Vec::new(alloc);
    };
    match gathered(lists, alloc) {
        Ok(found) => found,
        Err(NoMemory) => Vec::new(alloc),
    }
}
