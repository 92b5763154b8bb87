//! One round of each crew.

ghost use Rattle.std.specs.Prelude.{All, []};
ghost use Rattle.network_rounds.specs.Members.{HasFollowed};

use crate::crews::{calling, counting, mixed};
use crate::gate::Pairing;
use adjudicator::Adjudicator;
use call_history::{Call, DepositCall, Entry, Op, Reply};
use network::Party;
use network_node::Node;
use network_rounds::{Cast, Clear, Crew, Gate, race_round};
use shared_object::Book;
use std::alloc::Global;
use std::sync::Wait;
use std::thread::Threads;

/// By whom a deposit of asset 0 was entered, its amount, and what the channel holds then.
type Row = (u32, u64, u64);

/// What one round of them enters.
fn entered<R: Threads + Wait + Sync, G: Gate + Sync, P: Party + Send>(
    rt: &R,
    alloc: Global,
    crew: &mut Crew<P>,
    gate: &G,
) -> Option<Vec<Entry>>
    requires { All (HasFollowed P.ways []) crew.old.nodes.items }
{
    let Ok((book, mut seat)) = Book::make(alloc, Adjudicator::make(alloc)) else {
        return None;
    };
    race_round(rt, alloc, &book, &mut seat, crew, gate).ok()?;
    book.close(seat).ok()
}

/// How many of them began the two phases of a round, where none gave up.
fn begun<R: Threads + Wait + Sync, P: Party + Send>(
    rt: &R,
    alloc: Global,
    mut crew: Crew<P>,
) -> Option<(u64, u64)>
    requires { All (HasFollowed P.ways []) crew.nodes.items }
{
    let gate = Pairing::make();
    entered(rt, alloc, &mut crew, &gate)?;
    gate.begun()
}

fn begun_mixed<R: Threads + Wait + Sync>(rt: &R, alloc: Global) -> Option<(u64, u64)> {
    let crew = mixed::<Node>(alloc)?;
    begun(rt, alloc, crew)
}

fn begun_counting<R: Threads + Wait + Sync>(rt: &R, alloc: Global) -> Option<(u64, u64)> {
    let crew = counting::<Node>(alloc, &[101, 102])?;
    begun(rt, alloc, crew)
}

/// How many actors look for each other's flags, and whether all are done.
fn called<R: Threads + Wait + Sync>(rt: &R, alloc: Global) -> Option<(usize, bool)> {
    let mut crew = calling::<Node>(alloc)?;
    entered(rt, alloc, &mut crew, &Clear)?;
    Some((crew.cast.len(), all_done(&crew.cast)))
}

fn all_done(cast: &[Cast]) -> bool {
    cast.iter().all(|cast| cast.done)
}

fn row(entry: &Entry) -> Option<Row> {
    match (&entry.op, &entry.reply) {
        (
            Op::Call(
                Call::Deposit(
                    DepositCall {
                        asset: 0,
                        amount,
                        ..
                    },
                ),
            ),
            Reply::Held(held),
        ) => Some((entry.by, *amount, *held)),
        _ => None,
    }
}

fn are_rows(entries: &[Entry], rows: &[Row]) -> bool {
    entries.len() == rows.len()
        && entries
            .iter()
            .zip(rows)
            .all(|(entry, wanted)| row(entry) == Some(*wanted))
}

/// Whether these are entered of an actor that counts.
fn enters<R: Threads + Wait + Sync>(rt: &R, alloc: Global, rows: &[Row]) -> Option<bool> {
    let mut crew = counting::<Node>(alloc, &[101])?;
    let entries = entered(rt, alloc, &mut crew, &Clear)?;
    Some(are_rows(&entries, rows))
}

#[test]
fn two_workers_begin_each_phase(rt: HostRuntime) {
    assert_eq!(rt; begun_mixed(&rt, rt.alloc()), Some((2, 2)));
    assert_eq!(rt; begun_counting(&rt, rt.alloc()), Some((2, 2)));
}

#[test]
fn two_actors_find_each_other(rt: HostRuntime) {
    assert_eq!(rt; called(&rt, rt.alloc()), Some((2, true)));
}

#[test]
fn an_actor_that_tells_nothing_is_entered(rt: HostRuntime) {
    let rows = [(101, 1, 1), (101, 2, 3)];
    assert_eq!(rt; enters(&rt, rt.alloc(), &rows), Some(true));
}
