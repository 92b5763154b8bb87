//! One seat, dealt to workers and gathered again.

ghost use Rattle.std.specs.Prelude.{◌≡◌, ◌<◌, ◌%◌, [], OnOk, IfOk, vec_len, slice_index_or, ℕ};
ghost use Rattle.shared_object.specs.Caller.{fresh_half, halved, IsCaller};
ghost use Rattle.network_rounds.specs.Jobs.{Deals, Collects};

use crate::fault::RoundFault;
use crate::worker::{Job, Worker};
use adjudicator::Adjudicator;
use channel_values::NoMemory;
use network::Party;
use shared_object::{Book, Seat};
use std::alloc::Global;

pub(crate) fn half(
    book: &Book<Adjudicator>,
    seat: &mut Seat<Adjudicator>,
) -> Result<Seat<Adjudicator>, NoMemory>
    requires { seat.old.book ≡ book.now }
    ensures { IfOk result (λ s. (s ≡ fresh_half seat.old) × (seat.new ≡ halved seat.old) × (seat.old.part % 2 ≡ 0)
        × IsCaller seat.new) }
{
    match book.split(seat) {
        Ok(other) => Ok(other),
        Err(_) => Err(NoMemory),
    }
}

/// Deals a seat that has made nothing to workers. Its halves are halved again, so that no part of one gets too small.
pub(crate) fn deal<P: Party>(
    book: &Book<Adjudicator>,
    mut seat: Seat<Adjudicator>,
    mut workers: Vec<Worker<P>>,
    jobs: &mut Vec<Job<P>>,
) -> Result<(), NoMemory>
    requires book { seat.book ≡ book.now }
    requires fresh { seat.made ≡ [] }
    requires some { 0 < vec_len workers }
    ensures { OnOk result (Deals seat workers.items jobs.old.items jobs.new.items) }
{
    let count = workers.len();
    if count == 1 {
        let worker = workers.remove(0);
        jobs.push(Job { seat, worker })?;
        return Ok(());
    }
    let rest = workers.split_off(count - count / 2)?;
    let other = half(book, &mut seat)?;
    deal(book, seat, workers, jobs)?;
    deal(book, other, rest, jobs)?;
    Ok(())
}

/// Collects the workers, and takes in their seats; or the first fault that one of them met.
pub(crate) fn collect<P: Party>(
    alloc: Global,
    book: &Book<Adjudicator>,
    seat: &mut Seat<Adjudicator>,
    mut results: Vec<Result<Job<P>, RoundFault>>,
) -> Result<Vec<Worker<P>>, RoundFault>
    requires seat { seat.old.book ≡ book.now }
    requires results { (i : ℕ) (d : _) → i < vec_len results → IfOk (slice_index_or results.items i d) (λ job.
        job.seat.book ≡ book.now) }
    ensures book { OnOk result (seat.new.book ≡ seat.old.book) }
    ensures collects { IfOk result (λ workers. Collects results.items workers.items seat.old seat.new) }
{
    let mut workers = Vec::new(alloc);
    while !results.is_empty() {
        let Job {
            seat: other,
            worker,
        } = results.remove(0)?;
        book.join(seat, other);
        workers.push(worker)?;
    }
    Ok(workers)
}
