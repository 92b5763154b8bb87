//! The two phases: all workers at work side by side, each with a seat of its own.

ghost use Rattle.std.specs.Prelude.{◌≡◌, ℕ, ◌<◌, IfOk, OnOk, All, map, vec_len, slice_index_or};
ghost use Rattle.std.specs.Fork.{AcceptsJobs, GivesJobs};
ghost use Rattle.network_rounds.specs.Workers.{Acts, Watches, CanAct, CanWatch, IsReady, Phase};
ghost use Rattle.network_rounds.specs.Working.{Working};
ghost use Rattle.network_rounds.specs.Views.{worker_of};

use crate::fault::RoundFault;
use crate::gate::Gate;
use crate::member::Letter;
use crate::seats::{collect, deal, half};
use crate::worker::{Job, Worker, act, watch};
use adjudicator::Adjudicator;
use network::Party;
use shared_object::{Book, Seat};
use std::alloc::{AllocError, Global};
use std::sync::Wait;
use std::thread;
use std::thread::Threads;

/// The result of a job for each, in their order and side by side.
fn map_jobs<R: Threads + Sync, J: Send + Drop, E: Send + Drop, F: Fn(J) -> Result<J, E> + Sync>(
    rt: &R,
    jobs: Vec<J>,
    f: &F,
) -> Result<Vec<Result<J, E>>, AllocError>
    requires { AcceptsJobs F.Fn f.now jobs.items }
    ensures len { IfOk result (λ v. vec_len v ≡ vec_len jobs) }
    ensures each { IfOk result (λ v. GivesJobs F.Fn f.now jobs.items v.items) }
{
    thread::map_vec(rt, jobs, f)
}

fn act_all<R: Threads + Wait + Sync, G: Gate + Sync, P: Party + Send>(
    rt: &R,
    alloc: Global,
    book: &Book<Adjudicator>,
    gate: &G,
    post: &[Letter],
    jobs: Vec<Job<P>>,
) -> Result<Vec<Result<Job<P>, RoundFault>>, AllocError>
    requires { All (λ job. IsReady (CanAct P.ways) book.now job.seat (worker_of tells told job.worker)) jobs.items }
    ensures len { IfOk result (λ v. vec_len v ≡ vec_len jobs) }
    ensures each { IfOk result (λ v. (i : ℕ) (d e : _) → i < vec_len jobs
        → IfOk (slice_index_or v.items i e) (λ x. (x.seat.book ≡ book.now)
        × Working (Acts P.ways post.now (worker_of tells told (slice_index_or jobs.items i d).worker)
        (worker_of tells told x.worker)) (slice_index_or jobs.items i d).seat x.seat)) }
{
    let results = map_jobs(
        rt,
        jobs,
        &|job: Job<P>| -> Result<Job<P>, RoundFault>
            requires { IsReady (CanAct P.ways) book.now job.seat (worker_of tells told job.worker) }
            ensures { IfOk result (λ x. (x.seat.book ≡ book.entry.now)
                × Working (Acts P.ways post.entry.now (worker_of tells told job.worker) (worker_of tells told x.worker))
                job.seat x.seat) }
        { act(rt, alloc, book, gate, post, job) },
    )?;
    Ok(results)
}

fn watch_all<R: Threads + Wait + Sync, G: Gate + Sync, P: Party + Send>(
    rt: &R,
    alloc: Global,
    book: &Book<Adjudicator>,
    gate: &G,
    jobs: Vec<Job<P>>,
) -> Result<Vec<Result<Job<P>, RoundFault>>, AllocError>
    requires { All (λ job. IsReady CanWatch book.now job.seat (worker_of tells told job.worker)) jobs.items }
    ensures len { IfOk result (λ v. vec_len v ≡ vec_len jobs) }
    ensures each { IfOk result (λ v. (i : ℕ) (d e : _) → i < vec_len jobs
        → IfOk (slice_index_or v.items i e) (λ x. (x.seat.book ≡ book.now)
        × Working (Watches P.ways (worker_of tells told (slice_index_or jobs.items i d).worker)
        (worker_of tells told x.worker)) (slice_index_or jobs.items i d).seat x.seat)) }
{
    let results = map_jobs(
        rt,
        jobs,
        &|job: Job<P>| -> Result<Job<P>, RoundFault>
            requires { IsReady CanWatch book.now job.seat (worker_of tells told job.worker) }
            ensures { IfOk result (λ x. (x.seat.book ≡ book.entry.now)
                × Working (Watches P.ways (worker_of tells told job.worker) (worker_of tells told x.worker))
                job.seat x.seat) }
        { watch(rt, alloc, book, gate, job) },
    )?;
    Ok(results)
}

/// The first phase.
pub(crate) fn act_phase<R: Threads + Wait + Sync, G: Gate + Sync, P: Party + Send>(
    rt: &R,
    alloc: Global,
    book: &Book<Adjudicator>,
    seat: &mut Seat<Adjudicator>,
    gate: &G,
    post: &[Letter],
    workers: Vec<Worker<P>>,
) -> Result<Vec<Worker<P>>, RoundFault>
    requires book { seat.old.book ≡ book.now }
    requires can { All (λ w. CanAct P.ways seat.old.seen (worker_of tells told w)) workers.items }
    ensures book { OnOk result (seat.new.book ≡ seat.old.book) }
    ensures phase { IfOk result (λ ws.
        Phase (Acts P.ways post.now) (map (worker_of tells told) workers.items)
        (map (worker_of tells told) ws.items) seat.old seat.new) }
{
    if workers.is_empty() {
        return Ok(workers);
    }
    let other = half(book, seat)?;
    let mut jobs = Vec::new(alloc);
    deal(book, other, workers, &mut jobs)?;
    let results = act_all(rt, alloc, book, gate, post, jobs)?;
    let workers = collect(alloc, book, seat, results)?;
    Ok(workers)
}

/// The second phase.
pub(crate) fn watch_phase<R: Threads + Wait + Sync, G: Gate + Sync, P: Party + Send>(
    rt: &R,
    alloc: Global,
    book: &Book<Adjudicator>,
    seat: &mut Seat<Adjudicator>,
    gate: &G,
    workers: Vec<Worker<P>>,
) -> Result<Vec<Worker<P>>, RoundFault>
    requires book { seat.old.book ≡ book.now }
    requires can { All (λ w. CanWatch seat.old.seen (worker_of tells told w)) workers.items }
    ensures book { OnOk result (seat.new.book ≡ seat.old.book) }
    ensures phase { IfOk result (λ ws.
        Phase (Watches P.ways) (map (worker_of tells told) workers.items)
        (map (worker_of tells told) ws.items) seat.old seat.new) }
{
    if workers.is_empty() {
        return Ok(workers);
    }
    let other = half(book, seat)?;
    let mut jobs = Vec::new(alloc);
    deal(book, other, workers, &mut jobs)?;
    let results = watch_all(rt, alloc, book, gate, jobs)?;
    let workers = collect(alloc, book, seat, results)?;
    Ok(workers)
}
