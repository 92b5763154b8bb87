//! Verifying all marks of a chain side by side.

ghost use Rattle.std.specs.Prelude.{◌≡◌, ◌<◌, ℕ, Bool, length, vec_len, slice_index_or, IfOk};
ghost use Rattle.std.specs.List.{slice_get};
ghost use Rattle.channel_values.specs.declared.chain.Mark.{Mark as AMark};
ghost use Rattle.channel_values.specs.Support.{is_marked_well, verified_marks};
ghost use Rattle.support_rules.specs.Real.{real};

use crate::signature::mark_verifies;
use channel_values::{Chain, Mark, NoMemory};
use std::alloc::{AllocError, Global};
use std::thread;
use std::thread::Threads;

/// Of each of a chain's marks whether it verifies, each in a thread of its own.
fn check_each<R: Threads + Sync>(
    rt: &R,
    alloc: Global,
    chain: &Chain,
    marks: &[Mark],
) -> Result<Vec<bool>, AllocError>
    ensures len { IfOk result (λ v. vec_len v ≡ length marks.now) }
    ensures each { IfOk result (λ v. (i : ℕ) (d : Bool) (m : AMark) → i < length marks.now
        → slice_index_or v.items i d ≡ is_marked_well real chain.now.fixed i
        (slice_index_or marks.now i m).signature (slice_get chain.now.states (slice_index_or marks.now i m).place)) }
{
    thread::map_indices(
        rt,
        alloc,
        marks.len(),
        &|j: usize| -> bool
            requires { j < length marks.now }
            ensures { (m : AMark) → result ≡ is_marked_well real chain.entry.now.fixed j
                (slice_index_or marks.entry.now j m).signature
                (slice_get chain.entry.now.states (slice_index_or marks.entry.now j m).place) }
        { mark_verifies(&chain.fixed, chain.states.as_slice(), j, &marks[j]) },
    )
}

/// Of each mark, in order, whether its participant's key verifies the state at its place: false where the place is no
/// state, or where there is no such participant. Each mark is verified in a thread of its own, where one can be made.
pub fn check_signatures<R: Threads + Sync>(
    rt: &R,
    alloc: Global,
    chain: &Chain,
) -> Result<Vec<bool>, NoMemory>
    ensures { IfOk result (λ v. v.items ≡ verified_marks real chain.now) }
{
    let verified = check_each(rt, alloc, chain, chain.marks.as_slice())?;
    Ok(verified)
}
