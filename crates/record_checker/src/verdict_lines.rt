//! The lines that report a fault of bytes, and what is wrong with a record.

ghost use Rattle.std.specs.Prelude.{◌≡◌, IfOk, string_bytes};
ghost use Rattle.record_checker.specs.Lines.{fault_text, fault_line, verdict_text, verdict_line};

use crate::checking::Verdict;
use channel_values::ByteFault;
use std::alloc::{AllocError, Global};

/// The number of a fault, and its place.
fn fault_text(alloc: Global, fault: ByteFault) -> Result<String, AllocError>
    ensures { IfOk result (λ text. string_bytes text ≡ fault_text fault) }
{
    match fault {
        ByteFault::Cut(place) => format!(in alloc; "1 {place}"),
        ByteFault::BadTag(place) => format!(in alloc; "2 {place}"),
        ByteFault::OverLimit(place) => format!(in alloc; "3 {place}"),
        ByteFault::Unordered(place) => format!(in alloc; "4 {place}"),
        ByteFault::Doubled(place) => format!(in alloc; "5 {place}"),
        ByteFault::TotalTooLarge(place) => format!(in alloc; "6 {place}"),
        ByteFault::Trailing(place) => format!(in alloc; "7 {place}"),
        ByteFault::NoMemory => Ok(String::new(alloc)),
    }
}

/// Why bytes spell no record, by the number of the fault and its place.
pub fn fault_line(alloc: Global, fault: ByteFault) -> Result<String, AllocError>
    ensures { IfOk result (λ text. string_bytes text ≡ fault_line fault) }
{
    let fault = fault_text(alloc, fault)?;
    format!(in alloc; "bytes {fault}\n")
}

fn verdict_text(alloc: Global, verdict: Verdict) -> Result<String, AllocError>
    ensures { IfOk result (λ text. string_bytes text ≡ verdict_text verdict) }
{
    match verdict {
        Verdict::Sound => String::from_str(alloc, "sound"),
        Verdict::Reply(number) => format!(in alloc; "reply {number}"),
        Verdict::Sums(place) => format!(in alloc; "sums {place}"),
        Verdict::Plan(place) => format!(in alloc; "plan {place}"),
        Verdict::Share(place) => format!(in alloc; "share {place}"),
    }
}

/// What is wrong with a record, and where.
pub fn verdict_line(alloc: Global, verdict: Verdict) -> Result<String, AllocError>
    ensures { IfOk result (λ text. string_bytes text ≡ verdict_line verdict) }
{
    let verdict = verdict_text(alloc, verdict)?;
    format!(in alloc; "{verdict}\n")
}
