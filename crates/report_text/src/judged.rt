//! The lines on the premises of safety.

ghost use Rattle.std.specs.Prelude.{◌≡◌, IfOk, string_bytes};
ghost use Rattle.report_text.specs.People.{yes_or_no, judged_line};

use crate::report::Judged;
use channel_values::{Dest, Label};
use report_lines::person_text;
use std::alloc::{AllocError, Global};

fn yes_or_no(holds: bool) -> &'static str
    ensures { result.now ≡ yes_or_no holds }
{
    if holds { "yes" } else { "no" }
}

/// Whether each premise of a person's safety holds.
pub(crate) fn judged_line(
    alloc: Global,
    labels: &[(Dest, Label)],
    judged: &Judged,
) -> Result<String, AllocError>
    ensures { IfOk result (λ text. string_bytes text ≡ judged_line labels.now judged.now) }
{
    let name = person_text(alloc, labels, &judged.person)?;
    let unforged = yes_or_no(judged.unforged);
    let distinct = yes_or_no(judged.distinct);
    let in_time = yes_or_no(judged.in_time);
    format!(in alloc; "premises {name} unforged {unforged} distinct {distinct} intime {in_time}\n")
}
