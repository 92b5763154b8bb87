//! Whether premises hold.

ghost use Rattle.std.specs.Prelude.{List, IfOk, IsTrue, ◌↔◌};
ghost use Rattle.premises.specs.declared.journal.Journal.{Journal as AJournal};
ghost use Rattle.premises.specs.Collision.{Distinct};
ghost use Rattle.play_report.specs.Reported.{IsJudged, AreJudged};

use call_history::Entry;
use channel_values::{NoMemory, person_name};
use premises::{Journal, distinct, is_in_time, is_unforged};
use report_text::Judged;
use std::alloc::Global;

/// What is said of the person with this journal, where it is known whether all strings are distinct.
fn judge(
    alloc: Global,
    history: &[Entry],
    journal: &Journal,
    distinct: bool,
) -> Result<Judged, NoMemory>
    ensures { IfOk result (λ p. (journals : List AJournal) → (IsTrue distinct ↔ Distinct history.now journals)
        → IsJudged history.now journals journal.now p) }
{
    let unforged = is_unforged(alloc, history, journal)?;
    let in_time = is_in_time(alloc, history, journal)?;
    Ok(Judged {
        person: person_name(&journal.key),
        unforged,
        distinct,
        in_time,
    })
}

/// What is said of each person.
pub(crate) fn judge_all(
    alloc: Global,
    history: &[Entry],
    journals: &[Journal],
) -> Result<Vec<Judged>, NoMemory>
    ensures { IfOk result (λ all. AreJudged history.now journals.now all.items) }
{
    let distinct = distinct(alloc, history, journals)?;
    let mut all = Vec::new(alloc);
    for journal in journals {
        let judged = judge(alloc, history, journal, distinct)?;
        all.push(judged)?;
    }
    Ok(all)
}
