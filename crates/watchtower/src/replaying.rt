//! A look after each entry.

ghost use Rattle.std.specs.Prelude.{◌≡◌, ◌++◌, List, [], ◌∷◌, IfOk, OnOk};
ghost use Rattle.call_history.specs.History.{Legal, newest_first};
ghost use Rattle.call_history.specs.declared.entry.Entry.{Entry as AnEntry};
ghost use Rattle.network.specs.Watching.{StandsFor, unseeing, looks};
ghost use Rattle.support_rules.specs.Real.{real};
ghost use Rattle.watchtower.specs.Towers.{answers};
ghost use Rattle.watchtower.specs.Replay.{Follows, look_lines, replay_lines, replay_text};

use crate::lines::{Lines, add_answers, text_of};
use crate::tower::Tower;
use call_history::Entry;
use channel_values::NoMemory;
use std::alloc::Global;
use std::slice;
use std::sync::Wait;
use std::thread::Threads;

/// Looks after one more entry, and adds the lines of what is answered.
fn look_at<R: Threads + Wait + Sync>(
    rt: &R,
    tower: &mut Tower,
    entry: &Entry,
    lines: &mut Lines,
) -> Result<(), NoMemory>
    requires { (h : List AnEntry) × Follows real h entry.now tower.old.watching }
    ensures clients { OnOk result (tower.new.clients ≡ tower.old.clients) }
    ensures stands { (h : List AnEntry) → Follows real h entry.now tower.old.watching
        → OnOk result (StandsFor real (entry.now ∷ h) tower.new.watching) }
    ensures lines { (h : List AnEntry) → Follows real h entry.now tower.old.watching
        → OnOk result (lines.new.items
        ≡ lines.old.items ++ look_lines entry.now.number (answers (looks real (entry.now ∷ h)) tower.old.clients)) }
{
    let told = tower.look_beside(rt, slice::from_ref(entry))?;
    add_answers(lines, entry.number, &told)
}

/// Looks after each entry of a legal history.
fn look_through<R: Threads + Wait + Sync>(
    rt: &R,
    tower: &mut Tower,
    history: &[Entry],
    lines: &mut Lines,
) -> Result<(), NoMemory>
    requires stands { StandsFor real [] tower.old.watching }
    requires legal { Legal real (newest_first history.now) }
    ensures clients { OnOk result (tower.new.clients ≡ tower.old.clients) }
    ensures lines { OnOk result (lines.new.items
        ≡ lines.old.items ++ replay_lines real tower.old.clients (newest_first history.now)) }
{
    for entry in history {
        look_at(rt, tower, entry, lines)?;
    }
    Ok(())
}

/// The text of a replay by a tower that has followed nothing. After each entry of a legal history it has a line for
/// each call that is then answered. A last line has counts.
pub fn replay<R: Threads + Wait + Sync>(
    rt: &R,
    alloc: Global,
    tower: &mut Tower,
    history: &[Entry],
) -> Result<Vec<u8>, NoMemory>
    requires unseeing { tower.old.watching ≡ unseeing }
    requires legal { Legal real (newest_first history.now) }
    ensures { IfOk result (λ text. text.items ≡ replay_text real tower.old.clients history.now) }
{
    let mut lines = Vec::new(alloc);
    look_through(rt, tower, history, &mut lines)?;
    text_of(alloc, &lines, history.len(), tower.client_count())
}
