//! The answers.

ghost use Rattle.std.specs.Prelude.{ℕ, IfOk, IsTrue, ◌↔◌, List, reverse};
ghost use Rattle.channel_values.specs.Parts.{FixedParts};
ghost use Rattle.call_history.specs.History.{newest_first};
ghost use Rattle.channel_safety.specs.Journals.{lines};
ghost use Rattle.channel_safety.specs.Premises.{Unforged, InTime};
ghost use Rattle.support_rules.specs.Real.{real};
ghost use Rattle.premises.specs.Collision.{Distinct};
ghost use Rattle.premises.specs.Persons.{IsUnforged, IsInTime, OfPerson};

use crate::collision::none_collide;
use crate::forgery::{entries_are_own, messages_are_own, own_strings};
use crate::hashed::hashed_strings;
use crate::journal::{Journal, journal_of};
use crate::timing::{are_answered, noted_channels};
use call_history::{Entry, Event};
use channel_safety::{entries_are_valid, events_are_valid};
use channel_values::{Key, Name, NoMemory};
use std::alloc::Global;

fn signs_its_own(
    alloc: Global,
    history: &[Entry],
    key: &Key,
    journal: &[Event],
) -> Result<bool, NoMemory>
    ensures { IfOk result (λ b. (adds : ℕ → List FixedParts)
        → IsTrue b ↔ Unforged real key.now (newest_first history.now) (lines adds (reverse journal.now))) }
{
    let own = own_strings(alloc, journal)?;
    let messages = messages_are_own(alloc, key, &own, journal)?;
    let entries = entries_are_own(key, &own, history);
    Ok(entries && messages)
}

fn looks_in_time(alloc: Global, history: &[Entry], journal: &[Event]) -> Result<bool, NoMemory>
    ensures { IfOk result (λ b. (adds : ℕ → List FixedParts)
        → IsTrue b ↔ InTime real (newest_first history.now) (lines adds (reverse journal.now))) }
{
    entries_are_valid(history);
    events_are_valid(journal);
    let noted = noted_channels(alloc, journal)?;
    let answered = are_answered(journal, &noted, history);
    Ok(answered)
}

/// Whether nothing is forged of the participant with this journal. Journal and history are in the order of time; what
/// its commands add to the plan doesn't matter.
pub fn is_unforged(alloc: Global, history: &[Entry], journal: &Journal) -> Result<bool, NoMemory>
    ensures { IfOk result (λ b. (adds : ℕ → List FixedParts) → IsTrue b ↔ IsUnforged history.now adds journal.now) }
{
    signs_its_own(alloc, history, &journal.key, journal.events.as_slice())
}

/// Whether the watchers of the participant with this journal are in time.
pub fn is_in_time(alloc: Global, history: &[Entry], journal: &Journal) -> Result<bool, NoMemory>
    ensures { IfOk result (λ b. (adds : ℕ → List FixedParts) → IsTrue b ↔ IsInTime history.now adds journal.now) }
{
    looks_in_time(alloc, history, journal.events.as_slice())
}

/// Whether nothing is forged of the person, who has one of the journals.
pub fn unforged(
    alloc: Global,
    history: &[Entry],
    journals: &[Journal],
    person: &Name,
) -> Result<bool, NoMemory>
    ensures { IfOk result (λ b. (adds : ℕ → List FixedParts)
        → IsTrue b ↔ OfPerson journals.now person.now (IsUnforged history.now adds)) }
{
    match journal_of(journals, person) {
        None => Ok(false),
        Some(journal) => is_unforged(alloc, history, journal),
    }
}

/// Whether the watchers of the person, who has one of the journals, are in time.
pub fn in_time(
    alloc: Global,
    history: &[Entry],
    journals: &[Journal],
    person: &Name,
) -> Result<bool, NoMemory>
    ensures { IfOk result (λ b. (adds : ℕ → List FixedParts)
        → IsTrue b ↔ OfPerson journals.now person.now (IsInTime history.now adds)) }
{
    match journal_of(journals, person) {
        None => Ok(false),
        Some(journal) => is_in_time(alloc, history, journal),
    }
}

/// Whether no two different strings have one SHA-256, of those that are hashed for what the history and all journals
/// name.
pub fn distinct(alloc: Global, history: &[Entry], journals: &[Journal]) -> Result<bool, NoMemory>
    ensures { IfOk result (λ b. IsTrue b ↔ Distinct history.now journals.now) }
{
    let strings = hashed_strings(alloc, history, journals)?;
    none_collide(alloc, &strings)
}
