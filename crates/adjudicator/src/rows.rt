//! The rows of channels, and the deadlines in them.

ghost use Rattle.std.specs.Prelude.{◌≡◌, ◌≤◌, ◌<◌, ◌^◌, [], ℕ, List, Ok, None, OnOk, if◌then◌else◌};
ghost use Rattle.std.specs.Option.{option_map};
ghost use Rattle.std.specs.Str.{bytes_eq};
ghost use Rattle.call_history.specs.Rows.{row_or_blank};
ghost use Rattle.adjudicator.specs.Due.{deadline_in, come, AreOrdered};
ghost use Rattle.adjudicator.specs.Standing.{row_in, row_after};

use crate::deadlines::Deadlines;
use call_history::Row;
use channel_values::{Name, NoMemory};
use indexmap::IndexMap;
use std::alloc::Global;
use std::marker::Model;

/// At most one row for each channel.
#[derive(Drop)]
pub(crate) struct Rows {
    rows: IndexMap<Name, Row>,
    deadlines: Deadlines,
}

impl Model for Rows {
    ghost use Rattle.std.specs.Prelude.{min};
    ghost use Rattle.indexmap.specs.IndexMap.{spare};
    ghost use Rattle.adjudicator.specs.Table.{Table, IsDated};

    ghost Value = { Table };

    ghost view = { λ t. record { rows = t.rows.entries; room = min (spare t.rows) t.deadlines.room } };

    ghost invariant = { λ t. IsDated t.rows.entries t.deadlines.rows };
}

/// The channel, which had this deadline, has none.
#[tactic(auto, using(crate::proofs::Ordered::unchanged_without))]
fn clear(deadlines: &mut Deadlines, channel: &Name, old: Option<u64>)
    requires { deadline_in deadlines.old.rows channel.now ≡ old }
    ensures deadlines { (c : List ℕ) → deadline_in deadlines.new.rows c
        ≡ (if bytes_eq channel.now c then None else deadline_in deadlines.old.rows c) }
    ensures room { deadlines.old.room ≤ deadlines.new.room }
{
    if old.is_some() {
        deadlines.remove(channel);
    }
}

/// The channel, which had the old deadline, has the new one.
fn date(deadlines: &mut Deadlines, channel: Name, old: Option<u64>, new: Option<u64>)
    requires room { 1 ≤ deadlines.old.room }
    requires old { deadline_in deadlines.old.rows channel ≡ old }
    ensures { (c : List ℕ) → deadline_in deadlines.new.rows c
        ≡ (if bytes_eq channel c then new else deadline_in deadlines.old.rows c) }
{
    clear(deadlines, &channel, old);
    if let Some(deadline) = new {
        deadlines.insert(deadline, channel);
    }
}

impl Rows {
    pub(crate) fn make(alloc: Global) -> Rows
        ensures { result.rows ≡ [] }
    {
        Rows {
            rows: IndexMap::new(alloc),
            deadlines: Deadlines::make(alloc),
        }
    }

    /// Takes the memory that one more row may need.
    pub(crate) fn reserve(&mut self) -> Result<(), NoMemory>
        ensures room { OnOk result (1 ≤ self.new.room) }
        ensures same { self.new.rows ≡ self.old.rows }
    {
        self.rows.reserve(1)?;
        match self.deadlines.reserve() {
            Ok(()) => Ok(()),
            Err(_) => Err(NoMemory),
        }
    }

    /// The channel's row, if it has one.
    pub(crate) fn get(&self, channel: &Name) -> Option<&Row>
        ensures row { option_map (λ m. m.now) result ≡ row_in self.now.rows channel.now }
        ensures small { (row_or_blank (option_map (λ m. m.now) result)).turn < 2 ^ 48 }
    {
        self.rows.get(channel)
    }

    /// The deadline in the channel's row, if there is one.
    fn deadline(&self, channel: &Name) -> Option<u64>
        ensures { result ≡ (row_or_blank (row_in self.now.rows channel.now)).deadline }
    {
        match self.get(channel) {
            Some(row) => row.deadline,
            None => None,
        }
    }

    /// The channels whose deadline has come, by deadline and then by name.
    pub(crate) fn due(&self, now: u64) -> &[(u64, Name)]
        ensures ordered { AreOrdered result.now }
        ensures deadlines { (channel : List ℕ) → deadline_in result.now channel
            ≡ come now (row_or_blank (row_in self.now.rows channel)).deadline }
    {
        self.deadlines.due(now)
    }

    /// Records the channel's row.
    pub(crate) fn set(&mut self, channel: Name, row: Row)
        requires room { 1 ≤ self.old.room }
        requires small { row.turn < 2 ^ 48 }
        ensures { (c : List ℕ) → row_in self.new.rows c ≡ row_after channel (Ok row) c (row_in self.old.rows c) }
    {
        let old = self.deadline(&channel);
        date(&mut self.deadlines, channel, old, row.deadline);
        self.rows.insert(channel, row).unwrap();
    }
}
