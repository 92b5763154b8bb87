//! Channels with their deadlines, in the order of these.

ghost use Rattle.std.specs.Prelude.{◌≡◌, ◌≤◌, ◌<◌, [], ℕ, List, Some, None, OnOk, nat_le, if◌then◌else◌, length, slice_index_or, true};
ghost use Rattle.std.specs.List.{prefix_len};
ghost use Rattle.std.specs.Ordering.{is_lt};
ghost use Rattle.std.specs.Str.{bytes_eq};
ghost use Rattle.adjudicator.specs.Due.{deadline_in, come, due_at, row_cmp, AreOrdered};

use std::alloc::Global;
use std::marker::Model;

/// A channel's name.
pub type Name = [u8; 32];

/// There was no memory left.
#[derive(Clone, Copy, Debug, PartialEq, Eq)]
pub struct NoMemory;

/// Channels that have a deadline, each with one.
#[derive(Drop)]
pub struct Deadlines {
    rows: Vec<(u64, Name)>,
}

impl Model for Deadlines {
    ghost use Rattle.std.specs.Prelude.{◌-◌, vec_len, vec_capacity};
    ghost use Rattle.adjudicator.specs.Due.{Dated, AreOrdered};

    ghost Value = { Dated };

    ghost view = { λ s. record { rows = s.rows.items; room = vec_capacity s.rows - vec_len s.rows } };

    ghost invariant = { λ s. AreOrdered s.rows.items };
}

/// How many of the rows in order have a deadline at most `now`.
fn due_count(rows: &[(u64, Name)], now: u64) -> usize
    requires { AreOrdered rows.now }
    ensures value { result ≡ prefix_len (λ row. nat_le row.0 now) rows.now }
    ensures within { result ≤ length rows.now }
{
    rows.partition_point(
        |row: &(u64, Name)| -> bool
            ensures { result ≡ nat_le row.now.0 now }
        { row.0 <= now },
    )
}

/// How many of the rows in order come before this one.
fn count_before(rows: &[(u64, Name)], new: &(u64, Name)) -> usize
    requires { AreOrdered rows.now }
    ensures value { result ≡ prefix_len (λ row. is_lt (row_cmp row new.now)) rows.now }
    ensures within { result ≤ length rows.now }
{
    rows.partition_point(
        |row: &(u64, Name)| -> bool
            ensures { result ≡ is_lt (row_cmp row.now new.entry.now) }
        { row.cmp(new).is_lt() },
    )
}

/// The place of the channel's row, or the length where it has none. The latest deadlines are looked at first.
fn place_of(rows: &[(u64, Name)], channel: &Name) -> usize
    ensures within { result ≤ length rows.now }
    ensures found { (d : ℕ × List ℕ) → result < length rows.now
        → bytes_eq (slice_index_or rows.now result d).1 channel.now ≡ true }
    ensures absent { length rows.now ≤ result → deadline_in rows.now channel.now ≡ None }
{
    let mut place = rows.len();
    while place > 0 {
        place -= 1;
        if rows[place].1 == *channel {
            return place;
        }
    }
    rows.len()
}

impl Deadlines {
    /// No channel has a deadline.
    pub fn make(alloc: Global) -> Deadlines
        ensures { result.rows ≡ [] }
    {
        Deadlines {
            rows: Vec::new(alloc),
        }
    }

    /// Takes the memory that one more row may need.
    pub fn reserve(&mut self) -> Result<(), NoMemory>
        ensures room { OnOk result (1 ≤ self.new.room) }
        ensures same { self.new.rows ≡ self.old.rows }
    {
        match self.rows.reserve(1) {
            Ok(()) => Ok(()),
            Err(_) => Err(NoMemory),
        }
    }

    /// The channel has this deadline.
    pub fn insert(&mut self, deadline: u64, channel: Name)
        requires room { 1 ≤ self.old.room }
        requires absent { deadline_in self.old.rows channel ≡ None }
        ensures { (c : List ℕ) → deadline_in self.new.rows c
            ≡ (if bytes_eq channel c then Some deadline else deadline_in self.old.rows c) }
    {
        let row = (deadline, channel);
        let place = count_before(&self.rows, &row);
        self.rows.insert(place, row).unwrap();
    }

    /// The channel has no deadline.
    pub fn remove(&mut self, channel: &Name)
        ensures deadlines { (c : List ℕ) → deadline_in self.new.rows c
            ≡ (if bytes_eq channel.now c then None else deadline_in self.old.rows c) }
        ensures room { self.old.room ≤ self.new.room }
    {
        let place = place_of(&self.rows, channel);
        if place < self.rows.len() {
            self.rows.remove(place);
        }
    }

    /// The channels whose deadline has come, by deadline and then by name.
    pub fn due(&self, now: u64) -> &[(u64, Name)]
        ensures rows { result.now ≡ due_at self.now.rows now }
        ensures ordered { AreOrdered result.now }
        ensures deadlines { (channel : List ℕ)
            → deadline_in result.now channel ≡ come now (deadline_in self.now.rows channel) }
    {
        let rows = self.rows.as_slice();
        let count = due_count(rows, now);
        &rows[..count]
    }
}
