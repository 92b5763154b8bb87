//! What a watcher follows and answers.

ghost use Rattle.std.specs.Prelude.{◌≡◌, List, [], fold, map, filter, true, IfOk, OnOk, OnErr, IsErr};
ghost use Rattle.channel_values.specs.Rules.{Rules};
ghost use Rattle.call_history.specs.History.{Legal};
ghost use Rattle.call_history.specs.declared.entry.Entry.{Entry as AnEntry};
ghost use Rattle.call_history.specs.Naming.{NamesChannels};
ghost use Rattle.network.specs.Watching.{StandsFor, unseeing, saw, watched_row, is_stale, checkpoints, history_after, looks};

use crate::rows::{Told, Watched, record_told, watched_row};
use call_history::{Call, Entry, HeldChain, Standing, mode, time_set, top_turn};
use channel_values::{Name, NoMemory};
use indexmap::IndexMap;
use std::alloc::Global;
use std::marker::Model;

/// A watcher, and the number of the last entry that it followed. A look takes time for new entries and for the
/// chains, and none for older entries or other channels. Once it answered that memory ran out, it answers nothing
/// else.
#[derive(Drop)]
pub struct Watcher {
    time: u64,
    rows: IndexMap<Name, Told>,
    seen: u32,
    is_lost: bool,
}

impl Model for Watcher {
    ghost use Rattle.network.specs.Rows.{rows_of};
    ghost use Rattle.network.specs.Watching.{Watching};

    ghost Value = { Watching };

    ghost view = { λ w. record { time = w.time; rows = rows_of w.rows.entries; seen = w.seen; is_lost = w.is_lost } };
}

impl Watcher {
    /// It has followed nothing.
    pub fn make(alloc: Global) -> Watcher
        ensures new { result ≡ unseeing }
        ensures stands { (r : Rules) → StandsFor r [] result }
    {
        Watcher {
            time: 0,
            rows: IndexMap::new(alloc),
            seen: 0,
            is_lost: false,
        }
    }

    /// How many entries of a legal history it has followed: the number of the last one.
    pub fn seen(&self) -> u32
        ensures { result ≡ self.now.seen }
    {
        self.seen
    }

    /// The time, as the entries that it has followed say.
    pub fn now(&self) -> u64
        ensures { result ≡ self.now.time }
    {
        self.time
    }

    /// What is recorded of a channel, as the entries that it has followed say.
    pub fn row(&self, channel: &Name) -> Watched
        ensures { result ≡ watched_row self.now.rows channel.now }
    {
        watched_row(&self.rows, channel)
    }

    fn see(&mut self, entry: &Entry) -> Result<(), NoMemory>
        ensures { OnOk result (self.new ≡ saw self.old entry.now) }
    {
        record_told(&mut self.rows, self.time, entry)?;
        if let Some(to) = time_set(entry) {
            self.time = to;
        }
        self.seen = entry.number;
        Ok(())
    }

    fn follow(&mut self, entries: &[Entry]) -> Result<(), NoMemory>
        ensures { OnOk result (self.new ≡ fold saw self.old entries.now) }
    {
        for entry in entries {
            self.see(entry)?;
        }
        Ok(())
    }

    /// Whether the channel is challenged below the turn of the held chain.
    fn is_stale(&self, held: &HeldChain) -> bool
        ensures { result ≡ is_stale self.now held.now }
    {
        let row = watched_row(&self.rows, &held.channel);
        mode(row.deadline, self.time) == Standing::Challenged
            && row.turn < top_turn(held.chain.states.as_slice())
    }

    /// One checkpoint for each of these chains whose channel is challenged below the chain's turn, in their order.
    pub fn checkpoints(&self, chains: &[HeldChain]) -> Result<Vec<Call>, NoMemory>
        ensures { IfOk result (λ calls. calls.items ≡ checkpoints (is_stale self.now) chains.now) }
    {
        let mut calls = Vec::new(*self.rows.allocator());
        for held in chains {
            if self.is_stale(held) {
                let chain = held.chain.copy()?;
                calls.push(Call::Checkpoint { chain })?;
            }
        }
        Ok(calls)
    }

    fn look_now(&mut self, entries: &[Entry], chains: &[HeldChain]) -> Result<Vec<Call>, NoMemory>
        ensures seen { OnOk result (self.new ≡ fold saw self.old entries.now) }
        ensures calls { IfOk result (λ calls. calls.items ≡ checkpoints (is_stale self.new) chains.now) }
    {
        self.follow(entries)?;
        self.checkpoints(chains)
    }

    /// Follows the entries, and answers one checkpoint with the held chain for each channel that is then challenged
    /// below that chain's turn, in the order of the chains.
    pub fn look(&mut self, entries: &[Entry], chains: &[HeldChain]) -> Result<Vec<Call>, NoMemory>
        // Over every legal history that goes on from one that it stands for.
        ensures answer { (r : Rules) (h : List AnEntry) → NamesChannels r → StandsFor r h self.old
            → Legal r (history_after h entries.now) → IfOk result (λ calls.
            calls.items ≡ looks r (history_after h entries.now) chains.now) }
        ensures stands { (r : Rules) (h : List AnEntry) → NamesChannels r → StandsFor r h self.old
            → Legal r (history_after h entries.now) → OnOk result (StandsFor r (history_after h entries.now) self.new) }

        // What it answers in any case, whatever it stands for.
        ensures seen { OnOk result (self.new ≡ fold saw self.old entries.now) }
        ensures calls { IfOk result (λ calls. calls.items ≡ checkpoints (is_stale self.new) chains.now) }
        ensures lost { OnErr result (self.new.is_lost ≡ true) }
        ensures stays_lost { self.old.is_lost ≡ true → IsErr result }
    {
        if self.is_lost {
            return Err(NoMemory);
        }
        match self.look_now(entries, chains) {
            Ok(calls) => Ok(calls),
            Err(NoMemory) => {
                self.is_lost = true;
                Err(NoMemory)
            }
        }
    }
}
