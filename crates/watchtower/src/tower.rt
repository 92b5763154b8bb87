//! The tower.

ghost use Rattle.std.specs.Prelude.{◌≡◌, List, true, false, not, length, map, IfOk, OnOk, OnErr, IsErr};
ghost use Rattle.channel_values.specs.Rules.{Rules};
ghost use Rattle.call_history.specs.History.{Legal};
ghost use Rattle.call_history.specs.Naming.{NamesChannels};
ghost use Rattle.call_history.specs.declared.entry.Entry.{Entry as AnEntry};
ghost use Rattle.network.specs.Watching.{StandsFor, history_after, looks};
ghost use Rattle.support_rules.specs.Real.{real};
ghost use Rattle.watchtower.specs.Towers.{unmanned, is_admitted, admitted, with_chains, named, handed, hand_fault, fault_told, answers, calls_of, watched, is_rising};

use crate::answering::{Answer, answers};
use crate::beside::found_beside;
use crate::client::Client;
use crate::clients::{admit, hand};
use crate::fault::HandFault;
use crate::holders::Holders;
use crate::looking::{is_rising, look_around};
use call_history::Entry;
use channel_values::{Chain, Name, NoMemory};
use indexmap::IndexSet;
use network::Watcher;
use std::alloc::Global;
use std::marker::Model;
use std::sync::Wait;
use std::thread::Threads;

/// So many workers share a look.
const WORKERS: usize = 4;

/// A tower: its clients, which of them hold a chain of a channel, what it has followed, and the channels that are
/// challenged. A look takes time for new entries, for the challenged channels and for the clients that hold a chain
/// of one, and none for others. Once a look answered that memory ran out, no look answers anything else.
#[derive(Drop)]
pub struct Tower {
    names: IndexSet<Name>,
    clients: Vec<Client>,
    holders: Holders,
    watcher: Watcher,
    noted: IndexSet<Name>,
    is_lost: bool,
}

impl Model for Tower {
    ghost use Rattle.watchtower.specs.Towers.{Towering};
    ghost use Rattle.watchtower.specs.Holding.{IsTower};

    ghost Value = { Towering };

    ghost view = { λ t. record { clients = t.clients.items; watching = t.watcher; is_lost = t.is_lost } };

    ghost invariant = { λ t. IsTower t.names.keys t.clients.items t.holders.channels.keys t.holders.places.items t.watcher t.noted.keys t.is_lost };
}

impl Tower {
    /// It has no client and has followed nothing.
    pub fn make(alloc: Global) -> Tower
        ensures { result ≡ unmanned }
    {
        Tower {
            names: IndexSet::new(alloc),
            clients: Vec::new(alloc),
            holders: Holders::make(alloc),
            watcher: Watcher::make(alloc),
            noted: IndexSet::new(alloc),
            is_lost: false,
        }
    }

    /// Admits a client: false where it is there.
    #[tactic(auto, using(crate::proofs::Admitting::indexed_after))]
    pub fn admit(&mut self, client: Name) -> Result<bool, NoMemory>
        ensures answer { IfOk result (λ is_new. is_new ≡ not (is_admitted client self.old.clients)) }
        ensures ok { OnOk result (self.new ≡ record self.old { clients = admitted client self.old.clients }) }
        ensures err { OnErr result (self.new ≡ self.old) }
    {
        admit(&mut self.names, &mut self.clients, client)
    }

    /// Takes a client's chain in place of the one that it handed of this channel before.
    pub fn hand(&mut self, client: &Name, chain: Chain) -> Result<(), HandFault>
        ensures fault { fault_told result ≡ hand_fault real client.now (named chain) self.old.clients }
        ensures ok { OnOk result (self.new
            ≡ record self.old { clients = with_chains client.now (handed (named chain)) self.old.clients }) }
        ensures err { OnErr result (self.new ≡ self.old) }
    {
        hand(
            &self.names,
            &mut self.clients,
            &mut self.holders,
            client,
            chain,
        )
    }

    /// How many clients were admitted.
    pub fn client_count(&self) -> usize
        ensures { result ≡ length self.now.clients }
    {
        self.clients.len()
    }

    /// Whether the entries can come next: none sets a time before the one before it, as none of a legal history does.
    pub fn can_follow(&self, entries: &[Entry]) -> bool
        ensures { result ≡ is_rising self.now.watching.time entries.now }
    {
        is_rising(self.watcher.now(), entries)
    }

    fn look_now(&mut self, entries: &[Entry]) -> Result<Vec<Answer>, NoMemory>
        requires rising { is_rising self.old.watching.time entries.now ≡ true }
        requires kept { self.old.is_lost ≡ false }
        ensures seen { OnOk result (self.new ≡ watched entries.now self.old) }
        ensures calls { IfOk result (λ told.
            map (λ t. (t.0, t.1.items)) told.items ≡ answers (calls_of self.new.watching) self.old.clients) }
        ensures clients { self.new.clients ≡ self.old.clients }
        ensures lost { OnErr result (self.new.is_lost ≡ true) }
    {
        let alloc = *self.clients.allocator();
        self.is_lost = true;
        let places = look_around(
            &mut self.watcher,
            &mut self.noted,
            &self.holders,
            entries,
            alloc,
        )?;
        let told = answers(
            &self.watcher,
            &self.clients,
            &places,
            Vec::new(alloc),
            alloc,
        )?;
        self.is_lost = false;
        Ok(told)
    }

    fn look_now_shared<R: Threads + Wait + Sync>(
        &mut self,
        rt: &R,
        entries: &[Entry],
        workers: usize,
    ) -> Result<Vec<Answer>, NoMemory>
        requires rising { is_rising self.old.watching.time entries.now ≡ true }
        requires kept { self.old.is_lost ≡ false }
        ensures seen { OnOk result (self.new ≡ watched entries.now self.old) }
        ensures calls { IfOk result (λ told.
            map (λ t. (t.0, t.1.items)) told.items ≡ answers (calls_of self.new.watching) self.old.clients) }
        ensures clients { self.new.clients ≡ self.old.clients }
        ensures lost { OnErr result (self.new.is_lost ≡ true) }
    {
        let alloc = *self.clients.allocator();
        self.is_lost = true;
        let places = look_around(
            &mut self.watcher,
            &mut self.noted,
            &self.holders,
            entries,
            alloc,
        )?;
        let found = found_beside(rt, &self.watcher, &self.clients, &places, workers, alloc);
        let told = answers(&self.watcher, &self.clients, &places, found, alloc)?;
        self.is_lost = false;
        Ok(told)
    }

    /// Follows the entries, and answers the clients that have calls, in the order of admission. Each gets one
    /// checkpoint for each of its chains whose channel is then challenged below that chain's turn.
    pub fn look(&mut self, entries: &[Entry]) -> Result<Vec<Answer>, NoMemory>
        requires { is_rising self.old.watching.time entries.now ≡ true }

        // Over every legal history that goes on from one that it stands for: each client is answered what a watcher of
        // its own answers on its chains.
        ensures answer { (r : Rules) (h : List AnEntry) → NamesChannels r → StandsFor r h self.old.watching
            → Legal r (history_after h entries.now)
            → IfOk result (λ told. map (λ t. (t.0, t.1.items)) told.items
            ≡ answers (looks r (history_after h entries.now)) self.old.clients) }
        ensures stands { (r : Rules) (h : List AnEntry) → NamesChannels r → StandsFor r h self.old.watching
            → Legal r (history_after h entries.now)
            → OnOk result (StandsFor r (history_after h entries.now) self.new.watching) }

        // What it answers in any case.
        ensures seen { OnOk result (self.new ≡ watched entries.now self.old) }
        ensures calls { IfOk result (λ told.
            map (λ t. (t.0, t.1.items)) told.items ≡ answers (calls_of self.new.watching) self.old.clients) }
        ensures clients { self.new.clients ≡ self.old.clients }
        ensures lost { OnErr result (self.new.is_lost ≡ true) }
        ensures stays_lost { self.old.is_lost ≡ true → IsErr result }
    {
        if self.is_lost {
            return Err(NoMemory);
        }
        let told = self.look_now(entries)?;
        Ok(told)
    }

    /// The same, with the clients that it concerns shared out over so many workers, each in a thread of its own where
    /// one can be made.
    pub fn look_shared<R: Threads + Wait + Sync>(
        &mut self,
        rt: &R,
        entries: &[Entry],
        workers: usize,
    ) -> Result<Vec<Answer>, NoMemory>
        requires { is_rising self.old.watching.time entries.now ≡ true }

        // Over every legal history that goes on from one that it stands for: each client is answered what a watcher of
        // its own answers on its chains.
        ensures answer { (r : Rules) (h : List AnEntry) → NamesChannels r → StandsFor r h self.old.watching
            → Legal r (history_after h entries.now)
            → IfOk result (λ told. map (λ t. (t.0, t.1.items)) told.items
            ≡ answers (looks r (history_after h entries.now)) self.old.clients) }
        ensures stands { (r : Rules) (h : List AnEntry) → NamesChannels r → StandsFor r h self.old.watching
            → Legal r (history_after h entries.now)
            → OnOk result (StandsFor r (history_after h entries.now) self.new.watching) }

        // What it answers in any case.
        ensures seen { OnOk result (self.new ≡ watched entries.now self.old) }
        ensures calls { IfOk result (λ told.
            map (λ t. (t.0, t.1.items)) told.items ≡ answers (calls_of self.new.watching) self.old.clients) }
        ensures clients { self.new.clients ≡ self.old.clients }
        ensures lost { OnErr result (self.new.is_lost ≡ true) }
        ensures stays_lost { self.old.is_lost ≡ true → IsErr result }
    {
        if self.is_lost {
            return Err(NoMemory);
        }
        let told = self.look_now_shared(rt, entries, workers)?;
        Ok(told)
    }

    /// The same, over four workers.
    pub fn look_beside<R: Threads + Wait + Sync>(
        &mut self,
        rt: &R,
        entries: &[Entry],
    ) -> Result<Vec<Answer>, NoMemory>
        requires { is_rising self.old.watching.time entries.now ≡ true }

        // Over every legal history that goes on from one that it stands for: each client is answered what a watcher of
        // its own answers on its chains.
        ensures answer { (r : Rules) (h : List AnEntry) → NamesChannels r → StandsFor r h self.old.watching
            → Legal r (history_after h entries.now)
            → IfOk result (λ told. map (λ t. (t.0, t.1.items)) told.items
            ≡ answers (looks r (history_after h entries.now)) self.old.clients) }
        ensures stands { (r : Rules) (h : List AnEntry) → NamesChannels r → StandsFor r h self.old.watching
            → Legal r (history_after h entries.now)
            → OnOk result (StandsFor r (history_after h entries.now) self.new.watching) }

        // What it answers in any case.
        ensures seen { OnOk result (self.new ≡ watched entries.now self.old) }
        ensures calls { IfOk result (λ told.
            map (λ t. (t.0, t.1.items)) told.items ≡ answers (calls_of self.new.watching) self.old.clients) }
        ensures clients { self.new.clients ≡ self.old.clients }
        ensures lost { OnErr result (self.new.is_lost ≡ true) }
        ensures stays_lost { self.old.is_lost ≡ true → IsErr result }
    {
        self.look_shared(rt, entries, WORKERS)
    }
}
