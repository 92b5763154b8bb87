//! The store of all channels of a participant.

ghost use Rattle.std.specs.Prelude.{◌≡◌, ◌<◌, ◌≤◌, Some, None, IfOk, IfSome, ◌++◌, ◌∷◌, [], List, length, map, slice_set, find, slice_index_or, option_and_then, true, false, OnOk, OnErr, IsNone, if◌then◌else◌, ℕ};
ghost use Rattle.std.specs.List.{flat_map};
ghost use Rattle.std.specs.Map.{lookup};
ghost use Rattle.std.specs.Option.{option_map};
ghost use Rattle.std.specs.Str.{bytes_eq};
ghost use Rattle.std.specs.Result.{result_err};
ghost use Rattle.indexmap.specs.IndexMap.{spare};
ghost use Rattle.channel_values.specs.Spelling.{fixed as spelled};
ghost use Rattle.channel_values.specs.Digests.{name_of_channel};
ghost use Rattle.channel_values.specs.Rules.{people, newest};
ghost use Rattle.support_rules.specs.Real.{real};
ghost use Rattle.call_history.specs.Marked.{marked_of};
ghost use Rattle.channel_store.specs.Keeping.{held_chain, known_state, place_in, next_of, noting, adopting};
ghost use Rattle.channel_store.specs.Good.{AreGood, AreSupported};
ghost use Rattle.channel_store.specs.Storing.{place_of, kept_of, kept_with, added, ArePlaced};
ghost use Rattle.channel_store.specs.Noting.{refusal_of, Notes, is_adopted, Adopts};

use crate::fault::NoteFault;
use crate::kept::Kept;
use crate::lent::{Lent, are_alike, lent_of, lists_of};
use call_history::{HeldChain, Known, Place};
use channel_values::{Chain, Fixed, Listed, Name, NoMemory, Signed, State, channel_name};
use indexmap::IndexMap;
use std::alloc::Global;
use std::marker::Model;
use std::mem;

/// What a participant keeps of its channels, in the order in which they were added. Contracts see the list. A channel
/// is found by a table of names.
#[derive(Drop)]
pub struct Store {
    kept: Vec<Kept>,
    by_name: IndexMap<Name, usize>,
    lent: Lent,
}

impl Model for Store {
    ghost use Rattle.std.specs.Prelude.{List};
    ghost use Rattle.channel_store.specs.declared.kept.Kept.{Kept};
    ghost use Rattle.channel_store.specs.Good.{IsStore};
    ghost use Rattle.support_rules.specs.Real.{real};

    ghost Value = { List Kept };

    ghost view = { λ s. s.kept.items };

    ghost invariant = { λ s. IsStore real s.kept.items s.by_name.entries s.lent.chains.items s.lent.known.items s.lent.places.items };
}

/// The place of the channel, if the table has one.
fn place_in(by_name: &IndexMap<Name, usize>, channel: &Name) -> Option<usize>
    ensures { result ≡ lookup (bytes_eq channel.now) by_name.now.entries }
{
    match by_name.get(channel) {
        Some(place) => Some(*place),
        None => None,
    }
}

/// The channel has this place, and the others keep theirs.
fn set_place(by_name: &mut IndexMap<Name, usize>, channel: Name, place: usize)
    requires { 1 ≤ spare by_name.old }
    ensures { (c : List ℕ) → lookup (bytes_eq c) by_name.new.entries
        ≡ (if bytes_eq channel c then Some place else lookup (bytes_eq c) by_name.old.entries) }
{
    by_name.insert(channel, place).unwrap();
}

/// The place of the channel, or past the end where it isn't kept.
#[tactic(auto, using(crate::proofs::Placing::place_there, crate::proofs::Placing::place_past))]
fn place_of(kept: &[Kept], by_name: &IndexMap<Name, usize>, channel: &Name) -> usize
    requires { ArePlaced by_name.now.entries kept.now }
    ensures { result ≡ place_of channel.now kept.now }
{
    match place_in(by_name, channel) {
        Some(place) => place,
        None => kept.len(),
    }
}

fn kept_of<'a>(
    kept: &'a [Kept],
    by_name: &IndexMap<Name, usize>,
    channel: &Name,
) -> Option<&'a Kept>
    requires { ArePlaced by_name.now.entries kept.now }
    ensures { option_map (λ m. m.now) result ≡ kept_of channel.now kept.now }
{
    kept.get(place_of(kept, by_name, channel))
}

/// Whether a chain that was shown of a channel is adopted. Both are as before.
#[tactic(auto, using(crate::proofs::Placing::put_same, crate::proofs::Placing::good_there, crate::proofs::Placing::newer_there, crate::proofs::Placing::none_there))]
fn is_adopted(
    kept: &mut Vec<Kept>,
    by_name: &IndexMap<Name, usize>,
    channel: &Name,
    shown: &mut Chain,
) -> bool
    requires good { AreGood real kept.old.items }
    requires placed { ArePlaced by_name.now.entries kept.old.items }
    ensures value { result ≡ is_adopted real channel.now (marked_of shown.old) kept.old.items }
    ensures same { kept.new.items ≡ kept.old.items }
    ensures shown { shown.new ≡ shown.old }
{
    let place = place_of(kept, by_name, channel);
    if place >= kept.len() {
        return false;
    }
    kept[place].is_newer(shown)
}

fn held_of<'a>(chains: &'a [HeldChain], channel: &Name) -> Option<&'a HeldChain>
    ensures { option_map (λ m. m.now) result ≡ find (λ held. bytes_eq held.channel channel.now) chains.now }
{
    chains.iter().find(|held| held.channel == *channel)
}

impl Store {
    /// No channel is kept.
    pub fn make(alloc: Global) -> Store
        ensures { result ≡ [] }
    {
        Store {
            kept: Vec::new(alloc),
            by_name: IndexMap::new(alloc),
            lent: Lent {
                chains: Vec::new(alloc),
                known: Vec::new(alloc),
                places: Vec::new(alloc),
            },
        }
    }

    /// Adds a channel that isn't kept yet (`next_turn` is None), in which the participant has the position `me`.
    pub fn add_channel(&mut self, fixed: Fixed, me: u8) -> Result<(), NoMemory>
        requires new { IsNone (kept_of (name_of_channel (spelled fixed)) self.old) }
        requires position { me < people fixed }
        ensures ok { OnOk result (self.new ≡ self.old ++ added fixed me ∷ []) }
        ensures err { OnErr result (self.new ≡ self.old) }
    {
        let alloc = *self.kept.allocator();
        let len = self.kept.len();
        let channel = channel_name(fixed.bytes());
        self.by_name.reserve(1)?;
        self.kept.reserve(1)?;
        self.kept.push_reserved(Kept {
            channel,
            me,
            chain: Chain {
                fixed,
                states: Listed::make(Vec::new(alloc)),
                marks: Listed::make(Vec::new(alloc)),
            },
            last: None,
        });
        match lists_of(alloc, &self.kept) {
            Ok(lent) => {
                set_place(&mut self.by_name, channel, len);
                self.lent = lent;
                Ok(())
            }
            Err(NoMemory) => {
                self.kept.truncate(len);
                Err(NoMemory)
            }
        }
    }

    /// Keeps something else of the channel at a place.
    #[tactic(auto, using(crate::proofs::Placing::put_back, crate::proofs::Placing::lent_back, crate::proofs::Placing::placed_back))]
    fn set(&mut self, place: usize, k: Kept) -> Result<(), NoMemory>
        requires within { place < length self.old }
        requires named { (slice_index_or self.old place k).channel ≡ k.channel }
        requires good { AreGood real (slice_set self.old place k) }
        ensures ok { OnOk result (self.new ≡ slice_set self.old place k) }
        ensures err { OnErr result (self.new ≡ self.old) }
    {
        let alloc = *self.kept.allocator();
        if are_alike(&self.kept[place], &k) {
            let one = lent_of(alloc, &k)?;
            self.lent.put(&self.kept, place, &k, one);
            self.kept[place] = k;
            return Ok(());
        }
        let old = mem::replace(&mut self.kept[place], k);
        match lists_of(alloc, &self.kept) {
            Ok(lent) => {
                self.lent = lent;
                Ok(())
            }
            Err(NoMemory) => {
                self.kept[place] = old;
                Err(NoMemory)
            }
        }
    }

    /// What is kept of a channel: it has no more states than the channel has people.
    fn one(&self, channel: &Name) -> Option<&Kept>
        ensures value { option_map (λ m. m.now) result ≡ kept_of channel.now self.now }
        ensures few { IfSome result (λ m. length m.now.chain.states ≤ people m.now.chain.fixed) }
    {
        match kept_of(&self.kept, &self.by_name, channel) {
            None => None,
            Some(k) => Some(k),
        }
    }

    /// What is kept of a channel with a state that passes; `own` says that the participant signed it.
    #[tactic(auto, using(crate::proofs::Calls::is_known, crate::proofs::Calls::passes_there, crate::proofs::Calls::noted_one))]
    fn noted(&self, channel: &Name, signed: Signed, own: bool) -> Result<Kept, NoMemory>
        requires { refusal_of real channel.now signed self.now ≡ None }
        ensures { IfOk result (λ k. option_map (noting real own signed) (kept_of channel.now self.now) ≡ Some k) }
    {
        let Some(k) = self.one(channel) else {
            unreachable!();
        };
        k.noted(signed, own)
    }

    /// Notes a state that passes the tests, with no test of it; `own` says that the participant signed it.
    #[tactic(auto, using(crate::proofs::Calls::within, crate::proofs::Calls::noted_good, crate::proofs::Calls::noted_named, crate::proofs::Calls::noted_changes))]
    pub fn note_checked(
        &mut self,
        channel: &Name,
        signed: Signed,
        own: bool,
    ) -> Result<(), NoMemory>
        requires { refusal_of real channel.now signed self.old ≡ None }
        ensures ok { OnOk result (self.new ≡ kept_with (noting real own signed) channel.now self.old) }
        ensures err { OnErr result (self.new ≡ self.old) }
    {
        let noted = self.noted(channel, signed, own)?;
        let place = place_of(&self.kept, &self.by_name, channel);
        self.set(place, noted)
    }

    /// Notes a state; `own` says that the participant signed it.
    #[tactic(auto, using(crate::proofs::Calls::told_fault, crate::proofs::Calls::wants_memory_of))]
    fn note_as(&mut self, channel: &Name, signed: Signed, own: bool) -> Result<(), NoteFault>
        ensures { Notes result (refusal_of real channel.now signed self.old)
            (kept_with (noting real own signed) channel.now self.old) self.old self.new }
    {
        self.check(channel, &signed)?;
        self.note_checked(channel, signed, own)?;
        Ok(())
    }

    /// Notes the next state of a channel, which a message brought and its mover signed, or says why not.
    pub fn note(&mut self, channel: &Name, signed: Signed) -> Result<(), NoteFault>
        ensures { Notes result (refusal_of real channel.now signed self.old)
            (kept_with (noting real false signed) channel.now self.old) self.old self.new }
    {
        self.note_as(channel, signed, false)
    }

    /// Notes the next state of a channel, which the participant signed itself, or says why not.
    pub fn note_own(&mut self, channel: &Name, signed: Signed) -> Result<(), NoteFault>
        ensures { Notes result (refusal_of real channel.now signed self.old)
            (kept_with (noting real true signed) channel.now self.old) self.old self.new }
    {
        self.note_as(channel, signed, true)
    }

    /// Why a state would not be noted, if it would not: the fault that `note` and `note_own` answer, without memory.
    pub fn check(&self, channel: &Name, signed: &Signed) -> Result<(), NoteFault>
        ensures { result_err result ≡ refusal_of real channel.now signed.now self.now }
    {
        match kept_of(&self.kept, &self.by_name, channel) {
            None => Err(NoteFault::Unknown),
            Some(k) => k.check(signed),
        }
    }

    /// Adopts a chain that was shown of a channel, and says whether it did. It does where the channel is kept, and
    /// the chain's states and marks are supported with the channel's own fixed part. Also no chain is held, or the
    /// held one is older.
    #[tactic(auto, using(crate::proofs::Calls::adopts_nothing, crate::proofs::Calls::changes_nothing, crate::proofs::Calls::keeps, crate::proofs::Calls::adopts, std::proofs::lemmas::Option::slice_get_within))]
    pub fn adopt(&mut self, channel: &Name, mut shown: Chain) -> Result<bool, NoMemory>
        ensures { Adopts result (is_adopted real channel.now (marked_of shown) self.old)
            (kept_with (adopting real (marked_of shown)) channel.now self.old) self.old self.new }
    {
        if !is_adopted(&mut self.kept, &self.by_name, channel, &mut shown) {
            return Ok(false);
        }
        let Some(k) = kept_of(&self.kept, &self.by_name, channel) else {
            return Ok(false);
        };
        let adopted = k.with_chain(shown)?;
        let place = place_of(&self.kept, &self.by_name, channel);
        self.set(place, adopted)?;
        Ok(true)
    }

    /// What is kept of a channel, if it was added: the first round so far or the held chain, and the last state that
    /// the participant signed.
    pub fn kept(&self, channel: &Name) -> Option<&Kept>
        ensures value { option_map (λ m. m.now) result ≡ kept_of channel.now self.now }
        ensures good { AreGood real self.now }
    {
        kept_of(&self.kept, &self.by_name, channel)
    }

    /// The chain that is held of a channel.
    pub fn newest(&self, channel: &Name) -> Option<&HeldChain>
        ensures { option_map (λ m. m.now) result
            ≡ find (λ held. bytes_eq held.channel channel.now) (flat_map held_chain self.now) }
    {
        held_of(&self.lent.chains, channel)
    }

    /// The newest state of a channel.
    pub fn latest(&self, channel: &Name) -> Option<&State>
        ensures { option_map (λ m. m.now) result
            ≡ option_and_then (λ k. newest k.chain.states) (kept_of channel.now self.now) }
    {
        match kept_of(&self.kept, &self.by_name, channel) {
            None => None,
            Some(k) => k.latest(),
        }
    }

    /// The last state of a channel that the participant signed itself.
    pub fn last_signed(&self, channel: &Name) -> Option<&State>
        ensures { option_map (λ m. m.now) result ≡ option_and_then (λ k. k.last) (kept_of channel.now self.now) }
    {
        match kept_of(&self.kept, &self.by_name, channel) {
            None => None,
            Some(k) => k.last.as_ref(),
        }
    }

    /// The turn that comes next in a channel.
    pub fn next_turn(&self, channel: &Name) -> Option<u64>
        ensures { result ≡ option_map next_of (kept_of channel.now self.now) }
    {
        match kept_of(&self.kept, &self.by_name, channel) {
            None => None,
            Some(k) => Some(k.next()),
        }
    }

    /// The held chains, in the order in which their channels were added. Each is supported.
    #[tactic(auto, using(crate::proofs::Good::held_are_supported))]
    pub fn chains(&self) -> &[HeldChain]
        ensures value { result.now ≡ flat_map held_chain self.now }
        ensures supported { AreSupported real result.now }
    {
        self.lent.chains.as_slice()
    }

    /// The last state that the participant signed in each channel of which it holds a chain.
    pub fn known(&self) -> &[Known]
        ensures { result.now ≡ flat_map known_state self.now }
    {
        self.lent.known.as_slice()
    }

    /// The people, the participant's position and the next turn of each channel.
    pub fn places(&self) -> &[Place]
        ensures { result.now ≡ map place_in self.now }
    {
        self.lent.places.as_slice()
    }
}
