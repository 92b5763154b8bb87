//! The lists that a store lends out, made from what it keeps.

ghost use Rattle.std.specs.Prelude.{◌≡◌, ◌<◌, ◌≤◌, length, map, slice_set, slice_index_or, true, IfOk};
ghost use Rattle.std.specs.Option.{option_map, option_to_list};
ghost use Rattle.std.specs.List.{flat_map};
ghost use Rattle.support_rules.specs.Steps.{persons};
ghost use Rattle.channel_store.specs.Keeping.{held_chain, known_last, known_state, place_in};
ghost use Rattle.channel_store.specs.Good.{are_alike, IsLent, IsLentOne};

use crate::kept::Kept;
use call_history::{HeldChain, Known, Place};
use channel_values::{Fixed, Listed, Name, NoMemory, State};
use std::alloc::Global;
use support_rules::people_of;

/// The held chains, the last states signed in their channels, and the places, in the order of the channels.
#[derive(Drop)]
pub(crate) struct Lent {
    pub chains: Vec<HeldChain>,
    pub known: Vec<Known>,
    pub places: Vec<Place>,
}

fn chains_of(alloc: Global, kept: &[Kept]) -> Result<Vec<HeldChain>, NoMemory>
    ensures { IfOk result (λ chains. chains.items ≡ flat_map held_chain kept.now) }
{
    let mut chains = Vec::new(alloc);
    for k in kept {
        if k.is_held() {
            let chain = k.chain.copy()?;
            chains.push(HeldChain {
                channel: k.channel,
                chain,
            })?;
        }
    }
    Ok(chains)
}

/// The last state that was signed, where a chain is held.
fn known_last(k: &Kept) -> Option<&State>
    ensures { option_map (λ m. m.now) result ≡ known_last k.now }
{
    if k.is_held() { k.last.as_ref() } else { None }
}

fn known_of(alloc: Global, kept: &[Kept]) -> Result<Vec<Known>, NoMemory>
    ensures { IfOk result (λ known. known.items ≡ flat_map known_state kept.now) }
{
    let mut known = Vec::new(alloc);
    for k in kept {
        if let Some(last) = known_last(k) {
            let last = last.copy()?;
            known.push(Known {
                channel: k.channel,
                last,
            })?;
        }
    }
    Ok(known)
}

fn persons_of(alloc: Global, fixed: &Fixed) -> Result<Listed<Name>, NoMemory>
    ensures { IfOk result (λ people. people ≡ persons fixed.now) }
{
    let people = people_of(fixed);
    let names = Vec::from_slice(alloc, people.as_slice())?;
    Ok(Listed::make(names))
}

fn place_of(alloc: Global, k: &Kept) -> Result<Place, NoMemory>
    ensures { IfOk result (λ place. place ≡ place_in k.now) }
{
    let people = persons_of(alloc, &k.chain.fixed)?;
    Ok(Place {
        channel: k.channel,
        people,
        me: k.me,
        next: k.next(),
    })
}

fn places_of(alloc: Global, kept: &[Kept]) -> Result<Vec<Place>, NoMemory>
    ensures { IfOk result (λ places. places.items ≡ map place_in kept.now) }
{
    let mut places = Vec::new(alloc);
    for k in kept {
        let place = place_of(alloc, k)?;
        places.push(place)?;
    }
    Ok(places)
}

/// The lists of what is kept.
pub(crate) fn lists_of(alloc: Global, kept: &[Kept]) -> Result<Lent, NoMemory>
    ensures { IfOk result (λ l. IsLent kept.now l.chains.items l.known.items l.places.items) }
{
    let chains = chains_of(alloc, kept)?;
    let known = known_of(alloc, kept)?;
    let places = places_of(alloc, kept)?;
    Ok(Lent {
        chains,
        known,
        places,
    })
}

/// How many chains are lent of a channel: one or none.
fn chains_lent(k: &Kept) -> usize
    ensures { result ≡ length (held_chain k.now) }
{
    if k.is_held() { 1 } else { 0 }
}

/// How many states are lent of a channel as the last one signed: one or none.
fn known_lent(k: &Kept) -> usize
    ensures { result ≡ length (known_state k.now) }
{
    match known_last(k) {
        None => 0,
        Some(_) => 1,
    }
}

#[tactic(auto, using(crate::proofs::Lists::count_more, crate::proofs::Lists::chain_few))]
fn held_count(kept: &[Kept]) -> usize
    ensures value { result ≡ length (flat_map held_chain kept.now) }
    ensures within { result ≤ length kept.now }
{
    match kept {
        [] => 0,
        [first, rest @ ..] => chains_lent(first) + held_count(rest),
    }
}

#[tactic(auto, using(crate::proofs::Lists::count_more, crate::proofs::Lists::known_few))]
fn known_count(kept: &[Kept]) -> usize
    ensures value { result ≡ length (flat_map known_state kept.now) }
    ensures within { result ≤ length kept.now }
{
    match kept {
        [] => 0,
        [first, rest @ ..] => known_lent(first) + known_count(rest),
    }
}

/// What is lent of one channel.
#[derive(Drop)]
pub(crate) struct LentOne {
    chain: Option<HeldChain>,
    known: Option<Known>,
    place: Place,
}

fn chain_of(k: &Kept) -> Result<Option<HeldChain>, NoMemory>
    ensures { IfOk result (λ chain. option_to_list chain ≡ held_chain k.now) }
{
    if !k.is_held() {
        return Ok(None);
    }
    let chain = k.chain.copy()?;
    Ok(Some(HeldChain {
        channel: k.channel,
        chain,
    }))
}

fn known_one(k: &Kept) -> Result<Option<Known>, NoMemory>
    ensures { IfOk result (λ known. option_to_list known ≡ known_state k.now) }
{
    match known_last(k) {
        None => Ok(None),
        Some(last) => {
            let last = last.copy()?;
            Ok(Some(Known {
                channel: k.channel,
                last,
            }))
        }
    }
}

/// What is lent of the channel.
pub(crate) fn lent_of(alloc: Global, k: &Kept) -> Result<LentOne, NoMemory>
    ensures { IfOk result (λ one. IsLentOne k.now (option_to_list one.chain) (option_to_list one.known) one.place) }
{
    let chain = chain_of(k)?;
    let known = known_one(k)?;
    let place = place_of(alloc, k)?;
    Ok(LentOne {
        chain,
        known,
        place,
    })
}

/// Whether a chain is lent of both or of neither, and so a last state signed.
pub(crate) fn are_alike(old: &Kept, new: &Kept) -> bool
    ensures { result ≡ are_alike old.now new.now }
{
    chains_lent(old) == chains_lent(new) && known_lent(old) == known_lent(new)
}

#[tactic(auto, using(crate::proofs::Lists::chain_inside, crate::proofs::Lists::chain_put, crate::proofs::Lists::chain_same))]
fn put_chain(
    chains: &mut Vec<HeldChain>,
    kept: &[Kept],
    place: usize,
    k: &Kept,
    chain: Option<HeldChain>,
)
    requires within { place < length kept.now }
    requires alike { length (held_chain (slice_index_or kept.now place k.now)) ≡ length (held_chain k.now) }
    requires is { option_to_list chain ≡ held_chain k.now }
    requires before { chains.old.items ≡ flat_map held_chain kept.now }
    ensures { chains.new.items ≡ flat_map held_chain (slice_set kept.now place k.now) }
{
    if let Some(chain) = chain {
        let rank = held_count(&kept[..place]);
        chains[rank] = chain;
    }
}

#[tactic(auto, using(crate::proofs::Lists::known_inside, crate::proofs::Lists::known_put, crate::proofs::Lists::known_same))]
fn put_known(list: &mut Vec<Known>, kept: &[Kept], place: usize, k: &Kept, one: Option<Known>)
    requires within { place < length kept.now }
    requires alike { length (known_state (slice_index_or kept.now place k.now)) ≡ length (known_state k.now) }
    requires is { option_to_list one ≡ known_state k.now }
    requires before { list.old.items ≡ flat_map known_state kept.now }
    ensures { list.new.items ≡ flat_map known_state (slice_set kept.now place k.now) }
{
    if let Some(known) = one {
        let rank = known_count(&kept[..place]);
        list[rank] = known;
    }
}

#[tactic(auto, using(crate::proofs::Lists::place_put))]
fn put_place(places: &mut Vec<Place>, kept: &[Kept], place: usize, k: &Kept, new: Place)
    requires within { place < length kept.now }
    requires is { new ≡ place_in k.now }
    requires before { places.old.items ≡ map place_in kept.now }
    ensures { places.new.items ≡ map place_in (slice_set kept.now place k.now) }
{
    places[place] = new;
}

impl Lent {
    #[tactic(auto, using(crate::proofs::Lists::chains_alike, crate::proofs::Lists::known_alike))]
    /// Changes what is lent of the channel at a place, of which a chain was lent before and is now, or neither, and
    /// so a last state signed.
    pub(crate) fn put(&mut self, kept: &[Kept], place: usize, k: &Kept, one: LentOne)
        requires within { place < length kept.now }
        requires alike { are_alike (slice_index_or kept.now place k.now) k.now ≡ true }
        requires is { IsLentOne k.now (option_to_list one.chain) (option_to_list one.known) one.place }
        requires before { IsLent kept.now self.old.chains.items self.old.known.items self.old.places.items }
        ensures { IsLent (slice_set kept.now place k.now) self.new.chains.items self.new.known.items self.new.places.items }
    {
        put_chain(&mut self.chains, kept, place, k, one.chain);
        put_known(&mut self.known, kept, place, k, one.known);
        put_place(&mut self.places, kept, place, k, one.place);
    }
}
