//! Two people's states of a payment channel, signed by their keys, and what the first person's store answers.

ghost use Rattle.std.specs.Prelude.{◌<◌};

use crate::pair::{Pair, Parts, at, mark, pair_of};
use channel_store::{NoteFault, Store};
use channel_values::{Chain, Listed, Name, Signed, StepFault, channel_name, person_name};
use lms_signatures::Signer;
use std::alloc::{AllocGlobal, Global};
use std::process::Abort;
use std::test::Fail;

const F5: Parts = (5, true, 4, 4);

const F6: Parts = (6, true, 4, 4);

const F7: Parts = (7, true, 4, 4);

/// The name of no channel.
const STRAY: Name = [9; 32];

type Noted = Result<(), NoteFault>;

/// How a state comes to the store. Its mover signed it unless it is forged.
#[derive(Clone, Copy)]
enum Way {
    Own,
    Brought,
    /// The other person signed it.
    Forged,
    /// For a channel that the store doesn't have.
    Stray,
}

/// A call with its answer.
#[derive(Clone, Copy)]
enum Case {
    /// The states from one turn to another are noted: as own at even turns, else as brought.
    Takes(u64, u64),
    Note(Way, Parts, Noted),
    Check(Way, Parts, Noted),
    /// A chain of the states of two turns.
    Adopt(u64, u64, bool),
    /// The turns of the states of the held chain.
    Held(&'static [u64]),
    /// How many chains are held, and of how many of them a state is known that was signed.
    Counts(usize, usize),
    /// The turn of the first known state.
    Known(Option<u64>),
    Next(Option<u64>),
    Latest(Option<u64>),
    LastSigned(Option<u64>),
    /// The participant's position, and how many states and marks are kept.
    Kept(Option<(u8, usize, usize)>),
    StrayKept(Option<(u8, usize, usize)>),
    /// The position, the next turn and the number of people of the only place, where the second person is the last.
    Place(u8, u64, usize),
}

#[derive(Drop)]
struct People {
    pair: Pair,
    channel: Name,
    first: Signer,
    second: Signer,
}

impl People {
    fn make(alloc: Global) -> Result<People, Fail> {
        let first = Signer::make(alloc, [1; 32], [1; 16], 5)?;
        let second = Signer::make(alloc, [2; 32], [2; 16], 5)?;
        let keys = [first.public(), second.public()];
        let pair = Pair {
            keys,
            ..pair_of(alloc, 1)
        };
        Ok(People {
            pair,
            channel: pair.channel()?,
            first,
            second,
        })
    }

    fn signed(&mut self, way: Way, parts: Parts) -> Result<Signed, Fail> {
        let is_firsts = parts.0 % 2 == 0;
        if is_firsts != matches!(way, Way::Forged) {
            self.pair.signed_by(&mut self.first, parts)
        } else {
            self.pair.signed_by(&mut self.second, parts)
        }
    }

    /// Two states, each with its mover's mark.
    fn chain(&mut self, one: u64, other: u64) -> Result<Chain, Fail> {
        let alloc = self.pair.alloc;
        let fixed = self.pair.fixed()?;
        let leader = self.signed(Way::Own, at(one))?;
        let follower = self.signed(Way::Own, at(other))?;
        let mut marks = vec![in alloc; mark(0, leader.signature), mark(1, follower.signature)]?;
        if one % 2 == 1 {
            marks.reverse();
        }
        Ok(Chain {
            fixed,
            states: Listed::make(vec![in alloc; leader.state, follower.state]?),
            marks: Listed::make(marks),
        })
    }

    fn note(&mut self, store: &mut Store, way: Way, parts: Parts) -> Result<Noted, Fail> {
        let signed = self.signed(way, parts)?;
        Ok(match way {
            Way::Own => store.note_own(&self.channel, signed),
            Way::Stray => store.note(&STRAY, signed),
            _ => store.note(&self.channel, signed),
        })
    }

    fn check(&mut self, store: &Store, way: Way, parts: Parts) -> Result<Noted, Fail> {
        let signed = self.signed(way, parts)?;
        Ok(match way {
            Way::Stray => store.check(&STRAY, &signed),
            _ => store.check(&self.channel, &signed),
        })
    }

    fn takes(&mut self, store: &mut Store, first: u64, last: u64) -> Result<bool, Fail> {
        let mut takes = true;
        for turn in first..=last {
            let way = match turn % 2 {
                0 => Way::Own,
                _ => Way::Brought,
            };
            takes &= self.note(store, way, at(turn))? == Ok(());
        }
        Ok(takes)
    }

    fn adopts(&mut self, store: &mut Store, one: u64, other: u64) -> Result<bool, Fail> {
        let chain = self.chain(one, other)?;
        Ok(store.adopt(&self.channel, chain)?)
    }
}

fn holds(store: &Store, channel: &Name, turns: &[u64]) -> bool {
    match store.newest(channel) {
        None => turns.is_empty(),
        Some(held) => {
            let states = held.chain.states.as_slice();
            states.len() == turns.len()
                && states
                    .iter()
                    .zip(turns)
                    .all(|(state, turn)| state.turn() == *turn)
        }
    }
}

fn kept(store: &Store, channel: &Name) -> Option<(u8, usize, usize)> {
    let kept = store.kept(channel)?;
    let chain = &kept.chain;
    Some((
        kept.me,
        chain.states.as_slice().len(),
        chain.marks.as_slice().len(),
    ))
}

/// The participant's position, the next turn and the number of people, where the last one has this name.
fn placed(store: &Store, last: &Name) -> Option<(u8, u64, usize)> {
    let [place] = store.places() else {
        return None;
    };
    let people = place.people.as_slice();
    (people.last() == Some(last)).then_some((place.me, place.next, people.len()))
}

/// What a store answers without a change.
fn is_told(people: &People, store: &Store, case: Case) -> bool {
    let channel = &people.channel;
    match case {
        Case::Held(turns) => holds(store, channel, turns),
        Case::Counts(chains, known) => {
            store.chains().len() == chains && store.known().len() == known
        }
        Case::Known(turn) => store.known().first().map(|known| known.last.turn()) == turn,
        Case::Next(turn) => store.next_turn(channel) == turn,
        Case::Latest(turn) => store.latest(channel).map(|state| state.turn()) == turn,
        Case::LastSigned(turn) => store.last_signed(channel).map(|state| state.turn()) == turn,
        Case::Kept(counts) => kept(store, channel) == counts,
        Case::StrayKept(counts) => kept(store, &STRAY) == counts,
        Case::Place(me, next, count) => {
            let second = &people.pair.keys[1];
            placed(store, &person_name(second)) == Some((me, next, count))
        }
        _ => false,
    }
}

fn is_so(people: &mut People, store: &mut Store, case: Case) -> Result<bool, Fail> {
    match case {
        Case::Takes(first, last) => people.takes(store, first, last),
        Case::Note(way, parts, answer) => Ok(people.note(store, way, parts)? == answer),
        Case::Check(way, parts, answer) => Ok(people.check(store, way, parts)? == answer),
        Case::Adopt(one, other, answer) => Ok(people.adopts(store, one, other)? == answer),
        case => Ok(is_told(people, store, case)),
    }
}

fn all_are_so(
    rt: &(impl AllocGlobal + Abort),
    people: &mut People,
    store: &mut Store,
    cases: &[Case],
) -> Result<(), Fail> {
    for (place, case) in cases.iter().enumerate() {
        assert!(rt; is_so(people, store, *case)?, "case {place}");
    }
    Ok(())
}

/// The first person's store, with the channel.
fn begun(pair: &Pair) -> Result<Store, Fail> {
    let mut store = Store::make(pair.alloc);
    store.add_channel(pair.fixed()?, 0)?;
    Ok(store)
}

fn are_so(rt: &(impl AllocGlobal + Abort), cases: &[Case]) -> Result<(), Fail> {
    let mut people = People::make(rt.alloc())?;
    let mut store = begun(&people.pair)?;
    all_are_so(rt, &mut people, &mut store, cases)
}

const ROUND: [Case; 11] = [
    Case::Takes(0, 0),
    Case::Held(&[]),
    Case::Counts(0, 0),
    Case::Next(Some(1)),
    Case::Latest(Some(0)),
    Case::LastSigned(Some(0)),
    Case::Note(Way::Brought, (1, false, 5, 3), Ok(())),
    Case::Held(&[0, 1]),
    Case::Counts(1, 1),
    Case::Known(Some(0)),
    Case::Place(0, 2, 2),
];

#[test]
fn the_first_round_becomes_the_held_chain(rt: HostRuntime) -> Result<(), Fail> {
    are_so(&rt, &ROUND)
}

const NEXT: [Case; 10] = [
    Case::Takes(0, 4),
    Case::Held(&[3, 4]),
    Case::Note(Way::Stray, (5, false, 4, 4), Err(NoteFault::Unknown)),
    Case::Note(Way::Brought, (6, false, 3, 5), Err(NoteFault::NotNext(5))),
    Case::Note(Way::Forged, (5, false, 4, 4), Err(NoteFault::BadSignature)),
    Case::Note(
        Way::Brought,
        (5, false, 3, 5),
        Err(NoteFault::BadStep(StepFault::Lowered)),
    ),
    Case::Held(&[3, 4]),
    Case::Note(Way::Brought, (5, false, 6, 2), Ok(())),
    Case::Held(&[4, 5]),
    Case::LastSigned(Some(4)),
];

#[test]
fn only_the_next_state_is_noted(rt: HostRuntime) -> Result<(), Fail> {
    are_so(&rt, &NEXT)
}

const SHOWN: [Case; 8] = [
    Case::Adopt(3, 4, true),
    Case::Adopt(3, 4, false),
    Case::Adopt(5, 6, true),
    Case::Adopt(3, 4, false),
    Case::Adopt(3, 6, false),
    Case::Held(&[5, 6]),
    Case::Next(Some(7)),
    Case::LastSigned(None),
];

#[test]
fn newer_chains_are_adopted(rt: HostRuntime) -> Result<(), Fail> {
    are_so(&rt, &SHOWN)
}

#[test]
fn a_store_without_the_channel_adopts_nothing(rt: HostRuntime) -> Result<(), Fail> {
    let mut people = People::make(rt.alloc())?;
    let mut store = Store::make(rt.alloc());
    all_are_so(&rt, &mut people, &mut store, &[Case::Adopt(5, 6, false)])
}

const ENDED: [Case; 6] = [
    Case::Takes(0, 4),
    Case::Note(Way::Brought, F5, Ok(())),
    Case::Note(Way::Brought, (5, false, 4, 4), Err(NoteFault::NotNext(6))),
    Case::Note(Way::Brought, F6, Ok(())),
    Case::Note(Way::Brought, F7, Err(NoteFault::NotNext(0))),
    Case::Next(Some(7)),
];

#[test]
fn nothing_is_noted_after_final_states(rt: HostRuntime) -> Result<(), Fail> {
    are_so(&rt, &ENDED)
}

const BROUGHT: [Case; 11] = [
    Case::Note(Way::Brought, (0, false, 5, 3), Ok(())),
    Case::Note(Way::Brought, (1, false, 5, 3), Ok(())),
    Case::LastSigned(None),
    Case::Counts(1, 0),
    Case::Note(Way::Own, (2, false, 5, 3), Ok(())),
    Case::LastSigned(Some(2)),
    Case::Counts(1, 1),
    Case::Note(Way::Brought, (3, false, 5, 3), Ok(())),
    Case::Note(Way::Brought, (4, false, 4, 4), Ok(())),
    Case::LastSigned(Some(2)),
    Case::Counts(1, 1),
];

#[test]
fn a_state_that_a_message_brought_is_not_one_that_was_signed(rt: HostRuntime) -> Result<(), Fail> {
    are_so(&rt, &BROUGHT)
}

const CHECKS: [Case; 6] = [
    Case::Takes(0, 1),
    Case::Check(Way::Own, (2, false, 5, 3), Ok(())),
    Case::Check(Way::Stray, (2, false, 5, 3), Err(NoteFault::Unknown)),
    Case::Check(Way::Forged, (2, false, 5, 3), Err(NoteFault::BadSignature)),
    Case::Check(Way::Own, (4, false, 4, 4), Err(NoteFault::NotNext(2))),
    Case::Next(Some(2)),
];

#[test]
fn a_check_tells_what_a_note_would(rt: HostRuntime) -> Result<(), Fail> {
    are_so(&rt, &CHECKS)
}

const KEPT: [Case; 6] = [
    Case::Kept(Some((0, 0, 0))),
    Case::Takes(0, 0),
    Case::Kept(Some((0, 1, 1))),
    Case::Takes(1, 2),
    Case::Kept(Some((0, 2, 2))),
    Case::StrayKept(None),
];

#[test]
fn the_first_round_is_kept_as_it_comes(rt: HostRuntime) -> Result<(), Fail> {
    are_so(&rt, &KEPT)
}

/// Nonces of channels that are added one after the other. One comes twice.
const NONCES: [u64; 5] = [4, 7, 2, 4, 9];

/// The participant's position in the channel.
fn me_in(pair: Pair) -> u8
    ensures { result < 2 }
{
    (pair.nonce % 2) as u8
}

/// Adds the channel where it isn't kept.
fn add(store: &mut Store, pair: Pair) -> Result<(), Fail> {
    let fixed = pair.fixed()?;
    if store.kept(&channel_name(fixed.bytes())).is_none() {
        store.add_channel(fixed, me_in(pair))?;
    }
    Ok(())
}

#[test]
fn channels_are_found_by_name(rt: HostRuntime) -> Result<(), Fail> {
    let mut store = Store::make(rt.alloc());
    for nonce in NONCES {
        add(&mut store, pair_of(rt.alloc(), nonce))?;
    }
    assert_eq!(rt; store.places().len(), 4);
    for nonce in NONCES {
        let pair = pair_of(rt.alloc(), nonce);
        assert_eq!(rt; kept(&store, &pair.channel()?), Some((me_in(pair), 0, 0)));
    }
    assert_eq!(rt; kept(&store, &STRAY), None);
    Ok(())
}
