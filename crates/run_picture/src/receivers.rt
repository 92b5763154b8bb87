//! Who was paid, where it isn't said. A text names the payer and the item, and not who is paid by it; but it says what
//! each person was paid and what each channel holds, and so mostly leaves one way.

use crate::flows::{Flow, Flows, Goes};
use crate::names::{Names, Who, place_of};
use run_text::Run;
use std::alloc::{AllocError, Global};

/// So many flows are gone over in all before the search is given up.
const SEARCH_LIMIT: usize = 2_000_000;

/// Who was paid by items, and how much of the asset in all.
#[derive(Clone, Copy)]
struct Receiver {
    who: Who,
    total: u64,
}

/// What comes of going over the flows, by the receivers that were chosen for the first items.
#[derive(Clone, Copy, PartialEq, Eq)]
enum Way {
    /// The next item needs a receiver.
    Asks,
    /// They can't be so.
    Fails,
    /// They can be so.
    Fits,
}

fn add_to(amounts: &mut [u64], to: usize, amount: u64) {
    if let Some(place) = amounts.get_mut(to) {
        *place = place.saturating_add(amount);
    }
}

fn lower(amounts: &mut [u64], from: usize, amount: u64) {
    if let Some(place) = amounts.get_mut(from) {
        *place = place.saturating_sub(amount);
    }
}

/// Notes what everybody has of an asset at the end: the channels, then the persons.
fn note_ends(totals: &mut [u64], run: &Run, names: &Names, asset: u64) {
    for balance in &run.held {
        if balance.asset == asset {
            if let Some(at) = place_of(&names.channels, balance.name) {
                add_to(totals, names.place(Who::Channel(at)), balance.amount);
            }
        }
    }
    for balance in &run.paid {
        if balance.asset == asset {
            if let Some(at) = place_of(&names.persons, balance.name) {
                add_to(totals, names.place(Who::Person(at)), balance.amount);
            }
        }
    }
}

/// What everybody was paid by items: what it has at the end and has paid, but for what is known to have gone to it.
fn paid_by_items(
    alloc: Global,
    run: &Run,
    names: &Names,
    flows: &[Flow],
    asset: u64,
) -> Result<Vec<u64>, AllocError> {
    let count = names.channels.len().saturating_add(names.persons.len());
    let mut totals = vec![in alloc; 0u64; count]?;
    note_ends(&mut totals, run, names, asset);
    for flow in flows {
        if let Some(from) = flow.from {
            add_to(&mut totals, from, flow.amount);
        }
    }
    for flow in flows {
        if let Goes::To(who) = flow.goes {
            lower(&mut totals, names.place(who), flow.amount);
        }
    }
    Ok(totals)
}

fn add_receiver(
    receivers: &mut Vec<Receiver>,
    names: &Names,
    totals: &[u64],
    who: Who,
) -> Result<(), AllocError> {
    match totals.get(names.place(who)) {
        Some(total) if *total > 0 => {
            receivers.push(Receiver { who, total: *total })?;
            Ok(())
        }
        _ => Ok(()),
    }
}

/// The persons in the order of their first payment, and the channels.
fn receivers_of(
    alloc: Global,
    run: &Run,
    names: &Names,
    flows: &[Flow],
    asset: u64,
) -> Result<Vec<Receiver>, AllocError> {
    let totals = paid_by_items(alloc, run, names, flows, asset)?;
    let mut receivers = Vec::new(alloc);
    for balance in &run.paid {
        if balance.asset == asset {
            if let Some(at) = place_of(&names.persons, balance.name) {
                add_receiver(&mut receivers, names, &totals, Who::Person(at))?;
            }
        }
    }
    for at in 0..names.channels.len() {
        add_receiver(&mut receivers, names, &totals, Who::Channel(at))?;
    }
    Ok(receivers)
}

/// What the channels hold and the receivers got, on a walk over the flows.
#[derive(Drop)]
struct Tally {
    held: Vec<u64>,
    got: Vec<u64>,
}

fn take_from(held: &mut [u64], from: usize, amount: u64) -> bool {
    match held.get_mut(from) {
        Some(place) if *place >= amount => {
            *place = place.saturating_sub(amount);
            true
        }
        _ => false,
    }
}

/// Whether each person ahead of a place was paid already.
fn is_turn_of(receivers: &[Receiver], got: &[u64], place: usize) -> bool {
    receivers.iter().zip(got).take(place).all(|(receiver, amount)| *amount > 0
        || matches!(receiver.who, Who::Channel(_)))
}

/// Pays a receiver, where that can be.
fn pay(tally: &mut Tally, receivers: &[Receiver], place: usize, amount: u64) -> bool {
    let Some(receiver) = receivers.get(place) else {
        return false;
    };
    match receiver.who {
        Who::Channel(channel) => add_to(&mut tally.held, channel, amount),
        Who::Person(_) => {
            if !is_turn_of(receivers, &tally.got, place) {
                return false;
            }
        }
    }
    add_to(&mut tally.got, place, amount);
    match tally.got.get(place) {
        Some(sum) => *sum <= receiver.total,
        None => false,
    }
}

fn step(tally: &mut Tally, receivers: &[Receiver], choices: &[usize], flow: &Flow) -> Way {
    if let Some(from) = flow.from {
        if !take_from(&mut tally.held, from, flow.amount) {
            return Way::Fails;
        }
    }
    let fits = match flow.goes {
        Goes::To(who) => {
            if let Who::Channel(channel) = who {
                add_to(&mut tally.held, channel, flow.amount);
            }
            true
        }
        Goes::Item(item) => match choices.get(item) {
            None => return Way::Asks,
            Some(choice) => pay(tally, receivers, *choice, flow.amount),
        },
    };
    if fits { Way::Fits } else { Way::Fails }
}

fn walk(
    alloc: Global,
    channels: usize,
    flows: &[Flow],
    receivers: &[Receiver],
    choices: &[usize],
) -> Result<Way, AllocError> {
    let mut tally = Tally {
        held: vec![in alloc; 0; channels]?,
        got: vec![in alloc; 0; receivers.len()]?,
    };
    for flow in flows {
        match step(&mut tally, receivers, choices, flow) {
            Way::Fits => {}
            other => return Ok(other),
        }
    }
    Ok(Way::Fits)
}

/// Goes to the next choices that weren't tried: false where there are none.
fn advance(choices: &mut Vec<usize>, count: usize) -> Result<bool, AllocError> {
    while let Some(last) = choices.pop() {
        let next = last.saturating_add(1);
        if next < count {
            choices.push(next)?;
            return Ok(true);
        }
    }
    Ok(false)
}

/// Keeps of what is known only what is so by these choices too.
fn keep_alike(known: &mut [Option<usize>], choices: &[usize]) {
    for (place, choice) in known.iter_mut().zip(choices) {
        if *place != Some(*choice) {
            *place = None;
        }
    }
}

fn copied(alloc: Global, choices: &[usize]) -> Result<Vec<Option<usize>>, AllocError> {
    let mut all = Vec::new(alloc);
    for choice in choices {
        all.push(Some(*choice))?;
    }
    Ok(all)
}

/// The receiver of each item that is the same in all ways in which the flows can have gone; of none where they are too
/// many to try.
fn search(
    alloc: Global,
    channels: usize,
    flows: &Flows,
    receivers: &[Receiver],
) -> Result<Vec<Option<usize>>, AllocError> {
    let mut choices = Vec::new(alloc);
    let mut known = None;
    let tries = SEARCH_LIMIT / flows.flows.len().saturating_add(channels).max(1);
    for _ in 0..tries {
        let outcome = walk(alloc, channels, &flows.flows, receivers, &choices)?;
        if outcome == Way::Asks {
            choices.push(0)?;
            continue;
        }
        if outcome == Way::Fits {
            match &mut known {
                None => known = Some(copied(alloc, &choices)?),
                Some(known) => keep_alike(known, &choices),
            }
        }
        if !advance(&mut choices, receivers.len())? {
            return Ok(known.unwrap_or(Vec::new(alloc)));
        }
    }
    Ok(Vec::new(alloc))
}

/// For each item of the flows who is paid by it, where the text leaves no other way. Of a record there are none.
pub fn receivers_of_items(
    alloc: Global,
    run: &Run,
    names: &Names,
    flows: &Flows,
    asset: u64,
) -> Result<Vec<Option<Who>>, AllocError> {
    if flows.items == 0 {
        return Ok(Vec::new(alloc));
    }
    let receivers = receivers_of(alloc, run, names, &flows.flows, asset)?;
    let found = search(alloc, names.channels.len(), flows, &receivers)?;
    let mut all = Vec::new(alloc);
    for item in 0..flows.items {
        let place = found.get(item).copied().flatten();
        let who = place
            .and_then(|place| receivers.get(place))
            .map(|receiver| receiver.who);
        all.push(who)?;
    }
    Ok(all)
}
