//! What the channels held, and what the persons were paid, after the entries of a run.

use crate::flows::{Flow, Flows, receiver_of};
use crate::names::{Names, Who};
use std::alloc::{AllocError, Global};

/// Layers, one above the other, at columns of entries. The layers are the channels, then the persons, then what was
/// paid to receivers that aren't known.
#[derive(Drop)]
pub struct Columns {
    pub layers: usize,
    /// Of each column the edges of the layers: layer k lies between edges k and k + 1.
    pub edges: Vec<Vec<u64>>,
}

/// What each layer has, and where the persons and the untold are among them.
#[derive(Drop)]
struct Amounts {
    amounts: Vec<u64>,
    channels: usize,
    untold: usize,
}

fn add(amounts: &mut [u64], at: usize, amount: u64) {
    if let Some(place) = amounts.get_mut(at) {
        *place = place.saturating_add(amount);
    }
}

/// Takes an amount: what was lacking.
fn take(amounts: &mut [u64], at: usize, amount: u64) -> u64 {
    match amounts.get_mut(at) {
        Some(place) => {
            let lacking = amount.saturating_sub(*place);
            *place = place.saturating_sub(amount);
            lacking
        }
        None => amount,
    }
}

fn layer_of(amounts: &Amounts, who: Option<Who>) -> usize {
    match who {
        Some(Who::Channel(channel)) => channel,
        Some(Who::Person(person)) => amounts.channels.saturating_add(person),
        None => amounts.untold,
    }
}

fn follow(amounts: &mut Amounts, receivers: &[Option<Who>], flow: &Flow) {
    if let Some(from) = flow.from {
        let lacking = take(&mut amounts.amounts, from, flow.amount);
        let _ = take(&mut amounts.amounts, amounts.untold, lacking);
    }
    let layer = layer_of(amounts, receiver_of(flow, receivers));
    add(&mut amounts.amounts, layer, flow.amount);
}

fn edges_of(alloc: Global, amounts: &[u64]) -> Result<Vec<u64>, AllocError> {
    let mut edges = Vec::new(alloc);
    let mut edge = 0u64;
    edges.push(edge)?;
    for amount in amounts {
        edge = edge.saturating_add(*amount);
        edges.push(edge)?;
    }
    Ok(edges)
}

/// The first entry after a column, of so many.
pub fn end_of_column(column: usize, columns: usize, entries: usize) -> usize {
    let end = column.saturating_add(1).saturating_mul(entries);
    end.checked_div(columns).unwrap_or(entries)
}

/// The layers after the entries of each column.
pub fn columns_of(
    alloc: Global,
    names: &Names,
    flows: &Flows,
    receivers: &[Option<Who>],
    entries: usize,
    columns: usize,
) -> Result<Columns, AllocError> {
    let channels = names.channels.len();
    let untold = channels.saturating_add(names.persons.len());
    let layers = untold.saturating_add(1);
    let mut amounts = Amounts {
        amounts: vec![in alloc; 0; layers]?,
        channels,
        untold,
    };
    let mut edges = Vec::new(alloc);
    let mut start = 0;
    for column in 0..columns {
        let end = end_of_column(column, columns, entries);
        for flow in &flows.flows {
            if start <= flow.entry && flow.entry < end {
                follow(&mut amounts, receivers, flow);
            }
        }
        start = end;
        edges.push(edges_of(alloc, &amounts.amounts)?)?;
    }
    Ok(Columns { layers, edges })
}
