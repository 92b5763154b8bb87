//! What went where of an asset, by the entries.

use crate::names::{Names, Who, place_of};
use run_text::{Call, Entry, Reply, Run};
use std::alloc::{AllocError, Global};

/// An item of an outcome, or a destination of a guarantee: whoever is paid by it is so each time.
#[derive(Clone, Copy, PartialEq, Eq)]
pub(crate) struct Item {
    from: usize,
    target: Option<usize>,
    index: u64,
}

/// Where a flow goes.
#[derive(Clone, Copy, PartialEq, Eq)]
pub enum Goes {
    /// To somebody who is known.
    To(Who),
    /// To whoever is paid by the item at this place.
    Item(usize),
}

/// An amount that an entry moved: a deposit comes from nowhere.
#[derive(Clone, Copy)]
pub struct Flow {
    /// The place of the entry.
    pub entry: usize,
    pub from: Option<usize>,
    pub goes: Goes,
    pub amount: u64,
}

/// The flows of an asset, and by how many items those were paid whose receivers aren't said.
#[derive(Drop)]
pub struct Flows {
    pub flows: Vec<Flow>,
    pub items: usize,
}

/// Who receives a flow, by the receivers of items as far as they are known.
pub fn receiver_of(flow: &Flow, receivers: &[Option<Who>]) -> Option<Who> {
    match flow.goes {
        Goes::To(who) => Some(who),
        Goes::Item(item) => receivers.get(item).copied().flatten(),
    }
}

/// The item by which a call pays of an asset.
fn item_of(names: &Names, call: &Call, asset: u64) -> Option<Item> {
    match call {
        Call::Transfer {
            channel,
            asset: paid,
            index,
        } if *paid == asset => Some(Item {
            from: place_of(&names.channels, channel)?,
            target: None,
            index: *index,
        }),
        Call::Claim {
            guarantor,
            target,
            asset: paid,
            position,
        } if *paid == asset => Some(Item {
            from: place_of(&names.channels, guarantor)?,
            target: place_of(&names.channels, target),
            index: *position,
        }),
        _ => None,
    }
}

/// The place of an item, which is new where it isn't there.
fn place_of_item(items: &mut Vec<Item>, item: Item) -> Result<usize, AllocError> {
    if let Some(at) = items.iter().position(|other| *other == item) {
        return Ok(at);
    }
    let at = items.len();
    items.push(item)?;
    Ok(at)
}

fn deposit_of(names: &Names, at: usize, entry: &Entry, asset: u64) -> Option<Flow> {
    match (entry.call, entry.reply) {
        (
            Call::Deposit {
                channel,
                asset: given,
                amount,
                ..
            },
            Reply::Held(_),
        ) if given == asset => Some(Flow {
            entry: at,
            from: None,
            goes: Goes::To(Who::Channel(place_of(&names.channels, channel)?)),
            amount,
        }),
        _ => None,
    }
}

fn payment_of(
    names: &Names,
    items: &mut Vec<Item>,
    at: usize,
    entry: &Entry,
    asset: u64,
) -> Result<Option<Flow>, AllocError> {
    let (Reply::Paid(amount), Some(item)) = (entry.reply, item_of(names, &entry.call, asset)) else {
        return Ok(None);
    };
    let goes = match entry.payee.and_then(|payee| names.who(&payee)) {
        Some(who) => Goes::To(who),
        None => Goes::Item(place_of_item(items, item)?),
    };
    Ok(Some(Flow {
        entry: at,
        from: Some(item.from),
        goes,
        amount,
    }))
}

/// The flows of an asset, in the order of the entries.
pub fn flows_of(alloc: Global, run: &Run, names: &Names, asset: u64) -> Result<Flows, AllocError> {
    let mut flows = Vec::new(alloc);
    let mut items = Vec::new(alloc);
    for (at, entry) in run.entries.iter().enumerate() {
        if let Some(flow) = deposit_of(names, at, entry, asset) {
            flows.push(flow)?;
        }
        if let Some(flow) = payment_of(names, &mut items, at, entry, asset)? {
            flows.push(flow)?;
        }
    }
    Ok(Flows {
        flows,
        items: items.len(),
    })
}
