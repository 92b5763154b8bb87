//! How a channel stands, from entry to entry.

use run_text::{Call, Entry, Reply};
use std::alloc::{AllocError, Global};

#[derive(Clone, Copy, PartialEq, Eq)]
pub enum Mode {
    Open,
    /// Up to this time.
    Challenged(u64),
    Final,
}

#[derive(Clone, Copy, PartialEq, Eq)]
pub struct Standing {
    pub mode: Mode,
    /// The recorded turn, where one is.
    pub turn: Option<u64>,
}

/// How a channel stands from the entry at a place on, up to one at another.
#[derive(Clone, Copy)]
pub struct Band {
    pub from: usize,
    pub to: usize,
    pub standing: Standing,
}

/// The channel on whose lane an entry has its mark.
pub fn channel_of<'a>(entry: &Entry<'a>) -> Option<&'a [u8]> {
    match entry.call {
        Call::Deposit { channel, .. }
        | Call::Turn { channel, .. }
        | Call::Transfer { channel, .. } => Some(channel),
        Call::Claim { guarantor, .. } => Some(guarantor),
        Call::Time(_) => None,
    }
}

pub fn is_on_lane(entry: &Entry, name: &[u8]) -> bool {
    match channel_of(entry) {
        Some(channel) => channel == name,
        None => false,
    }
}

fn after_time(standing: Standing, now: u64) -> Standing {
    match standing.mode {
        Mode::Challenged(until) if until <= now => Standing {
            mode: Mode::Final,
            turn: standing.turn,
        },
        _ => standing,
    }
}

fn after_turn(standing: Standing, turn: Option<u64>, reply: &Reply) -> Standing {
    match reply {
        Reply::Until(until) => Standing {
            mode: Mode::Challenged(*until),
            turn,
        },
        Reply::Open(turn) => Standing {
            mode: Mode::Open,
            turn: Some(*turn),
        },
        Reply::Final(turn) => Standing {
            mode: Mode::Final,
            turn: Some(*turn),
        },
        _ => standing,
    }
}

/// How a channel stands after an entry.
fn after(standing: Standing, entry: &Entry, name: &[u8]) -> Standing {
    match (entry.call, entry.reply) {
        (Call::Time(_), Reply::Now(now)) => after_time(standing, now),
        (Call::Turn { channel, turn, .. }, reply) if channel == name => {
            after_turn(standing, turn, &reply)
        }
        _ => standing,
    }
}

/// The bands of a channel, from the first entry on its lane on; of one with none, one band over all.
pub fn bands_of(alloc: Global, entries: &[Entry], name: &[u8]) -> Result<Vec<Band>, AllocError> {
    let mut bands = Vec::new(alloc);
    let mut from = entries
        .iter()
        .position(|entry| is_on_lane(entry, name))
        .unwrap_or(0);
    let mut standing = Standing {
        mode: Mode::Open,
        turn: None,
    };
    for (at, entry) in entries.iter().enumerate() {
        let next = after(standing, entry, name);
        if next != standing {
            if from < at {
                bands.push(Band {
                    from,
                    to: at,
                    standing,
                })?;
            }
            from = at;
            standing = next;
        }
    }
    bands.push(Band {
        from,
        to: entries.len(),
        standing,
    })?;
    Ok(bands)
}
