//! What a line says.

use crate::endings::read_ending;
use crate::entries::read_entry;
use crate::fault::Wanted;
use crate::model::{AssetEnd, Balance, End, Entry, Made, PersonAsset, Premises, Refused};
use crate::words::Words;

/// What a person was paid, and its share, of an asset.
#[derive(Clone, Copy)]
pub(crate) struct PersonLine<'a> {
    pub(crate) name: &'a [u8],
    pub(crate) asset: u64,
    pub(crate) paid: u64,
    pub(crate) share: u128,
}

impl PersonLine<'_> {
    /// What it says of its asset, before any exit.
    pub(crate) fn told(&self) -> PersonAsset {
        PersonAsset {
            asset: self.asset,
            paid: self.paid,
            share: self.share,
            exit: None,
        }
    }
}

/// A person's share of an asset just after it was commanded to exit.
#[derive(Clone, Copy)]
pub(crate) struct ExitLine<'a> {
    pub(crate) name: &'a [u8],
    pub(crate) asset: u64,
    pub(crate) share: u128,
}

/// A line, by its kind.
#[derive(Clone, Copy)]
pub(crate) enum Line<'a> {
    Made(Made),
    Entry(Entry<'a>),
    Command(Refused<'a>),
    End(End),
    Asset(AssetEnd),
    Held(Balance<'a>),
    Paid(Balance<'a>),
    Premises(&'a [u8], Premises),
    Person(PersonLine<'a>),
    Exit(ExitLine<'a>),
}

fn is_entry(line: &[u8]) -> bool {
    match line.first() {
        Some(byte) => matches!(*byte, b'0'..=b'9'),
        None => false,
    }
}

fn read_words<'a>(line: &'a [u8], words: &mut Words<'a>) -> Result<Line<'a>, Wanted> {
    if is_entry(line) {
        read_entry(line, words)
    } else {
        read_ending(line, words)
    }
}

/// What a line says, to its end.
pub(crate) fn read_line(line: &[u8]) -> Result<Line<'_>, Wanted> {
    let mut words = Words::of(line);
    let told = read_words(line, &mut words)?;
    words.end()?;
    Ok(told)
}
