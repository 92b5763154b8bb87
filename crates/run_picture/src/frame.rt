//! Where things are on a picture.

use crate::px::{minus, plus, scaled};

pub(crate) const WIDTH: u64 = 1300;
/// Where the columns of entries begin and end.
pub(crate) const LEFT: u64 = 150;

const END: u64 = 950;
/// Where the lanes and the areas end: the words of the last entry have room before it.
pub(crate) const RIGHT: u64 = 996;
/// Where the persons' ends are.
pub(crate) const PANEL: u64 = 1020;
/// Where the lanes begin; the times and the numbers of entries are above.
pub(crate) const TOP: u64 = 178;

/// The entries of a run, side by side.
#[derive(Clone, Copy)]
pub(crate) struct Frame {
    pub(crate) entries: u64,
}

impl Frame {
    pub(crate) fn of(entries: usize) -> Frame {
        Frame {
            entries: entries as u64,
        }
    }

    /// Where the middle of an entry's column is; after the last one it is the right edge.
    pub(crate) fn middle(self, at: usize) -> u64 {
        if at as u64 >= self.entries {
            return RIGHT;
        }
        let half = (at as u64).saturating_mul(2).saturating_add(1);
        plus(
            LEFT,
            scaled(half, self.entries.saturating_mul(2), END - LEFT),
        )
    }

    /// How wide the column of an entry is.
    pub(crate) fn spacing(self) -> u64 {
        (END - LEFT).checked_div(self.entries).unwrap_or(END - LEFT)
    }

    /// Whether words fit beside marks.
    pub(crate) fn has_words(self) -> bool {
        self.spacing() >= 12
    }

    pub(crate) fn radius(self) -> u64 {
        if self.spacing() >= 16 { 7 } else { 4 }
    }
}

/// What is drawn on a line from left to right, with a distance from one to the next.
#[derive(Clone, Copy)]
pub(crate) struct Spaced {
    gap: u64,
    last: Option<u64>,
}

impl Spaced {
    pub(crate) fn by(gap: u64) -> Spaced {
        Spaced { gap, last: None }
    }

    /// Whether there is room at a place, which is taken then.
    pub(crate) fn takes(&mut self, at: u64) -> bool {
        let fits = match self.last {
            None => true,
            Some(last) => minus(at, last) >= self.gap,
        };
        if fits {
            self.last = Some(at);
        }
        fits
    }
}

/// Texts on a line from left to right, none over another.
#[derive(Clone, Copy)]
pub(crate) struct Texts {
    end: u64,
}

impl Texts {
    /// None yet: the first has room after the name of the line.
    pub(crate) fn new() -> Texts {
        Texts { end: LEFT - 8 }
    }

    /// Whether a text of so many letters has room with its middle at a place, which is taken then.
    pub(crate) fn takes(&mut self, middle: u64, letters: usize) -> bool {
        let half = plus((letters as u64).saturating_mul(7) / 2, 4);
        let fits = minus(middle, half) >= self.end;
        if fits {
            self.end = plus(middle, half);
        }
        fits
    }
}
