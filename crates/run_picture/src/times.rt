//! The entries' numbers, and the time entries.

use crate::frame::{Frame, LEFT, RIGHT, Spaced, TOP, Texts};
use crate::px::minus;
use crate::shapes::{Look, Run as Runs, Sketch, joined};
use run_text::{Call, Entry, Reply};
use std::alloc::AllocError;

/// The numbers of the entries, at a height, as far as they have room.
pub(crate) fn draw_numbers(
    sketch: &mut Sketch,
    frame: Frame,
    entries: &[Entry],
    y: u64,
) -> Result<(), AllocError> {
    sketch.text(Look::Small, (minus(LEFT, 10), y), Runs::Left, &[b"entry"])?;
    let mut room = Texts::new();
    for (at, entry) in entries.iter().enumerate() {
        let x = frame.middle(at);
        let number = sketch.number(entry.number)?;
        if room.takes(x, number.len()) {
            sketch.text(Look::Small, (x, y), Runs::Both, &[number.as_bytes()])?;
        }
    }
    Ok(())
}

/// A dotted line at each entry that set the time, between two heights, as far as they have room.
pub(crate) fn draw_time_lines(
    sketch: &mut Sketch,
    frame: Frame,
    entries: &[Entry],
    top: u64,
    end: u64,
) -> Result<(), AllocError> {
    let mut room = Spaced::by(16);
    for (at, entry) in entries.iter().enumerate() {
        let x = frame.middle(at);
        if let (Call::Time(_), Reply::Now(_)) = (entry.call, entry.reply) {
            if room.takes(x) {
                sketch.line(Look::TimeLine, (x, top), (x, end), entry.line)?;
            }
        }
    }
    Ok(())
}

/// What a time entry says: the time, or the name of its refusal.
fn time_word(sketch: &Sketch, to: u64, entry: &Entry) -> Result<(Look, Vec<u8>), AllocError> {
    if let Reply::No(said) = entry.reply {
        return Ok((Look::Warning, joined(sketch.alloc(), &[said.name])?));
    }
    let to = sketch.number(to)?;
    Ok((Look::Word, joined(sketch.alloc(), &[to.as_bytes()])?))
}

/// The marks of the time entries and what they say, as far as they have room: how many marks.
fn draw_time_entries(
    sketch: &mut Sketch,
    frame: Frame,
    entries: &[Entry],
) -> Result<u64, AllocError> {
    let radius = frame.radius();
    let mut marks = Spaced::by(minus(radius.saturating_mul(2), 1));
    let mut words = Texts::new();
    let mut drawn = 0u64;
    for (at, entry) in entries.iter().enumerate() {
        let x = frame.middle(at);
        if let Call::Time(to) = entry.call {
            if marks.takes(x) {
                drawn = drawn.saturating_add(1);
                let top = minus(TOP, 27);
                sketch.mark(entry.by, &entry.reply, (x, top), radius, entry.line)?;
                let (look, word) = time_word(sketch, to, entry)?;
                if words.takes(x, word.len()) {
                    sketch.text(look, (x, minus(TOP, 39)), Runs::Both, &[&word])?;
                }
            }
        }
    }
    Ok(drawn)
}

/// Draws what is above the lanes, and the lines of time over them: how many time entries have marks.
pub(crate) fn draw_times(
    sketch: &mut Sketch,
    frame: Frame,
    entries: &[Entry],
    end: u64,
) -> Result<u64, AllocError> {
    sketch.line(Look::Rule, (LEFT, TOP), (RIGHT, TOP), b"")?;
    draw_numbers(sketch, frame, entries, minus(TOP, 8))?;
    draw_time_lines(sketch, frame, entries, TOP, end)?;
    let drawn = draw_time_entries(sketch, frame, entries)?;
    if drawn > 0 {
        let at = (minus(LEFT, 10), minus(TOP, 39));
        sketch.text(Look::Small, at, Runs::Left, &[b"time"])?;
    }
    Ok(drawn)
}
