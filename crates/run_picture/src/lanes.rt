//! The lanes of channels: bands, marks, words.

use crate::bands::{Band, Mode, bands_of, channel_of, is_on_lane};
use crate::frame::{Frame, LEFT, RIGHT, Spaced, TOP};
use crate::names::{Names, place_of};
use crate::px::{minus, plus};
use crate::shapes::{Look, Run as Runs, Sketch};
use run_text::{Call, Entry, Reply, Run, TurnCall};
use std::alloc::{AllocError, Global};

/// Above so many channels those that never move are left out.
const FEW: usize = 24;
/// At most so many lanes are drawn.
const MOST: usize = 64;

/// The lane of a channel.
#[derive(Clone, Copy)]
pub struct Lane<'a> {
    pub name: &'a [u8],
    /// The height of the middle of its marks.
    pub marks: u64,
    /// Where its band begins and ends.
    pub band: (u64, u64),
    pub end: u64,
}

/// The lanes that are drawn. Each channel has a place in `rows`, which is that of its lane, if it has one.
#[derive(Drop)]
pub struct Lanes<'a> {
    pub lanes: Vec<Lane<'a>>,
    pub rows: Vec<Option<usize>>,
    pub end: u64,
}

fn is_refused(entry: &Entry) -> bool {
    matches!(entry.reply, Reply::No(_))
}

fn note_moves(moves: &mut [bool], names: &Names, name: &[u8]) {
    let Some(at) = place_of(&names.channels, name) else {
        return;
    };
    if let Some(moved) = moves.get_mut(at) {
        *moved = true;
    }
}

/// Of each channel whether a call on its lane was accepted, or it holds something.
fn moves_of(alloc: Global, run: &Run, names: &Names) -> Result<Vec<bool>, AllocError> {
    let mut moves = vec![in alloc; false; names.channels.len()]?;
    for entry in &run.entries {
        if let Some(name) = channel_of(entry) {
            if !is_refused(entry) {
                note_moves(&mut moves, names, name);
            }
        }
    }
    for balance in &run.held {
        note_moves(&mut moves, names, balance.name);
    }
    Ok(moves)
}

/// A lane that begins here.
fn lane_at<'a>(frame: Frame, run: &Run<'a>, name: &'a [u8], top: u64) -> Lane<'a> {
    let above = if frame.has_words() { 50 } else { 10 };
    let marks = plus(top, above);
    let band = (plus(marks, 9), plus(marks, 23));
    let has_names = frame.has_words()
        && run
            .entries
            .iter()
            .any(|entry| is_on_lane(entry, name) && is_refused(entry));
    let below = if has_names { 48 } else { 10 };
    Lane {
        name,
        marks,
        band,
        end: plus(band.1, below),
    }
}

/// The lanes, from the top down.
pub(crate) fn lanes_of<'a>(
    alloc: Global,
    frame: Frame,
    run: &Run<'a>,
    names: &Names<'a>,
) -> Result<Lanes<'a>, AllocError> {
    let moves = moves_of(alloc, run, names)?;
    let channels = names.channels.as_slice();
    let mut lanes = Vec::new(alloc);
    let mut rows = Vec::new(alloc);
    let mut top = TOP;
    for (name, moved) in channels.iter().zip(&moves) {
        let is_shown = lanes.len() < MOST && (channels.len() <= FEW || *moved);
        if is_shown {
            rows.push(Some(lanes.len()))?;
            let lane = lane_at(frame, run, name, top);
            top = lane.end;
            lanes.push(lane)?;
        } else {
            rows.push(None)?;
        }
    }
    Ok(Lanes {
        lanes,
        rows,
        end: top,
    })
}

/// The first bytes of a long name, and dots.
pub(crate) fn short(name: &[u8]) -> [&[u8]; 2] {
    if name.len() > 16 {
        [&name[..10], b".."]
    } else {
        [name, b""]
    }
}

fn look_of(mode: Mode) -> Look {
    match mode {
        Mode::Open => Look::Open,
        Mode::Challenged(_) => Look::Challenged,
        Mode::Final => Look::Final,
    }
}

/// What a band says: its mode, the recorded turn and the deadline.
fn band_text(sketch: &Sketch, band: &Band) -> Result<String, AllocError> {
    let alloc = sketch.alloc();
    let turn = match band.standing.turn {
        Some(turn) => format!(in alloc; ", turn {turn}")?,
        None => String::new(alloc),
    };
    match band.standing.mode {
        Mode::Open => format!(in alloc; "open{turn}"),
        Mode::Challenged(until) => format!(in alloc; "challenged until {until}{turn}"),
        Mode::Final => format!(in alloc; "final{turn}"),
    }
}

/// The recorded turn alone.
fn turn_text(sketch: &Sketch, band: &Band) -> Result<String, AllocError> {
    match band.standing.turn {
        Some(turn) => format!(in sketch.alloc(); "turn {turn}"),
        None => Ok(String::new(sketch.alloc())),
    }
}

/// Whether a text of so many letters fits, with some room beside it.
pub(crate) fn fits(letters: usize, width: u64) -> bool {
    plus((letters as u64).saturating_mul(6), 8) < width
}

fn draw_band(
    sketch: &mut Sketch,
    frame: Frame,
    lane: &Lane,
    band: &Band,
) -> Result<(), AllocError> {
    let from = frame.middle(band.from);
    let to = frame.middle(band.to).min(RIGHT);
    let text = band_text(sketch, band)?;
    let title = format!(in sketch.alloc(); "{text}")?;
    let look = look_of(band.standing.mode);
    sketch.bar(
        look,
        (from, lane.band.0),
        (to, lane.band.1),
        title.as_bytes(),
    )?;
    let at = (plus(from, 4), plus(lane.band.0, 11));
    let width = minus(to, from);
    if fits(text.len(), width) {
        return sketch.text(Look::Plain, at, Runs::Right, &[text.as_bytes()]);
    }
    let turn = turn_text(sketch, band)?;
    if fits(turn.len(), width) {
        return sketch.text(Look::Plain, at, Runs::Right, &[turn.as_bytes()]);
    }
    Ok(())
}

fn draw_bands(
    sketch: &mut Sketch,
    frame: Frame,
    entries: &[Entry],
    lane: &Lane,
) -> Result<(), AllocError> {
    let bands = bands_of(sketch.alloc(), entries, lane.name)?;
    for band in &bands {
        draw_band(sketch, frame, lane, band)?;
    }
    Ok(())
}

/// The word of a call.
pub(crate) fn word_of(call: &Call) -> &'static str {
    match call {
        Call::Deposit { .. } => "deposit",
        Call::Time(_) => "time",
        Call::Turn { call, .. } => match call {
            TurnCall::Challenge => "challenge",
            TurnCall::Respond => "respond",
            TurnCall::Refute => "refute",
            TurnCall::Checkpoint => "checkpoint",
            TurnCall::Conclude => "conclude",
        },
        Call::Transfer { .. } => "transfer",
        Call::Claim { .. } => "claim",
    }
}

/// The word of a call above its mark, and the name of its refusal below.
fn draw_words(sketch: &mut Sketch, x: u64, lane: &Lane, entry: &Entry) -> Result<(), AllocError> {
    let word = word_of(&entry.call);
    let above = (x, minus(lane.marks, 11));
    sketch.text(Look::Word, above, Runs::Rising, &[word.as_bytes()])?;
    if let Reply::No(said) = entry.reply {
        let below = (x, plus(lane.band.1, 11));
        sketch.text(Look::Warning, below, Runs::RisingTo, &[said.name])?;
    }
    Ok(())
}

/// The marks of a lane and their words, as far as they have room: how many marks.
fn draw_marks(
    sketch: &mut Sketch,
    frame: Frame,
    entries: &[Entry],
    lane: &Lane,
) -> Result<u64, AllocError> {
    let radius = frame.radius();
    let mut room = Spaced::by(minus(radius.saturating_mul(2), 1));
    let mut words = Spaced::by(18);
    let mut drawn = 0u64;
    for (at, entry) in entries.iter().enumerate() {
        let x = frame.middle(at);
        if is_on_lane(entry, lane.name) && room.takes(x) {
            drawn = drawn.saturating_add(1);
            sketch.mark(entry.by, &entry.reply, (x, lane.marks), radius, entry.line)?;
            if frame.has_words() && words.takes(x) {
                draw_words(sketch, x, lane, entry)?;
            }
        }
    }
    Ok(drawn)
}

/// Draws the lanes: how many marks there are.
pub(crate) fn draw_lanes(
    sketch: &mut Sketch,
    frame: Frame,
    run: &Run,
    lanes: &[Lane],
) -> Result<u64, AllocError> {
    let mut drawn = 0u64;
    for lane in lanes {
        let at = (minus(LEFT, 10), plus(lane.band.0, 11));
        sketch.text(Look::Strong, at, Runs::Left, &short(lane.name))?;
        let line = (LEFT, lane.end);
        sketch.line(Look::Rule, line, (RIGHT, lane.end), b"")?;
        draw_bands(sketch, frame, &run.entries, lane)?;
        let marks = draw_marks(sketch, frame, &run.entries, lane)?;
        drawn = drawn.saturating_add(marks);
    }
    Ok(drawn)
}
