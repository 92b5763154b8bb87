//! The picture of a run.

use crate::frame::{Frame, LEFT, WIDTH};
use crate::lanes::{Lanes, draw_lanes, lanes_of};
use crate::legend::draw_legend;
use crate::money::{ASSETS, Money, PersonRows, draw_area, draw_arrows, draw_persons, money_of};
use crate::names::{Names, names_of};
use crate::panel::draw_panel;
use crate::px::{minus, plus};
use crate::shapes::{Look, Run as Runs, Shape, Sketch};
use crate::svg::svg_of;
use crate::times::draw_times;
use run_text::{Made, Run};
use std::alloc::{AllocError, Global};

/// Shapes, and how high they are together.
#[derive(Drop)]
pub struct Picture {
    pub shapes: Vec<Shape>,
    pub height: u64,
}

fn plural(count: u64) -> &'static str {
    if count == 1 { "" } else { "s" }
}

/// What a script was that the program made.
fn made_text(alloc: Global, made: Made) -> Result<String, AllocError> {
    match made {
        Made::Load { seed, count } => {
            let s = plural(count);
            format!(in alloc; "A load of {count} payment{s} with seed {seed}")
        }
        Made::Hop { leaves, count } => {
            let s = plural(count);
            let end = if leaves { "an exit" } else { "a close" };
            format!(in alloc; "A route with {count} payment{s} and {end}")
        }
    }
}

/// What a run was, in one line.
fn title_of(alloc: Global, run: &Run, names: &Names) -> Result<String, AllocError> {
    let now = run.end.now;
    if let Some(made) = run.made {
        let made = made_text(alloc, made)?;
        return format!(in alloc; "{made}, to time {now}");
    }
    let entries = run.end.entries;
    let channels = names.channels.len() as u64;
    let entry = if entries == 1 { "entry" } else { "entries" };
    let s = plural(channels);
    format!(in alloc; "A run of {entries} {entry} in {channels} channel{s}, to time {now}")
}

/// What is left out, in one line.
fn note_of(
    alloc: Global,
    run: &Run,
    names: &Names,
    lanes: &Lanes,
    drawn: u64,
) -> Result<String, AllocError> {
    let mut note = String::new(alloc);
    let entries = run.end.entries;
    if run.made.is_some() {
        note.push_str("The entries of a load or a route aren't printed. ")?;
    } else if drawn < entries {
        let more = format!(in alloc; "Marks are thinned: {drawn} of {entries} are drawn. ")?;
        note.push_str(more.as_str())?;
    }
    let hidden = minus(names.channels.len() as u64, lanes.lanes.len() as u64);
    if hidden > 0 {
        let s = plural(hidden);
        let more = format!(in alloc; "{hidden} channel{s} left out. ")?;
        note.push_str(more.as_str())?;
    }
    if run.assets.len() > ASSETS {
        note.push_str("The first assets alone have an area. ")?;
    }
    Ok(note)
}

fn draw_head(sketch: &mut Sketch, run: &Run, title: &str, note: &str) -> Result<(), AllocError> {
    sketch.text(Look::Heading, (24, 36), Runs::Right, &[title.as_bytes()])?;
    if !note.is_empty() {
        sketch.text(Look::Small, (24, 58), Runs::Right, &[note.as_bytes()])?;
    }
    draw_legend(sketch, run, 86)
}

/// The money of each asset that has an area.
fn all_money(alloc: Global, run: &Run, names: &Names) -> Result<Vec<Money>, AllocError> {
    let mut all = Vec::new(alloc);
    for end in run.assets.iter().take(ASSETS) {
        all.push(money_of(alloc, run, names, end.asset)?)?;
    }
    Ok(all)
}

/// Draws the persons' rows and the arrows: where they end.
fn draw_payments(
    sketch: &mut Sketch,
    run: &Run,
    names: &Names,
    lanes: &Lanes,
    money: &[Money],
) -> Result<u64, AllocError> {
    let frame = Frame::of(run.entries.len());
    let rows = PersonRows { top: lanes.end };
    let end = draw_persons(sketch, rows, names.persons.as_slice())?;
    let mut ends = vec![in sketch.alloc(); 0u64; names.channels.len()]?;
    for one_asset in money {
        draw_arrows(sketch, frame, run, one_asset, lanes, rows, &mut ends)?;
    }
    Ok(end)
}

fn draw_areas(
    sketch: &mut Sketch,
    run: &Run,
    names: &Names,
    money: &[Money],
    top: u64,
) -> Result<u64, AllocError> {
    let frame = Frame::of(run.entries.len());
    let mut top = top;
    for (end, one_asset) in run.assets.iter().zip(money) {
        top = draw_area(sketch, frame, run, names, one_asset, end, top)?;
    }
    Ok(top)
}

/// Draws all but the background and the head: how many marks there are, and where it ends.
fn draw_body(
    sketch: &mut Sketch,
    run: &Run,
    names: &Names,
    lanes: &Lanes,
) -> Result<(u64, u64), AllocError> {
    let money = all_money(sketch.alloc(), run, names)?;
    if run.entries.is_empty() {
        let end = draw_areas(sketch, run, names, &money, minus(lanes.end, 24))?;
        let panel = draw_panel(sketch, run)?;
        return Ok((0, end.max(panel)));
    }
    let frame = Frame::of(run.entries.len());
    let timed = draw_times(sketch, frame, &run.entries, lanes.end)?;
    let marked = draw_lanes(sketch, frame, run, &lanes.lanes)?;
    let below = draw_payments(sketch, run, names, lanes, &money)?;
    let end = draw_areas(sketch, run, names, &money, below)?;
    let panel = draw_panel(sketch, run)?;
    Ok((plus(timed, marked), end.max(panel)))
}

/// The shapes of a run.
fn shapes_of(alloc: Global, run: &Run, names: &Names, title: &str) -> Result<Picture, AllocError> {
    let lanes = lanes_of(alloc, Frame::of(run.entries.len()), run, names)?;
    let mut sketch = Sketch::new(alloc);
    let (drawn, end) = draw_body(&mut sketch, run, names, &lanes)?;
    let note = note_of(alloc, run, names, &lanes, drawn)?;
    draw_head(&mut sketch, run, title, note.as_str())?;
    Ok(Picture {
        shapes: sketch.shapes,
        height: plus(end, 20),
    })
}

/// The picture of a run, as SVG.
pub fn picture_of(alloc: Global, run: &Run) -> Result<Vec<u8>, AllocError> {
    let names = names_of(alloc, run)?;
    let title = title_of(alloc, run, &names)?;
    let picture = shapes_of(alloc, run, &names, title.as_str())?;
    svg_of(
        alloc,
        &picture.shapes,
        WIDTH,
        picture.height,
        title.as_bytes(),
    )
}
