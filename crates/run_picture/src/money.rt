//! Arrows from payers to those who are paid, and the areas of money.

use crate::columns::{Columns, columns_of, end_of_column};
use crate::flows::{Flows, flows_of, receiver_of};
use crate::frame::{Frame, LEFT, PANEL, RIGHT, Spaced};
use crate::lanes::{Lanes, fits, short};
use crate::legend::Row;
use crate::names::{Names, Who};
use crate::px::{minus, plus, scaled};
use crate::receivers::receivers_of_items;
use crate::shapes::{Look, Run as Runs, Sketch, joined};
use crate::times::{draw_numbers, draw_time_lines};
use run_text::{AssetEnd, Run};
use std::alloc::{AllocError, Global};

/// At most so many assets have an area.
pub(crate) const ASSETS: usize = 8;
/// An area has at most so many columns.
const COLUMNS: usize = 280;
/// At most so many layers of an area are in its key.
const KEYS: usize = 64;
/// Scales with steps from here on count amounts of this size.
const LARGE: u64 = 1_000_000_000_000_000;

const HEIGHT: u64 = 150;
/// So far above its band an arrow begins that goes up: above the mark.
const ABOVE_MARK: u64 = 17;

/// What is known of the money of an asset.
#[derive(Drop)]
pub(crate) struct Money {
    flows: Flows,
    receivers: Vec<Option<Who>>,
}

pub(crate) fn money_of(
    alloc: Global,
    run: &Run,
    names: &Names,
    asset: u64,
) -> Result<Money, AllocError> {
    let flows = flows_of(alloc, run, names, asset)?;
    let receivers = receivers_of_items(alloc, run, names, &flows, asset)?;
    Ok(Money { flows, receivers })
}

/// Where the rows of persons are, below the lanes.
#[derive(Clone, Copy)]
pub(crate) struct PersonRows {
    pub(crate) top: u64,
}

impl PersonRows {
    pub(crate) fn middle(self, person: usize) -> u64 {
        let rows = (person as u64).saturating_mul(22);
        plus(self.top, plus(rows, 16))
    }
}

/// Where an arrow ends: at a lane's band, at a person's row, or so far below its beginning.
fn tip_of(
    lanes: &Lanes,
    rows: PersonRows,
    from: (u64, u64),
    who: Option<Who>,
    length: u64,
) -> Option<(Look, u64)> {
    match who {
        None => Some((Look::ArrowUntold, plus(from.1, length))),
        Some(Who::Person(person)) => Some((Look::Arrow, minus(rows.middle(person), 5))),
        Some(Who::Channel(channel)) => {
            let row = lanes.rows.get(channel).copied().flatten()?;
            let lane = lanes.lanes.get(row)?;
            let tip = if lane.band.0 < from.0 {
                lane.band.1
            } else {
                lane.band.0
            };
            Some((Look::Arrow, tip))
        }
    }
}

/// The band of the lane of a channel, where it is drawn.
fn band_of(lanes: &Lanes, channel: usize) -> Option<(u64, u64)> {
    let row = lanes.rows.get(channel).copied().flatten()?;
    let lane = lanes.lanes.get(row)?;
    Some(lane.band)
}

fn draw_arrow(
    sketch: &mut Sketch,
    x: u64,
    band: (u64, u64),
    tip: (Look, u64),
    title: &[u8],
) -> Result<(), AllocError> {
    let (look, end) = tip;
    let start = if end < band.0 {
        minus(band.0, ABOVE_MARK)
    } else {
        band.1
    };
    sketch.line(look, (x, start), (x, end), title)
}

/// Whether a number of so many digits has room below the band of a channel, after the one before it and before the
/// panel; it is taken then.
fn takes(ends: &mut [u64], channel: usize, from: u64, digits: usize) -> bool {
    let next = plus(from, (digits as u64).saturating_mul(7));
    match ends.get_mut(channel) {
        Some(end) if *end <= from && next < PANEL => {
            *end = next;
            true
        }
        _ => false,
    }
}

/// Puts an amount below the band of a channel, where there is room.
fn draw_amount(
    sketch: &mut Sketch,
    ends: &mut [u64],
    channel: usize,
    at: (u64, u64),
    amount: u64,
) -> Result<(), AllocError> {
    let number = sketch.number(amount)?;
    if takes(ends, channel, at.0, number.len()) {
        sketch.text(Look::Word, at, Runs::Right, &[number.as_bytes()])?;
    }
    Ok(())
}

/// The arrows of an asset, as far as they have room, and their amounts; `ends` are where the last amounts of channels
/// end.
pub(crate) fn draw_arrows(
    sketch: &mut Sketch,
    frame: Frame,
    run: &Run,
    money: &Money,
    lanes: &Lanes,
    rows: PersonRows,
    ends: &mut [u64],
) -> Result<(), AllocError> {
    let mut room = Spaced::by(5);
    let length = if frame.has_words() { 24 } else { 14 };
    for flow in &money.flows.flows {
        let (Some(from), Some(entry)) = (flow.from, run.entries.get(flow.entry)) else {
            continue;
        };
        let x = frame.middle(flow.entry);
        let who = receiver_of(flow, &money.receivers);
        if let Some(band) = band_of(lanes, from) {
            if let Some(tip) = tip_of(lanes, rows, band, who, length) {
                if room.takes(x) {
                    draw_arrow(sketch, x, band, tip, entry.line)?;
                    let at = (plus(x, 4), plus(band.1, 12));
                    draw_amount(sketch, ends, from, at, flow.amount)?;
                }
            }
        }
    }
    Ok(())
}

/// Draws the rows of persons, which arrows end at: their end.
pub(crate) fn draw_persons(
    sketch: &mut Sketch,
    rows: PersonRows,
    persons: &[&[u8]],
) -> Result<u64, AllocError> {
    let mut end = plus(rows.top, 8);
    for (place, name) in persons.iter().enumerate() {
        let middle = rows.middle(place);
        let at = (minus(LEFT, 10), plus(middle, 4));
        sketch.text(Look::Strong, at, Runs::Left, &short(name))?;
        sketch.line(Look::Rule, (LEFT, middle), (RIGHT, middle), b"")?;
        end = plus(middle, 14);
    }
    Ok(end)
}

/// An area: where it begins, and how much fills it.
#[derive(Clone, Copy)]
struct Chart {
    top: u64,
    whole: u64,
    entries: usize,
    columns: usize,
}

impl Chart {
    fn x(self, frame: Frame, column: usize) -> u64 {
        match column.checked_sub(1) {
            None => frame.middle(0),
            Some(before) => frame.middle(end_of_column(before, self.columns, self.entries)),
        }
    }

    fn y(self, amount: u64) -> u64 {
        minus(plus(self.top, HEIGHT), scaled(amount, self.whole, HEIGHT))
    }
}

fn edge_of(columns: &Columns, column: usize, edge: usize) -> u64 {
    let edges = columns.edges.get(column);
    edges
        .and_then(|edges| edges.get(edge))
        .copied()
        .unwrap_or(0)
}

/// An edge of a layer, from left to right, with a step at each change.
fn steps_of(
    alloc: Global,
    frame: Frame,
    chart: Chart,
    columns: &Columns,
    edge: usize,
) -> Result<Vec<(u64, u64)>, AllocError> {
    let mut points = Vec::new(alloc);
    let mut y = chart.y(0);
    points.push((LEFT, y))?;
    for column in 0..chart.columns {
        let next = chart.y(edge_of(columns, column, edge));
        if next != y {
            let x = chart.x(frame, column);
            points.push((x, y))?;
            points.push((x, next))?;
            y = next;
        }
    }
    points.push((RIGHT, y))?;
    Ok(points)
}

/// Round a layer: along its upper edge, and back along the lower.
fn round(
    alloc: Global,
    frame: Frame,
    chart: Chart,
    columns: &Columns,
    layer: usize,
) -> Result<Vec<(u64, u64)>, AllocError> {
    let mut points = steps_of(alloc, frame, chart, columns, layer.saturating_add(1))?;
    let lower = steps_of(alloc, frame, chart, columns, layer)?;
    for point in lower.iter().rev() {
        points.push(*point)?;
    }
    Ok(points)
}

/// Whether a layer has nothing in any column.
fn is_empty(columns: &Columns, count: usize, layer: usize) -> bool {
    for column in 0..count {
        let upper = edge_of(columns, column, layer.saturating_add(1));
        if upper != edge_of(columns, column, layer) {
            return false;
        }
    }
    true
}

/// Room for a name in a layer.
#[derive(Clone, Copy)]
struct Room {
    left: u64,
    right: u64,
    upper: u64,
    lower: u64,
}

impl Room {
    fn none() -> Room {
        Room {
            left: 0,
            right: 0,
            upper: 0,
            lower: 0,
        }
    }

    /// What a layer has in a column.
    fn of(frame: Frame, chart: Chart, columns: &Columns, column: usize, layer: usize) -> Room {
        Room {
            left: chart.x(frame, column),
            right: chart.x(frame, column.saturating_add(1)),
            upper: chart.y(edge_of(columns, column, layer.saturating_add(1))),
            lower: chart.y(edge_of(columns, column, layer)),
        }
    }

    /// From the left of one to the right of the next, as high as both are.
    fn joined(self, next: Room) -> Room {
        Room {
            left: self.left,
            right: next.right,
            upper: self.upper.max(next.upper),
            lower: self.lower.min(next.lower),
        }
    }

    fn width(self) -> u64 {
        minus(self.right, self.left)
    }

    fn is_high(self) -> bool {
        minus(self.lower, self.upper) >= 12
    }
}

/// The last of the widest rooms that are high enough.
fn widest_room(frame: Frame, chart: Chart, columns: &Columns, layer: usize) -> Room {
    let mut widest = Room::none();
    let mut last = Room::none();
    for column in 0..chart.columns {
        let here = Room::of(frame, chart, columns, column, layer);
        let both = last.joined(here);
        last = if both.is_high() { both } else { here };
        if last.is_high() && last.width() >= widest.width() {
            widest = last;
        }
    }
    widest
}

/// Puts a name at the right of its room, where it fits.
fn draw_name(sketch: &mut Sketch, room: Room, name: &[u8]) -> Result<(), AllocError> {
    let name = short(name);
    let letters = name[0].len().saturating_add(name[1].len());
    if !fits(letters, room.width()) {
        return Ok(());
    }
    let middle = plus(room.upper, minus(room.lower, room.upper) / 2);
    let at = (minus(room.right, 4), plus(middle, 4));
    sketch.text(Look::Plain, at, Runs::Left, &name)
}

/// How a layer looks, and what it is, in two pieces.
fn look_of_layer<'a>(names: &Names<'a>, layer: usize) -> (Look, &'a [u8], &'a [u8]) {
    if let Some(name) = names.channels.get_index(layer) {
        return (Look::Held(layer), b"held by ", name);
    }
    let person = layer.saturating_sub(names.channels.len());
    match names.persons.get_index(person) {
        Some(name) => (Look::Paid(person), b"paid to ", name),
        None => (Look::Untold, b"paid, ", b"receiver unknown"),
    }
}

/// What a layer is, in words.
fn layer_text(sketch: &Sketch, word: &[u8], name: &[u8]) -> Result<Vec<u8>, AllocError> {
    let name = short(name);
    joined(sketch.alloc(), &[word, name[0], name[1]])
}

fn draw_layer(
    sketch: &mut Sketch,
    frame: Frame,
    chart: Chart,
    names: &Names,
    columns: &Columns,
    layer: usize,
) -> Result<(), AllocError> {
    if is_empty(columns, chart.columns, layer) {
        return Ok(());
    }
    let alloc = sketch.alloc();
    let (look, word, name) = look_of_layer(names, layer);
    let points = round(alloc, frame, chart, columns, layer)?;
    let title = joined(alloc, &[word, name])?;
    sketch.area(look, points, &title)
}

/// Names the layers, each where it is widest, if its name fits there.
fn draw_layer_names(
    sketch: &mut Sketch,
    frame: Frame,
    chart: Chart,
    names: &Names,
    columns: &Columns,
) -> Result<(), AllocError> {
    for layer in 0..columns.layers {
        let (_, _, name) = look_of_layer(names, layer);
        draw_name(sketch, widest_room(frame, chart, columns, layer), name)?;
    }
    Ok(())
}

/// The key of an area: each layer that is there, from the bottom up; where the key ends.
fn draw_key(
    sketch: &mut Sketch,
    chart: Chart,
    names: &Names,
    columns: &Columns,
    top: u64,
) -> Result<u64, AllocError> {
    let mut row = Row::at(top);
    let mut left = KEYS;
    for layer in 0..columns.layers {
        if left > 0 && !is_empty(columns, chart.columns, layer) {
            left = left.saturating_sub(1);
            let (look, word, name) = look_of_layer(names, layer);
            let text = layer_text(sketch, word, name)?;
            row.make_room(text.len());
            row.band(sketch, look, &text)?;
        }
    }
    Ok(plus(row.y(), 16))
}

/// The least of 1, 2, 5, 10, 20 and so on of which at most five make up an amount.
fn step_of(whole: u64) -> u64 {
    let least = plus(whole, 4) / 5;
    let mut unit = 1u64;
    for _ in 0..19u64 {
        for times in [1u64, 2, 5] {
            let step = unit.saturating_mul(times);
            if step >= least {
                return step;
            }
        }
        unit = unit.saturating_mul(10);
    }
    unit
}

/// An amount of a scale, which is short where the scale is of large ones.
fn scale_text(alloc: Global, amount: u64, step: u64) -> Result<String, AllocError> {
    if amount > 0 && step >= LARGE {
        let units = amount / LARGE;
        return format!(in alloc; "{units}e15");
    }
    format!(in alloc; "{amount}")
}

/// The scale of an area: amounts at its left, each with a line across.
fn draw_scale(sketch: &mut Sketch, chart: Chart) -> Result<(), AllocError> {
    let step = step_of(chart.whole);
    for place in 0..6u64 {
        if let Some(amount) = step.checked_mul(place) {
            if amount <= chart.whole {
                let y = chart.y(amount);
                let text = scale_text(sketch.alloc(), amount, step)?;
                let at = (minus(LEFT, 10), plus(y, 4));
                sketch.line(Look::Grid, (LEFT, y), (RIGHT, y), b"")?;
                sketch.text(Look::Small, at, Runs::Left, &[text.as_bytes()])?;
            }
        }
    }
    Ok(())
}

fn draw_heading(sketch: &mut Sketch, end: &AssetEnd, top: u64) -> Result<(), AllocError> {
    let AssetEnd {
        asset,
        deposited,
        held,
        paid,
    } = *end;
    let text = format!(in sketch.alloc();
        "Asset {asset}: {deposited} deposited, {held} held and {paid} paid at the end"
    )?;
    let at = (LEFT, plus(top, 24));
    sketch.text(Look::Strong, at, Runs::Right, &[text.as_bytes()])
}

/// Draws the area of an asset: where it ends.
pub(crate) fn draw_area(
    sketch: &mut Sketch,
    frame: Frame,
    run: &Run,
    names: &Names,
    money: &Money,
    end: &AssetEnd,
    top: u64,
) -> Result<u64, AllocError> {
    draw_heading(sketch, end, top)?;
    let entries = run.entries.len();
    if entries == 0 {
        return Ok(plus(top, 26));
    }
    let chart = Chart {
        top: plus(top, 34),
        whole: end.deposited,
        entries,
        columns: entries.min(COLUMNS),
    };
    let columns = columns_of(
        sketch.alloc(),
        names,
        &money.flows,
        &money.receivers,
        entries,
        chart.columns,
    )?;
    for layer in 0..columns.layers {
        draw_layer(sketch, frame, chart, names, &columns, layer)?;
    }
    let bottom = plus(chart.top, HEIGHT);
    draw_scale(sketch, chart)?;
    draw_time_lines(sketch, frame, &run.entries, chart.top, bottom)?;
    draw_layer_names(sketch, frame, chart, names, &columns)?;
    draw_numbers(sketch, frame, &run.entries, plus(bottom, 18))?;
    draw_key(sketch, chart, names, &columns, plus(bottom, 36))
}
