//! What the signs of a picture mean.

use crate::frame::{LEFT, RIGHT, WIDTH};
use crate::px::plus;
use crate::shapes::{Look, Run as Runs, Sketch};
use run_text::{Entry, Reply, Run};
use std::alloc::{AllocError, Global};

/// At most so many callers are looked for.
const CALLERS: usize = 40;

/// A row of signs, each with what it means.
#[derive(Drop)]
pub(crate) struct Row {
    x: u64,
    y: u64,
}

/// How wide a sign is with a text of so many letters, and the room after it.
fn width_of(letters: usize) -> u64 {
    plus((letters as u64).saturating_mul(6), 40)
}

impl Row {
    pub(crate) fn at(y: u64) -> Row {
        Row { x: LEFT, y }
    }

    pub(crate) fn y(&self) -> u64 {
        self.y
    }

    /// Begins a row below this one, where a text of so many letters has no room.
    pub(crate) fn make_room(&mut self, letters: usize) {
        if plus(self.x, width_of(letters)) > plus(RIGHT, 16) {
            self.x = LEFT;
            self.y = plus(self.y, 18);
        }
    }

    /// Puts a text after a sign, and goes on after it.
    fn text(&mut self, sketch: &mut Sketch, text: &[u8]) -> Result<(), AllocError> {
        let at = (plus(self.x, 24), plus(self.y, 4));
        sketch.text(Look::Plain, at, Runs::Right, &[text])?;
        self.x = plus(self.x, width_of(text.len()));
        Ok(())
    }

    pub(crate) fn band(
        &mut self,
        sketch: &mut Sketch,
        look: Look,
        text: &[u8],
    ) -> Result<(), AllocError> {
        let from = (self.x, self.y.saturating_sub(7));
        let to = (plus(self.x, 20), plus(self.y, 7));
        sketch.bar(look, from, to, b"")?;
        self.text(sketch, text)
    }

    fn mark(
        &mut self,
        sketch: &mut Sketch,
        by: u64,
        reply: &Reply,
        text: &[u8],
    ) -> Result<(), AllocError> {
        let at = (plus(self.x, 12), self.y);
        sketch.mark(by, reply, at, 7, b"")?;
        self.text(sketch, text)
    }

    /// A band, if the picture has one that looks so.
    fn known_band(
        &mut self,
        sketch: &mut Sketch,
        look: Look,
        text: &[u8],
    ) -> Result<(), AllocError> {
        if !sketch.has(look) {
            return Ok(());
        }
        self.band(sketch, look, text)
    }

    /// A line or an arrow, if the picture has one that looks so.
    fn known_line(
        &mut self,
        sketch: &mut Sketch,
        look: Look,
        text: &[u8],
    ) -> Result<(), AllocError> {
        if !sketch.has(look) {
            return Ok(());
        }
        let x = plus(self.x, 14);
        let from = (x, self.y.saturating_sub(9));
        sketch.line(look, from, (x, plus(self.y, 9)), b"")?;
        self.text(sketch, text)
    }
}

/// The callers, in the order of their first entries.
fn callers_of(alloc: Global, entries: &[Entry]) -> Result<Vec<u64>, AllocError> {
    let mut callers = Vec::new(alloc);
    for entry in entries {
        if callers.len() < CALLERS && !callers.contains(&entry.by) {
            callers.push(entry.by)?;
        }
    }
    Ok(callers)
}

/// How many callers are persons, and how many of them have a number below this one.
fn count_persons(callers: &[u64], by: u64) -> (usize, usize) {
    let mut all = 0usize;
    let mut below = 0usize;
    for caller in callers {
        if *caller > 0 && *caller <= 100 {
            all = all.saturating_add(1);
            if *caller < by {
                below = below.saturating_add(1);
            }
        }
    }
    (all, below)
}

/// The name of a caller, where each person with a node is one: both are in the order of declaration.
fn name_of<'a>(run: &Run<'a>, callers: &[u64], by: u64) -> Option<&'a [u8]> {
    let (all, below) = count_persons(callers, by);
    if all != run.persons.len() {
        return None;
    }
    run.persons.get(below).map(|person| person.name)
}

fn caller_text(alloc: Global, by: u64) -> Result<String, AllocError> {
    match by {
        0 => String::from_str(alloc, "the script"),
        1..=100 => format!(in alloc; "person {by}"),
        _ => format!(in alloc; "cast {by}"),
    }
}

/// The callers, as far as they have room.
fn draw_callers(sketch: &mut Sketch, run: &Run, y: u64) -> Result<(), AllocError> {
    let callers = callers_of(sketch.alloc(), &run.entries)?;
    let mut row = Row::at(y);
    for by in &callers {
        let number = caller_text(sketch.alloc(), *by)?;
        let text = match name_of(run, &callers, *by) {
            Some(name) if *by > 0 && *by <= 100 => name,
            _ => number.as_bytes(),
        };
        if plus(row.x, width_of(text.len())) <= WIDTH {
            row.mark(sketch, *by, &Reply::Now(0), text)?;
        }
    }
    Ok(())
}

/// Draws two rows of signs: bands, lines, arrows and the mark of a refusal, as far as the picture has them, and the callers.
pub(crate) fn draw_legend(sketch: &mut Sketch, run: &Run, y: u64) -> Result<(), AllocError> {
    let mut row = Row::at(y);
    row.known_band(sketch, Look::Open, b"open, with the recorded turn")?;
    row.known_band(sketch, Look::Challenged, b"challenged")?;
    row.known_band(sketch, Look::Final, b"final")?;
    row.known_line(sketch, Look::TimeLine, b"the time is set")?;
    row.known_line(sketch, Look::Arrow, b"pays")?;
    row.known_line(sketch, Look::ArrowUntold, b"pays, receiver unknown")?;
    if sketch.has_refusal() {
        let no = Reply::No(run_text::Said {
            number: 0,
            name: b"",
        });
        row.mark(sketch, 0, &no, b"refused")?;
    }
    draw_callers(sketch, run, plus(y, 24))
}
