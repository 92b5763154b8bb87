//! Who ended with what.

use crate::frame::{PANEL, TOP, WIDTH};
use crate::lanes::{fits, short};
use crate::px::plus;
use crate::shapes::{Look, Run as Runs, Sketch, joined};
use run_text::{Balance, PersonAsset, PersonEnd, Premises, Refused, Run};
use std::alloc::AllocError;

/// Lines of text below one another.
#[derive(Drop)]
struct Lines {
    y: u64,
}

impl Lines {
    fn put(&mut self, sketch: &mut Sketch, look: Look, pieces: &[&[u8]]) -> Result<(), AllocError> {
        self.y = plus(self.y, 16);
        sketch.text(look, (PANEL, self.y), Runs::Right, pieces)
    }
}

/// Puts two texts in one line where they fit, and else in two.
fn put_both(
    sketch: &mut Sketch,
    lines: &mut Lines,
    first: &[u8],
    between: &[u8],
    second: &[u8],
) -> Result<(), AllocError> {
    let letters = first.len().saturating_add(second.len());
    if fits(letters.saturating_add(between.len()), WIDTH - PANEL) {
        return lines.put(sketch, Look::Plain, &[first, between, second]);
    }
    lines.put(sketch, Look::Plain, &[first])?;
    lines.put(sketch, Look::Plain, &[second])
}

fn put_asset(sketch: &mut Sketch, lines: &mut Lines, end: &PersonAsset) -> Result<(), AllocError> {
    let PersonAsset {
        asset,
        paid,
        share,
        exit,
    } = *end;
    let alloc = sketch.alloc();
    let paid = format!(in alloc; "asset {asset}: paid {paid}")?;
    let share = format!(in alloc; "share {share}")?;
    put_both(sketch, lines, paid.as_bytes(), b", ", share.as_bytes())?;
    if let Some(exit) = exit {
        let text = format!(in alloc; "share at the exit {exit}")?;
        lines.put(sketch, Look::Plain, &[text.as_bytes()])?;
    }
    Ok(())
}

fn put_premise(
    sketch: &mut Sketch,
    lines: &mut Lines,
    holds: bool,
    premise: &'static str,
) -> Result<(), AllocError> {
    if holds {
        lines.put(sketch, Look::Small, &[premise.as_bytes(), b": yes"])
    } else {
        lines.put(sketch, Look::Warning, &[premise.as_bytes(), b": no"])
    }
}

fn put_premises(
    sketch: &mut Sketch,
    lines: &mut Lines,
    premises: Premises,
) -> Result<(), AllocError> {
    put_premise(sketch, lines, premises.unforged, "unforged")?;
    put_premise(sketch, lines, premises.distinct, "distinct")?;
    put_premise(sketch, lines, premises.in_time, "in time")
}

fn put_refused(
    sketch: &mut Sketch,
    lines: &mut Lines,
    refused: &[Refused],
    name: &[u8],
) -> Result<(), AllocError> {
    for command in refused {
        if command.who == name {
            let step = sketch.number(command.step)?;
            let said = command.said.name;
            let pieces = [b"step ", step.as_bytes(), b" refused: ", said];
            lines.put(sketch, Look::Warning, &pieces)?;
        }
    }
    Ok(())
}

fn put_person(
    sketch: &mut Sketch,
    lines: &mut Lines,
    run: &Run,
    person: &PersonEnd,
) -> Result<(), AllocError> {
    lines.y = plus(lines.y, 8);
    lines.put(sketch, Look::Strong, &short(person.name))?;
    for end in &person.assets {
        put_asset(sketch, lines, end)?;
    }
    if let Some(premises) = person.premises {
        put_premises(sketch, lines, premises)?;
    }
    put_refused(sketch, lines, &run.refused, person.name)
}

fn put_balance(
    sketch: &mut Sketch,
    lines: &mut Lines,
    balance: &Balance,
) -> Result<(), AllocError> {
    let alloc = sketch.alloc();
    let Balance {
        name,
        asset,
        amount,
    } = *balance;
    let name = short(name);
    let amount = sketch.number(amount)?;
    let paid = joined(alloc, &[name[0], name[1], b": paid ", amount.as_bytes()])?;
    let asset = format!(in alloc; "of asset {asset}")?;
    put_both(sketch, lines, &paid, b" ", asset.as_bytes())
}

/// The persons without a line on shares, with what they were paid.
fn put_paid(sketch: &mut Sketch, lines: &mut Lines, run: &Run) -> Result<(), AllocError> {
    for balance in &run.paid {
        let is_told = run.persons.iter().any(|person| person.name == balance.name
            && !person.assets.is_empty());
        if !is_told {
            put_balance(sketch, lines, balance)?;
        }
    }
    Ok(())
}

/// Draws who ended with what: where it ends.
pub(crate) fn draw_panel(sketch: &mut Sketch, run: &Run) -> Result<u64, AllocError> {
    let mut lines = Lines { y: TOP };
    let at = (PANEL, TOP);
    sketch.text(Look::Strong, at, Runs::Right, &[b"Who ended with what"])?;
    for person in &run.persons {
        put_person(sketch, &mut lines, run, person)?;
    }
    lines.y = plus(lines.y, 8);
    put_paid(sketch, &mut lines, run)?;
    if run.persons.is_empty() && run.paid.is_empty() {
        lines.put(
            sketch,
            Look::Small,
            &[b"nobody was paid, and there is no node"],
        )?;
    }
    Ok(plus(lines.y, 16))
}
