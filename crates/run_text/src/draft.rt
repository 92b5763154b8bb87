//! A run, line by line.

use crate::checks::{check_line, check_stage, check_whole};
use crate::fault::Untaken;
use crate::line::{Line, read_line};
use crate::line_reader::LineReader;
use crate::model::{End, PersonAsset, PersonEnd, Premises, Run};
use crate::stage::Stage;
use std::alloc::{AllocError, Global};

/// What was read so far.
#[derive(Drop)]
pub(crate) struct Draft<'a> {
    alloc: Global,
    stage: Stage,
    run: Run<'a>,
}

/// Adds a line to those of its kind.
fn push<T: Copy>(lines: &mut Vec<T>, line: T) -> Result<(), AllocError> {
    lines.push(line)?;
    Ok(())
}

fn add_person<'a>(
    alloc: Global,
    persons: &mut Vec<PersonEnd<'a>>,
    name: &'a [u8],
    premises: Premises,
) -> Result<(), AllocError> {
    persons.push(PersonEnd {
        name,
        premises: Some(premises),
        assets: Vec::new(alloc),
    })?;
    Ok(())
}

/// Adds an asset to those of the last person.
fn add_asset_of(persons: &mut [PersonEnd], asset: PersonAsset) -> Result<(), AllocError> {
    match persons.last_mut() {
        None => Ok(()),
        Some(person) => push(&mut person.assets, asset),
    }
}

/// Notes an exit in the first asset of the last person that has none.
fn note_exit(persons: &mut [PersonEnd], share: u128) {
    if let Some(person) = persons.last_mut() {
        for asset in person.assets.iter_mut() {
            if asset.exit.is_none() {
                asset.exit = Some(share);
                return;
            }
        }
    }
}

fn keep<'a>(alloc: Global, run: &mut Run<'a>, line: Line<'a>) -> Result<(), AllocError> {
    match line {
        Line::Made(made) => {
            run.made = Some(made);
            Ok(())
        }
        Line::Entry(entry) => push(&mut run.entries, entry),
        Line::Command(refused) => push(&mut run.refused, refused),
        Line::End(end) => {
            run.end = end;
            Ok(())
        }
        Line::Asset(asset) => push(&mut run.assets, asset),
        Line::Held(held) => push(&mut run.held, held),
        Line::Paid(paid) => push(&mut run.paid, paid),
        Line::Premises(name, premises) => add_person(alloc, &mut run.persons, name, premises),
        Line::Person(line) => add_asset_of(&mut run.persons, line.told()),
        Line::Exit(line) => {
            note_exit(&mut run.persons, line.share);
            Ok(())
        }
    }
}

/// The stage that a line goes to, where it goes on with what was read.
fn checked(draft: &Draft, line: &Line) -> Result<Stage, Untaken> {
    let stage = check_stage(&draft.run, draft.stage, line)?;
    check_line(&draft.run, line)?;
    Ok(stage)
}

impl<'a> Draft<'a> {
    pub(crate) fn new(alloc: Global) -> Draft<'a> {
        Draft {
            alloc,
            stage: Stage::Start,
            run: Run {
                made: None,
                entries: Vec::new(alloc),
                refused: Vec::new(alloc),
                end: End { entries: 0, now: 0 },
                assets: Vec::new(alloc),
                held: Vec::new(alloc),
                paid: Vec::new(alloc),
                persons: Vec::new(alloc),
            },
        }
    }
}

impl<'a> LineReader<&'a [u8]> for Draft<'a> {
    type Whole = Run<'a>;

    fn add_line(&mut self, line: &'a [u8]) -> Result<(), Untaken> {
        let told = read_line(line)?;
        self.stage = checked(self, &told)?;
        keep(self.alloc, &mut self.run, told)?;
        Ok(())
    }

    fn finish(self) -> Result<Run<'a>, Untaken> {
        check_whole(self.alloc, &self.run, self.stage)?;
        Ok(self.run)
    }
}
