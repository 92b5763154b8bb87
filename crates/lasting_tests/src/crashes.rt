//! Runs that fail at each call, and restarts on each file that a crash may leave.

ghost use Rattle.std.specs.Prelude.{IfOk};

use crate::memory::{Call, Memory};
use crate::tally::Tally;
use lasting_lines::{Fault, Found, Played, Source, recover, run, split_line};
use std::alloc::Global;

/// Lines to serve; the machine takes all but the empty one. Where a source holds them all, two share each record.
pub const LINES: &[u8] = b"a\nbc\n\ndef\ng\n";

/// Whether a source holds all its lines from the start, so that they share records, or one at a time.
#[derive(Clone, Copy, Debug, PartialEq, Eq)]
pub enum Holding {
    One,
    All,
}

impl Holding {
    // How many lines so many records have.
    fn lines(self, records: u64) -> u64 {
        match self {
            Holding::One => records,
            Holding::All => records.saturating_mul(2),
        }
    }
}

/// The lines of a text.
#[derive(Drop)]
pub struct TextLines<'a> {
    rest: &'a [u8],
    holding: Holding,
}

impl<'a> Source for TextLines<'a> {
    fn line(&mut self, alloc: Global) -> Result<Option<Vec<u8>>, Fault> {
        let Some(split) = split_line(self.rest) else {
            return Ok(None);
        };
        self.rest = split.rest;
        Ok(Some(Vec::from_slice(alloc, split.row)?))
    }

    fn is_held(&self) -> bool {
        self.holding == Holding::All
    }
}

/// What calls leave: bytes that are on the disk, bytes that were appended since, and the text that was written.
#[derive(Drop)]
pub struct Left {
    pub safe: Vec<u8>,
    pub loose: Vec<u8>,
    pub text: Vec<u8>,
}

fn left_by(alloc: Global, start: &[u8], calls: &[Call]) -> Result<Left, Fault> {
    let mut left = Left {
        safe: Vec::from_slice(alloc, start)?,
        loose: Vec::new(alloc),
        text: Vec::new(alloc),
    };
    for call in calls {
        match call {
            Call::Append(bytes) => left.loose.extend_from_slice(bytes)?,
            Call::Sync => {
                left.safe.extend_from_slice(&left.loose)?;
                left.loose.clear();
            }
            Call::Write(text) => left.text.extend_from_slice(text)?,
            Call::WriteAside(_) => {}
        }
    }
    Ok(left)
}

fn fresh() -> Played<Tally> {
    Played {
        machine: Tally { total: 0 },
        count: 0,
        mark: [0; 32],
    }
}

// The lines after so many that are taken.
fn lines_after(count: u64) -> &'static [u8] {
    let mut rest = LINES;
    let mut left = count;
    for _ in 0..LINES.len() {
        if left == 0 {
            return rest;
        }
        let Some(split) = split_line(rest) else {
            return rest;
        };
        rest = split.rest;
        if !split.row.is_empty() {
            left -= 1;
        }
    }
    rest
}

/// What a run leaves that begins with this file, and whose outside answers so many calls.
pub fn run_from(alloc: Global, holding: Holding, file: &[u8], left: u32) -> Result<Left, Fault> {
    let file = match recover(alloc, fresh(), file, 0)? {
        Found::Torn(kept) => &file[..kept.min(file.len())],
        Found::Whole(_, _) | Found::Damaged => file,
    };
    let Found::Whole(mut played, again) = recover(alloc, fresh(), file, 0)? else {
        return Err(Fault::Failed);
    };
    let mut memory = Memory::new(alloc, left);
    let mut lines = TextLines {
        rest: lines_after(holding.lines(played.count)),
        holding,
    };
    let _ = run(alloc, &mut memory, &mut played, &again, &mut lines);
    left_by(alloc, file, memory.calls())
}

/// How many bytes of records a run leaves that ends at a line of another story, the second; `None` where it ends
/// otherwise.
pub fn left_at_foreign(alloc: Global, holding: Holding) -> Result<Option<usize>, Fault> {
    let mut memory = Memory::new(alloc, u32::MAX);
    let mut played = fresh();
    let mut lines = TextLines {
        rest: b"a\n!\nbc\n",
        holding,
    };
    let Err(Fault::Foreign) = run(alloc, &mut memory, &mut played, &[], &mut lines) else {
        return Ok(None);
    };
    let left = left_by(alloc, &[], memory.calls())?;
    Ok(Some(left.safe.len()))
}

/// Whether a run on this file writes the whole text, and leaves the whole file.
fn is_restarted(alloc: Global, holding: Holding, file: &[u8], whole: &Left) -> Result<bool, Fault> {
    let left = run_from(alloc, holding, file, u32::MAX)?;
    Ok(left.safe == whole.safe && left.text == whole.text)
}

/// Whether it is so for each file that a crash may leave: with each prefix of what was appended last, alone or with
/// zeros after it up to its length.
pub fn are_restarted(
    alloc: Global,
    holding: Holding,
    crashed: &Left,
    whole: &Left,
) -> Result<bool, Fault> {
    for cut in 0..crashed.loose.len() + 1 {
        let mut file = Vec::from_slice(alloc, &crashed.safe)?;
        file.extend_from_slice(&crashed.loose[..cut])?;
        if !is_restarted(alloc, holding, &file, whole)? {
            return Ok(false);
        }
        for _ in cut..crashed.loose.len() {
            file.extend_from_slice(&[0])?;
        }
        if !is_restarted(alloc, holding, &file, whole)? {
            return Ok(false);
        }
    }
    Ok(true)
}

/// 0 for whole, 1 for torn and 2 for damaged, and how many bytes are kept.
pub fn found(alloc: Global, file: &[u8]) -> Result<(u8, usize), Fault> {
    match recover(alloc, fresh(), file, 0)? {
        Found::Whole(_, _) => Ok((0, file.len())),
        Found::Torn(kept) => Ok((1, kept)),
        Found::Damaged => Ok((2, 0)),
    }
}
