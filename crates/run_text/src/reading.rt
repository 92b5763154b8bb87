//! From the bytes of a text to the run that they tell.

ghost use Rattle.std.specs.Prelude.{IfErr};
ghost use Rattle.run_text.specs.Lines.{line_feeds, IsInLines};

use crate::draft::Draft;
use crate::fault::Unread;
use crate::line_reader::read_lines;
use crate::lines::{ends_within_line, lines_of};
use crate::model::Run;
use std::alloc::Global;

/// Reads a text of `nitro run`, `nitro load` or `nitro hop`. Whatever else is given is refused, with the first line
/// that can't stand there and what was wanted of it; of a text that ends too early it is the line after the last.
pub fn read_run(alloc: Global, text: &[u8]) -> Result<Run<'_>, Unread>
    ensures { IfErr result (IsInLines (line_feeds text.now)) }
{
    match lines_of(alloc, text) {
        Ok(lines) => read_lines(Draft::new(alloc), &lines, ends_within_line(text)),
        Err(_) => Err(Unread::NoMemory),
    }
}
