//! From the lines of a text to what they tell.

ghost use Rattle.std.specs.Prelude.{◌+◌, ◌<◌, ◌^◌, length, IfErr};
ghost use Rattle.run_text.specs.Lines.{IsInLines};

use crate::fault::{Unread, Untaken, Wanted};

/// What takes the lines of a text, one after the other.
pub trait LineReader<L>: Drop {
    /// What all lines tell.
    type Whole: Drop;

    /// Takes a line, without its line feed.
    fn add_line(&mut self, line: L) -> Result<(), Untaken>;

    /// What all lines tell, where none is missing.
    fn finish(self) -> Result<Self::Whole, Untaken>;
}

fn add_lines<L: Copy, R: LineReader<L>>(reader: &mut R, lines: &[L]) -> Result<(), Unread>
    ensures { IfErr result (IsInLines (length lines.now)) }
{
    for (before, line) in lines.iter().enumerate() {
        if let Err(untaken) = reader.add_line(*line) {
            return Err(untaken.at(before + 1));
        }
    }
    Ok(())
}

/// What lines tell, and what follows the last of them. Where the reader refuses a line, that line is told, counted from
/// 1, and what was wanted of it; of a text that ends too early it is the line after the last.
pub fn read_lines<L: Copy, R: LineReader<L>>(
    mut reader: R,
    lines: &[L],
    ends_within_line: bool,
) -> Result<R::Whole, Unread>
    requires { length lines.now + 1 < 2 ^ 64 }
    ensures { IfErr result (IsInLines (length lines.now)) }
{
    add_lines(&mut reader, lines)?;
    let after = lines.len() + 1;
    if ends_within_line {
        return Err(Untaken::Wanted(Wanted::LineFeed).at(after));
    }
    match reader.finish() {
        Ok(whole) => Ok(whole),
        Err(untaken) => Err(untaken.at(after)),
    }
}
