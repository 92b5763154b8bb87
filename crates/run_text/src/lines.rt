//! The lines of a text.

ghost use Rattle.std.specs.Prelude.{◌≡◌, IfOk, length};
ghost use Rattle.run_text.specs.Lines.{line_feeds};

use std::alloc::{AllocError, Global};

/// The lines that end with a line feed, without it.
pub fn lines_of(alloc: Global, text: &[u8]) -> Result<Vec<&[u8]>, AllocError>
    ensures { IfOk result (λ lines. length lines.items ≡ line_feeds text.now) }
{
    let mut lines = Vec::new(alloc);
    let mut start = 0;
    for (i, byte) in text.iter().enumerate() {
        if *byte == b'\n' {
            lines.push(&text[start..i])?;
            start = i + 1;
        }
    }
    Ok(lines)
}

/// Whether a text ends within a line.
pub fn ends_within_line(text: &[u8]) -> bool {
    match text.last() {
        None => false,
        Some(byte) => *byte != b'\n',
    }
}
