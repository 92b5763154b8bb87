//! The rows of a file, and what may follow the last right one.

ghost use Rattle.std.specs.Prelude.{◌≡◌, ◌∷◌, ◌++◌, false, is_some, IfSome};
ghost use Rattle.lasting_lines.specs.Batches.{IsPart};
ghost use Rattle.lasting_lines.specs.Lines.{IsLine};
ghost use Rattle.lasting_lines.specs.Opening.{is_digit, is_hex, has_mark, begins_mark, later_from};
ghost use Rattle.lasting_lines.specs.Opening.{begins_later, is_damaged};

use crate::batches::SEPARATOR;

/// A row without its line feed, and the bytes after it.
#[derive(Clone, Copy)]
pub struct Split<'a> {
    pub row: &'a [u8],
    pub rest: &'a [u8],
}

/// The first row; `None` where there is no line feed.
pub fn split_row(bytes: &[u8]) -> Option<Split<'_>>
    ensures some { IfSome result (λ s. bytes.now ≡ s.row.now ++ 10 ∷ s.rest.now) }
    ensures row { IfSome result (λ s. IsLine s.row.now) }
    ensures none { is_some result ≡ false → IsLine bytes.now }
{
    let mut i = 0;
    while i < bytes.len() {
        if bytes[i] == 10 {
            return Some(Split {
                row: &bytes[..i],
                rest: &bytes[i + 1..],
            });
        }
        i += 1;
    }
    None
}

/// The first line of a source, which ends at a line feed or a separator of batches, and the bytes after that; `None` where
/// there is neither.
pub fn split_line(bytes: &[u8]) -> Option<Split<'_>>
    ensures { IfSome result (λ s. IsPart s.row.now) }
{
    let mut i = 0;
    while i < bytes.len() {
        if bytes[i] == 10 || bytes[i] == SEPARATOR {
            return Some(Split {
                row: &bytes[..i],
                rest: &bytes[i + 1..],
            });
        }
        i += 1;
    }
    None
}

/// Whether after some line feed a record of a number above this one begins: then what stands before it was whole once.
pub fn is_damaged(number: u64, tail: &[u8]) -> bool
    ensures { result ≡ is_damaged number tail.now }
{
    let mut rest = tail;
    while let [b, more @ ..] = rest {
        if *b == 10 && begins_later(number, more) {
            return true;
        }
        rest = more;
    }
    false
}

#[tactic(auto, unfolding(crate::specs::Opening::begins_later))]
fn begins_later(number: u64, bytes: &[u8]) -> bool
    ensures { result ≡ begins_later number bytes.now }
{
    later_from(21, number, 0, bytes)
}

fn later_from(count: u8, number: u64, found: u64, bytes: &[u8]) -> bool
    ensures { result ≡ later_from count number found bytes.now }
{
    if count == 0 {
        return false;
    }
    match bytes {
        [] => false,
        [b, rest @ ..] => {
            if is_digit(*b) {
                let more = found.saturating_mul(10).saturating_add((*b - 48) as u64);
                later_from(count - 1, number, more, rest)
            } else {
                *b == 32 && number < found && begins_mark(rest)
            }
        }
    }
}

#[tactic(auto, unfolding(crate::specs::Opening::begins_mark))]
fn begins_mark(bytes: &[u8]) -> bool
    ensures { result ≡ begins_mark bytes.now }
{
    has_mark(64, bytes)
}

fn has_mark(count: u8, bytes: &[u8]) -> bool
    ensures { result ≡ has_mark count bytes.now }
{
    if count == 0 {
        return true;
    }
    match bytes {
        [] => false,
        [b, rest @ ..] => is_hex(*b) && has_mark(count - 1, rest),
    }
}

fn is_digit(b: u8) -> bool
    ensures { result ≡ is_digit b }
{
    48 <= b && b <= 57
}

fn is_hex(b: u8) -> bool
    ensures { result ≡ is_hex b }
{
    is_digit(b) || (97 <= b && b <= 102)
}
