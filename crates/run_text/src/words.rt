//! The words of a line, which are parted by one space.

use crate::fault::Wanted;

/// The words that are left of a line: none after the last one was taken.
#[derive(Clone, Copy)]
pub(crate) struct Words<'a> {
    rest: Option<&'a [u8]>,
}

/// The value of a decimal digit.
fn digit_of(byte: u8) -> Option<u128> {
    match byte {
        b'0'..=b'9' => Some((byte - b'0') as u128),
        _ => None,
    }
}

/// The number that is written so, with no digit 0 in front.
fn decimal_of(word: &[u8]) -> Option<u128> {
    let first = word.first()?;
    if *first == b'0' && word.len() > 1 {
        return None;
    }
    let mut value = 0u128;
    for byte in word {
        let digit = digit_of(*byte)?;
        value = value.checked_mul(10)?.checked_add(digit)?;
    }
    Some(value)
}

/// The number that is written so, where it isn't above what entries speak of.
fn number_of(word: &[u8]) -> Option<u64> {
    u64::try_from(decimal_of(word)?).ok()
}

fn is_letter(byte: u8) -> bool {
    matches!(byte, b'a'..=b'z' | b'A'..=b'Z')
}

fn is_name_byte(byte: u8) -> bool {
    is_letter(byte) || matches!(byte, b'0'..=b'9' | b'_')
}

fn is_digit_of_name(byte: u8) -> bool {
    matches!(byte, b'0'..=b'9' | b'a'..=b'f')
}

/// A letter and at most 15 letters, digits or `_`, or 64 digits 0-9 a-f.
fn is_name(word: &[u8]) -> bool {
    let Some(first) = word.first() else {
        return false;
    };
    let declared = is_letter(*first)
        && word.len() <= 16
        && word.iter().all(|byte| is_name_byte(*byte));
    declared || (word.len() == 64 && word.iter().all(|byte| is_digit_of_name(*byte)))
}

/// What stands before the first space, and what after it, if there is one.
fn cut(text: &[u8]) -> (&[u8], Option<&[u8]>) {
    match text.iter().position(|byte| *byte == b' ') {
        None => (text, None),
        Some(at) => (&text[..at], Some(&text[at + 1..])),
    }
}

impl<'a> Words<'a> {
    pub(crate) fn of(line: &'a [u8]) -> Words<'a> {
        Words { rest: Some(line) }
    }

    /// The next word; an empty one where none is left.
    pub(crate) fn take(&mut self) -> &'a [u8] {
        let Some(rest) = self.rest else {
            return b"";
        };
        let (word, rest) = cut(rest);
        self.rest = rest;
        word
    }

    /// The next word, where it is UTF-8; else an empty one.
    pub(crate) fn keyword(&mut self) -> &'a str {
        str::from_utf8(self.take()).unwrap_or("")
    }

    pub(crate) fn number(&mut self) -> Result<u64, Wanted> {
        number_of(self.take()).ok_or(Wanted::Number)
    }

    /// A share, which may be above any `u64`.
    pub(crate) fn share(&mut self) -> Result<u128, Wanted> {
        decimal_of(self.take()).ok_or(Wanted::Number)
    }

    /// A number, or `-` for none.
    pub(crate) fn number_or_dash(&mut self) -> Result<Option<u64>, Wanted> {
        let word = self.take();
        match number_of(word) {
            Some(number) => Ok(Some(number)),
            None if matches!(word, b"-") => Ok(None),
            None => Err(Wanted::Number),
        }
    }

    pub(crate) fn name(&mut self) -> Result<&'a [u8], Wanted> {
        let word = self.take();
        if is_name(word) {
            Ok(word)
        } else {
            Err(Wanted::Name)
        }
    }

    pub(crate) fn word(&mut self, wanted: &'static str) -> Result<(), Wanted> {
        if self.take() == wanted.as_bytes() {
            Ok(())
        } else {
            Err(Wanted::Word(wanted))
        }
    }

    pub(crate) fn yes_or_no(&mut self) -> Result<bool, Wanted> {
        match self.keyword() {
            "yes" => Ok(true),
            "no" => Ok(false),
            _ => Err(Wanted::YesOrNo),
        }
    }

    /// The number after a word.
    pub(crate) fn number_after(&mut self, word: &'static str) -> Result<u64, Wanted> {
        self.word(word)?;
        self.number()
    }

    /// The share after a word.
    pub(crate) fn share_after(&mut self, word: &'static str) -> Result<u128, Wanted> {
        self.word(word)?;
        self.share()
    }

    /// What is said after a word.
    pub(crate) fn yes_or_no_after(&mut self, word: &'static str) -> Result<bool, Wanted> {
        self.word(word)?;
        self.yes_or_no()
    }

    pub(crate) fn end(self) -> Result<(), Wanted> {
        match self.rest {
            None => Ok(()),
            Some(_) => Err(Wanted::EndOfLine),
        }
    }
}
