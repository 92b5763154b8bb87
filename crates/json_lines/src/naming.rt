//! The words of a line, and the names of its words.

ghost use Rattle.std.specs.Prelude.{◌≡◌, ◌==◌, IfOk};
ghost use Rattle.std.specs.Str.{bytes_eq};
ghost use Rattle.std.specs.List.{slice_split};
ghost use Rattle.json_lines.specs.Json.{words_of, names_of_call, names_of_verdict, names_of_end, names_of_line, begins_with_digit, third, names_of};

use channel_values::{Listed, NoMemory};
use std::alloc::Global;

/// What stands between spaces.
pub(crate) fn words_of(alloc: Global, line: &[u8]) -> Result<Vec<Listed<u8>>, NoMemory>
    ensures { IfOk result (λ words. words.items ≡ words_of line.now) }
{
    let mut words = Vec::new(alloc);
    for part in line.split(|byte| *byte == 32) {
        let mut word = Vec::new(alloc);
        word.extend_from_slice(part)?;
        words.push(Listed::make(word))?;
    }
    Ok(words)
}

fn is_word(word: &[u8], text: &str) -> bool
    ensures { result ≡ bytes_eq word.now text.now }
{
    word == text.as_bytes()
}

fn names_of_call(call: &[u8]) -> &'static str
    ensures { result.now ≡ names_of_call call.now }
{
    if is_word(call, "deposit") {
        "number by call channel asset expected amount"
    } else if is_word(call, "transfer") {
        "number by call channel asset index"
    } else if is_word(call, "claim") {
        "number by call guarantor target asset position"
    } else if is_word(call, "time") {
        "number by call to"
    } else {
        "number by call channel turn"
    }
}

fn names_of_verdict(first: &[u8]) -> &'static str
    ensures { result.now ≡ names_of_verdict first.now }
{
    if is_word(first, "sound") {
        "line - entries"
    } else if is_word(first, "bytes") {
        "line fault place"
    } else if is_word(first, "reply") {
        "line entry"
    } else if is_word(first, "script") {
        "line step rule name"
    } else if is_word(first, "read") || is_word(first, "too") {
        "line why"
    } else {
        "line place"
    }
}

fn names_of_end(first: &[u8]) -> &'static str
    ensures { result.now ≡ names_of_end first.now }
{
    if is_word(first, "asset") {
        "line asset - deposited - held - paid"
    } else if is_word(first, "held") {
        "line channel asset amount"
    } else if is_word(first, "paid") {
        "line person asset amount"
    } else if is_word(first, "premises") {
        "line person - unforged - distinct - intime"
    } else if is_word(first, "person") {
        "line person asset - paid - share"
    } else if is_word(first, "exit") {
        "line person asset - share"
    } else {
        names_of_verdict(first)
    }
}

fn names_of_line(first: &[u8], count: usize) -> &'static str
    ensures { result.now ≡ names_of_line first.now count }
{
    if is_word(first, "command") {
        "line step person"
    } else if is_word(first, "load") {
        "line - seed - count"
    } else if is_word(first, "hop") {
        "line ending count"
    } else if is_word(first, "end") {
        if count == 5 {
            "line - entries - now"
        } else {
            "line - entries - clients - calls"
        }
    } else {
        names_of_end(first)
    }
}

/// Whether a word begins with a decimal digit.
pub(crate) fn begins_with_digit(word: &[u8]) -> bool
    ensures { result ≡ begins_with_digit word.now }
{
    match word {
        [byte, ..] => 48 <= *byte && *byte <= 57,
        [] => false,
    }
}

/// The third word, or nothing.
fn third(words: &[Listed<u8>]) -> &[u8]
    ensures { result.now ≡ third words.now }
{
    match words {
        [_, _, word, ..] => word.as_slice(),
        [_, _] | [_] | [] => &[],
    }
}

/// The names of the words of a line, with a space between two, and `-` for a word that has none.
pub(crate) fn names_of(words: &[Listed<u8>]) -> &'static str
    ensures { result.now ≡ names_of words.now }
{
    match words {
        [first, ..] => {
            if begins_with_digit(first.as_slice()) {
                names_of_call(third(words))
            } else {
                names_of_line(first.as_slice(), words.len())
            }
        }
        [] => "",
    }
}
