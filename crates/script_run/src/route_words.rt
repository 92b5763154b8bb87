//! What the words of a route ask for.

ghost use Rattle.std.specs.Prelude.{◌≡◌, ◌≤◌, IfSome};
ghost use Rattle.script_run.specs.Routes.{asked, digit_of, ending_of, number_of};

use channel_values::Label;
use hop_script::Ending;

/// The value of a digit.
fn digit_of(byte: u8) -> Option<u32>
    ensures { result ≡ digit_of byte }
{
    if b'0' <= byte && byte <= b'9' {
        Some((byte - b'0') as u32)
    } else {
        None
    }
}

/// The number of one digit or two, at most 40.
fn number_of(digits: &[u8]) -> Option<u32>
    ensures number { result ≡ number_of digits.now }
    ensures few { IfSome result (λ n. n ≤ 40) }
{
    let number = match digits {
        [unit] => digit_of(*unit)?,
        [ten, unit] => 10 * digit_of(*ten)? + digit_of(*unit)?,
        _ => return None,
    };
    if number <= 40 { Some(number) } else { None }
}

fn ending_of(word: &str) -> Option<Ending>
    ensures { result ≡ ending_of word.now }
{
    match word {
        "close" => Some(Ending::Close),
        "exit" => Some(Ending::Exit),
        _ => None,
    }
}

/// How a route ends, and how many payments it makes, if the words ask for one.
pub(crate) fn asked(words: &[Label]) -> Option<(Ending, u32)>
    ensures asks { result ≡ asked words.now }
    ensures few { IfSome result (λ a. a.1 ≤ 40) }
{
    let [word, number] = words else {
        return None;
    };
    let ending = ending_of(word.as_str())?;
    let count = number_of(number.as_slice())?;
    Some((ending, count))
}
