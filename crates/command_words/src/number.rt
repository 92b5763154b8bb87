//! Numbers in decimal digits.

ghost use Rattle.std.specs.Prelude.{◌≡◌};
ghost use Rattle.std.specs.Str.{all_ascii_digits};
ghost use Rattle.command_words.specs.Words.{number_of};

fn are_digits(bytes: &[u8]) -> bool
    ensures { result ≡ all_ascii_digits bytes.now }
{
    bytes.iter().all(|byte| byte.is_ascii_digit())
}

/// The number that 1 to 20 decimal digits write, where it is one of 64 bits.
#[tactic(auto, using(crate::proofs::Numbers::too_long, crate::proofs::Numbers::no_digits))]
pub(crate) fn number(text: &str) -> Option<u64>
    ensures { result ≡ number_of text.now }
{
    let digits = text.as_bytes();
    if digits.len() > 20 || !are_digits(digits) {
        return None;
    }
    text.parse().ok()
}
