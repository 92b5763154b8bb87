//! Digits of base sixteen.

ghost use Rattle.std.specs.Prelude.{◌≡◌};
ghost use Rattle.std.specs.List.{list_all};
ghost use Rattle.script_steps.specs.Digits.{is_lower_digit, is_hex};

fn is_lower_digit(b: u8) -> bool
    ensures { result ≡ is_lower_digit b }
{
    matches!(b, b'0'..=b'9' | b'a'..=b'f')
}

fn are_lower_digits(bytes: &[u8]) -> bool
    ensures { result ≡ list_all is_lower_digit bytes.now }
{
    bytes.iter().all(|b| is_lower_digit(*b))
}

/// Whether the text is 64 digits 0-9 a-f.
pub fn is_hex(text: &str) -> bool
    ensures { result ≡ is_hex text.now }
{
    text.len() == 64 && are_lower_digits(text.as_bytes())
}
