//! The messages for lines that aren't taken.

ghost use Rattle.std.specs.Prelude.{◌≡◌, IfOk};
ghost use Rattle.node_lines.specs.Texts.{why_word, error_text};

use channel_values::NoMemory;
use std::alloc::Global;

/// Why a line isn't taken. The first of these that applies is reported.
#[derive(Clone, Copy, Debug, PartialEq, Eq)]
pub enum Why {
    /// It is no JSON text.
    Json,
    /// It has no known form.
    Shape,
    /// A value is outside of its limits.
    Limit,
    /// The digits are not the canonical bytes of a value.
    Bytes,
    /// The entry isn't the next one.
    Number,
    /// Calls are still to be entered.
    Waits,
    /// The node doesn't know the channel or the call.
    Unknown,
    /// Too few signatures would be left to end all channels.
    Reserve,
    /// There is no room for another event.
    Full,
}

fn why_word(why: Why) -> &'static str
    ensures { result.now ≡ why_word why }
{
    match why {
        Why::Json => "json",
        Why::Shape => "shape",
        Why::Limit => "limit",
        Why::Bytes => "bytes",
        Why::Number => "number",
        Why::Waits => "waits",
        Why::Unknown => "unknown",
        Why::Reserve => "reserve",
        Why::Full => "full",
    }
}

/// The message for a line that isn't taken.
#[tactic(auto, unfolding(crate::specs::Texts::error_text))]
pub fn error_text(alloc: Global, why: Why) -> Result<Vec<u8>, NoMemory>
    ensures { IfOk result (λ text. text.items ≡ error_text why) }
{
    let word = why_word(why);
    let text = format!(in alloc; "{{\"effect\":\"error\",\"why\":\"{word}\"}}\n")?;
    Ok(text.into_bytes())
}
