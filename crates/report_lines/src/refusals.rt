//! How the refusals of commands are printed.

ghost use Rattle.std.specs.Prelude.{◌≡◌, IfOk, string_bytes};
ghost use Rattle.report_lines.specs.Text.{mode_text, node_refusal_text};

use crate::names::channel_text;
use call_history::{NodeRefusal, Standing};
use channel_values::{Dest, Label};
use std::alloc::{AllocError, Global};

fn mode_text(mode: &Standing) -> &'static str
    ensures { result.now ≡ mode_text mode.now }
{
    match mode {
        Standing::Open => "open",
        Standing::Challenged => "challenged",
        Standing::Final => "final",
    }
}

/// The number, the name and the value of a node's reason to refuse a command.
pub fn node_refusal_text(
    alloc: Global,
    labels: &[(Dest, Label)],
    refusal: &NodeRefusal,
) -> Result<String, AllocError>
    ensures { IfOk result (λ text. string_bytes text ≡ node_refusal_text labels.now refusal.now) }
{
    match refusal {
        NodeRefusal::BadBytes => String::from_str(alloc, "1 BadBytes"),
        NodeRefusal::UnknownChannel => String::from_str(alloc, "2 UnknownChannel"),
        NodeRefusal::NotOpen(channel, mode) => {
            let name = channel_text(alloc, labels, channel)?;
            let mode = mode_text(mode);
            format!(in alloc; "3 NotOpen {name} {mode}")
        }
        NodeRefusal::NotNext(wanted) => format!(in alloc; "4 NotNext {wanted}"),
        NodeRefusal::BadSignature => String::from_str(alloc, "5 BadSignature"),
        NodeRefusal::NotAStep => String::from_str(alloc, "6 NotAStep"),
        NodeRefusal::NotWanted(stage) => format!(in alloc; "7 NotWanted {stage}"),
        NodeRefusal::KeySpent(used) => format!(in alloc; "8 KeySpent {used}"),
        NodeRefusal::TooMany(count) => format!(in alloc; "9 TooMany {count}"),
    }
}
