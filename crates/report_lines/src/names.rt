//! What persons and channels are called.

ghost use Rattle.std.specs.Prelude.{◌≡◌, IfOk, string_bytes};
ghost use Rattle.report_lines.specs.Text.{digits_of, dest_text, channel_text, person_text, fixed_text};

use channel_values::{Dest, Fixed, Label, Name, channel_name};
use std::alloc::{AllocError, Global};

fn digits_of(alloc: Global, dest: &Dest) -> Result<String, AllocError>
    ensures { IfOk result (λ text. string_bytes text ≡ digits_of dest.now) }
{
    match dest {
        Dest::Person(name) | Dest::Channel(name) => hex::encode(alloc, name.as_slice()),
    }
}

/// The first name that a person or a channel was declared with, else its digits.
fn dest_text(alloc: Global, labels: &[(Dest, Label)], dest: &Dest) -> Result<String, AllocError>
    ensures { IfOk result (λ text. string_bytes text ≡ dest_text labels.now dest.now) }
{
    match labels {
        [] => digits_of(alloc, dest),
        [label, ..] if label.0 == *dest => String::from_str(alloc, label.1.as_str()),
        [_, rest @ ..] => dest_text(alloc, rest, dest),
    }
}

/// What a channel is called.
pub fn channel_text(
    alloc: Global,
    labels: &[(Dest, Label)],
    channel: &Name,
) -> Result<String, AllocError>
    ensures { IfOk result (λ text. string_bytes text ≡ channel_text labels.now channel.now) }
{
    dest_text(alloc, labels, &Dest::Channel(*channel))
}

/// What a person is called.
pub fn person_text(
    alloc: Global,
    labels: &[(Dest, Label)],
    person: &Name,
) -> Result<String, AllocError>
    ensures { IfOk result (λ text. string_bytes text ≡ person_text labels.now person.now) }
{
    dest_text(alloc, labels, &Dest::Person(*person))
}

/// What the channel with a fixed part is called.
pub(crate) fn fixed_text(
    alloc: Global,
    labels: &[(Dest, Label)],
    fixed: &Fixed,
) -> Result<String, AllocError>
    ensures { IfOk result (λ text. string_bytes text ≡ fixed_text labels.now fixed.now) }
{
    channel_text(alloc, labels, &channel_name(fixed.bytes()))
}
