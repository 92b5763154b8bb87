//! The lines of plans.

ghost use Rattle.std.specs.Prelude.{◌≡◌, ◌++◌, flat_map, IfOk, OnOk, string_bytes};
ghost use Rattle.hex.specs.Hex.{encode_lower};
ghost use Rattle.record_checker.specs.Shown.{pair_text, side_word, sides_text, terms_text, virtual_text};
ghost use Rattle.record_checker.specs.Shown.{part_line, part_text};

use channel_values::Name;
use funding_plans::{Part, Virtual};
use std::alloc::{AllocError, Global};

/// A name in 64 digits.
pub(crate) fn digits_of(alloc: Global, name: &Name) -> Result<String, AllocError>
    ensures { IfOk result (λ text. string_bytes text ≡ encode_lower name.now) }
{
    hex::encode(alloc, name.as_slice())
}

fn side_word(is_second: bool) -> &'static str
    ensures { result.now ≡ side_word is_second }
{
    if is_second { "b" } else { "a" }
}

/// Two names.
fn pair_text(alloc: Global, first: &Name, second: &Name) -> Result<String, AllocError>
    ensures { IfOk result (λ text. string_bytes text ≡ pair_text first.now second.now) }
{
    let first = digits_of(alloc, first)?;
    let second = digits_of(alloc, second)?;
    format!(in alloc; "{first} {second}")
}

/// The ledgers and the guarantors of both sides.
fn sides_text(alloc: Global, v: &Virtual) -> Result<String, AllocError>
    ensures { IfOk result (λ text. string_bytes text ≡ sides_text v.now) }
{
    let ledgers = pair_text(alloc, &v.ledger_a, &v.ledger_b)?;
    let guarantors = pair_text(alloc, &v.guarantor_a, &v.guarantor_b)?;
    format!(in alloc; "ledgers {ledgers} guarantors {guarantors}")
}

fn terms_text(alloc: Global, v: &Virtual) -> Result<String, AllocError>
    ensures { IfOk result (λ text. string_bytes text ≡ terms_text v.now) }
{
    let (asset, total) = (v.asset, v.total);
    let side = side_word(v.side_b);
    format!(in alloc; "asset {asset} total {total} side {side}")
}

/// A virtual channel: its joint channel, what is on both sides, and its terms.
fn virtual_text(alloc: Global, v: &Virtual) -> Result<String, AllocError>
    ensures { IfOk result (λ text. string_bytes text ≡ virtual_text v.now) }
{
    let channel = digits_of(alloc, &v.channel)?;
    let joint = digits_of(alloc, &v.joint)?;
    let sides = sides_text(alloc, v)?;
    let terms = terms_text(alloc, v)?;
    format!(in alloc; "{channel} joint {joint} {sides} {terms}")
}

fn part_text(alloc: Global, part: &Part) -> Result<String, AllocError>
    ensures { IfOk result (λ text. string_bytes text ≡ part_text part.now) }
{
    match part {
        Part::Root(channel) => {
            let channel = digits_of(alloc, channel)?;
            format!(in alloc; "root {channel}")
        }
        Part::OnLedger(ledger, channel) => {
            let ledger = digits_of(alloc, ledger)?;
            let channel = digits_of(alloc, channel)?;
            format!(in alloc; "funded {channel} by {ledger}")
        }
        Part::End(v) => {
            let text = virtual_text(alloc, v)?;
            format!(in alloc; "end {text}")
        }
        Part::Middle(v) => {
            let text = virtual_text(alloc, v)?;
            format!(in alloc; "middle {text}")
        }
    }
}

fn part_line(alloc: Global, part: &Part) -> Result<String, AllocError>
    ensures { IfOk result (λ text. string_bytes text ≡ part_line part.now) }
{
    let part = part_text(alloc, part)?;
    format!(in alloc; "part {part}\n")
}

pub(crate) fn append_parts(
    alloc: Global,
    text: &mut String,
    parts: &[Part],
) -> Result<(), AllocError>
    ensures { OnOk result (string_bytes text.new
        ≡ string_bytes text.old ++ flat_map part_line parts.now) }
{
    for part in parts {
        let line = part_line(alloc, part)?;
        text.push_str(line.as_str())?;
    }
    Ok(())
}
