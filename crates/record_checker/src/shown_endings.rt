//! The lines of endings.

ghost use Rattle.std.specs.Prelude.{◌≡◌, ◌++◌, flat_map, IfOk, OnOk, string_bytes};
ghost use Rattle.report_lines.specs.Text.{top_text};
ghost use Rattle.record_checker.specs.Shown.{final_word, known_line, chain_line, share_line, person_line, ending_text};

use crate::shown_plans::{append_parts, digits_of};
use call_history::{HeldChain, Known, newest};
use channel_values::{Name, State};
use run_record::Ending;
use std::alloc::{AllocError, Global};

fn final_word(is_final: bool) -> &'static str
    ensures { result.now ≡ final_word is_final }
{
    if is_final { "final" } else { "open" }
}

fn known_line(alloc: Global, known: &Known) -> Result<String, AllocError>
    ensures { IfOk result (λ text. string_bytes text ≡ known_line known.now) }
{
    let channel = digits_of(alloc, &known.channel)?;
    let turn = known.last.turn();
    let is_final = final_word(known.last.is_final());
    format!(in alloc; "signed {channel} {turn} {is_final}\n")
}

/// The turn of the last state of a chain, or `-` where it has none.
fn top_text(alloc: Global, states: &[State]) -> Result<String, AllocError>
    ensures { IfOk result (λ text. string_bytes text ≡ top_text states.now) }
{
    match newest(states) {
        Some(top) => {
            let turn = top.turn();
            format!(in alloc; "{turn}")
        }
        None => String::from_str(alloc, "-"),
    }
}

fn chain_line(alloc: Global, held: &HeldChain) -> Result<String, AllocError>
    ensures { IfOk result (λ text. string_bytes text ≡ chain_line held.now) }
{
    let channel = digits_of(alloc, &held.channel)?;
    let turn = top_text(alloc, held.chain.states.as_slice())?;
    format!(in alloc; "chain {channel} {turn}\n")
}

fn share_line(alloc: Global, share: &(u32, u128)) -> Result<String, AllocError>
    ensures { IfOk result (λ text. string_bytes text ≡ share_line share.now) }
{
    let (asset, amount) = *share;
    format!(in alloc; "share {asset} {amount}\n")
}

fn person_line(alloc: Global, person: &Name) -> Result<String, AllocError>
    ensures { IfOk result (λ text. string_bytes text ≡ person_line person.now) }
{
    let person = digits_of(alloc, person)?;
    format!(in alloc; "ending {person}\n")
}

fn append_known(alloc: Global, text: &mut String, known: &[Known]) -> Result<(), AllocError>
    ensures { OnOk result (string_bytes text.new
        ≡ string_bytes text.old ++ flat_map known_line known.now) }
{
    for state in known {
        let line = known_line(alloc, state)?;
        text.push_str(line.as_str())?;
    }
    Ok(())
}

fn append_chains(alloc: Global, text: &mut String, chains: &[HeldChain]) -> Result<(), AllocError>
    ensures { OnOk result (string_bytes text.new
        ≡ string_bytes text.old ++ flat_map chain_line chains.now) }
{
    for held in chains {
        let line = chain_line(alloc, held)?;
        text.push_str(line.as_str())?;
    }
    Ok(())
}

fn append_shares(alloc: Global, text: &mut String, shares: &[(u32, u128)]) -> Result<(), AllocError>
    ensures { OnOk result (string_bytes text.new
        ≡ string_bytes text.old ++ flat_map share_line shares.now) }
{
    for share in shares {
        let line = share_line(alloc, share)?;
        text.push_str(line.as_str())?;
    }
    Ok(())
}

/// How a person ended.
fn append_ending(alloc: Global, text: &mut String, ending: &Ending) -> Result<(), AllocError>
    ensures { OnOk result (string_bytes text.new ≡ string_bytes text.old ++ ending_text ending.now) }
{
    let line = person_line(alloc, &ending.person)?;
    text.push_str(line.as_str())?;
    append_parts(alloc, text, ending.plan.parts.as_slice())?;
    append_known(alloc, text, ending.known.as_slice())?;
    append_chains(alloc, text, ending.chains.as_slice())?;
    append_shares(alloc, text, ending.shares.as_slice())
}

pub(crate) fn append_endings(
    alloc: Global,
    text: &mut String,
    ends: &[Ending],
) -> Result<(), AllocError>
    ensures { OnOk result (string_bytes text.new
        ≡ string_bytes text.old ++ flat_map ending_text ends.now) }
{
    for ending in ends {
        append_ending(alloc, text, ending)?;
    }
    Ok(())
}
