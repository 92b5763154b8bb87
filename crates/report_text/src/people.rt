//! The lines of people with nodes: their premises, shares and exits.

ghost use Rattle.std.specs.Prelude.{◌≡◌, ◌++◌, flat_map, IfOk, OnOk, string_bytes};
ghost use Rattle.call_history.specs.Flows.{AreWithinAmounts};
ghost use Rattle.report_text.specs.Shares.{share_line, exit_line, share_line_of, exit_line_of, person_lines};

use crate::judged::judged_line;
use crate::report::{Judged, Report, Share};
use asset_holder::Balances;
use channel_values::{Dest, Label, Name};
use report_lines::person_text;
use std::alloc::{AllocError, Global};

/// What a person was paid of an asset, and its share.
fn share_line(
    alloc: Global,
    labels: &[(Dest, Label)],
    balances: &Balances,
    share: &Share,
) -> Result<String, AllocError>
    requires { AreWithinAmounts balances.now }
    ensures { IfOk result (λ text. string_bytes text ≡ share_line labels.now balances.now share.now) }
{
    let name = person_text(alloc, labels, &share.person)?;
    let asset = share.asset;
    let paid = balances.paid(&share.person, asset);
    let amount = share.amount;
    format!(in alloc; "person {name} {asset} paid {paid} share {amount}\n")
}

/// The share of a person just after it was commanded to exit.
fn exit_line(alloc: Global, labels: &[(Dest, Label)], exit: &Share) -> Result<String, AllocError>
    ensures { IfOk result (λ text. string_bytes text ≡ exit_line labels.now exit.now) }
{
    let name = person_text(alloc, labels, &exit.person)?;
    let asset = exit.asset;
    let amount = exit.amount;
    format!(in alloc; "exit {name} {asset} share {amount}\n")
}

/// The line of a share, where it is this person's.
fn append_share(
    alloc: Global,
    text: &mut String,
    labels: &[(Dest, Label)],
    balances: &Balances,
    who: &Name,
    share: &Share,
) -> Result<(), AllocError>
    requires { AreWithinAmounts balances.now }
    ensures { OnOk result (string_bytes text.new
        ≡ string_bytes text.old ++ share_line_of labels.now balances.now who.now share.now) }
{
    if share.person == *who {
        let line = share_line(alloc, labels, balances, share)?;
        text.push_str(line.as_str())?;
    }
    Ok(())
}

fn append_shares(
    alloc: Global,
    text: &mut String,
    labels: &[(Dest, Label)],
    balances: &Balances,
    who: &Name,
    shares: &[Share],
) -> Result<(), AllocError>
    requires { AreWithinAmounts balances.now }
    ensures { OnOk result (string_bytes text.new
        ≡ string_bytes text.old ++ flat_map (share_line_of labels.now balances.now who.now) shares.now) }
{
    for share in shares {
        append_share(alloc, text, labels, balances, who, share)?;
    }
    Ok(())
}

/// The line of an exit, where it is this person's.
fn append_exit(
    alloc: Global,
    text: &mut String,
    labels: &[(Dest, Label)],
    who: &Name,
    exit: &Share,
) -> Result<(), AllocError>
    ensures { OnOk result (string_bytes text.new
        ≡ string_bytes text.old ++ exit_line_of labels.now who.now exit.now) }
{
    if exit.person == *who {
        let line = exit_line(alloc, labels, exit)?;
        text.push_str(line.as_str())?;
    }
    Ok(())
}

fn append_exits(
    alloc: Global,
    text: &mut String,
    labels: &[(Dest, Label)],
    who: &Name,
    exits: &[Share],
) -> Result<(), AllocError>
    ensures { OnOk result (string_bytes text.new
        ≡ string_bytes text.old ++ flat_map (exit_line_of labels.now who.now) exits.now) }
{
    for exit in exits {
        append_exit(alloc, text, labels, who, exit)?;
    }
    Ok(())
}

/// The lines of a person.
fn append_person(
    alloc: Global,
    text: &mut String,
    labels: &[(Dest, Label)],
    balances: &Balances,
    report: &Report,
    judged: &Judged,
) -> Result<(), AllocError>
    requires { AreWithinAmounts balances.now }
    ensures { OnOk result (string_bytes text.new
        ≡ string_bytes text.old ++ person_lines labels.now balances.now report.now.shares report.now.exits judged.now) }
{
    let line = judged_line(alloc, labels, judged)?;
    let who = &judged.person;
    text.push_str(line.as_str())?;
    append_shares(alloc, text, labels, balances, who, report.shares.as_slice())?;
    append_exits(alloc, text, labels, who, report.exits.as_slice())
}

/// The lines of all people with nodes.
pub(crate) fn append_people(
    alloc: Global,
    text: &mut String,
    labels: &[(Dest, Label)],
    balances: &Balances,
    report: &Report,
) -> Result<(), AllocError>
    requires { AreWithinAmounts balances.now }
    ensures { OnOk result (string_bytes text.new ≡ string_bytes text.old
        ++ flat_map (person_lines labels.now balances.now report.now.shares report.now.exits) report.now.premises) }
{
    for judged in report.premises.as_slice() {
        append_person(alloc, text, labels, balances, report, judged)?;
    }
    Ok(())
}
