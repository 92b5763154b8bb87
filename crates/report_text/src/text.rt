//! The text of a whole report.

ghost use Rattle.std.specs.Prelude.{◌≡◌, ◌++◌, flat_map, IfOk, OnOk, string_bytes};
ghost use Rattle.call_history.specs.Flows.{AreWithinAmounts};
ghost use Rattle.call_history.specs.History.{Legal, newest_first, time_set, or_before, now_of, flows_of};
ghost use Rattle.support_rules.specs.Real.{real};
ghost use Rattle.asset_holder.specs.Receipts.{assets_of};
ghost use Rattle.report_lines.specs.Text.{entry_line, asset_line, held_line, paid_line, balance_lines};
ghost use Rattle.report_text.specs.Shares.{person_lines};
ghost use Rattle.report_text.specs.Report.{load_line, deed_lines, tail_of, text_of};

use crate::commands::append_commands;
use crate::flows::flows_of;
use crate::people::append_people;
use crate::report::{Load, Report};
use asset_holder::Balances;
use call_history::{Entry, Op, Reply};
use channel_values::{Dest, Label, NoMemory};
use report_lines::{asset_line, end_line, entry_line, held_line, paid_line};
use std::alloc::{AllocError, Global};

/// The time after an entry.
fn time_after(before: u64, entry: &Entry) -> u64
    ensures { result ≡ or_before (time_set entry.now.op entry.now.reply) before }
{
    match (&entry.op, &entry.reply) {
        (Op::Call(_), _) | (Op::Time(_), Reply::No(_)) => before,
        (Op::Time(to), _) => *to,
    }
}

/// The time after a history.
#[tactic(auto, using(crate::proofs::Texts::now_of_more))]
fn now_of(history: &[Entry]) -> u64
    ensures { result ≡ now_of (newest_first history.now) }
{
    let mut now = 0;
    for entry in history {
        now = time_after(now, entry);
    }
    now
}

fn append_entries(
    alloc: Global,
    text: &mut String,
    labels: &[(Dest, Label)],
    history: &[Entry],
) -> Result<(), AllocError>
    ensures { OnOk result (string_bytes text.new
        ≡ string_bytes text.old ++ flat_map (entry_line labels.now) history.now) }
{
    for entry in history {
        let line = entry_line(alloc, labels, entry)?;
        text.push_str(line.as_str())?;
    }
    Ok(())
}

fn append_assets(alloc: Global, text: &mut String, balances: &Balances) -> Result<(), AllocError>
    requires { AreWithinAmounts balances.now }
    ensures { OnOk result (string_bytes text.new
        ≡ string_bytes text.old ++ flat_map (asset_line balances.now) (assets_of balances.now)) }
{
    for asset in balances.assets().iter() {
        let line = asset_line(alloc, balances, *asset)?;
        text.push_str(line.as_str())?;
    }
    Ok(())
}

fn append_holdings(
    alloc: Global,
    text: &mut String,
    labels: &[(Dest, Label)],
    balances: &Balances,
    pairs: &[(Dest, u32)],
) -> Result<(), AllocError>
    requires { AreWithinAmounts balances.now }
    ensures { OnOk result (string_bytes text.new
        ≡ string_bytes text.old ++ flat_map (held_line labels.now balances.now) pairs.now) }
{
    for pair in pairs {
        let line = held_line(alloc, labels, balances, pair)?;
        text.push_str(line.as_str())?;
    }
    Ok(())
}

fn append_payouts(
    alloc: Global,
    text: &mut String,
    labels: &[(Dest, Label)],
    balances: &Balances,
    pairs: &[(Dest, u32)],
) -> Result<(), AllocError>
    requires { AreWithinAmounts balances.now }
    ensures { OnOk result (string_bytes text.new
        ≡ string_bytes text.old ++ flat_map (paid_line labels.now balances.now) pairs.now) }
{
    for pair in pairs {
        let line = paid_line(alloc, labels, balances, pair)?;
        text.push_str(line.as_str())?;
    }
    Ok(())
}

/// The assets, and what channels hold and persons were paid.
fn append_tables(
    alloc: Global,
    text: &mut String,
    labels: &[(Dest, Label)],
    balances: &Balances,
) -> Result<(), AllocError>
    requires { AreWithinAmounts balances.now }
    ensures { OnOk result (string_bytes text.new
        ≡ string_bytes text.old ++ balance_lines labels.now balances.now) }
{
    let pairs = balances.receivers();
    append_assets(alloc, text, balances)?;
    append_holdings(alloc, text, labels, balances, pairs)?;
    append_payouts(alloc, text, labels, balances, pairs)
}

/// The balances of a history.
pub fn balances_of(alloc: Global, history: &[Entry]) -> Result<Balances, NoMemory>
    requires { Legal real (newest_first history.now) }
    ensures flows { IfOk result (λ balances. balances ≡ flows_of history.now) }
    ensures within { IfOk result (λ balances. AreWithinAmounts balances) }
{
    let flows = flows_of(alloc, history)?;
    Balances::of(alloc, flows)
}

/// What balances say, and the lines of the people with nodes, which repeat some of it.
fn append_told(
    alloc: Global,
    text: &mut String,
    labels: &[(Dest, Label)],
    balances: &Balances,
    report: &Report,
) -> Result<(), NoMemory>
    requires { AreWithinAmounts balances.now }
    ensures { OnOk result (string_bytes text.new
        ≡ string_bytes text.old ++ balance_lines labels.now balances.now
        ++ flat_map (person_lines labels.now balances.now report.now.shares report.now.exits) report.now.premises) }
{
    append_tables(alloc, text, labels, balances)?;
    append_people(alloc, text, labels, balances, report)?;
    Ok(())
}

/// The balances of a report's history, and the lines of the people with nodes.
fn append_sums(
    alloc: Global,
    text: &mut String,
    labels: &[(Dest, Label)],
    report: &Report,
) -> Result<(), NoMemory>
    requires { Legal real (newest_first report.now.history) }
    ensures { OnOk result (string_bytes text.new
        ≡ string_bytes text.old ++ balance_lines labels.now (flows_of report.now.history)
        ++ flat_map (person_lines labels.now
        (flows_of report.now.history) report.now.shares report.now.exits) report.now.premises) }
{
    let balances = balances_of(alloc, report.history.as_slice())?;
    let appended = append_told(alloc, text, labels, &balances, report);
    drop(balances);
    appended
}

fn load_line(alloc: Global, load: &Load) -> Result<String, AllocError>
    ensures { IfOk result (λ text. string_bytes text ≡ load_line load.now) }
{
    let (seed, count) = (load.seed, load.count);
    format!(in alloc; "load seed {seed} count {count}\n")
}

/// The entries and the refused commands; of a load one line in their place.
fn append_deeds(alloc: Global, text: &mut String, report: &Report) -> Result<(), NoMemory>
    ensures { OnOk result (string_bytes text.new
        ≡ string_bytes text.old ++ deed_lines report.now.load report.now) }
{
    if let Some(load) = &report.load {
        let line = load_line(alloc, load)?;
        text.push_str(line.as_str())?;
        return Ok(());
    }
    let labels = report.labels.as_slice();
    append_entries(alloc, text, labels, report.history.as_slice())?;
    append_commands(alloc, text, labels, report.journals.as_slice())?;
    Ok(())
}

/// Appends what stands after the entries and the refused commands.
pub(crate) fn append_tail(alloc: Global, text: &mut String, report: &Report) -> Result<(), NoMemory>
    requires { Legal real (newest_first report.now.history) }
    ensures { OnOk result (string_bytes text.new ≡ string_bytes text.old ++ tail_of report.now) }
{
    let history = report.history.as_slice();
    let end = end_line(alloc, history.len(), now_of(history))?;
    text.push_str(end.as_str())?;
    append_sums(alloc, text, report.labels.as_slice(), report)
}

/// The text of a report. Its labels are the names in the order of declaration.
pub(crate) fn report_text(alloc: Global, report: &Report) -> Result<String, NoMemory>
    requires { Legal real (newest_first report.now.history) }
    ensures { IfOk result (λ text. string_bytes text ≡ text_of report.now) }
{
    let mut text = String::new(alloc);
    append_deeds(alloc, &mut text, report)?;
    append_tail(alloc, &mut text, report)?;
    Ok(text)
}
