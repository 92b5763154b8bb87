//! From a record and its words to the run that they describe. Nothing is checked: what the record says is taken as it
//! is.

use crate::told::Told;
use call_history::{Entry as Entered, time_after};
use channel_values::Name;
use run_record::{Ending, Record, Sum, SumOf};
use run_text::{AssetEnd, Balance, End, Entry, PersonAsset, PersonEnd, Run, read_paying_entry};
use std::alloc::{AllocError, Global};
use std::collections::BTreeMap;

/// The entries of lines, each of which is one of an entry.
fn entries_of<'a>(alloc: Global, lines: &'a [String]) -> Result<Vec<Entry<'a>>, AllocError> {
    let mut entries = Vec::new(alloc);
    for line in lines {
        if let Ok(entry) = read_paying_entry(line.as_bytes()) {
            entries.push(entry)?;
        }
    }
    Ok(entries)
}

/// The time after a history.
fn now_after(history: &[Entered]) -> u64 {
    let mut now = 0;
    for entry in history {
        now = time_after(now, entry);
    }
    now
}

fn total_of(totals: &BTreeMap<u32, u64>, asset: u32) -> u64 {
    match totals.get(&asset) {
        Some(total) => *total,
        None => 0,
    }
}

/// The totals of the sums of a kind by asset: those of one name, or all.
fn totals_of(
    alloc: Global,
    sums: &[Sum],
    kind: SumOf,
    name: Option<&Name>,
) -> Result<BTreeMap<u32, u64>, AllocError> {
    let mut totals: BTreeMap<u32, u64> = BTreeMap::new(alloc);
    for sum in sums {
        let is_named = match name {
            Some(name) => sum.name == *name,
            None => true,
        };
        if sum.kind == kind && is_named {
            let total = total_of(&totals, sum.asset).saturating_add(sum.amount);
            totals.insert(sum.asset, total)?;
        }
    }
    Ok(totals)
}

/// How the assets of which something was deposited ended.
fn assets_of(alloc: Global, sums: &[Sum]) -> Result<Vec<AssetEnd>, AllocError> {
    let held = totals_of(alloc, sums, SumOf::Held, None)?;
    let paid = totals_of(alloc, sums, SumOf::Paid, None)?;
    let mut assets = Vec::new(alloc);
    for sum in sums {
        if sum.kind == SumOf::Deposited {
            assets.push(AssetEnd {
                asset: sum.asset as u64,
                deposited: sum.amount,
                held: total_of(&held, sum.asset),
                paid: total_of(&paid, sum.asset),
            })?;
        }
    }
    Ok(assets)
}

/// The sums of a kind, with their names.
fn balances_of<'a>(
    alloc: Global,
    sums: &[Sum],
    names: &'a [String],
    kind: SumOf,
) -> Result<Vec<Balance<'a>>, AllocError> {
    let mut balances = Vec::new(alloc);
    for (sum, name) in sums.iter().zip(names) {
        if sum.kind == kind {
            balances.push(Balance {
                name: name.as_bytes(),
                asset: sum.asset as u64,
                amount: sum.amount,
            })?;
        }
    }
    Ok(balances)
}

/// The shares of an ending, and what its person was paid.
fn shares_of(alloc: Global, sums: &[Sum], ending: &Ending) -> Result<Vec<PersonAsset>, AllocError> {
    let paid = totals_of(alloc, sums, SumOf::Paid, Some(&ending.person))?;
    let mut shares = Vec::new(alloc);
    for pair in ending.shares.as_slice() {
        let (asset, share) = *pair;
        shares.push(PersonAsset {
            asset: asset as u64,
            paid: total_of(&paid, asset),
            share,
            exit: None,
        })?;
    }
    Ok(shares)
}

fn persons_of<'a>(
    alloc: Global,
    value: &Record,
    names: &'a [String],
) -> Result<Vec<PersonEnd<'a>>, AllocError> {
    let mut persons = Vec::new(alloc);
    for (ending, name) in value.ends.as_slice().iter().zip(names) {
        let assets = shares_of(alloc, value.sums.as_slice(), ending)?;
        persons.push(PersonEnd {
            name: name.as_bytes(),
            premises: None,
            assets,
        })?;
    }
    Ok(persons)
}

/// The run that a record and its words describe.
pub fn run_of<'a>(alloc: Global, value: &Record, told: &'a Told) -> Result<Run<'a>, AllocError> {
    let history = value.history.as_slice();
    let sums = value.sums.as_slice();
    let entries = entries_of(alloc, &told.lines)?;
    let assets = assets_of(alloc, sums)?;
    let held = balances_of(alloc, sums, &told.sums, SumOf::Held)?;
    let paid = balances_of(alloc, sums, &told.sums, SumOf::Paid)?;
    let persons = persons_of(alloc, value, &told.persons)?;
    Ok(Run {
        made: None,
        entries,
        refused: Vec::new(alloc),
        end: End {
            entries: history.len() as u64,
            now: now_after(history),
        },
        assets,
        held,
        paid,
        persons,
    })
}
