//! Whether lines go on with what was read of a run, and whether that is whole.

use crate::fault::{Untaken, Wanted};
use crate::line::{ExitLine, Line, PersonLine};
use crate::model::{AssetEnd, Balance, Call, End, Entry, PersonEnd, Reply, Run};
use crate::stage::Stage;
use std::alloc::Global;

/// What is deposited of an asset by the entries.
fn deposited(entries: &[Entry], asset: u64) -> u64 {
    let mut sum = 0u64;
    for entry in entries {
        if let (
            Call::Deposit {
                asset: given,
                amount,
                ..
            },
            Reply::Held(_),
        ) = (entry.call, entry.reply)
        {
            if given == asset {
                sum = sum.saturating_add(amount);
            }
        }
    }
    sum
}

/// The sum of the amounts of an asset.
fn sum_of(balances: &[Balance], asset: u64) -> u64 {
    let mut sum = 0u64;
    for balance in balances {
        if balance.asset == asset {
            sum = sum.saturating_add(balance.amount);
        }
    }
    sum
}

/// The lines `asset` tell what the entries deposited.
fn check_deposited(entries: &[Entry], assets: &[AssetEnd]) -> Result<(), Wanted> {
    for end in assets {
        if deposited(entries, end.asset) != end.deposited {
            return Err(Wanted::AssetDeposited);
        }
    }
    for entry in entries {
        if let (Call::Deposit { asset, .. }, Reply::Held(_)) = (entry.call, entry.reply) {
            if !assets.iter().any(|end| end.asset == asset) {
                return Err(Wanted::AssetDeposited);
            }
        }
    }
    Ok(())
}

/// The balances of each asset add up to what its line says.
fn check_balances(run: &Run) -> Result<(), Wanted> {
    for end in &run.assets {
        if sum_of(&run.held, end.asset) != end.held {
            return Err(Wanted::HeldSum);
        }
        if sum_of(&run.paid, end.asset) != end.paid {
            return Err(Wanted::PaidSum);
        }
    }
    Ok(())
}

/// The callers that are nodes or their watchers.
fn count_callers(alloc: Global, entries: &[Entry]) -> Result<usize, Untaken> {
    let mut callers = Vec::new(alloc);
    for entry in entries {
        if entry.by > 0 && entry.by < 101 && !callers.contains(&entry.by) {
            callers.push(entry.by)?;
        }
    }
    Ok(callers.len())
}

/// Each caller with a node, and each that was commanded, has its premises.
fn check_persons(alloc: Global, run: &Run) -> Result<(), Untaken> {
    if count_callers(alloc, &run.entries)? > run.persons.len() {
        return Err(Untaken::Wanted(Wanted::PremisesLine));
    }
    for refused in &run.refused {
        if !run.persons.iter().any(|person| person.name == refused.who) {
            return Err(Untaken::Wanted(Wanted::PremisesLine));
        }
    }
    Ok(())
}

/// The exits of a person, if any, are of all its assets.
fn check_exits(person: &PersonEnd) -> Result<(), Wanted> {
    let some = person.assets.iter().any(|line| line.exit.is_some());
    let all = person.assets.iter().all(|line| line.exit.is_some());
    if some && !all {
        return Err(Wanted::ExitOfAsset);
    }
    Ok(())
}

/// The lines on a person's assets are of all assets.
fn check_person(assets: &[AssetEnd], person: &PersonEnd) -> Result<(), Wanted> {
    if person.assets.len() < assets.len() {
        return Err(Wanted::PersonOfAsset);
    }
    check_exits(person)
}

/// What was read before the first person, or before the end of the text, is whole.
fn check_money(run: &Run) -> Result<(), Wanted> {
    if run.made.is_none() {
        check_deposited(&run.entries, &run.assets)?;
    }
    check_balances(run)
}

fn check_last_person(run: &Run) -> Result<(), Wanted> {
    match run.persons.last() {
        None => Ok(()),
        Some(person) => check_person(&run.assets, person),
    }
}

/// The stage that a line goes to, where it may stand after those before.
pub(crate) fn check_stage(run: &Run, before: Stage, line: &Line) -> Result<Stage, Wanted> {
    let Some(stage) = Stage::of(line) else {
        return Ok(before);
    };
    if stage == Stage::Persons && before != Stage::Persons {
        check_money(run)?;
    }
    stage.check_after(before)?;
    Ok(stage)
}

fn check_entry(entries: &[Entry], entry: &Entry) -> Result<(), Wanted> {
    if entry.number == (entries.len() as u64) + 1 {
        Ok(())
    } else {
        Err(Wanted::EntryNumber)
    }
}

fn check_end(run: &Run, end: &End) -> Result<(), Wanted> {
    if run.made.is_some() || end.entries == run.entries.len() as u64 {
        Ok(())
    } else {
        Err(Wanted::EntryCount)
    }
}

/// An asset is above the one before it, and as much was deposited as is held and was paid.
fn check_asset(before: Option<&AssetEnd>, asset: &AssetEnd) -> Result<(), Wanted> {
    if let Some(before) = before {
        if asset.asset <= before.asset {
            return Err(Wanted::AssetRising);
        }
    }
    if asset.held.checked_add(asset.paid) != Some(asset.deposited) {
        return Err(Wanted::AssetSum);
    }
    Ok(())
}

fn check_balance(balance: &Balance) -> Result<(), Wanted> {
    if balance.amount == 0 {
        Err(Wanted::Something)
    } else {
        Ok(())
    }
}

/// A line is on the last person, and on the first asset that it has no line of.
fn check_person_line(run: &Run, line: &PersonLine) -> Result<(), Wanted> {
    let Some(person) = run.persons.last() else {
        return Err(Wanted::PremisesLine);
    };
    let Some(next) = run.assets.get(person.assets.len()) else {
        return Err(Wanted::LaterLine);
    };
    if next.asset == line.asset && person.name == line.name {
        Ok(())
    } else {
        Err(Wanted::PersonOfAsset)
    }
}

/// An exit is of the last person, and of the first asset with none; each asset has a line `person`.
fn check_exit_line(run: &Run, line: &ExitLine) -> Result<(), Wanted> {
    let Some(person) = run.persons.last() else {
        return Err(Wanted::PremisesLine);
    };
    if person.assets.len() < run.assets.len() {
        return Err(Wanted::PersonOfAsset);
    }
    if person.name != line.name {
        return Err(Wanted::ExitOfAsset);
    }
    match person.assets.iter().find(|asset| asset.exit.is_none()) {
        None => Err(Wanted::LaterLine),
        Some(next) if next.asset == line.asset => Ok(()),
        Some(_) => Err(Wanted::ExitOfAsset),
    }
}

/// A line goes on with those of its kind.
pub(crate) fn check_line(run: &Run, line: &Line) -> Result<(), Wanted> {
    match line {
        Line::Made(_) | Line::Command(_) => Ok(()),
        Line::Entry(entry) => check_entry(&run.entries, entry),
        Line::End(end) => check_end(run, end),
        Line::Asset(asset) => check_asset(run.assets.last(), asset),
        Line::Held(balance) | Line::Paid(balance) => check_balance(balance),
        Line::Premises(_, _) => check_last_person(run),
        Line::Person(line) => check_person_line(run, line),
        Line::Exit(line) => check_exit_line(run, line),
    }
}

/// No line is missing.
pub(crate) fn check_whole(alloc: Global, run: &Run, stage: Stage) -> Result<(), Untaken> {
    if !stage.is_ended() {
        return Err(Untaken::Wanted(Wanted::EndLine));
    }
    check_money(run)?;
    check_last_person(run)?;
    check_persons(alloc, run)
}
