//! What a look follows, and which clients it concerns.

ghost use Rattle.std.specs.Prelude.{◌≡◌, List, true, fold, IfOk, OnOk};
ghost use Rattle.std.specs.List.{flat_map};
ghost use Rattle.std.specs.List.Sorted.{IsStrictlyIncreasing};
ghost use Rattle.call_history.specs.Rows.{fixed_of as fixed_part};
ghost use Rattle.network.specs.Watching.{saw};
ghost use Rattle.watchtower.specs.declared.client.Client.{Client as AClient};
ghost use Rattle.watchtower.specs.Towers.{is_rising};
ghost use Rattle.watchtower.specs.Holders.{holders_of};
ghost use Rattle.watchtower.specs.Holding.{is_open, AreIndexed, AreNoted};
ghost use Rattle.watchtower.specs.Looking.{noting, noting_of, noted_after, Concerned, HasAll};

use crate::holders::Holders;
use call_history::{Entry, Standing, fixed_of, mode, time_after};
use channel_values::{Name, NoMemory, channel_name};
use indexmap::IndexSet;
use network::Watcher;
use std::alloc::Global;

/// Whether no entry sets a time before the one before it.
pub(crate) fn is_rising(now: u64, entries: &[Entry]) -> bool
    ensures { result ≡ is_rising now entries.now }
{
    let mut time = now;
    for entry in entries {
        let to = time_after(time, entry);
        if to < time {
            return false;
        }
        time = to;
    }
    true
}

/// Follows the entries, and answers nothing.
fn follow(watcher: &mut Watcher, entries: &[Entry]) -> Result<(), NoMemory>
    ensures { OnOk result (watcher.new ≡ fold saw watcher.old entries.now) }
{
    watcher.look(entries, &[])?;
    Ok(())
}

/// Whether the channel is challenged.
fn is_open(watcher: &Watcher, channel: &Name) -> bool
    ensures { result ≡ is_open watcher.now channel.now }
{
    mode(watcher.row(channel).deadline, watcher.now()) == Standing::Challenged
}

/// Notes the channel, where it is challenged.
fn note(watcher: &Watcher, noted: &mut IndexSet<Name>, channel: &Name) -> Result<(), NoMemory>
    ensures { OnOk result (noted.new.keys ≡ noting watcher.now noted.old.keys channel.now) }
{
    if is_open(watcher, channel) {
        noted.insert(*channel)?;
    }
    Ok(())
}

/// Notes the channel that an entry touches, if it does and it is challenged.
fn note_entry(watcher: &Watcher, noted: &mut IndexSet<Name>, entry: &Entry) -> Result<(), NoMemory>
    ensures { OnOk result (noted.new.keys ≡ noting_of watcher.now noted.old.keys (fixed_part entry.now.op)) }
{
    let Some(fixed) = fixed_of(&entry.op) else {
        return Ok(());
    };
    note(watcher, noted, &channel_name(fixed.bytes()))
}

/// The channels that are challenged, of those that were and of those that the entries touch.
fn noted_after(
    watcher: &Watcher,
    before: &IndexSet<Name>,
    entries: &[Entry],
    alloc: Global,
) -> Result<IndexSet<Name>, NoMemory>
    ensures { IfOk result (λ noted. noted.keys ≡ noted_after watcher.now before.now.keys entries.now) }
{
    let mut noted = IndexSet::new(alloc);
    let channels = before.as_slice();
    for channel in channels {
        note(watcher, &mut noted, channel)?;
    }
    for entry in entries {
        note_entry(watcher, &mut noted, entry)?;
    }
    Ok(noted)
}

/// The places of all that hold a chain of one of these channels, rising.
fn concerned(
    holders: &Holders,
    noted: &IndexSet<Name>,
    alloc: Global,
) -> Result<Vec<usize>, NoMemory>
    ensures rising { IfOk result (λ v. IsStrictlyIncreasing v.items) }
    ensures all { IfOk result (λ v.
        HasAll v.items (flat_map (holders_of holders.now.channels.keys holders.now.places.items) noted.now.keys)) }
{
    let mut places = Vec::new(alloc);
    let channels = noted.as_slice();
    for channel in channels {
        places.extend_from_slice(holders.of(channel))?;
    }
    places.sort_unstable();
    places.dedup();
    Ok(places)
}

/// Follows the entries and notes the channels that are then challenged. Answers the places of the clients that hold a
/// chain of one, rising: each client that has calls is at one of them.
#[tactic(auto, using(crate::proofs::Opening::noted_well))]
pub(crate) fn look_around(
    watcher: &mut Watcher,
    noted: &mut IndexSet<Name>,
    holders: &Holders,
    entries: &[Entry],
    alloc: Global,
) -> Result<Vec<usize>, NoMemory>
    requires rising { is_rising watcher.old.time entries.now ≡ true }
    requires noted { AreNoted watcher.old noted.old.keys }
    ensures seen { OnOk result (watcher.new ≡ fold saw watcher.old entries.now) }
    ensures noted { OnOk result (AreNoted watcher.new noted.new.keys) }
    ensures rising { IfOk result (λ places. IsStrictlyIncreasing places.items) }
    ensures all { (clients : List AClient) → AreIndexed clients holders.now.channels.keys holders.now.places.items
        → IfOk result (λ places. Concerned watcher.new clients places.items) }
{
    follow(watcher, entries)?;
    *noted = noted_after(watcher, noted, entries, alloc)?;
    let places = concerned(holders, noted, alloc)?;
    Ok(places)
}
