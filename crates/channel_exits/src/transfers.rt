//! The transfers of an exit.

ghost use Rattle.std.specs.Prelude.{◌≡◌, ◌≤◌, ◌+◌, ◌++◌, length, OnOk, Some};
ghost use Rattle.std.specs.List.{flat_map};
ghost use Rattle.std.specs.Option.{option_copied};
ghost use Rattle.channel_values.specs.declared.value.Dest.TheVariants.{Person};
ghost use Rattle.call_history.specs.Flows.{is_among};
ghost use Rattle.channel_exits.specs.Calls as spelled;
ghost use Rattle.channel_exits.specs.Exits.{ended_in};

use crate::views::ended_in;
use call_history::{Call, TransferCall, WorldView, place_of};
use channel_values::{Dest, Item, Name, NoMemory, Outcome};
use funding_plans::{has, items_in};

fn put_transfer_of(
    calls: &mut Vec<Call>,
    channel: &Name,
    ended: &Outcome,
    to: &Dest,
    asset: u32,
) -> Result<(), NoMemory>
    ensures value { OnOk result (calls.new.items ≡ calls.old.items
        ++ spelled.transfer_if channel.now (Some ended.now) to.now asset) }
    ensures few { OnOk result (length calls.new.items ≤ length calls.old.items + 1) }
{
    let items = items_in(ended, asset);
    if has(items, to) {
        let index = place_of(items, to) as u8;
        let outcome = ended.copy()?;
        calls.push(Call::Transfer(TransferCall {
            channel: *channel,
            outcome,
            asset,
            index,
        }))?;
    }
    Ok(())
}

/// A transfer of a destination's item of an asset, where it has one.
pub(crate) fn put_transfer(
    calls: &mut Vec<Call>,
    world: &WorldView,
    channel: &Name,
    to: &Dest,
    asset: u32,
) -> Result<(), NoMemory>
    ensures value { OnOk result (calls.new.items ≡ calls.old.items
        ++ spelled.transfer_to (ended_in world.entry.now) channel.now to.now asset) }
    ensures few { OnOk result (length calls.new.items ≤ length calls.old.items + 1) }
{
    match ended_in(world, channel) {
        None => Ok(()),
        Some(ended) => put_transfer_of(calls, channel, ended, to, asset),
    }
}

fn is_among(names: &[Name], name: &Name) -> bool
    ensures { result ≡ is_among name.now names.now }
{
    names.iter().any(|other| *name == *other)
}

fn put_transfer_among(
    calls: &mut Vec<Call>,
    world: &WorldView,
    root: &Name,
    names: &[Name],
    asset: u32,
    to: &Dest,
) -> Result<(), NoMemory>
    ensures value { OnOk result (calls.new.items ≡ calls.old.items
        ++ spelled.transfer_among (ended_in world.entry.now) root.now names.now asset to.now) }
    ensures few { OnOk result (length calls.new.items ≤ length calls.old.items + 1) }
{
    match to {
        Dest::Person(_) => Ok(()),
        Dest::Channel(channel) => {
            if is_among(names, channel) {
                put_transfer(calls, world, root, &Dest::Channel(*channel), asset)
            } else {
                Ok(())
            }
        }
    }
}

fn put_transfers_among(
    calls: &mut Vec<Call>,
    world: &WorldView,
    root: &Name,
    names: &[Name],
    asset: u32,
    items: &[Item],
) -> Result<(), NoMemory>
    ensures value { OnOk result (calls.new.items ≡ calls.old.items ++ flat_map (λ item.
        spelled.transfer_among (ended_in world.entry.now) root.now names.now asset item.to) items.now) }
    ensures few { OnOk result (length calls.new.items ≤ length calls.old.items + length items.now) }
{
    for item in items {
        put_transfer_among(calls, world, root, names, asset, &item.to)?;
    }
    Ok(())
}

fn items_ended<'a>(ended: Option<&'a Outcome>, asset: u32) -> &'a [Item]
    ensures value { result.now ≡ spelled.items_ended (option_copied ended.entry) asset }
    ensures few { length result.now ≤ 16 }
{
    match ended {
        None => &[],
        Some(ended) => items_in(ended, asset),
    }
}

/// The transfers of a channel to those of these names that it names, in the items' order, then to the person: at most
/// 17.
pub(crate) fn put_transfers(
    calls: &mut Vec<Call>,
    world: &WorldView,
    me: &Name,
    names: &[Name],
    root: &Name,
    asset: u32,
) -> Result<(), NoMemory>
    ensures value { OnOk result (calls.new.items ≡ calls.old.items
        ++ spelled.transfers_of (ended_in world.entry.now) me.now names.now root.now asset) }
    ensures few { OnOk result (length calls.new.items ≤ length calls.old.items + 17) }
{
    let items = items_ended(ended_in(world, root), asset);
    put_transfers_among(calls, world, root, names, asset, items)?;
    put_transfer(calls, world, root, &Dest::Person(*me), asset)
}
