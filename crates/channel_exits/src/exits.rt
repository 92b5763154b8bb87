//! The calls of an exit, part by part.

ghost use Rattle.std.specs.Prelude.{◌≡◌, ◌≤◌, ◌+◌, ◌*◌, ◌++◌, length, OnOk, IfOk};
ghost use Rattle.std.specs.List.{flat_map};
ghost use Rattle.funding_plans.specs.Parts.{channels, channels_of, channels_of_virtual};
ghost use Rattle.funding_plans.specs.declared.plan.Part.TheVariants as variants;
ghost use Rattle.channel_exits.specs.Calls as spelled;
ghost use Rattle.channel_exits.specs.Exits as exits;
ghost use Rattle.channel_exits.specs.Exits.{ended_in};

use crate::assets::{assets_of, assets_of_part};
use crate::claims::put_claim;
use crate::fault::ExitFault;
use crate::transfers::{put_transfer, put_transfers};
use crate::views::not_final;
use call_history::{Call, HeldChain, WorldView};
use channel_values::{Dest, Name, NoMemory};
use funding_plans::{Part, Plan, Virtual};
use std::alloc::Global;

// ---- virtual ledgers

/// Whether a part stands on the channel.
fn is_ledger(parts: &[Part], name: &Name) -> bool
    ensures { result ≡ spelled.is_ledger parts.now name.now }
{
    parts.iter().any(|part| part.stands_on(name))
}

/// The channels to which the channel of an end passes on what it is paid. These are the names of the plan's channels.
fn passed_to<'a>(parts: &[Part], names: &'a [Name], name: &Name) -> &'a [Name]
    requires { names.now ≡ channels parts.now }
    ensures { result.now ≡ spelled.passed_to parts.now name.now }
{
    if is_ledger(parts, name) { names } else { &[] }
}

// ---- the calls of a part, of one asset

fn put_end_calls(
    calls: &mut Vec<Call>,
    world: &WorldView,
    me: &Name,
    parts: &[Part],
    names: &[Name],
    v: &Virtual,
    asset: u32,
) -> Result<(), NoMemory>
    requires { names.now ≡ channels parts.now }
    ensures value { OnOk result (calls.new.items ≡ calls.old.items
        ++ spelled.other_calls (ended_in world.entry.now) me.now parts.now (variants.End v.now) asset) }
    ensures few { OnOk result (length calls.new.items ≤ length calls.old.items + 19) }
{
    let guarantor = v.own_guarantor();
    let own = Dest::Person(*me);
    let virtual_channel = Dest::Channel(v.channel);
    put_claim(calls, world, &guarantor, &v.joint, &virtual_channel, asset)?;
    put_claim(calls, world, &guarantor, &v.joint, &own, asset)?;
    put_transfers(
        calls,
        world,
        me,
        passed_to(parts, names, &v.channel),
        &v.channel,
        asset,
    )
}

fn put_middle_calls(
    calls: &mut Vec<Call>,
    world: &WorldView,
    me: &Name,
    parts: &[Part],
    v: &Virtual,
    asset: u32,
) -> Result<(), NoMemory>
    ensures value { OnOk result (calls.new.items ≡ calls.old.items
        ++ spelled.other_calls (ended_in world.entry.now) me.now parts.now (variants.Middle v.now) asset) }
    ensures few { OnOk result (length calls.new.items ≤ length calls.old.items + 4) }
{
    let channel = Dest::Channel(v.channel);
    let own = Dest::Person(*me);
    put_claim(calls, world, &v.guarantor_a, &v.joint, &channel, asset)?;
    put_claim(calls, world, &v.guarantor_b, &v.joint, &channel, asset)?;
    put_claim(calls, world, &v.guarantor_a, &v.joint, &own, asset)?;
    put_claim(calls, world, &v.guarantor_b, &v.joint, &own, asset)
}

fn put_other_calls(
    calls: &mut Vec<Call>,
    world: &WorldView,
    me: &Name,
    parts: &[Part],
    names: &[Name],
    part: &Part,
    asset: u32,
) -> Result<(), NoMemory>
    requires { names.now ≡ channels parts.now }
    ensures value { OnOk result (calls.new.items ≡ calls.old.items
        ++ spelled.other_calls (ended_in world.entry.now) me.now parts.now part.now asset) }
    ensures few { OnOk result (length calls.new.items ≤ length calls.old.items + 19) }
{
    match part {
        Part::Root(_) => Ok(()),
        Part::OnLedger(_, channel) => {
            put_transfer(calls, world, channel, &Dest::Person(*me), asset)
        }
        Part::End(v) => put_end_calls(calls, world, me, parts, names, v, asset),
        Part::Middle(v) => put_middle_calls(calls, world, me, parts, v, asset),
    }
}

// ---- of each asset, and of each part

fn put_root_of(
    calls: &mut Vec<Call>,
    world: &WorldView,
    me: &Name,
    names: &[Name],
    root: &Name,
    assets: &[u32],
) -> Result<(), NoMemory>
    ensures value { OnOk result (calls.new.items ≡ calls.old.items
        ++ flat_map (spelled.root_calls (ended_in world.entry.now) me.now names.now
        (variants.Root root.now)) assets.now) }
    ensures few { OnOk result (length calls.new.items ≤ length calls.old.items + 17 * length assets.now) }
{
    for asset in assets {
        put_transfers(calls, world, me, names, root, *asset)?;
    }
    Ok(())
}

fn put_other_of(
    calls: &mut Vec<Call>,
    world: &WorldView,
    me: &Name,
    parts: &[Part],
    names: &[Name],
    part: &Part,
    assets: &[u32],
) -> Result<(), NoMemory>
    requires { names.now ≡ channels parts.now }
    ensures value { OnOk result (calls.new.items ≡ calls.old.items
        ++ flat_map (spelled.other_calls (ended_in world.entry.now) me.now parts.now part.now) assets.now) }
    ensures few { OnOk result (length calls.new.items ≤ length calls.old.items + 19 * length assets.now) }
{
    for asset in assets {
        put_other_calls(calls, world, me, parts, names, part, *asset)?;
    }
    Ok(())
}

fn put_root(
    calls: &mut Vec<Call>,
    alloc: Global,
    world: &WorldView,
    me: &Name,
    names: &[Name],
    part: &Part,
) -> Result<(), NoMemory>
    ensures value { OnOk result (calls.new.items ≡ calls.old.items
        ++ spelled.of_each (ended_in world.entry.now)
        (spelled.root_calls (ended_in world.entry.now) me.now names.now) part.now) }
    ensures few { OnOk result (length calls.new.items ≤ length calls.old.items + 68) }
{
    match part {
        Part::Root(root) => {
            let assets = assets_of(alloc, world, &[*root])?;
            put_root_of(calls, world, me, names, root, &assets)
        }
        Part::OnLedger(_, _) => Ok(()),
        Part::End(_) => Ok(()),
        Part::Middle(_) => Ok(()),
    }
}

fn put_other(
    calls: &mut Vec<Call>,
    alloc: Global,
    world: &WorldView,
    me: &Name,
    parts: &[Part],
    names: &[Name],
    part: &Part,
) -> Result<(), NoMemory>
    requires { names.now ≡ channels parts.now }
    ensures value { OnOk result (calls.new.items ≡ calls.old.items
        ++ spelled.of_each (ended_in world.entry.now)
        (spelled.other_calls (ended_in world.entry.now) me.now parts.now) part.now) }
    ensures few { OnOk result (length calls.new.items ≤ length calls.old.items + 152) }
{
    let assets = assets_of_part(alloc, world, part)?;
    put_other_of(calls, world, me, parts, names, part, &assets)
}

fn put_all_roots(
    calls: &mut Vec<Call>,
    alloc: Global,
    world: &WorldView,
    me: &Name,
    names: &[Name],
    parts: &[Part],
) -> Result<(), NoMemory>
    ensures value { OnOk result (calls.new.items ≡ calls.old.items
        ++ flat_map (spelled.of_each (ended_in world.entry.now)
        (spelled.root_calls (ended_in world.entry.now) me.now names.now)) parts.now) }
    ensures few { OnOk result (length calls.new.items ≤ length calls.old.items + 68 * length parts.now) }
{
    for part in parts {
        put_root(calls, alloc, world, me, names, part)?;
    }
    Ok(())
}

fn put_all_others(
    calls: &mut Vec<Call>,
    alloc: Global,
    world: &WorldView,
    me: &Name,
    names: &[Name],
    parts: &[Part],
) -> Result<(), NoMemory>
    requires { names.now ≡ channels parts.now }
    ensures value { OnOk result (calls.new.items ≡ calls.old.items
        ++ flat_map (spelled.of_each (ended_in world.entry.now)
        (spelled.other_calls (ended_in world.entry.now) me.now parts.now)) parts.now) }
    ensures few { OnOk result (length calls.new.items ≤ length calls.old.items + 152 * length parts.now) }
{
    for part in parts {
        put_other(calls, alloc, world, me, parts, names, part)?;
    }
    Ok(())
}

// ---- the channels of the plan

fn put_virtual_channels(names: &mut Vec<Name>, v: &Virtual) -> Result<(), NoMemory>
    ensures { OnOk result (names.new.items ≡ names.old.items ++ channels_of_virtual v.now) }
{
    names.push(v.guarantor_a)?;
    names.push(v.guarantor_b)?;
    names.push(v.joint)?;
    names.push(v.channel)?;
    Ok(())
}

fn put_channels_of(names: &mut Vec<Name>, part: &Part) -> Result<(), NoMemory>
    ensures { OnOk result (names.new.items ≡ names.old.items ++ channels_of part.now) }
{
    match part {
        Part::Root(name) => {
            names.push(*name)?;
            Ok(())
        }
        Part::OnLedger(_, name) => {
            names.push(*name)?;
            Ok(())
        }
        Part::End(v) => put_virtual_channels(names, v),
        Part::Middle(v) => put_virtual_channels(names, v),
    }
}

fn names_of(alloc: Global, parts: &[Part]) -> Result<Vec<Name>, NoMemory>
    ensures { IfOk result (λ v. v.items ≡ channels parts.now) }
{
    let mut names = Vec::new(alloc);
    for part in parts {
        put_channels_of(&mut names, part)?;
    }
    Ok(names)
}

fn all_calls(
    alloc: Global,
    world: &WorldView,
    me: &Name,
    parts: &[Part],
) -> Result<Vec<Call>, NoMemory>
    ensures value { IfOk result (λ v. v.items ≡ spelled.exit_calls (ended_in world.entry.now) me.now parts.now) }
    ensures few { IfOk result (λ v. length v.items ≤ 220 * length parts.now) }
{
    let names = names_of(alloc, parts)?;
    let mut calls = Vec::new(alloc);
    put_all_roots(&mut calls, alloc, world, me, &names, parts)?;
    put_all_others(&mut calls, alloc, world, me, &names, parts)?;
    Ok(calls)
}

// ---- the fault

fn not_final_of_virtual(world: &WorldView, chains: &[HeldChain], v: &Virtual) -> Option<Name>
    ensures { result ≡ exits.not_final_of_virtual world.entry.now chains.now v.now }
{
    if let Some(name) = not_final(world, chains, &v.guarantor_a) {
        return Some(name);
    }
    if let Some(name) = not_final(world, chains, &v.guarantor_b) {
        return Some(name);
    }
    if let Some(name) = not_final(world, chains, &v.joint) {
        return Some(name);
    }
    not_final(world, chains, &v.channel)
}

fn not_final_of(world: &WorldView, chains: &[HeldChain], part: &Part) -> Option<Name>
    ensures { result ≡ exits.not_final_of world.entry.now chains.now part.now }
{
    match part {
        Part::Root(name) => not_final(world, chains, name),
        Part::OnLedger(_, name) => not_final(world, chains, name),
        Part::End(v) => not_final_of_virtual(world, chains, v),
        Part::Middle(v) => not_final_of_virtual(world, chains, v),
    }
}

fn first_not_final(world: &WorldView, chains: &[HeldChain], parts: &[Part]) -> Option<Name>
    ensures { result ≡ exits.first_not_final world.entry.now chains.now parts.now }
{
    match parts {
        [] => None,
        [part, others @ ..] => match not_final_of(world, chains, part) {
            Some(name) => Some(name),
            None => first_not_final(world, chains, others),
        },
    }
}

/// The calls of an exit, at most 220 of each part, or the first channel of the plan that has a held chain and isn't
/// final.
pub fn exit_calls(
    alloc: Global,
    plan: &Plan,
    view: &WorldView,
    chains: &[HeldChain],
) -> Result<Vec<Call>, ExitFault>
    ensures value { exits.Exits (λ v. v.items) result plan.now view.entry.now chains.now }
    ensures few { IfOk result (λ v. length v.items ≤ 220 * length plan.now.parts) }
{
    if let Some(name) = first_not_final(view, chains, plan.parts.as_slice()) {
        return Err(ExitFault::NotFinal(name));
    }
    let calls = all_calls(alloc, view, &plan.me, plan.parts.as_slice())?;
    Ok(calls)
}
