//! What people with nodes can get, and what they could when they were commanded to exit.

ghost use Rattle.std.specs.Prelude.{◌≡◌, ◌++◌, flat_map, IfOk, OnOk, IsTrue};
ghost use Rattle.play_report.specs.Members.{AllFollowed};
ghost use Rattle.play_report.specs.Shares.{HasFollowed, known_shares, exits_for, known_exits};
ghost use Rattle.node_guarantees.specs.Telling.{amount_then};

use channel_values::{Name, NoMemory, person_name};
use network::{Member, Party};
use node_guarantees::ReportedNode;
use report_text::Share;
use std::alloc::Global;

fn has_followed<P: ReportedNode>(node: &P, count: usize) -> bool
    ensures { IsTrue result → HasFollowed P.ways P.lost count node.now }
{
    !node.is_lost() && node.seen() as usize == count
}

/// Each node has followed so many entries; else memory ran out.
pub(crate) fn have_followed<P: ReportedNode>(
    members: &[Member<P>],
    count: usize,
) -> Result<(), NoMemory>
    ensures { OnOk result (AllFollowed P.ways P.lost count members.now) }
{
    for member in members {
        if !has_followed(member.node(), count) {
            return Err(NoMemory);
        }
    }
    Ok(())
}

/// Adds what a person can get of each of these assets.
#[tactic(auto, using(premises::proofs::Adding::map_step))]
fn add_shares<P: ReportedNode>(
    all: &mut Vec<Share>,
    assets: &[u32],
    node: &P,
) -> Result<(), NoMemory>
    ensures { OnOk result (all.new.items ≡ all.old.items ++ known_shares P.ways P.shares assets.now node.now) }
{
    let person = person_name(node.key());
    for asset in assets {
        let amount = node.share(*asset)?;
        all.push(Share {
            person,
            asset: *asset,
            amount,
        })?;
    }
    Ok(())
}

/// What each person with a node can get of each of these assets.
#[tactic(auto, using(premises::proofs::Adding::joined_step))]
pub(crate) fn shares_of<P: ReportedNode>(
    alloc: Global,
    assets: &[u32],
    members: &[Member<P>],
) -> Result<Vec<Share>, NoMemory>
    ensures { IfOk result (λ all. all.items ≡ flat_map (λ m.
        known_shares P.ways P.shares assets.now m.node) members.now) }
{
    let mut all = Vec::new(alloc);
    for member in members {
        add_shares(&mut all, assets, member.node())?;
    }
    Ok(all)
}

/// The amount of an asset, 0 where there is none.
fn amount_then(amounts: &[(u32, u128)], asset: u32) -> u128
    ensures { result ≡ amount_then amounts.now asset }
{
    match amounts {
        [] => 0,
        [first, ..] if first.0 == asset => first.1,
        [_, rest @ ..] => amount_then(rest, asset),
    }
}

/// Adds what a person could get then of each of these assets.
#[tactic(auto, using(premises::proofs::Adding::map_step))]
fn add_amounts(
    all: &mut Vec<Share>,
    person: Name,
    assets: &[u32],
    amounts: &[(u32, u128)],
) -> Result<(), NoMemory>
    ensures { OnOk result (all.new.items ≡ all.old.items ++ exits_for person assets.now amounts.now) }
{
    for asset in assets {
        let amount = amount_then(amounts, *asset);
        all.push(Share {
            person,
            asset: *asset,
            amount,
        })?;
    }
    Ok(())
}

/// Adds what a person could get when it was commanded to exit, if it was.
#[tactic(auto, using(premises::proofs::Adding::nothing_more))]
fn add_exits<P: ReportedNode>(
    all: &mut Vec<Share>,
    assets: &[u32],
    node: &P,
) -> Result<(), NoMemory>
    ensures { OnOk result (all.new.items ≡ all.old.items ++ known_exits P.ways P.exits assets.now node.now) }
{
    match node.exit_shares() {
        None => Ok(()),
        Some(amounts) => add_amounts(all, person_name(node.key()), assets, amounts),
    }
}

/// What each person with a node could get when it was commanded to exit.
#[tactic(auto, using(premises::proofs::Adding::joined_step))]
pub(crate) fn exits_of<P: ReportedNode>(
    alloc: Global,
    assets: &[u32],
    members: &[Member<P>],
) -> Result<Vec<Share>, NoMemory>
    ensures { IfOk result (λ all. all.items ≡ flat_map (λ m.
        known_exits P.ways P.exits assets.now m.node) members.now) }
{
    let mut all = Vec::new(alloc);
    for member in members {
        add_exits(&mut all, assets, member.node())?;
    }
    Ok(all)
}
