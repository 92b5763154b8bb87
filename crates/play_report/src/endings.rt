//! How people with nodes ended, for somebody who checks a record of the run.

ghost use Rattle.std.specs.Prelude.{◌≡◌, map, IfOk};
ghost use Rattle.play_report.specs.Shares.{known_amounts, known_ending};

use call_history::{HeldChain, Known};
use channel_values::{Listed, NoMemory, person_name};
use funding_plans::Plan;
use network::{Member, Party};
use node_guarantees::ReportedNode;
use run_record::Ending;
use std::alloc::Global;

fn copied_plan(plan: &Plan) -> Result<Plan, NoMemory>
    ensures { IfOk result (λ copy. copy ≡ plan.now) }
{
    let parts = plan.parts.copy()?;
    Ok(Plan { me: plan.me, parts })
}

fn copied_state(state: &Known) -> Result<Known, NoMemory>
    ensures { IfOk result (λ copy. copy ≡ state.now) }
{
    let last = state.last.copy()?;
    Ok(Known {
        channel: state.channel,
        last,
    })
}

fn copied_states(alloc: Global, states: &[Known]) -> Result<Vec<Known>, NoMemory>
    ensures { IfOk result (λ copies. copies.items ≡ states.now) }
{
    let mut copies = Vec::new(alloc);
    for state in states {
        let copy = copied_state(state)?;
        copies.push(copy)?;
    }
    Ok(copies)
}

fn copied_chain(held: &HeldChain) -> Result<HeldChain, NoMemory>
    ensures { IfOk result (λ copy. copy ≡ held.now) }
{
    let chain = held.chain.copy()?;
    Ok(HeldChain {
        channel: held.channel,
        chain,
    })
}

fn copied_chains(alloc: Global, chains: &[HeldChain]) -> Result<Vec<HeldChain>, NoMemory>
    ensures { IfOk result (λ copies. copies.items ≡ chains.now) }
{
    let mut copies = Vec::new(alloc);
    for chain in chains {
        let copy = copied_chain(chain)?;
        copies.push(copy)?;
    }
    Ok(copies)
}

/// What a node's person can get of each of these assets.
fn amounts_of<P: ReportedNode>(
    alloc: Global,
    assets: &[u32],
    node: &P,
) -> Result<Vec<(u32, u128)>, NoMemory>
    ensures { IfOk result (λ all. all.items ≡ known_amounts P.shares assets.now node.now) }
{
    let mut all = Vec::new(alloc);
    for asset in assets {
        let amount = node.share(*asset)?;
        all.push((*asset, amount))?;
    }
    Ok(all)
}

/// How a person with a node ended: what the node knows, and what it can get of each of these assets.
fn ending_of<P: ReportedNode>(alloc: Global, assets: &[u32], node: &P) -> Result<Ending, NoMemory>
    ensures { IfOk result (λ ending. ending ≡ known_ending P.ways P.facts P.shares assets.now node.now) }
{
    let plan = copied_plan(node.own_plan())?;
    let known = copied_states(alloc, node.own_states())?;
    let chains = copied_chains(alloc, node.own_chains())?;
    let shares = amounts_of(alloc, assets, node)?;
    Ok(Ending {
        person: person_name(node.key()),
        plan,
        known: Listed::make(known),
        chains: Listed::make(chains),
        shares: Listed::make(shares),
    })
}

/// How each person with a node ended, in their order.
#[tactic(auto, using(premises::proofs::Adding::map_step))]
pub(crate) fn endings_of<P: ReportedNode>(
    alloc: Global,
    assets: &[u32],
    members: &[Member<P>],
) -> Result<Vec<Ending>, NoMemory>
    ensures { IfOk result (λ all. all.items
        ≡ map (λ m. known_ending P.ways P.facts P.shares assets.now m.node) members.now) }
{
    let mut all = Vec::new(alloc);
    for member in members {
        let ending = ending_of(alloc, assets, member.node())?;
        all.push(ending)?;
    }
    Ok(all)
}
