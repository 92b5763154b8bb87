//! Answers to queries.

ghost use Rattle.std.specs.Prelude.{◌≡◌, ◌++◌, map, flat_map, IsTrue, IfOk, OnOk, option_map, option_to_list};
ghost use Rattle.std.specs.List.{find};
ghost use Rattle.channel_values.specs.Rules.{top_turn, top_outcome};
ghost use Rattle.channel_values.specs.Spelling.{chain};
ghost use Rattle.channel_values.specs.Digests.{name_of_person};
ghost use Rattle.funding_plans.specs.Parts.{channels, channels_of};
ghost use Rattle.node_guarantees.specs.Ways.{ways};
ghost use Rattle.network_node.specs.Shares.{shares};
ghost use Rattle.node_lines.specs.Texts.{share_text, plan_text, chains_text};
ghost use Rattle.lasting_node.specs.Queries.{balance, moves_next, balance_over, is_of, balance_of, journal_of, IsReport, IsReply};

use crate::effects::own;
use crate::keeping::keeps_chain;
use crate::machine::NodeMachine;
use call_history::{Event, HeldChain, newest, top_turn};
use channel_values::{
    AssetOutcome, Chain, Key, Listed, Name, NoMemory, Outcome, State, person_name, total,
    write_chain,
};
use funding_plans::{Part, items_in};
use network::{Docket, Party};
use network_node::Node;
use node_guarantees::ReportedNode;
use node_lines::{
    AssetBalance, Query, Why, balance_text, chains_text, error_text, plan_text, report_text,
    share_text,
};
use premises::{Journal, distinct, is_in_time, is_unforged};
use std::alloc::Global;

fn balance(me: &Name, outcome: &Outcome, asset: &AssetOutcome) -> AssetBalance
    ensures { result ≡ balance me.now outcome.now asset.now }
{
    let all = total(items_in(outcome, asset.asset));
    let mine = own(me, outcome, asset.asset);
    AssetBalance {
        asset: asset.asset,
        mine: mine as u128,
        others: all.saturating_sub(mine) as u128,
    }
}

#[tactic(auto, using(premises::proofs::Adding::map_step))]
fn balances(alloc: Global, me: &Name, outcome: &Outcome) -> Result<Vec<AssetBalance>, NoMemory>
    ensures { IfOk result (λ all. all.items ≡ map (balance me.now outcome.now) outcome.now) }
{
    let mut all = Vec::new(alloc);
    for asset in outcome.assets() {
        let row = balance(me, outcome, asset);
        all.push(row)?;
    }
    Ok(all)
}

fn balances_of(alloc: Global, me: &Name, states: &[State]) -> Result<Vec<AssetBalance>, NoMemory>
    ensures { IfOk result (λ all. all.items ≡ map (balance me.now (top_outcome states.now)) (top_outcome states.now)) }
{
    match newest(states) {
        None => Ok(Vec::new(alloc)),
        Some(state) => balances(alloc, me, state.outcome()),
    }
}

// Whether the key is that of the next mover.
fn moves_next(key: &Key, chain: &Chain) -> bool
    ensures { result ≡ moves_next key.now chain.now }
{
    let turn = top_turn(chain.states.as_slice()) as u128 + 1;
    let keys = chain.fixed.keys();
    let place = (turn % keys.len() as u128) as usize;
    keys[place] == *key
}

fn balance_over(alloc: Global, key: &Key, held: Option<&HeldChain>) -> Result<Vec<u8>, NoMemory>
    ensures { IfOk result (λ text. text.items ≡ balance_over key.now (option_map (λ k. k.now) held.entry)) }
{
    let Some(held) = held else {
        return error_text(alloc, Why::Unknown);
    };
    let states = held.chain.states.as_slice();
    let rows = balances_of(alloc, &person_name(key), states)?;
    let is_mine = moves_next(key, &held.chain);
    balance_text(alloc, &held.channel, top_turn(states), &rows, is_mine)
}

fn held_of<'a>(chains: &'a [HeldChain], channel: &Name) -> Option<&'a HeldChain>
    ensures { option_map (λ k. k.now) result ≡ find (is_of channel.now) chains.now }
{
    match chains {
        [] => None,
        [first, rest @ ..] => {
            if first.channel == *channel {
                Some(first)
            } else {
                held_of(rest, channel)
            }
        }
    }
}

fn balance_of(alloc: Global, node: &Node, channel: &Name) -> Result<Vec<u8>, NoMemory>
    ensures { IfOk result (λ text. text.items ≡ balance_of node.now channel.now) }
{
    balance_over(alloc, node.key(), held_of(node.chains(), channel))
}

fn copied_events(alloc: Global, events: &[Event]) -> Result<Listed<Event>, NoMemory>
    ensures { IfOk result (λ all. all ≡ events.now) }
{
    let mut all = Vec::new(alloc);
    for event in events {
        let copy = event.copy()?;
        all.push(copy)?;
    }
    Ok(Listed::make(all))
}

fn journal_of(alloc: Global, node: &Node) -> Result<Journal, NoMemory>
    ensures { IfOk result (λ journal. journal ≡ journal_of node.now) }
{
    let events = copied_events(alloc, node.journal())?;
    Ok(Journal {
        number: node.number(),
        key: *node.key(),
        events,
    })
}

fn add_channels(all: &mut Vec<Name>, part: &Part) -> Result<(), NoMemory>
    ensures { OnOk result (all.new.items ≡ all.old.items ++ channels_of part.now) }
{
    match part {
        Part::Root(channel) | Part::OnLedger(_, channel) => all.push(*channel)?,
        Part::End(v) | Part::Middle(v) => {
            all.extend_from_slice(&[v.guarantor_a, v.guarantor_b, v.joint, v.channel])?
        }
    }
    Ok(())
}

#[tactic(auto, using(premises::proofs::Adding::joined_step))]
fn channels_of(alloc: Global, parts: &[Part]) -> Result<Vec<Name>, NoMemory>
    ensures { IfOk result (λ all. all.items ≡ channels parts.now) }
{
    let mut all = Vec::new(alloc);
    for part in parts {
        add_channels(&mut all, part)?;
    }
    Ok(all)
}

fn plan_of(alloc: Global, node: &Node) -> Result<Vec<u8>, NoMemory>
    ensures { IfOk result (λ text. text.items ≡ plan_text (channels node.now.node.mind.parts)) }
{
    let names = channels_of(alloc, node.plan().parts.as_slice())?;
    plan_text(alloc, &names)
}

fn chain_bytes(alloc: Global, value: &Chain) -> Result<Listed<u8>, NoMemory>
    ensures { IfOk result (λ bytes. bytes ≡ chain value.now) }
{
    if !keeps_chain(value) {
        return Err(NoMemory);
    }
    let mut bytes = Vec::new(alloc);
    write_chain(value, &mut bytes)?;
    Ok(Listed::make(bytes))
}

#[tactic(auto, using(premises::proofs::Adding::map_step))]
fn all_chain_bytes(alloc: Global, chains: &[HeldChain]) -> Result<Vec<Listed<u8>>, NoMemory>
    ensures { IfOk result (λ all. all.items ≡ map (λ k. chain k.chain) chains.now) }
{
    let mut all = Vec::new(alloc);
    for held in chains {
        let bytes = chain_bytes(alloc, &held.chain)?;
        all.push(bytes)?;
    }
    Ok(all)
}

fn chains_of(alloc: Global, node: &Node) -> Result<Vec<u8>, NoMemory>
    ensures { IfOk result (λ text. text.items ≡ chains_text (map (λ k. chain k.chain) (ways.chains node.now))) }
{
    let all = all_chain_bytes(alloc, node.chains())?;
    chains_text(alloc, &all)
}

impl NodeMachine {
    // Which premises hold.
    fn report(&self, alloc: Global) -> Result<Vec<u8>, NoMemory>
        ensures { IfOk result (λ text. IsReport self.now text.items) }
    {
        let journal = journal_of(alloc, &self.node)?;
        let history = self.ledger.entries();
        let unforged = is_unforged(alloc, history, &journal)?;
        let in_time = is_in_time(alloc, history, &journal)?;
        let distinct = distinct(alloc, history, &[journal])?;
        report_text(alloc, unforged, distinct, in_time, self.node.exit_shares())
    }

    fn share(&self, alloc: Global, asset: u32) -> Result<Vec<u8>, NoMemory>
        ensures { IfOk result (λ text. text.items ≡ share_text asset (shares self.now.node asset)) }
    {
        let amount = self.node.share(asset)?;
        share_text(alloc, asset, amount)
    }

    /// The answer to a query.
    pub(crate) fn reply_to(&self, alloc: Global, query: Query) -> Result<Vec<u8>, NoMemory>
        ensures { IfOk result (λ text. IsReply self.now query text.items) }
    {
        match query {
            Query::Share(asset) => self.share(alloc, asset),
            Query::Balance(channel) => balance_of(alloc, &self.node, &channel),
            Query::Report => self.report(alloc),
            Query::Plan => plan_of(alloc, &self.node),
            Query::Chains => chains_of(alloc, &self.node),
            Query::Resend => self.resend(alloc),
        }
    }
}
