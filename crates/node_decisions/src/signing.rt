//! What a node signs: what comes next, at its own turn, and follows, in a channel that is open.

ghost use Rattle.std.specs.Prelude.{◌≡◌, ◌<◌, ◌==◌, ◌&&◌, true, is_none, None, Some, IfOk, if◌then◌else◌};
ghost use Rattle.channel_values.specs.Rows.{mover};
ghost use Rattle.channel_values.specs.Rules.{people};
ghost use Rattle.channel_store.specs.Keeping.{next_of};
ghost use Rattle.channel_node.specs.Minds.{facts_of};
ghost use Rattle.channel_node.specs.Refusing as refusing;
ghost use Rattle.stage_tables.specs.Stages.{stages};
ghost use Rattle.support_rules.specs.Real.{real};

use crate::live::not_open;
use channel_store::Kept;
use channel_values::{Name, NoMemory, State, mover_at};
use funding_plans::Facts;
use node_knowledge::{Known, is_open, stands_in};
use stage_tables::wanted;
use std::alloc::Global;

/// Whether the next turn is the node's own.
pub(crate) fn is_own_turn(k: &Kept) -> bool
    ensures value { result ≡ (mover (people k.now.chain.fixed) (next_of k.now) == k.now.me) }
    ensures place { result ≡ true → k.now.me < people k.now.chain.fixed }
{
    mover_at(&k.chain.fixed, k.next()) == k.me as usize
}

/// Whether the state follows from the latest one, where there is one.
pub(crate) fn follows(k: &Kept, state: &State) -> bool
    ensures { result ≡ refusing.follows real k.now state.now }
{
    if k.is_ended() {
        return false;
    }
    match k.follow(state) {
        Ok(()) => true,
        Err(_) => false,
    }
}

fn is_next(k: &Kept, state: &State) -> bool
    ensures { result ≡ ((state.now.turn == next_of k.now) &&
        (mover (people k.now.chain.fixed) state.now.turn == k.now.me)) }
{
    state.turn() == k.next() && mover_at(&k.chain.fixed, state.turn()) == k.me as usize
}

fn can_sign(facts: &Facts, channel: &Name, k: &Kept, state: &State) -> bool
    ensures { result ≡ refusing.can_sign real facts.now channel.now k.now state.now }
{
    follows(k, state) && (is_next(k, state) && is_open(stands_in(facts, channel)))
}

/// The state, where the node can sign it.
pub(crate) fn signable_if(
    facts: &Facts,
    channel: &Name,
    k: &Kept,
    state: Option<State>,
) -> Option<State>
    ensures { result ≡ refusing.if_signable real facts.now channel.now k.now state }
{
    match state {
        None => None,
        Some(state) => {
            if can_sign(facts, channel, k, &state) {
                Some(state)
            } else {
                None
            }
        }
    }
}

/// What the stage wants while every live channel is open.
fn wished(alloc: Global, facts: &Facts, channel: &Name) -> Result<Option<State>, NoMemory>
    ensures { IfOk result (λ o. o ≡ (if is_none
        (refusing.not_open stages facts.now) then stages.wanted facts.now channel.now else None)) }
{
    match not_open(facts) {
        None => wanted(alloc, facts, channel),
        Some(_) => Ok(None),
    }
}

/// The same of a node that didn't leave; nothing is wanted once it left.
fn wished_by(known: &Known, channel: &Name) -> Result<Option<State>, NoMemory>
    ensures { IfOk result (λ o. o ≡ (if known.now.left then None else
        (if is_none (refusing.not_open stages (facts_of known.now)) then stages.wanted
        (facts_of known.now) channel.now else None))) }
{
    if known.left() {
        return Ok(None);
    }
    wished(known.view().channels.allocator(), &known.facts(), channel)
}

/// The state that the node signs in a channel.
#[tactic(auto, using(crate::proofs::Signed::signs_nothing, crate::proofs::Signed::signs_wanted))]
pub fn signable(known: &Known, channel: &Name) -> Result<Option<State>, NoMemory>
    ensures { IfOk result (λ o. o ≡ refusing.signs_in stages real None known.now channel.now) }
{
    let Some(k) = known.store().kept(channel) else {
        return Ok(None);
    };
    let facts = known.facts();
    let state = wished_by(known, channel)?;
    Ok(signable_if(&facts, channel, k, state))
}
