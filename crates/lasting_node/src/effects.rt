//! What a node says of an entry, a message, a command and the time.

ghost use Rattle.std.specs.Prelude.{◌≡◌, ◌<◌, ◌+◌, ◌^◌, ◌++◌, length, IfOk, OnOk, Ok, option_map, option_to_list};
ghost use Rattle.std.specs.List.{flat_map};
ghost use Rattle.channel_values.specs.Rules.{top_outcome};
ghost use Rattle.call_history.specs.History.{time_set};
ghost use Rattle.call_history.specs.Rows.{fixed_of};
ghost use Rattle.history_view.specs.Views.{view_of};
ghost use Rattle.lasting_node.specs.Effects.{sends, calls, spent, holds_chain, turned, turned_own, paid_from, paid_to, runs_out, final_by_time, run_out, of_entry, own, gain, gain_over, took, of_message, earlier, to_come, deadline_of, next_deadline, told_deadline, of_time};

use call_bytes::read_message;
use call_history::{
    Call, Entry, Flow, HeldChain, Op, Reply, Standing, WorldView, fixed_of, flow_of, mode, newest,
    time_set,
};
use channel_values::{
    AssetOutcome, ByteFault, Dest, Listed, Name, NoMemory, Outcome, Signed, State, channel_name,
    person_name,
};
use funding_plans::{amt, items_in};
use history_view::view_of;
use network::Party;
use network_node::Node;
use node_lines::Effect;
use std::alloc::Global;

/// Adds an effect, if there is one.
fn add(effects: &mut Vec<Effect>, effect: Option<Effect>) -> Result<(), NoMemory>
    ensures { OnOk result (effects.new.items ≡ effects.old.items ++ option_to_list effect) }
{
    if let Some(effect) = effect {
        effects.push(effect)?;
    }
    Ok(())
}

/// Adds messages to carry.
#[tactic(auto, using(premises::proofs::Adding::map_step))]
pub(crate) fn add_sends(
    effects: &mut Vec<Effect>,
    letters: &[(Name, Listed<u8>)],
) -> Result<(), NoMemory>
    ensures { OnOk result (effects.new.items ≡ effects.old.items ++ sends letters.now) }
{
    for letter in letters {
        let bytes = letter.1.copy()?;
        effects.push(Effect::Send {
            to: letter.0,
            bytes,
        })?;
    }
    Ok(())
}

/// Adds calls to enter, with the first at this place.
#[tactic(auto, using(crate::proofs::Steps::calls_step))]
pub(crate) fn add_calls(
    effects: &mut Vec<Effect>,
    place: u32,
    given: &[Call],
) -> Result<(), NoMemory>
    requires { place + length given.now < 2 ^ 32 }
    ensures { OnOk result (effects.new.items ≡ effects.old.items ++ calls place given.now) }
{
    let mut next = place;
    for call in given {
        let copy = call.copy()?;
        effects.push(Effect::Call {
            place: next,
            call: copy,
        })?;
        next += 1;
    }
    Ok(())
}

/// Adds that the key is spent, where it is.
pub(crate) fn add_spent(effects: &mut Vec<Effect>, used: Option<u32>) -> Result<(), NoMemory>
    ensures { OnOk result (effects.new.items ≡ effects.old.items ++ spent used) }
{
    if let Some(used) = used {
        effects.push(Effect::Spent(used))?;
    }
    Ok(())
}

fn holds_chain(chains: &[HeldChain], channel: &Name) -> bool
    ensures { result ≡ holds_chain chains.now channel.now }
{
    chains.iter().any(|held| held.channel == *channel)
}

fn turned(channel: Name, reply: &Reply) -> Option<Effect>
    ensures { option_to_list result ≡ turned channel reply.now }
{
    match reply {
        Reply::Until(time) => Some(Effect::Challenged {
            channel,
            until: *time,
        }),
        Reply::Concluded(_) => Some(Effect::Final { channel }),
        _ => None,
    }
}

/// What an entry says of a channel of which the node holds a chain.
fn turned_own(chains: &[HeldChain], op: &Op, reply: &Reply) -> Option<Effect>
    ensures { option_to_list result ≡ turned_own chains.now (fixed_of op.now) reply.now }
{
    match fixed_of(op) {
        None => None,
        Some(fixed) => {
            let channel = channel_name(fixed.bytes());
            if holds_chain(chains, &channel) {
                turned(channel, reply)
            } else {
                None
            }
        }
    }
}

fn paid_from(flow: &Flow) -> Option<Effect>
    ensures { option_to_list result ≡ paid_from flow.now.from flow.now }
{
    match flow.from {
        None => None,
        Some(channel) => Some(Effect::Paid {
            channel,
            asset: flow.asset,
            amount: flow.amount,
        }),
    }
}

/// What a channel paid this person.
fn paid_to(me: &Name, flow: &Flow) -> Option<Effect>
    ensures { option_to_list result ≡ paid_to me.now flow.now }
{
    if flow.to.is(&Dest::Person(*me)) {
        paid_from(flow)
    } else {
        None
    }
}

fn add_paid(effects: &mut Vec<Effect>, me: &Name, flow: Option<Flow>) -> Result<(), NoMemory>
    ensures { OnOk result (effects.new.items
        ≡ effects.old.items ++ flat_map (paid_to me.now) (option_to_list flow)) }
{
    match flow {
        None => Ok(()),
        Some(flow) => add(effects, paid_to(me, &flow)),
    }
}

/// Whether a challenge is open at the time before, and has run out at the time after.
fn runs_out(before: u64, after: u64, deadline: Option<u64>) -> bool
    ensures { result ≡ runs_out before after deadline }
{
    mode(deadline, before) == Standing::Challenged && mode(deadline, after) == Standing::Final
}

/// The deadline that the chain's channel has, if it has one.
fn deadline_in(view: &WorldView, held: &HeldChain) -> Option<u64>
    ensures { result ≡ (view_of view.entry.now.channels held.now.channel).deadline }
{
    match view_of(view, &held.channel) {
        None => None,
        Some(known) => known.deadline,
    }
}

/// That the chain's channel is final, if its challenge ran out.
fn final_by_time(before: u64, after: u64, view: &WorldView, held: &HeldChain) -> Option<Effect>
    ensures { option_to_list result ≡ final_by_time before after view.entry.now held.now }
{
    if runs_out(before, after, deadline_in(view, held)) {
        Some(Effect::Final {
            channel: held.channel,
        })
    } else {
        None
    }
}

/// Adds the channels of these chains whose challenge is open at the time before and has run out at the time after, in the
/// order of the chains.
#[tactic(auto, using(premises::proofs::Adding::joined_step))]
pub fn add_final_by_time(
    effects: &mut Vec<Effect>,
    before: u64,
    after: u64,
    view: &WorldView,
    chains: &[HeldChain],
) -> Result<(), NoMemory>
    ensures { OnOk result (effects.new.items
        ≡ effects.old.items ++ flat_map (final_by_time before after view.entry.now) chains.now) }
{
    for held in chains {
        add(effects, final_by_time(before, after, view, held))?;
    }
    Ok(())
}

/// Adds the channels whose challenge runs out by the time that an entry sets, if it does.
fn add_run_out(
    effects: &mut Vec<Effect>,
    before: u64,
    node: &Node,
    entry: &Entry,
) -> Result<(), NoMemory>
    ensures { OnOk result (effects.new.items
        ≡ effects.old.items ++ run_out before node.now (time_set entry.now.op entry.now.reply)) }
{
    match time_set(entry) {
        None => Ok(()),
        Some(after) => add_final_by_time(effects, before, after, node.view(), node.chains()),
    }
}

/// Adds what an entry says of the node's channels and of its person, once the node has followed it. The time is that
/// before it.
pub(crate) fn add_entry(
    effects: &mut Vec<Effect>,
    before: u64,
    node: &Node,
    entry: &Entry,
) -> Result<(), NoMemory>
    ensures { OnOk result (effects.new.items
        ≡ effects.old.items ++ of_entry before node.now entry.now.op entry.now.reply) }
{
    add_run_out(effects, before, node, entry)?;
    add(effects, turned_own(node.chains(), &entry.op, &entry.reply))?;
    let me = person_name(node.key());
    add_paid(effects, &me, flow_of(&entry.op, &entry.reply))
}

/// What an outcome has for this person.
pub(crate) fn own(me: &Name, outcome: &Outcome, asset: u32) -> u64
    ensures { result ≡ own me.now outcome.now asset }
{
    amt(items_in(outcome, asset), &Dest::Person(*me))
}

/// What the last of these states has for this person.
fn own_before(me: &Name, states: &[State], asset: u32) -> u64
    ensures { result ≡ own me.now (top_outcome states.now) asset }
{
    match newest(states) {
        None => 0,
        Some(state) => own(me, state.outcome(), asset),
    }
}

fn gain(
    me: &Name,
    channel: &Name,
    states: &[State],
    after: &Outcome,
    asset: &AssetOutcome,
) -> Option<Effect>
    ensures { option_to_list result
        ≡ gain me.now channel.now (top_outcome states.now) after.now asset.now }
{
    let before = own_before(me, states, asset.asset);
    let now = own(me, after, asset.asset);
    if before < now {
        Some(Effect::Gained {
            channel: *channel,
            asset: asset.asset,
            amount: now - before,
        })
    } else {
        None
    }
}

#[tactic(auto, using(premises::proofs::Adding::joined_step))]
fn add_gains(
    effects: &mut Vec<Effect>,
    me: &Name,
    channel: &Name,
    states: &[State],
    after: &Outcome,
) -> Result<(), NoMemory>
    ensures { OnOk result (effects.new.items
        ≡ effects.old.items ++ flat_map (gain me.now channel.now (top_outcome states.now) after.now) after.now) }
{
    for asset in after.assets() {
        add(effects, gain(me, channel, states, after, asset))?;
    }
    Ok(())
}

/// Adds what a state brings the person in a payment channel, over the chain that is held of it.
fn add_gains_over(
    effects: &mut Vec<Effect>,
    me: &Name,
    channel: &Name,
    after: &Outcome,
    held: &HeldChain,
) -> Result<(), NoMemory>
    ensures { OnOk result (effects.new.items
        ≡ effects.old.items ++ gain_over me.now channel.now after.now held.now) }
{
    if held.channel == *channel && held.chain.fixed.app() == 1 {
        add_gains(effects, me, channel, held.chain.states.as_slice(), after)?;
    }
    Ok(())
}

#[tactic(auto, using(premises::proofs::Adding::joined_step))]
fn add_all_gains(
    effects: &mut Vec<Effect>,
    me: &Name,
    channel: &Name,
    after: &Outcome,
    chains: &[HeldChain],
) -> Result<(), NoMemory>
    ensures { OnOk result (effects.new.items
        ≡ effects.old.items ++ flat_map (gain_over me.now channel.now after.now) chains.now) }
{
    for held in chains {
        add_gains_over(effects, me, channel, after, held)?;
    }
    Ok(())
}

fn add_took(
    effects: &mut Vec<Effect>,
    node: &Node,
    channel: &Name,
    signed: &Signed,
) -> Result<(), NoMemory>
    ensures { OnOk result (effects.new.items
        ≡ effects.old.items ++ took node.now (Ok (channel.now, signed.now))) }
{
    effects.push(Effect::Took {
        channel: *channel,
        turn: signed.state.turn(),
    })?;
    let me = person_name(node.key());
    add_all_gains(effects, &me, channel, signed.state.outcome(), node.chains())
}

/// Adds what is said of a message that the node takes.
pub(crate) fn add_message(
    alloc: Global,
    effects: &mut Vec<Effect>,
    node: &Node,
    bytes: &[u8],
) -> Result<(), NoMemory>
    ensures { OnOk result (effects.new.items ≡ effects.old.items ++ of_message node.now bytes.now) }
{
    match read_message(alloc, bytes) {
        Ok(message) => add_took(effects, node, &message.0, &message.1),
        Err(ByteFault::NoMemory) => Err(NoMemory),
        Err(_) => Ok(()),
    }
}

/// The earlier of two times, of which each may be missing.
fn earlier(first: Option<u64>, second: Option<u64>) -> Option<u64>
    ensures { result ≡ earlier first second }
{
    match (first, second) {
        (None, _) => second,
        (Some(_), None) => first,
        (Some(a), Some(b)) if b < a => second,
        (Some(_), Some(_)) => first,
    }
}

fn to_come(now: u64, deadline: Option<u64>) -> Option<u64>
    ensures { result ≡ to_come now deadline }
{
    match deadline {
        Some(time) if now < time => deadline,
        _ => None,
    }
}

fn deadline_of(view: &WorldView, held: &HeldChain) -> Option<u64>
    ensures { result ≡ deadline_of view.entry.now held.now }
{
    to_come(view.now, deadline_in(view, held))
}

/// The next deadline of a challenge in the channels of which the node holds a chain.
fn next_deadline(node: &Node) -> Option<u64>
    ensures { result ≡ next_deadline node.now }
{
    let view = node.view();
    let mut next = None;
    for held in node.chains() {
        next = earlier(next, deadline_of(view, held));
    }
    next
}

/// Adds the next deadline, if there is one.
pub(crate) fn add_time(effects: &mut Vec<Effect>, node: &Node) -> Result<(), NoMemory>
    ensures { OnOk result (effects.new.items ≡ effects.old.items ++ of_time node.now) }
{
    if let Some(time) = next_deadline(node) {
        effects.push(Effect::Deadline(time))?;
    }
    Ok(())
}
