//! Payments: why one is refused, and the state of one that was taken up.

ghost use Rattle.std.specs.Prelude.{◌≡◌, ◌<◌, ◌≤◌, ◌==◌, ◌&&◌, ◌^◌, nat_lt, Some, IfOk};
ghost use Rattle.std.specs.Option.{option_copied};
ghost use Rattle.channel_values.specs.Amounts as amounts;
ghost use Rattle.channel_values.specs.Rules.{people};
ghost use Rattle.channel_store.specs.Keeping.{next_of};
ghost use Rattle.channel_store.specs.Storing.{kept_of};
ghost use Rattle.funding_plans.specs.Shapes.{items_in};
ghost use Rattle.network.specs.declared.command.Command.TheVariants.{Pay};
ghost use Rattle.channel_node.specs.Refusing as refusing;
ghost use Rattle.stage_tables.specs.Stages.{stages};
ghost use Rattle.node_decisions.specs.Paying.{or_nothing, OnlyMemory, IsPayable};
ghost use Rattle.support_rules.specs.Real.{real};

use crate::live::{has_left, not_open, not_running, part_joined};
use crate::moving::{Payment, items_of, state_of};
use crate::signing::{follows, is_own_turn, signable_if};
use call_history::NodeRefusal;
use channel_store::Kept;
use channel_values::{ByteFault, Dest, Name, NoMemory, Outcome, State};
use funding_plans::Goal;
use node_knowledge::{Known, place_with};
use support_rules::{people_of, unless_memory};

fn goal_of<'a>(known: &'a Known, channel: &Name) -> Option<&'a Goal>
    ensures { option_copied result ≡ refusing.goal_of known.now channel.now }
{
    let place = place_with(channel, known.parts());
    known
        .goals()
        .iter()
        .find(|goal| goal.part as usize == place)
}

fn opening_of<'a>(goal: Option<&'a Goal>) -> Option<&'a Outcome>
    ensures { or_nothing (option_copied result) ≡ refusing.opening_of (option_copied goal.entry) }
{
    match goal {
        None => None,
        Some(goal) => Some(&goal.opening),
    }
}

/// The outcome of the latest state, or the one with which the channel opens.
fn latest_outcome<'a>(known: &'a Known, channel: &Name, k: &'a Kept) -> Option<&'a Outcome>
    ensures { or_nothing (option_copied result) ≡ refusing.latest_outcome known.now channel.now k.now }
{
    match k.latest() {
        None => opening_of(goal_of(known, channel)),
        Some(latest) => Some(latest.outcome()),
    }
}

fn own(k: &Kept) -> Dest
    requires { k.now.me < people k.now.chain.fixed }
    ensures { result ≡ refusing.own k.now }
{
    let people = people_of(&k.chain.fixed);
    Dest::Person(people.as_slice()[k.me as usize])
}

fn other(k: &Kept) -> Dest
    ensures { result ≡ refusing.other k.now }
{
    let _ = k.chain.fixed.keys();
    let people = people_of(&k.chain.fixed);
    Dest::Person(people.as_slice()[1u8.saturating_sub(k.me) as usize])
}

fn payment_of(k: &Kept, asset: u32, amount: u64) -> Payment
    requires { k.now.me < people k.now.chain.fixed }
    ensures { result ≡ record { from = refusing.own k.now; to = refusing.other k.now; asset = asset; amount = amount } }
{
    Payment {
        from: own(k),
        to: other(k),
        asset,
        amount,
    }
}

/// The next state, with the amount paid to the other. Where the turn fits a state and the amount is there, it fails
/// only when memory runs out.
fn paid_state(
    known: &Known,
    channel: &Name,
    asset: u32,
    amount: u64,
    k: &Kept,
) -> Result<State, ByteFault>
    requires { k.now.me < people k.now.chain.fixed }
    ensures value { IfOk result (λ s. s ≡ refusing.paying known.now channel.now asset amount k.now) }
    ensures large { next_of k.now < 2 ^ 48
        → OnlyMemory (amount ≤ amounts.amt (items_in asset (refusing.latest_outcome known.now channel.now k.now))
        (refusing.own k.now)) result }
{
    let payment = payment_of(k, asset, amount);
    let outcome = latest_outcome(known, channel, k);
    let alloc = known.view().channels.allocator();
    state_of(alloc, k.next(), &payment, outcome)
}

/// Whether the channel is one for payments, and has a turn left.
fn takes_payments(k: &Kept) -> bool
    ensures { result ≡ (k.now.chain.fixed.app == 1 && nat_lt (next_of k.now) (2 ^ 48)) }
{
    k.chain.fixed.app() == 1 && k.next() < 1 << 48
}

fn is_payable(
    known: &Known,
    channel: &Name,
    asset: u32,
    amount: u64,
    k: &Kept,
) -> Result<bool, NoMemory>
    requires { k.now.me < people k.now.chain.fixed }
    ensures { IfOk result (λ b. b ≡ refusing.is_payable real known.now channel.now asset amount k.now
        (items_in asset (refusing.latest_outcome known.now channel.now k.now))) }
{
    let payment = payment_of(k, asset, amount);
    let outcome = latest_outcome(known, channel, k);
    if !takes_payments(k) || !payment.is_covered(items_of(outcome, asset)) {
        return Ok(false);
    }
    let state = unless_memory(paid_state(known, channel, asset, amount, k))?;
    Ok(follows(k, &state))
}

/// Why the channel that is kept takes no payment, with a key that signs `limit` times and has signed `used` times.
fn refusal_in(
    known: &Known,
    limit: u32,
    used: u32,
    channel: &Name,
    asset: u32,
    amount: u64,
    k: &Kept,
) -> Result<Option<NodeRefusal>, NoMemory>
    ensures { IfOk result (λ o. o ≡ refusing.pay_refusal stages real limit used known.now channel.now asset amount
        (Some k.now)) }
{
    let facts = known.facts();
    if let Some(refusal) = not_open(&facts) {
        return Ok(Some(refusal));
    }
    if !is_own_turn(k) {
        return Ok(Some(NodeRefusal::NotNext(k.next())));
    }
    if !is_payable(known, channel, asset, amount, k)? {
        return Ok(Some(NodeRefusal::NotAStep));
    }
    if let Some(refusal) = has_left(known) {
        return Ok(Some(refusal));
    }
    if let Some(refusal) = not_running(&facts, part_joined(channel, known.parts())) {
        return Ok(Some(refusal));
    }
    if limit <= used {
        return Ok(Some(NodeRefusal::KeySpent(used)));
    }
    Ok(None)
}

/// Why a payment is refused, with a key that signs `limit` times and has signed `used` times.
pub fn pay_refusal(
    known: &Known,
    limit: u32,
    used: u32,
    channel: &Name,
    asset: u32,
    amount: u64,
) -> Result<Option<NodeRefusal>, NoMemory>
    ensures { IfOk result (λ o. o ≡ refusing.pay_refusal stages real limit used known.now channel.now asset amount
        (kept_of channel.now known.now.kept)) }
{
    match known.store().kept(channel) {
        None => Ok(Some(NodeRefusal::UnknownChannel)),
        Some(k) => refusal_in(known, limit, used, channel, asset, amount, k),
    }
}

/// The state of a payment that isn't refused, where the node can sign it.
#[tactic(auto, using(crate::proofs::Signed::pays_nothing_more, crate::proofs::Signed::signs_no_payment, crate::proofs::Signed::signs_at_own_turn, crate::proofs::Signed::signs_payment, crate::proofs::Payable::has_turn, crate::proofs::Payable::has_amount))]
pub fn paying(
    known: &Known,
    channel: &Name,
    asset: u32,
    amount: u64,
) -> Result<Option<State>, NoMemory>
    requires { IsPayable known.now channel.now asset amount (kept_of channel.now known.now.kept) }
    ensures { IfOk result (λ o. o ≡ refusing.signs_in stages real
        (Some (Pay channel.now asset amount)) known.now channel.now) }
{
    if known.left() {
        return Ok(None);
    }
    let Some(k) = known.store().kept(channel) else {
        return Ok(None);
    };
    if !is_own_turn(k) {
        return Ok(None);
    }
    let state = unless_memory(paid_state(known, channel, asset, amount, k))?;
    Ok(signable_if(&known.facts(), channel, k, Some(state)))
}
