//! The stage of a part of any kind, and which part is asked about a channel.

ghost use Rattle.std.specs.Prelude.{◌≡◌, IfOk};
ghost use Rattle.std.specs.Option.{option_copied};
ghost use Rattle.stage_tables.specs.Asked as asked;

use channel_values::{Name, NoMemory, State};
use funding_plans::{Facts, Goal, Part, goal_in};
use std::alloc::Global;

/// The stage of a part.
pub fn stage(part: &Part, facts: &Facts) -> u8
    ensures { result ≡ asked.stage_of facts.now part.now }
{
    match part {
        Part::Root(_) | Part::OnLedger(_, _) => ledger_channel::stage(part, facts),
        Part::End(_) | Part::Middle(_) => virtual_channel::stage(part, facts),
    }
}

fn is_closing(goal: Option<&Goal>) -> bool
    ensures { result ≡ asked.is_closing (option_copied goal.entry) }
{
    match goal {
        None => false,
        Some(goal) => goal.closing,
    }
}

/// A part is unfinished until it runs, and from `Close` until it is closed.
pub fn is_unfinished(part: &Part, facts: &Facts) -> bool
    ensures { result ≡ asked.is_unfinished facts.now part.now }
{
    let stage = stage(part, facts);
    if is_closing(goal_in(facts, &part.own_channel())) {
        stage != part.closed()
    } else {
        stage < part.running()
    }
}

fn unfinished_on<'a>(facts: &Facts<'a>, name: &Name, parts: &'a [Part]) -> Option<&'a Part>
    ensures { option_copied result ≡ asked.unfinished_on facts.now name.now parts.now }
{
    match parts {
        [] => None,
        [part, others @ ..] => {
            if part.stands_on(name) && is_unfinished(part, facts) {
                Some(part)
            } else {
                unfinished_on(facts, name, others)
            }
        }
    }
}

fn part_with<'a>(name: &Name, parts: &'a [Part]) -> Option<&'a Part>
    ensures { option_copied result ≡ asked.part_with name.now parts.now }
{
    match parts {
        [] => None,
        [part, others @ ..] => {
            if part.joins(name) {
                Some(part)
            } else {
                part_with(name, others)
            }
        }
    }
}

/// The part that is asked about a channel: the unfinished one that stands on it, and else its own.
pub fn asked_in<'a>(facts: &Facts<'a>, name: &Name) -> Option<&'a Part>
    ensures { option_copied result ≡ asked.asked_in facts.now name.now }
{
    let parts = facts.plan.parts.as_slice();
    match unfinished_on(facts, name, parts) {
        Some(part) => Some(part),
        None => part_with(name, parts),
    }
}

fn wanted_of(
    alloc: Global,
    facts: &Facts,
    name: &Name,
    part: Option<&Part>,
) -> Result<Option<State>, NoMemory>
    ensures { IfOk result (λ o. o ≡ asked.wanted_of facts.now name.now (option_copied part.entry)) }
{
    match part {
        None => Ok(None),
        Some(part) => match part {
            Part::Root(_) => ledger_channel::wanted(alloc, part, facts, name),
            Part::OnLedger(_, _) => ledger_channel::wanted(alloc, part, facts, name),
            Part::End(_) => virtual_channel::wanted(alloc, part, facts, name),
            Part::Middle(_) => virtual_channel::wanted(alloc, part, facts, name),
        },
    }
}

/// The state that is wanted in a channel, by the part that is asked about it.
pub fn wanted(alloc: Global, facts: &Facts, name: &Name) -> Result<Option<State>, NoMemory>
    ensures { IfOk result (λ o. o ≡ asked.wanted_in facts.now name.now) }
{
    wanted_of(alloc, facts, name, asked_in(facts, name))
}

fn takes_of(facts: &Facts, name: &Name, state: &State, part: Option<&Part>) -> bool
    ensures { result ≡ asked.takes_of facts.now name.now state.now (option_copied part.entry) }
{
    match part {
        None => false,
        Some(part) => match part {
            Part::Root(_) => ledger_channel::accepts(part, facts, name, state),
            Part::OnLedger(_, _) => ledger_channel::accepts(part, facts, name, state),
            Part::End(_) => virtual_channel::accepts(part, facts, name, state),
            Part::Middle(_) => virtual_channel::accepts(part, facts, name, state),
        },
    }
}

/// Whether a state of a channel is taken from another, by the part that is asked about it.
pub fn accepts(facts: &Facts, name: &Name, state: &State) -> bool
    ensures { result ≡ asked.takes_in facts.now name.now state.now }
{
    takes_of(facts, name, state, asked_in(facts, name))
}
