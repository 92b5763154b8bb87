//! Whether a ledger can set something aside for a channel on it.

ghost use Rattle.std.specs.Prelude.{◌≡◌};
ghost use Rattle.std.specs.List.{list_any};
ghost use Rattle.std.specs.Option.{option_copied};
ghost use Rattle.stage_tables.specs.Ledgers as told;

use crate::asked::stage;
use crate::stake::Stake;
use call_history::{HeldChain, Place, newest};
use channel_values::{Dest, Item, Name, State};
use funding_plans::{Facts, Part, amt, chain_in, has, items_in, place_in};

/// Whether these are the same people in the same order.
pub(crate) fn are_same(people: &[Name], others: &[Name]) -> bool
    ensures { result ≡ told.are_same people.now others.now }
{
    match people {
        [] => others.is_empty(),
        [first, rest @ ..] => match others {
            [] => false,
            [other, behind @ ..] => first == other && are_same(rest, behind),
        },
    }
}

fn covers(items: &[Item], person: &Name, amount: u64) -> bool
    ensures { result ≡ told.covers items.now person.now amount }
{
    let to = Dest::Person(*person);
    has(items, &to) && amount <= amt(items, &to)
}

fn affords(stake: &Stake, items: &[Item]) -> bool
    ensures { result ≡ told.affords stake.now items.now }
{
    covers(items, &stake.first, stake.amounts.0)
        && covers(items, &stake.second, stake.amounts.1)
        && items.len() < 16
}

fn affords_after(stake: &Stake, state: Option<&State>) -> bool
    ensures { result ≡ told.affords_after stake.now (option_copied state.entry) }
{
    match state {
        None => false,
        Some(state) => affords(stake, items_in(state.outcome(), stake.asset)),
    }
}

pub(crate) fn affords_in(stake: &Stake, held: Option<&HeldChain>) -> bool
    ensures { result ≡ told.affords_in stake.now (option_copied held.entry) }
{
    match held {
        None => false,
        Some(held) => {
            held.chain.fixed.app() == 0
                && affords_after(stake, newest(held.chain.states.as_slice()))
        }
    }
}

pub(crate) fn is_between(stake: &Stake, place: Option<&Place>) -> bool
    ensures { result ≡ told.is_between stake.now (option_copied place.entry) }
{
    match place {
        None => false,
        Some(place) => are_same(place.people.as_slice(), &[stake.first, stake.second]),
    }
}

fn is_root_of(part: &Part, name: &Name) -> bool
    ensures { result ≡ told.is_root_of name.now part.now }
{
    match part {
        Part::Root(channel) => channel == name,
        Part::OnLedger(_, _) => false,
        Part::End(_) => false,
        Part::Middle(_) => false,
    }
}

fn is_root_in(parts: &[Part], name: &Name) -> bool
    ensures { result ≡ list_any (told.is_root_of name.now) parts.now }
{
    parts.iter().any(|part| is_root_of(part, name))
}

fn is_running_root(facts: &Facts, name: &Name) -> bool
    ensures { result ≡ told.is_running_root facts.now name.now }
{
    let root = Part::Root(*name);
    is_root_in(facts.plan.parts.as_slice(), name) && stage(&root, facts) == root.running()
}

/// Whether it is a running consensus root of the two people in their order, who can afford what they are to have in
/// it.
pub(crate) fn lends(facts: &Facts, name: &Name, stake: &Stake) -> bool
    ensures { result ≡ told.lends facts.now name.now stake.now }
{
    is_running_root(facts, name)
        && is_between(stake, place_in(facts.places, name))
        && affords_in(stake, chain_in(facts.chains, name))
}
