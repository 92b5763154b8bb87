//! Whether a command that opens fits what a node knows.

ghost use Rattle.std.specs.Prelude.{◌≡◌};
ghost use Rattle.std.specs.List.{list_all};
ghost use Rattle.support_rules.specs.Rules as rules;
ghost use Rattle.call_history.specs.Flows as flows;
ghost use Rattle.stage_tables.specs.Fitting as told;
ghost use Rattle.stage_tables.specs.Stages.{stages};

use crate::ledgers::{are_same, lends};
use crate::routes::fits_route;
use crate::stake::Stake;
use channel_values::{AssetOutcome, Dest, Fixed, Item, Name, Outcome, Shape};
use funding_plans::Facts;
use network::{Command, LedgerFunding};
use support_rules::people_of;

// ---- a channel that holds its own funds

fn is_one_of(people: &[Name], dest: &Dest) -> bool
    ensures { result ≡ rules.is_one_of people.now dest.now }
{
    people.iter().any(|name| dest.is(&Dest::Person(*name)))
}

fn are_of(people: &[Name], items: &[Item]) -> bool
    ensures { result ≡ list_all (λ i. rules.is_one_of people.now i.to) items.now }
{
    items.iter().all(|item| is_one_of(people, &item.to))
}

fn is_shared(people: &[Name], shape: &Shape) -> bool
    ensures { result ≡ told.is_shared people.now shape.now }
{
    match shape {
        Shape::Allocation(items) => are_of(people, items.as_slice()),
        Shape::Guarantee(_, _) => false,
    }
}

fn are_shared(people: &[Name], outcome: &[AssetOutcome]) -> bool
    ensures { result ≡ told.are_shared people.now outcome.now }
{
    outcome.iter().all(|o| is_shared(people, &o.shape))
}

/// Whether a name is among these.
pub fn is_among(name: &Name, names: &[Name]) -> bool
    ensures { result ≡ flows.is_among name.now names.now }
{
    names.iter().any(|other| *name == *other)
}

fn fits_root(facts: &Facts, fixed: &Fixed, outcome: &Outcome) -> bool
    ensures { result ≡ told.fits_root facts.now fixed.now outcome.now }
{
    let people = people_of(fixed);
    fixed.app() <= 1
        && is_among(&facts.me, people.as_slice())
        && are_shared(people.as_slice(), outcome.assets())
}

// ---- a channel on a ledger

pub(crate) fn stake(asset: u32, first: &Name, second: &Name, amounts: (u64, u64)) -> Stake
    ensures { result ≡ told.stake asset first.now second.now amounts }
{
    Stake {
        asset,
        first: *first,
        second: *second,
        amounts,
    }
}

pub(crate) fn can_share(first: &Name, second: &Name, amounts: (u64, u64)) -> bool
    ensures { result ≡ told.can_share first.now second.now amounts }
{
    first != second && amounts.0 as u128 + amounts.1 as u128 <= u64::MAX as u128
}

fn fits_between(
    facts: &Facts,
    ledger: &Name,
    asset: u32,
    amounts: (u64, u64),
    people: &[Name],
) -> bool
    ensures { result ≡ told.fits_between facts.now ledger.now asset amounts people.now }
{
    match people {
        [first, second] => {
            can_share(first, second, amounts)
                && lends(facts, ledger, &stake(asset, first, second, amounts))
        }
        _ => false,
    }
}

fn fits_on_ledger(facts: &Facts, funding: &LedgerFunding) -> bool
    ensures { result ≡ told.fits_on_ledger facts.now funding.now.ledger funding.now.fixed
        funding.now.asset funding.now.amounts }
{
    let people = people_of(&funding.fixed);
    funding.fixed.app() == 1
        && fits_between(
            facts,
            &funding.ledger,
            funding.asset,
            funding.amounts,
            people.as_slice(),
        )
}

// ---- a virtual channel

pub(crate) fn is_channel_of(app: u8, people: &[Name], fixed: &Fixed) -> bool
    ensures { result ≡ told.is_channel_of app people.now fixed.now }
{
    let persons = people_of(fixed);
    fixed.app() == app && are_same(persons.as_slice(), people)
}

fn lends_if_own(facts: &Facts, name: &Name, stake: &Stake) -> bool
    ensures { result ≡ told.lends_if_own facts.now name.now stake.now }
{
    !is_among(&facts.me, &[stake.first, stake.second]) || lends(facts, name, stake)
}

pub(crate) fn both_lend(
    facts: &Facts,
    ledgers: &(Name, Name),
    asset: u32,
    amounts: (u64, u64),
    first: &Name,
    middle: &Name,
    second: &Name,
) -> bool
    ensures { result ≡ told.both_lend facts.now ledgers.now asset amounts first.now middle.now second.now }
{
    lends_if_own(facts, &ledgers.0, &stake(asset, first, middle, amounts))
        && lends_if_own(facts, &ledgers.1, &stake(asset, middle, second, amounts))
}

pub(crate) fn is_double_small(amounts: (u64, u64)) -> bool
    ensures { result ≡ told.is_double_small amounts }
{
    2 * (amounts.0 as u128 + amounts.1 as u128) <= u64::MAX as u128
}

// ---- any command

/// Whether the fixed parts, the people and the amounts of a command that opens fit the facts.
#[tactic(auto, unfolding(crate::specs::Fitting::fits))]
pub fn fits(facts: &Facts, command: &Command) -> bool
    ensures { result ≡ stages.fits facts.now command.now }
{
    match command {
        Command::Open { fixed, outcome } => fits_root(facts, fixed, outcome),
        Command::OpenOn(funding) => fits_on_ledger(facts, funding),
        Command::OpenVirtual(funding) => fits_route(facts, funding),
        Command::Pay { .. } => false,
        Command::Close { .. } => false,
        Command::Release { .. } => false,
        Command::Resend { .. } => false,
        Command::Exit => false,
    }
}
