//! Whether a channel through an intermediary fits what a node knows, by its route.

ghost use Rattle.std.specs.Prelude.{◌≡◌};
ghost use Rattle.stage_tables.specs.Fitting as told;

use crate::asked::stage;
use crate::fitting::{both_lend, can_share, is_among, is_channel_of, is_double_small, stake};
use crate::ledgers::{affords_in, is_between, lends};
use crate::stake::Stake;
use channel_values::{Fixed, Name};
use funding_plans::{Facts, Part, chain_in, place_in};
use network::{Route, VirtualFunding};
use support_rules::people_of;

fn app_of(route: Route) -> u8
    ensures { result ≡ told.app_of route }
{
    match route {
        Route::Plain => 1,
        Route::Ledger => 0,
        Route::Onward => 1,
    }
}

// ---- a virtual ledger of the node

fn is_end_of(part: &Part, name: &Name) -> bool
    ensures { result ≡ told.is_end_of name.now part.now }
{
    match part {
        Part::Root(_) => false,
        Part::OnLedger(_, _) => false,
        Part::End(v) => v.channel == *name,
        Part::Middle(_) => false,
    }
}

fn runs_at_end(facts: &Facts, name: &Name, part: &Part) -> bool
    ensures { result ≡ told.runs_at_end facts.now name.now part.now }
{
    is_end_of(part, name) && stage(part, facts) == part.running()
}

fn is_running_end(facts: &Facts, name: &Name) -> bool
    ensures { result ≡ told.is_running_end facts.now name.now }
{
    facts
        .plan
        .parts
        .as_slice()
        .iter()
        .any(|part| runs_at_end(facts, name, part))
}

fn lends_virtual(facts: &Facts, name: &Name, stake: &Stake) -> bool
    ensures { result ≡ told.lends_virtual facts.now name.now stake.now }
{
    is_running_end(facts, name)
        && is_between(stake, place_in(facts.places, name))
        && affords_in(stake, chain_in(facts.chains, name))
}

// ---- by the route

fn one_lends(facts: &Facts, ledgers: &(Name, Name), first: &Stake, second: &Stake) -> bool
    ensures { result ≡ told.one_lends facts.now ledgers.now first.now second.now }
{
    (lends_virtual(facts, &ledgers.0, first) && lends(facts, &ledgers.1, second))
        || (lends(facts, &ledgers.0, first) && lends_virtual(facts, &ledgers.1, second))
}

fn either_lends(facts: &Facts, name: &Name, stake: &Stake) -> bool
    ensures { result ≡ told.either_lends facts.now name.now stake.now }
{
    lends(facts, name, stake) || lends_virtual(facts, name, stake)
}

fn onward_lends(
    facts: &Facts,
    ledgers: &(Name, Name),
    asset: u32,
    amounts: (u64, u64),
    first: &Name,
    middle: &Name,
    second: &Name,
) -> bool
    ensures { result ≡ told.onward_lends facts.now ledgers.now asset amounts first.now middle.now second.now }
{
    let near = stake(asset, first, middle, amounts);
    let far = stake(asset, middle, second, amounts);
    if facts.me == *middle {
        one_lends(facts, ledgers, &near, &far)
    } else if facts.me == *first {
        either_lends(facts, &ledgers.0, &near)
    } else {
        either_lends(facts, &ledgers.1, &far)
    }
}

fn route_lends(
    facts: &Facts,
    route: Route,
    ledgers: &(Name, Name),
    asset: u32,
    amounts: (u64, u64),
    first: &Name,
    middle: &Name,
    second: &Name,
) -> bool
    ensures { result ≡ told.route_lends facts.now route ledgers.now asset amounts first.now middle.now second.now }
{
    match route {
        Route::Plain => both_lend(facts, ledgers, asset, amounts, first, middle, second),
        Route::Ledger => both_lend(facts, ledgers, asset, amounts, first, middle, second),
        Route::Onward => onward_lends(facts, ledgers, asset, amounts, first, middle, second),
    }
}

fn are_route_channels(
    app: u8,
    guarantors: &(Fixed, Fixed),
    joint: &Fixed,
    channel: &Fixed,
    first: &Name,
    middle: &Name,
    second: &Name,
) -> bool
    ensures { result ≡ told.are_route_channels app guarantors.now joint.now channel.now first.now middle.now second.now }
{
    is_channel_of(2, &[*first, *middle], &guarantors.0)
        && is_channel_of(2, &[*middle, *second], &guarantors.1)
        && joint.app() == 0
        && is_channel_of(app, &[*first, *second], channel)
}

/// Whether the fixed parts, the people and the amounts of such an opening fit, and its ledgers lend what it needs.
/// That its channels are new, and that the ledgers are in the plan, is asked elsewhere.
pub(crate) fn fits_route(facts: &Facts, funding: &VirtualFunding) -> bool
    ensures { result ≡ told.fits_route facts.now funding.now.route funding.now.ledgers funding.now.guarantors
        funding.now.joint funding.now.channel funding.now.asset funding.now.amounts }
{
    let people = people_of(&funding.joint);
    let [first, middle, second] = people.as_slice() else {
        return false;
    };
    let (route, asset, amounts) = (funding.route, funding.asset, funding.amounts);
    is_among(&facts.me, people.as_slice())
        && can_share(first, second, amounts)
        && is_double_small(amounts)
        && are_route_channels(
            app_of(route),
            &funding.guarantors,
            &funding.joint,
            &funding.channel,
            first,
            middle,
            second,
        )
        && route_lends(
            facts,
            route,
            &funding.ledgers,
            asset,
            amounts,
            first,
            middle,
            second,
        )
}
