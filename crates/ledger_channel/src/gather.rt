//! What a participant's facts make of a channel that holds its own funds, or that a ledger funds.

ghost use Rattle.std.specs.Prelude.{◌≡◌, Some};
ghost use Rattle.std.specs.Option.{option_copied};
ghost use Rattle.funding_plans.specs.Gathered.{seat_with};
ghost use Rattle.ledger_channel.specs.Stages as told;

use crate::direct::DirectView;
use crate::funded::FundedView;
use call_history::{ChannelView, HeldChain, Standing, mode};
use channel_values::{AssetOutcome, Chain, Name, Outcome};
use funding_plans::{
    Aim, AimKind, Child, Facts, Goal, SeatView, chain_in, child_for, goal_in, seat_in, seat_with,
    view_in,
};

fn standing_in(now: u64, view: Option<&ChannelView>) -> Standing
    ensures { result ≡ told.standing_in now (option_copied view.entry) }
{
    match view {
        None => Standing::Open,
        Some(view) => mode(view.deadline, now),
    }
}

fn held_in<'a>(view: Option<&'a ChannelView>) -> &'a [(u32, u64)]
    ensures { result.now ≡ told.held_in (option_copied view.entry) }
{
    match view {
        None => &[],
        Some(view) => view.held.as_slice(),
    }
}

fn settled_in<'a>(view: Option<&'a ChannelView>) -> Option<&'a Outcome>
    ensures { option_copied result ≡ told.settled_in (option_copied view.entry) }
{
    match view {
        None => None,
        Some(view) => view.settled.as_ref(),
    }
}

fn rest_in<'a>(view: Option<&'a ChannelView>) -> Option<&'a Outcome>
    ensures { option_copied result ≡ told.rest_in (option_copied view.entry) }
{
    match view {
        None => None,
        Some(view) => view.rest.as_ref(),
    }
}

fn pays_in(held: Option<&HeldChain>) -> bool
    ensures { result ≡ told.pays_in (option_copied held.entry) }
{
    match held {
        None => false,
        Some(held) => held.chain.fixed.app() == 1,
    }
}

fn chain_of<'a>(held: Option<&'a HeldChain>) -> Option<&'a Chain>
    ensures { option_copied result ≡ told.chain_of (option_copied held.entry) }
{
    match held {
        None => None,
        Some(held) => Some(&held.chain),
    }
}

fn direct_with<'a>(facts: &Facts<'a>, name: &Name, goal: &'a Goal) -> Option<DirectView<'a>>
    ensures { result ≡ told.direct_of facts.now name.now (seat_with facts.now name.now goal.now.opening)
        (Some goal.now) }
{
    let channel = seat_with(facts, name, Aim::make(AimKind::Given(&goal.opening)))?;
    let held = chain_in(facts.chains, name);
    let view = view_in(&facts.view.channels, name);
    Some(DirectView {
        channel,
        opening: &goal.opening,
        who: facts.me,
        closing: goal.closing,
        over: goal.over,
        pays: pays_in(held),
        standing: standing_in(facts.view.now, view),
        held: held_in(view),
        settled: settled_in(view),
        rest: rest_in(view),
        chain: chain_of(held),
    })
}

/// A channel that holds its own funds.
pub(crate) fn direct_in<'a>(facts: &Facts<'a>, name: &Name) -> Option<DirectView<'a>>
    ensures { result ≡ told.direct_in facts.now name.now }
{
    match goal_in(facts, name) {
        None => None,
        Some(goal) => direct_with(facts, name, goal),
    }
}

fn child_of(name: &Name, people: &[Name], goal: &Goal, assets: &[AssetOutcome]) -> Option<Child>
    ensures { result ≡ told.child_of name.now people.now goal.now assets.now }
{
    match assets {
        [] => None,
        [o, ..] => child_for(o.asset, name, goal.amounts, people),
    }
}

fn funded_with<'a>(
    channel: SeatView<'a>,
    ledger: SeatView<'a>,
    goal: &Goal,
    child: Option<Child>,
) -> Option<FundedView<'a>>
    ensures { result ≡ told.funded_with channel.entry ledger.entry goal.now child }
{
    match child {
        None => None,
        Some(child) => Some(FundedView {
            channel,
            ledger,
            child,
            closing: goal.closing,
        }),
    }
}

fn funded_of<'a>(
    name: &Name,
    channel: Option<SeatView<'a>>,
    ledger: Option<SeatView<'a>>,
    goal: Option<&Goal>,
) -> Option<FundedView<'a>>
    ensures { result ≡ told.funded_of name.now channel.entry ledger.entry (option_copied goal.entry) }
{
    match (channel, ledger, goal) {
        (Some(channel), Some(ledger), Some(goal)) => {
            let child = child_of(name, ledger.people(), goal, goal.opening.assets());
            funded_with(channel, ledger, goal, child)
        }
        _ => None,
    }
}

/// A channel that a ledger funds.
pub(crate) fn funded_in<'a>(facts: &Facts<'a>, ledger: &Name, name: &Name) -> Option<FundedView<'a>>
    ensures { result ≡ told.funded_in facts.now ledger.now name.now }
{
    funded_of(
        name,
        seat_in(facts, name),
        seat_in(facts, ledger),
        goal_in(facts, name),
    )
}
