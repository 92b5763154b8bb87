//! What a participant's facts say of its channels.

ghost use Rattle.std.specs.Prelude.{◌≡◌, ◌==◌, find, position};
ghost use Rattle.std.specs.List.{list_all};
ghost use Rattle.std.specs.Option.{option_copied};
ghost use Rattle.std.specs.Str.{bytes_eq};
ghost use Rattle.funding_plans.specs.Parts.{own_channel};
ghost use Rattle.funding_plans.specs.Gathered as gathered;

use crate::aim::{Aim, AimKind};
use crate::child::Child;
use crate::facts::Facts;
use crate::plan::{Goal, Part};
use crate::seat::SeatView;
use call_history::{ChannelView, ChannelViews, HeldChain, Known, Place, newest};
use channel_values::{Name, State};

/// The participant's place in a channel.
pub fn place_in<'a>(places: &'a [Place], name: &Name) -> Option<&'a Place>
    ensures { option_copied result ≡ gathered.place_in name.now places.now }
{
    places.iter().find(|place| place.channel == *name)
}

/// The held chain of a channel.
pub fn chain_in<'a>(chains: &'a [HeldChain], name: &Name) -> Option<&'a HeldChain>
    ensures { option_copied result ≡ gathered.chain_in name.now chains.now }
{
    chains.iter().find(|held| held.channel == *name)
}

/// What the view says of a channel.
pub fn view_in<'a>(views: &'a ChannelViews, name: &Name) -> Option<&'a ChannelView>
    ensures { option_copied result ≡ gathered.view_in name.now views.now }
{
    views.get(name)
}

fn known_in<'a>(known: &'a [Known], name: &Name) -> Option<&'a Known>
    ensures { option_copied result ≡ gathered.known_in name.now known.now }
{
    known.iter().find(|known| known.channel == *name)
}

fn top_of<'a>(held: Option<&'a HeldChain>) -> Option<&'a State>
    ensures { option_copied result ≡ gathered.top_of (option_copied held.entry) }
{
    match held {
        None => None,
        Some(held) => newest(held.chain.states.as_slice()),
    }
}

fn are_all_final(states: &[State]) -> bool
    ensures { result ≡ list_all (λ s. s.is_final) states.now }
{
    states.iter().all(|state| state.is_final())
}

fn are_final(held: Option<&HeldChain>) -> bool
    ensures { result ≡ gathered.are_final (option_copied held.entry) }
{
    match held {
        None => false,
        Some(held) => are_all_final(held.chain.states.as_slice()),
    }
}

fn last_of<'a>(known: Option<&'a Known>) -> Option<&'a State>
    ensures { option_copied result ≡ gathered.last_of (option_copied known.entry) }
{
    match known {
        None => None,
        Some(known) => Some(&known.last),
    }
}

fn is_about(part: &Part, name: &Name) -> bool
    ensures { result ≡ bytes_eq (own_channel part.now) name.now }
{
    part.own_channel() == *name
}

fn index_of(parts: &[Part], name: &Name) -> Option<usize>
    ensures { result ≡ position (λ p. bytes_eq (own_channel p) name.now) parts.now }
{
    parts.iter().position(|part| is_about(part, name))
}

fn goal_of<'a>(goals: &'a [Goal], part: usize) -> Option<&'a Goal>
    ensures { option_copied result ≡ find (λ g. g.part == part) goals.now }
{
    goals.iter().find(|goal| goal.part as usize == part)
}

/// What was commanded of the part that is about a channel.
pub fn goal_in<'a>(facts: &Facts<'a>, name: &Name) -> Option<&'a Goal>
    ensures { option_copied result ≡ gathered.goal_in facts.now name.now }
{
    match index_of(facts.plan.parts.as_slice(), name) {
        None => None,
        Some(part) => goal_of(facts.goals, part),
    }
}

fn are_few(people: &[Name]) -> bool
    ensures { result ≡ gathered.are_few people.now }
{
    2 <= people.len() && people.len() <= 4
}

fn seat_at<'a>(
    facts: &Facts<'a>,
    name: &Name,
    opening: Aim<'a>,
    place: Option<&'a Place>,
) -> Option<SeatView<'a>>
    ensures { result ≡ gathered.seat_at facts.now name.now opening.entry (option_copied place.entry) }
{
    let Some(place) = place else {
        return None;
    };
    let people = place.people.as_slice();
    if !are_few(people) {
        return None;
    }
    let held = chain_in(facts.chains, name);
    Some(SeatView {
        name: *name,
        people,
        me: place.me,
        next: place.next,
        opening,
        top: top_of(held),
        all_final: are_final(held),
        own: last_of(known_in(facts.known, name)),
    })
}

/// A channel that opens with an outcome.
pub fn seat_with<'a>(facts: &Facts<'a>, name: &Name, opening: Aim<'a>) -> Option<SeatView<'a>>
    ensures { result ≡ gathered.seat_with facts.now name.now opening.entry }
{
    seat_at(facts, name, opening, place_in(facts.places, name))
}

/// A channel that a part is about, which opens as was commanded.
pub fn seat_in<'a>(facts: &Facts<'a>, name: &Name) -> Option<SeatView<'a>>
    ensures { result ≡ gathered.seat_in facts.now name.now }
{
    match goal_in(facts, name) {
        None => None,
        Some(goal) => seat_with(facts, name, Aim::make(AimKind::Given(&goal.opening))),
    }
}

/// What a ledger of two people sets aside for a channel.
pub fn child_for(asset: u32, name: &Name, amounts: (u64, u64), people: &[Name]) -> Option<Child>
    ensures { result ≡ gathered.child_for asset name.now amounts people.now }
{
    match people {
        [first, second] => Some(Child {
            asset,
            name: *name,
            first: *first,
            second: *second,
            a: amounts.0,
            b: amounts.1,
        }),
        _ => None,
    }
}
