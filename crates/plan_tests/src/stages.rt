//! What a person signs in a channel, and what it calls first.

use crate::built::{
    A, B, Body, CHANNEL, GUARANTOR_A, GUARANTOR_B, I, JOINT, LEDGER_A, LEDGER_B, OPENING, TO_A,
    TO_B, VIRTUAL, held_with, outcome_of, plan_of, state_of, view_of,
};
use call_history::{Call, ChannelViews, HeldChain, Place, WorldView};
use channel_values::{ByteFault, Listed, Name, NoMemory, Outcome, State};
use funding_plans::{Aim, AimKind, Facts, Goal, Part, Plan, seat_with};
use std::alloc::Global;

/// A channel, its people, the person's position among them, and the turn that comes next.
type Seat = (Name, &'static [Name], u8, u64);

/// What is asked: the plan, the table of its last part, or a rule of the payment channel.
#[derive(Clone, Copy)]
enum Asked {
    Plan,
    Ledger,
    Virtual,
    SetUp,
    Final,
    Pass,
    Toward,
}

/// What is asked, the parts of the plan, which of them have a goal and whether that is to close, and the other seats
/// than that in the payment channel.
type Setting = (
    Asked,
    &'static [Part],
    &'static [(u8, bool)],
    &'static [Seat],
);

const OURS: &[Name] = &[A, B];

const BESIDE: &[Seat] = &[(LEDGER_A, OURS, 0, 4)];

const ROOT_A: Part = Part::Root(LEDGER_A);

const ROOT_B: Part = Part::Root(LEDGER_B);

const ROOTS: &[Part] = &[ROOT_A, Part::Root(CHANNEL)];

const ON_LEDGER: &[Part] = &[ROOT_A, Part::OnLedger(LEDGER_A, CHANNEL)];

const RUNS: &[(u8, bool)] = &[(0, false), (1, false)];

const ENDS: &[(u8, bool)] = &[(0, false), (1, true)];

const ROOT: Setting = (Asked::Ledger, ROOTS, RUNS, BESIDE);

const ROOT_ENDS: Setting = (Asked::Ledger, ROOTS, ENDS, BESIDE);

const CHILD: Setting = (Asked::Ledger, ON_LEDGER, RUNS, BESIDE);

const CHILD_ENDS: Setting = (Asked::Ledger, ON_LEDGER, ENDS, BESIDE);

const ALONE: Setting = (Asked::Plan, &[Part::Root(CHANNEL)], &[(0, false)], &[]);

const SET_UP: Setting = (Asked::SetUp, &[], &[], &[]);

const FINAL: Setting = (Asked::Final, &[], &[], &[]);

const PASS: Setting = (Asked::Pass, &[], &[], &[]);

const TOWARD: Setting = (Asked::Toward, &[], &[], &[]);

const OPENS: &[(u8, bool)] = &[(0, false), (1, false), (2, false)];

/// A's plan, where the turns before its first one are there.
const END: Setting = (
    Asked::Virtual,
    &[ROOT_A, ROOT_B, Part::End(VIRTUAL)],
    OPENS,
    &[
        (LEDGER_A, &[A, I], 0, 0),
        (LEDGER_B, &[I, B], 0, 0),
        (GUARANTOR_A, &[A, I], 0, 0),
        (GUARANTOR_B, &[I, B], 0, 0),
        (JOINT, &[A, I, B], 0, 0),
    ],
);

/// The same of the intermediary.
const MIDDLE: Setting = (
    Asked::Virtual,
    &[ROOT_A, ROOT_B, Part::Middle(VIRTUAL)],
    OPENS,
    &[
        (LEDGER_A, &[A, I], 1, 1),
        (LEDGER_B, &[I, B], 0, 0),
        (GUARANTOR_A, &[A, I], 1, 1),
        (GUARANTOR_B, &[I, B], 0, 0),
        (JOINT, &[A, I, B], 1, 1),
    ],
);

/// The turn of the latest state in the payment channel, and whether it is final.
type Latest = Option<(u64, bool)>;

/// A turn, whether it is final, and how many bytes of data it has.
type Answer = Option<(u64, bool, usize)>;

/// The setting, the latest state, the channel, and what is signed there.
const SIGNED: [(Setting, Latest, Name, Answer); 24] = [
    // A channel is asked of its part.
    (ALONE, None, CHANNEL, Some((0, false, 0))),
    (ALONE, None, JOINT, None),
    // A root and a channel on a ledger are set up, and closed.
    (ROOT, None, CHANNEL, Some((0, false, 0))),
    (ROOT, Some((1, false)), CHANNEL, None),
    (ROOT_ENDS, Some((5, false)), CHANNEL, Some((6, true, 0))),
    (ROOT_ENDS, Some((7, true)), CHANNEL, None),
    (CHILD, None, CHANNEL, Some((0, false, 0))),
    (CHILD_ENDS, Some((5, false)), CHANNEL, Some((6, true, 0))),
    // An end sets its three channels up.
    (END, None, GUARANTOR_A, Some((0, false, 0))),
    (END, None, JOINT, Some((0, false, 0))),
    (END, None, CHANNEL, Some((0, false, 0))),
    (END, None, LEDGER_A, None),
    // The intermediary sets both guarantors up.
    (MIDDLE, None, GUARANTOR_A, Some((1, false, 0))),
    (MIDDLE, None, GUARANTOR_B, Some((0, false, 0))),
    (MIDDLE, None, JOINT, Some((1, false, 0))),
    (MIDDLE, None, CHANNEL, None),
    // The first person signs at its own turns. A vote is a byte before an outcome of 89 bytes.
    (SET_UP, Some((1, false)), CHANNEL, Some((2, false, 0))),
    (FINAL, Some((3, false)), CHANNEL, Some((4, true, 0))),
    (PASS, Some((3, false)), CHANNEL, Some((4, false, 0))),
    (TOWARD, Some((3, false)), CHANNEL, Some((4, false, 90))),
    // It signs nothing at the turns of others.
    (SET_UP, Some((2, false)), CHANNEL, None),
    (FINAL, Some((4, false)), CHANNEL, None),
    (PASS, Some((4, false)), CHANNEL, None),
    (TOWARD, Some((4, false)), CHANNEL, None),
];

#[derive(Drop)]
struct Scene {
    plan: Plan,
    view: WorldView,
    places: Vec<Place>,
    chains: Vec<HeldChain>,
    goals: Vec<Goal>,
}

fn place_of(alloc: Global, seat: &Seat) -> Result<Place, ByteFault> {
    let (channel, people, me, next) = *seat;
    let people = Listed::make(Vec::from_slice(alloc, people)?);
    Ok(Place {
        channel,
        people,
        me,
        next,
    })
}

fn places_of(alloc: Global, seats: &[Seat], next: u64) -> Result<Vec<Place>, ByteFault> {
    let mut places = Vec::new(alloc);
    for seat in seats {
        places.push(place_of(alloc, seat)?)?;
    }
    places.push(place_of(alloc, &(CHANNEL, OURS, 0, next))?)?;
    Ok(places)
}

fn chains_of(alloc: Global, latest: Latest) -> Result<Vec<HeldChain>, ByteFault> {
    let Some((turn, is_final)) = latest else {
        return Ok(Vec::new(alloc));
    };
    let states = Vec::from_array(alloc, [state_of(alloc, turn, is_final, OPENING, &[])?])?;
    Ok(Vec::from_array(alloc, [held_with(alloc, states)?])?)
}

fn goals_of(alloc: Global, rows: &[(u8, bool)]) -> Result<Vec<Goal>, ByteFault> {
    let mut goals = Vec::new(alloc);
    for (part, closing) in rows {
        let opening = outcome_of(alloc, OPENING)?;
        goals.push(Goal {
            part: *part,
            opening,
            amounts: (5, 3),
            closing: *closing,
            over: false,
        })?;
    }
    Ok(goals)
}

fn scene_of(alloc: Global, setting: Setting, latest: Latest) -> Result<Scene, ByteFault> {
    let (_, parts, goals, seats) = setting;
    let next = match latest {
        None => 0,
        Some((turn, _)) => turn.saturating_add(1),
    };
    let plan = plan_of(alloc, A, parts)?;
    let places = places_of(alloc, seats, next)?;
    let chains = chains_of(alloc, latest)?;
    let goals = goals_of(alloc, goals)?;
    Ok(Scene {
        plan,
        view: view_of(alloc, 0, ChannelViews::new(alloc)),
        places,
        chains,
        goals,
    })
}

fn facts_of<'a>(scene: &'a Scene) -> Facts<'a> {
    Facts {
        me: A,
        plan: &scene.plan,
        view: &scene.view,
        places: &scene.places,
        chains: &scene.chains,
        known: &[],
        goals: &scene.goals,
    }
}

fn told(state: Result<Option<State>, NoMemory>) -> Result<Answer, ByteFault> {
    match state {
        Ok(None) => Ok(None),
        Ok(Some(state)) => Ok(Some((state.turn(), state.is_final(), state.app_bytes().len()))),
        Err(_) => Err(ByteFault::NoMemory),
    }
}

/// What a rule of the payment channel signs that opened like this, toward another outcome.
fn by_rule(
    alloc: Global,
    facts: &Facts,
    asked: Asked,
    opening: &Outcome,
    other: &Outcome,
) -> Result<Answer, ByteFault> {
    let Some(seat) = seat_with(facts, &CHANNEL, Aim::make(AimKind::Given(opening))) else {
        return Ok(None);
    };
    told(match asked {
        Asked::SetUp => seat.repeats(alloc, 2, 4),
        Asked::Final => seat.final_state(alloc),
        Asked::Pass => seat.pass_on(alloc, &Aim::make(AimKind::Given(opening))),
        Asked::Toward => seat.toward(alloc, &Some(Aim::make(AimKind::Given(other)))),
        _ => Ok(None),
    })
}

fn ruled(alloc: Global, facts: &Facts, asked: Asked) -> Result<Answer, ByteFault> {
    let opening = outcome_of(alloc, OPENING)?;
    let other = outcome_of(alloc, Body::Items(&[(TO_A, 6), (TO_B, 3)]))?;
    by_rule(alloc, facts, asked, &opening, &other)
}

fn signed_in(
    alloc: Global,
    facts: &Facts,
    asked: Asked,
    channel: &Name,
) -> Result<Answer, ByteFault> {
    match (asked, facts.plan.parts.as_slice()) {
        (Asked::Plan, _) => told(stage_tables::wanted(alloc, facts, channel)),
        (Asked::Ledger, [.., part]) => told(ledger_channel::wanted(alloc, part, facts, channel)),
        (Asked::Virtual, [.., part]) => told(virtual_channel::wanted(alloc, part, facts, channel)),
        _ => ruled(alloc, facts, asked),
    }
}

fn signed(
    alloc: Global,
    setting: Setting,
    latest: Latest,
    channel: &Name,
) -> Result<Answer, ByteFault> {
    let scene = scene_of(alloc, setting, latest)?;
    signed_in(alloc, &facts_of(&scene), setting.0, channel)
}

#[test]
fn states_are_signed(rt: HostRuntime) {
    for row in 0..SIGNED.len() {
        let (setting, latest, channel, answer) = SIGNED[row];
        assert_eq!(rt;
            signed(rt.alloc(), setting, latest, &channel),
            Ok(answer),
            "row {row}"
        );
    }
}

#[derive(Clone, Copy, Debug, PartialEq, Eq)]
enum First {
    Nothing,
    /// What is expected there, and the amount.
    Deposit(u64, u64),
    Conclude,
}

/// The setting, the latest state, and what is called first. A channel on a ledger calls nothing.
const CALLED: [(Setting, Latest, First); 6] = [
    (ROOT, None, First::Nothing),
    (ROOT, Some((1, false)), First::Deposit(0, 5)),
    (ROOT_ENDS, Some((5, false)), First::Nothing),
    (ROOT_ENDS, Some((7, true)), First::Conclude),
    (CHILD, None, First::Nothing),
    (CHILD_ENDS, Some((5, false)), First::Nothing),
];

fn first_of(calls: &[Call]) -> First {
    match calls {
        [Call::Deposit(deposit), ..] => First::Deposit(deposit.expected, deposit.amount),
        [Call::Conclude { .. }, ..] => First::Conclude,
        _ => First::Nothing,
    }
}

fn called(alloc: Global, setting: Setting, latest: Latest) -> Result<First, ByteFault> {
    let scene = scene_of(alloc, setting, latest)?;
    let [.., part] = scene.plan.parts.as_slice() else {
        return Ok(First::Nothing);
    };
    match ledger_channel::calls(alloc, part, &facts_of(&scene)) {
        Ok(calls) => Ok(first_of(&calls)),
        Err(_) => Err(ByteFault::NoMemory),
    }
}

#[test]
fn calls_are_made(rt: HostRuntime) {
    for row in 0..CALLED.len() {
        let (setting, latest, first) = CALLED[row];
        assert_eq!(rt; called(rt.alloc(), setting, latest), Ok(first), "row {row}");
    }
}
