//! What people have of plans, while they are funded and while ledgers hold less.

use crate::built::{
    A, B, Body, CHANNEL, GUARANTOR_A, GUARANTOR_B, I, JOINT, LEDGER_A, LEDGER_B, TO_A, TO_B, TO_I,
    VIRTUAL, outcome_of, plan_of, state_of, view_of,
};
use call_history::{ChannelView, ChannelViews, Known, WorldView};
use channel_values::{ByteFault, Dest, Listed, Name, NoMemory, State};
use funding_plans::{Part, Plan, Virtual};
use plan_share::{is_funded, is_owed, share};
use std::alloc::Global;

const TO_CHANNEL: Dest = Dest::Channel(CHANNEL);

const TO_GUARANTOR_A: Dest = Dest::Channel(GUARANTOR_A);

const TO_GUARANTOR_B: Dest = Dest::Channel(GUARANTOR_B);

/// A channel, and what its last state says.
type Last = (Name, Body<'static>);

const IN_A_LEDGER: &[Part] = &[Part::Root(LEDGER_A), Part::OnLedger(LEDGER_A, CHANNEL)];

/// The ledger set 2 and 3 aside of 5 and 5.
const SET_ASIDE: &[Last] = &[
    (
        LEDGER_A,
        Body::Items(&[(TO_A, 3), (TO_B, 2), (TO_CHANNEL, 5)]),
    ),
    (CHANNEL, Body::Items(&[(TO_A, 2), (TO_B, 3)])),
];

const IN_THE_MIDDLE: &[Part] = &[
    Part::Root(LEDGER_A),
    Part::Root(LEDGER_B),
    Part::Middle(Virtual {
        total: 10,
        ..VIRTUAL
    }),
];

/// The states that an intermediary signed last: its ledger with A set 10 aside, and that with B has 100 each.
const SET_UP: &[Last] = &[
    (
        LEDGER_A,
        Body::Items(&[(TO_A, 94), (TO_I, 96), (TO_GUARANTOR_A, 10)]),
    ),
    (GUARANTOR_A, Body::List(JOINT, &[TO_CHANNEL, TO_A, TO_I])),
    (GUARANTOR_B, Body::List(JOINT, &[TO_CHANNEL, TO_B, TO_I])),
    (JOINT, Body::Items(&[(TO_CHANNEL, 10), (TO_I, 10)])),
];

const HUNDREDS: Body = Body::Items(&[(TO_I, 100), (TO_B, 100)]);

const WHOLE: Body = Body::Items(&[(TO_I, 94), (TO_B, 96), (TO_GUARANTOR_B, 10)]);

const SHORT: Body = Body::Items(&[(TO_I, 91), (TO_B, 96), (TO_GUARANTOR_B, 3)]);

/// The plan's owner, and what each ledger holds. The outcome for which B's ledger votes in the middle of a set-up, or
/// that the plan is a ledger with a channel on it. The share, whether the plan is funded, and whether a share is
/// owed.
const SHARES: [(Name, u64, Option<Body>, u128, bool, bool); 6] = [
    (A, 10, None, 9, true, true),
    (B, 10, None, 5, true, true),
    (B, 7, None, 2, false, true),
    (A, 0, None, 4, false, false),
    // An intermediary gets the lower of both outcomes.
    (I, 200, Some(WHOLE), 196, true, true),
    (I, 200, Some(SHORT), 190, false, true),
];

fn known_of(alloc: Global, rows: &[Last]) -> Result<Vec<Known>, ByteFault> {
    let mut known = Vec::new(alloc);
    for (channel, body) in rows {
        let last = state_of(alloc, 2, false, *body, &[])?;
        known.push(Known {
            channel: *channel,
            last,
        })?;
    }
    Ok(known)
}

/// A state of B's ledger that votes for another outcome.
fn voting_for(alloc: Global, next: Body) -> Result<State, ByteFault> {
    let next = outcome_of(alloc, next)?;
    let mut data = Vec::from_array(alloc, [1])?;
    data.extend_from_slice(next.bytes())?;
    state_of(alloc, 2, false, HUNDREDS, &data)
}

fn known_in(alloc: Global, next: Option<Body>) -> Result<Vec<Known>, ByteFault> {
    let Some(next) = next else {
        return known_of(alloc, SET_ASIDE);
    };
    let mut known = known_of(alloc, SET_UP)?;
    let last = voting_for(alloc, next)?;
    known.push(Known {
        channel: LEDGER_B,
        last,
    })?;
    Ok(known)
}

fn holding(alloc: Global, channel: Name, amount: u64) -> Result<ChannelView, ByteFault> {
    let held = Vec::from_array(alloc, [(0, amount)])?;
    Ok(ChannelView {
        channel,
        turn: 0,
        deadline: None,
        held: Listed::make(held),
        shown: None,
        settled: None,
        rest: None,
    })
}

/// A view in which both ledgers hold an amount, and A was paid 4.
fn seen(alloc: Global, amount: u64) -> Result<WorldView, ByteFault> {
    let mut channels = ChannelViews::new(alloc);
    for ledger in [LEDGER_A, LEDGER_B] {
        channels.push(holding(alloc, ledger, amount)?)?;
    }
    let mut view = view_of(alloc, 0, channels);
    view.paid.set(&A, 0, 4)?;
    Ok(view)
}

/// The share, whether the plan is funded, and whether a share is owed.
type Worth = (u128, bool, bool);

fn worth_of(
    alloc: Global,
    plan: &Plan,
    view: &WorldView,
    known: &[Known],
) -> Result<Worth, NoMemory> {
    let share = share(alloc, plan, view, known, 0)?;
    let funded = is_funded(alloc, plan, view, known)?;
    let owed = is_owed(alloc, plan, view, known)?;
    Ok((share, funded, owed))
}

fn worth(alloc: Global, me: Name, held: u64, next: Option<Body>) -> Result<Worth, ByteFault> {
    let parts = if next.is_some() {
        IN_THE_MIDDLE
    } else {
        IN_A_LEDGER
    };
    let plan = plan_of(alloc, me, parts)?;
    let view = seen(alloc, held)?;
    let known = known_in(alloc, next)?;
    Ok(worth_of(alloc, &plan, &view, &known)?)
}

#[test]
fn shares(rt: HostRuntime) {
    for row in 0..SHARES.len() {
        let (me, held, next, share, funded, owed) = SHARES[row];
        assert_eq!(rt;
            worth(rt.alloc(), me, held, next),
            Ok((share, funded, owed)),
            "row {row}"
        );
    }
}
