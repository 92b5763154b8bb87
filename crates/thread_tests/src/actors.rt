//! Actors of whose acts contracts say nothing.

ghost use Rattle.std.specs.Prelude.{false, []};

use crate::gate::LOOKS;
use call_history::{Call, DepositCall};
use network_rounds::{Act, Actor, Cast, Notes};
use std::alloc::Global;
use std::sync::Arc;
use std::sync::atomic::{AtomicBool, Ordering};

/// At its first act it sets its own flag and looks for the other's; it is done where it finds it.
#[derive(Drop)]
pub(crate) struct Caller {
    own: Arc<AtomicBool, Global>,
    other: Arc<AtomicBool, Global>,
    called: bool,
}

impl Actor for Caller {
    ghost tells = { λ _. false };

    ghost told = { λ _. [] };

    fn act(&mut self, _seen: &Notes) -> Act {
        if self.called {
            return Act::Rest;
        }
        self.called = true;
        self.own.store(true, Ordering::SeqCst);
        for _ in 0..LOOKS {
            if self.other.load(Ordering::SeqCst) {
                return Act::Done;
            }
        }
        Act::Rest
    }
}

/// It deposits 1 more than the entries that it was given.
#[derive(Drop)]
pub(crate) struct Counter;

impl Actor for Counter {
    ghost tells = { λ _. false };

    ghost told = { λ _. [] };

    fn act(&mut self, seen: &Notes) -> Act {
        Act::Enter(Call::Deposit(DepositCall {
            channel: [7; 32],
            asset: 0,
            expected: 0,
            amount: seen.entries.len() as u64 + 1,
        }))
    }
}

fn cast(alloc: Global, number: u32, actor: Box<dyn Actor + Send>) -> Cast {
    let entries = Vec::new(alloc);
    Cast {
        number,
        actor,
        notes: Notes { entries },
        done: false,
    }
}

/// An actor with this number that counts.
pub(crate) fn counting_actor(alloc: Global, number: u32) -> Option<Cast> {
    let actor = Box::new(alloc, Counter).ok()?;
    Some(cast(alloc, number, actor))
}

fn calling_actor(
    alloc: Global,
    number: u32,
    own: &Arc<AtomicBool, Global>,
    other: &Arc<AtomicBool, Global>,
) -> Option<Cast> {
    let own = Arc::try_clone(own).ok()?;
    let other = Arc::try_clone(other).ok()?;
    let called = false;
    let actor = Box::new(alloc, Caller { own, other, called }).ok()?;
    Some(cast(alloc, number, actor))
}

/// Two actors that look for each other's flags.
pub(crate) fn two_callers(alloc: Global) -> Option<Vec<Cast>> {
    let one = Arc::new(alloc, AtomicBool::new(false)).ok()?;
    let two = Arc::new(alloc, AtomicBool::new(false)).ok()?;
    let first = calling_actor(alloc, 101, &one, &two)?;
    let second = calling_actor(alloc, 102, &two, &one)?;
    Vec::from_array(alloc, [first, second]).ok()
}
