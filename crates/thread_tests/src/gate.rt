//! A gate that lets a worker pass once two have begun.

use network_rounds::Gate;
use std::sync::atomic::{AtomicBool, AtomicU64, Ordering};

/// How often a worker looks for another one before it gives up.
pub(crate) const LOOKS: u32 = 1_000_000_000;

/// Holds each worker of a phase until two have begun it.
#[derive(Drop)]
pub(crate) struct Pairing {
    first: AtomicU64,
    second: AtomicU64,
    gave_up: AtomicBool,
}

impl Pairing {
    pub(crate) fn make() -> Pairing {
        Pairing {
            first: AtomicU64::new(0),
            second: AtomicU64::new(0),
            gave_up: AtomicBool::new(false),
        }
    }

    /// How many workers began the two phases, where none gave up.
    pub(crate) fn begun(&self) -> Option<(u64, u64)> {
        if self.gave_up.load(Ordering::SeqCst) {
            return None;
        }
        Some((
            self.first.load(Ordering::SeqCst),
            self.second.load(Ordering::SeqCst),
        ))
    }

    fn hold(&self, begun: &AtomicU64) {
        begun.fetch_add(1, Ordering::SeqCst);
        for _ in 0..LOOKS {
            if begun.load(Ordering::SeqCst) >= 2 {
                return;
            }
        }
        self.gave_up.store(true, Ordering::SeqCst);
    }
}

impl Gate for Pairing {
    fn begin(&self, phase: u32, _worker: u32) {
        if phase == 1 {
            self.hold(&self.first)
        } else {
            self.hold(&self.second)
        }
    }

    fn finish(&self, _phase: u32, _worker: u32) {}
}
