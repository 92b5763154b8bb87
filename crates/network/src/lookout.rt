//! A watcher that counts what it has followed.

ghost use Rattle.std.specs.Prelude.{◌≡◌, ◌+◌, ◌<◌, ◌^◌, length, IfOk, OnOk};
ghost use Rattle.network.specs.Watching.{is_stale, checkpoints};
ghost use Rattle.network.specs.Ways.{unlooking, followed};

use crate::watcher::Watcher;
use call_history::{Call, Entry, HeldChain};
use channel_values::NoMemory;
use std::alloc::Global;

/// A watcher, and how many entries it has followed.
#[derive(Drop)]
pub struct Lookout {
    pub watcher: Watcher,
    pub seen: u32,
}

impl Lookout {
    pub fn make(alloc: Global) -> Lookout
        ensures { result ≡ unlooking }
    {
        Lookout {
            watcher: Watcher::make(alloc),
            seen: 0,
        }
    }

    /// The checkpoints of a look after these entries.
    pub fn look(&mut self, entries: &[Entry], chains: &[HeldChain]) -> Result<Vec<Call>, NoMemory>
        requires { self.old.seen + length entries.now < 2 ^ 32 }
        ensures followed { OnOk result (self.new ≡ followed entries.now self.old) }
        ensures calls { IfOk result (λ calls. calls.items ≡ checkpoints (is_stale self.new.watcher) chains.now) }
    {
        let calls = self.watcher.look(entries, chains)?;
        self.seen += entries.len() as u32;
        Ok(calls)
    }
}
