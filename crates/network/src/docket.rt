//! Where ops are entered.

ghost use Rattle.std.specs.Prelude.{◌≡◌, ◌<◌, ◌-◌, ◌^◌, [], List, length, OnErr, OnOk};
ghost use Rattle.call_history.specs.History.{Legal, newest_first};
ghost use Rattle.call_history.specs.declared.entry.Entry.{Entry as AnEntry};
ghost use Rattle.support_rules.specs.Real.{real};
ghost use Rattle.network.specs.Entered.{entered, oldest_first};

use call_history::{Entry, Op};
use channel_values::NoMemory;
use std::alloc::Global;

/// An adjudicator with its history, the newest entry first, which is legal.
pub trait Docket: Drop {
    ghost history: { Self → List AnEntry };

    fn make(alloc: Global) -> Self
        ensures { history result ≡ [] };

    /// Enters an op, with the reply of the adjudicator; or nothing when memory runs out.
    fn enter(&mut self, by: u32, op: Op) -> Result<(), NoMemory>
        requires { length (history self.old) < 2 ^ 32 - 1 }
        ensures entered { OnOk result (history self.new ≡ entered (history self.old) by op) }
        ensures kept { OnErr result (history self.new ≡ history self.old) };

    /// The entries in the order of time.
    fn entries(&self) -> &[Entry]
        ensures same { result.now ≡ oldest_first (history self.now) }
        ensures few { length result.now < 2 ^ 32 }
        ensures legal { Legal real (history self.now) };

    /// The entries in the order of time, after which nothing is entered.
    fn into_entries(self) -> Vec<Entry>
        ensures same { newest_first result.items ≡ history self }
        ensures legal { Legal real (history self) };
}
