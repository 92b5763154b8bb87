//! What answers lines.

ghost use Rattle.std.specs.Prelude.{◌≡◌, ℕ, List, true, not, is_some, IfOk, IfSome, OnOk};
ghost use Rattle.lasting_lines.specs.Endings.{EndsBy};
ghost use Rattle.lasting_lines.specs.Machines.{Ways};

use crate::outside::Fault;
use std::alloc::{AllocError, Global};

/// A deterministic machine: `ways` gives, as functions of its value, which lines it takes, what each makes of it, and
/// its answer. `says` holds of the messages for a line that isn't taken, and `foreign` of a line of another story.
pub trait Machine {
    ghost ways: { Ways Self };

    ghost says: { Self → List ℕ → List ℕ → Type 0 };

    ghost foreign: { Self → List ℕ → Type 0 };

    /// The message for a line that isn't taken, and `None` for one that is. Only lines that are taken are kept.
    fn refusal(&self, alloc: Global, line: &[u8]) -> Result<Option<Vec<u8>>, AllocError>
        ensures taken { IfOk result (λ message. is_some message ≡ not (ways.takes self.now line.now)) }
        ensures says { IfOk result (λ message. IfSome message (λ text. says self.now line.now text.items)) };

    /// Takes a line, and gives its answer. `Foreign` for a line of another story, which isn't kept, or `NoMemory`. After an
    /// `Err` the machine is of no more use.
    fn step(&mut self, alloc: Global, line: &[u8]) -> Result<Vec<u8>, Fault>
        requires { ways.takes self.old line.now ≡ true }
        ensures gives { IfOk result (λ text. text.items ≡ ways.owes self.old line.now) }
        ensures steps { OnOk result (self.new ≡ ways.next self.old line.now) }
        ensures ends { EndsBy (foreign self.old line.now) ⊥ result };
}
