//! Who acts beside the nodes in a race.

ghost use Rattle.std.specs.Prelude.{◌≡◌, []};

use network_rounds::{Actor, Cast, Notes};
use std::alloc::Global;

/// Somebody of a cast, who has seen nothing.
pub(crate) fn unseeing(alloc: Global, number: u32, actor: Box<dyn Actor + Send>) -> Cast
    ensures unseen { result.notes.entries.items ≡ [] }
    ensures number { result.number ≡ number }
{
    let entries = Vec::new(alloc);
    Cast {
        number,
        actor,
        notes: Notes { entries },
        done: false,
    }
}
