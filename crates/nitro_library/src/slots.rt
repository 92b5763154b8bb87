//! A slot in the caller's memory: nothing, or a pointer to a core.

ghost use Rattle.std.specs.Prelude.{◌≡◌};

mod ledger_slot;
mod node_slot;

pub use ledger_slot::LedgerSlot;
pub use node_slot::NodeSlot;

// What C may give to another thread.
fn sendable<T: Send>(value: T) -> T
    ensures { result ≡ value }
{
    value
}
