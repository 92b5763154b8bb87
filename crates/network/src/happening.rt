//! What happens in the world.

use crate::command::Command;
use call_history::Call;
use channel_values::Listed;

/// One happening. The first number is that of the caller or of the node.
#[derive(Drop)]
pub enum Happening {
    /// A caller enters a call.
    Enter(u32, Call),
    /// A new time is entered, by caller 0.
    Time(u64),
    /// A node follows what it hasn't followed.
    See(u32),
    /// A node is given a command, of a step with this number.
    Command(u32, u32, Command),
    /// A node is handed a message.
    Deliver(u32, Listed<u8>),
    /// A node acts.
    Tick(u32),
    /// A node's watcher at this place follows what it hasn't followed, and looks.
    Watch(u32, u32),
}
