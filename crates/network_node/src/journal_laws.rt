//! A law alone: what the network's node writes into its journal at each call. The function is empty: its contract is
//! the law.

ghost use Rattle.network_node.specs.JournalLaws.{NodesWriteJournals};

/// Where memory hasn't failed a node, a message, a command, a tick and a look each add what they did to its journal.
/// The event has the number of entries that the node, or its watcher, had followed.
pub fn nodes_write_journals()
    ensures { NodesWriteJournals }
{}
