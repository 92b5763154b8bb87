//! What the network's node promises its person, of shares, exits and commands.
#![tactic(auto)]

pub mod exit_shares;
pub mod held;
mod laws;
pub mod network_shares;
mod node_share_laws;
mod node_way_laws;
mod told;
mod view_laws;

pub use laws::{messages_are_signed_in_journals, no_index_signs_twice, nobody_lowers_a_share};
pub use node_share_laws::{nodes_tell_shares, places_tell_shares, unheld_is_nothing};
pub use node_way_laws::{nodes_are_kept, nodes_follow_commands};
pub use told::ReportedNode;
pub use view_laws::{views_tell_exits, views_tell_shares};
