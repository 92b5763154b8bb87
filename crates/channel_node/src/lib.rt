//! The node of a participant, over any mind: what it answers, notes and sends, and that it is honest and in time.
#![tactic(auto)]

mod message_laws;
mod mind;
mod node;
mod node_laws;
mod race_node_laws;

pub use message_laws::{bad_signatures_are_told, broken_bytes_are_refused};
pub use mind::{Knowing, OwnChallenge};
pub use node::Node;
pub use node_laws::{
    calls_keep_standing, follows_within, fresh_nodes_stand, kept_is_held, lost_nodes_stand,
    made_keys_sign_well, made_nodes_are_honest, played_journals_are_honest,
    played_journals_leave_for_good, refused_as_noted, standing_grows, standing_nodes_are_honest,
};
pub use race_node_laws::{
    lasting_plans_are_noted, network_racers_are_in_time, network_racers_are_safe,
    raced_nodes_are_in_time, raced_nodes_are_safe, states_are_of_opened_channels,
};
