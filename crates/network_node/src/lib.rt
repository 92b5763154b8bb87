//! The network's node as a program runs it, with what it is to its person in a race.
#![tactic(auto)]

mod journal_laws;
mod mind;
mod node;
mod race_fairness_laws;
mod seeing;
mod sharing;
mod told;

pub use journal_laws::nodes_write_journals;
pub use node::Node;
pub use race_fairness_laws::{
    raced_plans_keep_shares, racing_nodes_are_in_time, racing_nodes_are_safe,
    racing_nodes_keep_shares,
};
