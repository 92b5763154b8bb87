//! Rounds in threads: nodes with their watchers, and boxed actors, act side by side on one shared adjudicator.
#![tactic(auto)]

mod actor;
mod callers;
mod cast;
mod crew;
mod fault;
mod gate;
mod member;
mod phase;
mod round;
mod round_laws;
mod seats;
mod worker;

pub use actor::{Act, Actor, Notes};
pub use cast::Cast;
pub use crew::Crew;
pub use fault::RoundFault;
pub use gate::{Clear, Gate};
pub use member::Letter;
pub use round::race_round;
pub use round_laws::{
    crews_are_honest, races_stay, rounds_keep_crews, rounds_keep_order, runs_are_rounds,
};
