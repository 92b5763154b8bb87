//! Plans of funding: what is wanted of channels, and the seats of those who take part.
#![tactic(auto)]

mod aim;
mod amounts;
mod apart;
mod changed;
mod child;
mod facts;
mod gather;
pub mod laws;
mod pieces;
mod plan;
mod seat;
mod terms;
mod valid;

pub use aim::{Aim, AimKind};
pub use amounts::{amounts_in, amt, has, is_listed, items_in, list_in, position_of};
pub use apart::apart_spelled;
pub use changed::Changed;
pub use child::Child;
pub use facts::Facts;
pub use gather::{chain_in, child_for, goal_in, place_in, seat_in, seat_with, view_in};
pub use plan::{Goal, Part, Plan, Virtual};
pub use seat::SeatView;
pub use terms::Terms;
