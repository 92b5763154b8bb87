//! Plays a script in a world of nodes, round by round.
#![tactic(auto)]

mod catching;
mod play_laws;
mod replay;
mod rounds;
mod scene;

pub use catching::caught;
pub use play_laws::every_play_keeps_the_world;
pub use replay::play;
pub use rounds::{Letter, round, see, see_all};
pub use scene::{Scene, without};
