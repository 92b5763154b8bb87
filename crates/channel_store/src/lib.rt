//! What a participant keeps of its channels, under any rules.
#![tactic(auto)]

mod fault;
mod kept;
mod lent;
mod store;
mod store_laws;

pub use fault::NoteFault;
pub use kept::Kept;
pub use store::Store;
pub use store_laws::{
    adopting_is_alone, adopting_is_held, kept_are_good, lines_note_states, noting_is_alone,
    noting_is_held, opening_is_held,
};
