//! The values of a channel network, their canonical bytes and names, and what states, chains and amounts mean.
#![tactic(auto)]

mod byte_laws;
mod chain;
mod cursor;
mod display;
mod fault;
mod fixed;
mod flat;
mod limits;
mod listed;
mod many;
pub mod name_laws;
mod names;
mod outcome;
mod state;
pub mod support_laws;
mod value;
mod writing;

pub use byte_laws::{
    laws_of_chains, laws_of_fixed_parts, laws_of_outcomes, laws_of_signed_states, laws_of_states,
};
pub use chain::{
    Chain, Mark, Signed, mover_at, read_chain, read_signed, take_chain, take_signature,
    take_signed, write_chain, write_signed,
};
pub use cursor::{
    ended, place_of, take_byte, take_count, take_flag, take_name, take_sized, take_u16, take_u32,
    take_u64,
};
pub use fault::{ByteFault, NoMemory, StepFault, SupportFault};
pub use fixed::{Fixed, read_fixed, take_fixed, write_fixed};
pub use limits::{
    MOST_APP_BYTES, MOST_ASSETS, MOST_ITEMS, MOST_MARKS, MOST_PEOPLE, MOST_SIGNATURE_BYTES,
    MOST_STATES,
};
pub use listed::{Label, Listed};
pub use many::{Take, take_long_list, take_many, take_short_list};
pub use names::{
    challenge_message, channel_name, outcome_digest, person_name, state_digest, state_message,
};
pub use outcome::{
    Outcome, is_outcome, item_in, outcome_is, read_outcome, take_outcome, write_outcome,
};
pub use state::{State, read_state, take_state, write_state};
pub use value::{AssetOutcome, Dest, Item, Key, Name, Shape, total};
pub use writing::{put_count, put_flag, put_name, put_sized};
