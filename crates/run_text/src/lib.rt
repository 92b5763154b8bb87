//! The text that `nitro run` prints, as a model that records share, and its reader.
#![tactic(auto)]

mod checks;
mod draft;
mod endings;
mod entries;
mod fault;
mod line;
mod line_reader;
mod lines;
mod model;
mod reading;
mod refusals;
mod stage;
mod words;

pub use entries::read_paying_entry;
pub use fault::{LineFault, Unread, Wanted};
pub use model::{
    AssetEnd, Balance, Call, End, Entry, Made, Payee, PersonAsset, PersonEnd, Premises, Refused,
    Reply, Run, Said, TurnCall,
};
pub use reading::read_run;
