//! The steps of scripts, and the rules that each is held to by what earlier steps declared: names, limits and digests.
#![tactic(auto)]

mod context;
mod digests;
mod digits;
mod entering;
mod limits;
mod name_list;
mod names;
mod step;

pub use context::{Channel, Context, Kind, Person};
pub use digests::id_of;
pub use digits::is_hex;
pub use entering::enter;
pub use limits::{STEP_LIMIT, runs_in_race};
pub use name_list::NameList;
pub use step::{
    CatchStep, ChallengeStep, ChannelStep, ClaimStep, DepositStep, OpenOnStep, OpenStep,
    OpenVirtualStep, PayStep, PersonStep, RespondStep, Rule, SignStep, Step, StepFault,
    TransferStep,
};
