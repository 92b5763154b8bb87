//! Participants with their watchers, the world in which they meet, and what it keeps.
#![tactic(auto)]

pub mod any_rules;
mod command;
mod docket;
mod happening;
mod lookout;
mod member;
pub mod models;
mod outs;
mod party;
mod rows;
pub mod safety_laws;
mod validity;
mod watcher;
mod watcher_laws;
mod world;
mod world_laws;

pub use command::{Command, LedgerFunding, Release, Route, VirtualFunding, copy_command};
pub use docket::Docket;
pub use happening::Happening;
pub use lookout::Lookout;
pub use member::Member;
pub use outs::{NodeFault, Outs, no_outs};
pub use party::Party;
pub use rows::Watched;
pub use validity::{additions_are_fixed, values_are_valid};
pub use watcher::Watcher;
pub use watcher_laws::{looks_are_kept, looks_are_the_historys, unseeing_stands};
pub use world::{World, world_step};
pub use world_laws::{every_happening_keeps_the_world, nothing_old_becomes_final};
