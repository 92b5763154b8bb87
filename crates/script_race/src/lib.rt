//! Plays a script as a race in threads, and reports it.
#![tactic(auto)]

mod driver;
mod race_command_laws;
mod race_plays;
mod race_report;
mod racing;
mod replay;

pub use race_command_laws::commands_open_lasting_channels;
pub use race_plays::races_of_scripts_stay;
pub use race_report::report_race;
pub use racing::Race;
pub use replay::race;
