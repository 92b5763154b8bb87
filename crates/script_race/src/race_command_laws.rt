//! A law alone: challenges of the channels that the commands of a race open stand open for at least two. The function
//! is empty: its contract is the law.

ghost use Rattle.script_race.specs.CommandLaws.{CommandsOpenLasting};

/// No command of a script whose steps may all stand in a race opens a channel of duration 1.
pub fn commands_open_lasting_channels()
    ensures { CommandsOpenLasting }
{}
