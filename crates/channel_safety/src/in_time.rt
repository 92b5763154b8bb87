//! Watchers are in time, over any rules.

ghost use Rattle.channel_safety.specs.RaceLaws.{RacesAreInTime, LastingChannelsStandForTwo};

/// Each round is followed by one time entry of now + 1. In each a watcher looks after all that its participant notes
/// in it, and its calls are entered before the round's end. Then a challenge that stands open for two doesn't run out
/// unseen.
pub fn races_are_in_time()
    ensures { RacesAreInTime }
{}

/// A challenge of a channel that was opened with a duration of at least two stands open for two, where names
/// determine fixed parts. Where they don't, somebody may challenge the channel with another fixed part of its name.
pub fn lasting_channels_stand_for_two()
    ensures { LastingChannelsStandForTwo }
{}
