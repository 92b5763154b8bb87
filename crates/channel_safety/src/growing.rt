//! How a race grows, a step at a time: what a loop that runs rounds keeps.

ghost use Rattle.channel_safety.specs.RaceLaws.{RacesBegin, RacesGoOn, RacersJoin, RoundsEnd, RoundsPass};

/// The empty history and the empty journal are those of a race of no round.
pub fn races_begin()
    ensures { RacesBegin }
{}

/// Calls may be entered between rounds, and the participant may do anything once it has seen the last round's time.
pub fn races_go_on()
    ensures { RacesGoOn }
{}

/// A round may be run, and then a time of now + 1 entered.
pub fn rounds_end()
    ensures { RoundsEnd }
{}

/// A participant that has noted nothing yet may come between rounds.
pub fn racers_join()
    ensures { RacersJoin }
{}

/// A round may be run without it, before it comes.
pub fn rounds_pass()
    ensures { RoundsPass }
{}
