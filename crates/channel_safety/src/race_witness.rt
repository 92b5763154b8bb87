//! There are races in which the laws say something.

ghost use Rattle.channel_safety.specs.RaceWitness.{RacesCanPass};

/// There is a race of two rounds with a legal history. In the first another challenges with old states, a look gives a
/// checkpoint that is entered in the same round, and the other challenges again, after the look. The second look finds
/// that this challenge is as new as what it holds, and at the second round's end it runs out.
pub fn races_can_pass()
    ensures { RacesCanPass }
{}
