//! What exits are, by an example.

ghost use Rattle.channel_exits.specs.Example.{ExampleHolds};
ghost use Rattle.channel_exits.specs.Leaving.{LeavesWithItsShare};

/// The exits of an end and of the intermediary of a virtual channel, and a share that no exit pays, since nobody
/// guarantees it.
pub fn example_holds()
    ensures { ExampleHolds }
{}

/// There are a legal history and a journal in which a person can exit and is owed something. Its exit stands and pays
/// just that, though another's call stands between.
pub fn exits_can_pay()
    ensures { LeavesWithItsShare }
{}
