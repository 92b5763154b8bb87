//! Laws alone: two honest nodes in a world open a direct payment channel, pay and close.

ghost use Rattle.script_run.specs.Finish.{HonestTwoFinish};
ghost use Rattle.script_run.specs.Phases.{PaymentsAreHeld, RoundsRest, TwoClose, TwoOpen};
ghost use Rattle.script_run.specs.Rounds.{RoundsAreMade};
ghost use Rattle.script_run.specs.Timely.{WholesAreInTime};

/// A round makes of a world of two nodes what the two do.
pub fn rounds_are_made()
    ensures { RoundsAreMade }
{}

/// Two nodes that know nothing and are told to open a channel run it after eight rounds.
pub fn two_open()
    ensures { TwoOpen }
{}

/// A payment that isn't refused is held by both after one more round.
pub fn payments_are_held()
    ensures { PaymentsAreHeld }
{}

/// A round in which nothing was commanded changes nothing of what both hold.
pub fn rounds_rest()
    ensures { RoundsRest }
{}

/// A close has paid both after six rounds.
pub fn two_close()
    ensures { TwoClose }
{}

/// Two nodes that are told to open a channel, to pay in turn what they have, and to close it finish, and are paid
/// exactly.
pub fn honest_two_finish()
    ensures { HonestTwoFinish }
{}

/// In a history of two who finished watchers were in time by every journal.
pub fn wholes_are_in_time()
    ensures { WholesAreInTime }
{}
