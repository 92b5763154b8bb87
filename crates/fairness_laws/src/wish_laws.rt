//! Laws alone: where the guard of a node's signatures lets through what its stages want.

ghost use Rattle.fairness_laws.specs.Carried.{SetUpsAreCarried};
ghost use Rattle.fairness_laws.specs.Forged.{GuardBites};
ghost use Rattle.fairness_laws.specs.Opens.{RootsOpenWith};
ghost use Rattle.fairness_laws.specs.Places.{RootsCloseAfterSetUp, RootsSignAtPlaces};
ghost use Rattle.fairness_laws.specs.Roots.{RootsOpenAsCommanded, RootsSignWhatTheyWant};

/// In a channel that holds its own funds a node signs each state that its stage wants, where what it keeps of the
/// channel sets up as was commanded. The guard never bites.
pub fn roots_sign_what_they_want()
    ensures { RootsSignWhatTheyWant }
{}

/// In the first round of a channel that holds its own funds, what its stage takes from others repeats the opening
/// outcome. So does what it wants while Close wasn't commanded.
pub fn roots_open_as_commanded()
    ensures { RootsOpenAsCommanded }
{}

/// Where marks are forged the guard bites. There are a legal history and a journal that a node's rules give, at whose
/// end its stage wants a state that is no step. Nothing is signed.
pub fn guards_bite_where_marks_are_forged()
    ensures { GuardBites }
{}

/// Where nothing is forged and names don't collide, the latest state that is held of a channel repeats the opening
/// outcome as long as the set-up lasts. That is so if what was signed and taken in the first round repeats it.
pub fn set_ups_are_carried()
    ensures { SetUpsAreCarried }
{}

/// What a node signs of a channel that holds its own funds in the first round, and takes from a message, repeats the
/// outcome of the command that opened it. So it is over each legal history and each journal that its rules give.
pub fn roots_open_with()
    ensures { RootsOpenWith }
{}

/// At a place of a node's journal over a legal history, where names don't collide, the set-up of a root of which
/// Close was commanded is over.
pub fn roots_close_after_set_up()
    ensures { RootsCloseAfterSetUp }
{}

/// At a place of a node's journal over a legal history, a node signs each state that the stage of a root wants.
/// Nothing is forged there and names don't collide.
pub fn roots_sign_at_places()
    ensures { RootsSignAtPlaces }
{}
