//! Laws alone: a participant's view and its store determine what it can get, and by which calls. Each function is
//! empty: its contract is the law.

ghost use Rattle.node_guarantees.specs.ViewExits.{ViewsTellExits};
ghost use Rattle.node_guarantees.specs.ViewLaws.{ViewsTellShares};

/// A view that stands for the entries, and what is kept of each channel, determine which channels count and what they
/// can end with. They also determine the share of the participant, and whether its plan is funded.
pub fn views_tell_shares()
    ensures { ViewsTellShares }
{}

/// A view that stands for the entries has the calls of an exit after them.
pub fn views_tell_exits()
    ensures { ViewsTellExits }
{}
