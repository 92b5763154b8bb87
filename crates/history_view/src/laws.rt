//! Laws of views. Each function is empty: its contract is the law.

ghost use Rattle.history_view.specs.Standing.{UnseenStands, FollowingKeepsStanding};

/// The view in which nothing is known stands for the history of no entry.
pub fn nothing_seen_stands_for_no_entry()
    ensures { UnseenStands }
{}

/// A view that stands for a legal history can follow its next entry, and then stands for the history with it.
pub fn following_keeps_what_a_view_stands_for()
    ensures { FollowingKeepsStanding }
{}
