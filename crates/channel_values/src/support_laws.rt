//! Laws over the definitions alone. Each function is empty: its contract is the law.

ghost use Rattle.channel_values.specs.LastTurn.{LastTurnIsGreatest};
ghost use Rattle.channel_values.specs.Supported.{SupportTells, SupportIsExact, SupportIsByMarks};

/// The last turn of a participant is the greatest that is its own.
pub fn last_turn_is_greatest()
    ensures { LastTurnIsGreatest }
{}

/// A chain that supports a turn meets each condition, and has every step after each participant's last turn.
pub fn support_tells()
    ensures { SupportTells }
{}

/// A chain supports a turn exactly where its states and marks meet the conditions.
pub fn support_is_exact()
    ensures { SupportIsExact }
{}

/// What a chain supports is what it supports with the truth values of its marks, whoever found them.
pub fn support_is_by_marks()
    ensures { SupportIsByMarks }
{}
