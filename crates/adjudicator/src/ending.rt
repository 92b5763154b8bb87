//! Whether a channel ended, and with which outcome.

ghost use Rattle.std.specs.Prelude.{◌≡◌};
ghost use Rattle.std.specs.Option.{option_map};
ghost use Rattle.call_history.specs.Rows.{row_or_blank};
ghost use Rattle.call_history.specs.Replies.{is_unfinished, ends_otherwise};
ghost use Rattle.support_rules.specs.Real.{real};

use call_history::{Row, Standing, mode, row_or_blank};
use channel_values::{Outcome, outcome_digest};

/// Whether the channel of this row isn't final.
pub(crate) fn is_unfinished(row: Option<&Row>, now: u64) -> bool
    ensures { result ≡ is_unfinished (row_or_blank (option_map (λ m. m.now) row.entry)) now }
{
    mode(row_or_blank(row).deadline, now) != Standing::Final
}

/// Whether the channel of this row ended with another outcome than this one.
pub(crate) fn ends_otherwise(row: Option<&Row>, outcome: &Outcome) -> bool
    ensures { result ≡ ends_otherwise real (row_or_blank (option_map (λ m. m.now) row.entry)) outcome.now }
{
    outcome_digest(outcome.bytes()) != row_or_blank(row).outcome_digest
}
