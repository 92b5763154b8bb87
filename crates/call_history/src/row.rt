//! What is recorded of a channel.

ghost use Rattle.std.specs.Prelude.{◌≡◌};
ghost use Rattle.std.specs.Option.{option_map};
ghost use Rattle.call_history.specs.Rows.{row_or_blank};

use channel_values::Name;

/// The recorded turn and the deadline of an open challenge, with the digests of the state and of the outcome and the
/// challenger's position of the last challenge or conclude. Where there was none, these are zeros.
#[derive(Clone, Copy, Debug, PartialEq, Eq)]
pub struct Row {
    pub turn: u64,
    pub deadline: Option<u64>,
    pub state_digest: Name,
    pub outcome_digest: Name,
    pub challenger: u8,
}

/// The row that there is, or that of a channel without one: turn 0, no deadline, zeros as digests, challenger 0.
pub fn row_or_blank(row: Option<&Row>) -> Row
    ensures { result ≡ row_or_blank (option_map (λ m. m.now) row.entry) }
{
    match row {
        Some(row) => *row,
        None => Row {
            turn: 0,
            deadline: None,
            state_digest: [0; 32],
            outcome_digest: [0; 32],
            challenger: 0,
        },
    }
}
