//! What the adjudicator answers.

ghost use Rattle.std.specs.Prelude.{◌≡◌};
ghost use Rattle.call_history.specs.History.{is_accepted};

use channel_values::{Name, StepFault, SupportFault};

/// Why an op is refused.
#[derive(Clone, Copy, Debug, PartialEq, Eq)]
pub enum Refusal {
    /// The channel is final.
    IsFinal,
    /// The chain doesn't support the turn of its last state: its first fault.
    NotSupported(SupportFault),
    /// The turn is below the recorded one, or, where a challenge is open, isn't above it: the recorded turn.
    Stale(u64),
    /// The challenger is no participant, or its key doesn't verify the signature.
    BadChallenger,
    /// No challenge is open.
    NoChallenge,
    /// The state isn't the challenged one.
    WrongState,
    /// The state doesn't have the turn after the recorded one: the turn that it should have.
    WrongTurn(u64),
    /// The key of the state's mover doesn't verify it.
    BadSignature,
    /// The state doesn't follow.
    BadStep(StepFault),
    /// The turn isn't above the recorded one: the recorded turn.
    NotNewer(u64),
    /// The mover of the state isn't the challenger.
    NotChallengers,
    /// The place of the first state that isn't final.
    NotFinalState(usize),
    /// Nothing would be deposited.
    Zero,
    /// The channel holds less than was expected: what it holds.
    Underheld(u64),
    /// More than 2^64 - 1 of the asset would be deposited: what was deposited.
    AssetFull(u64),
    /// The channel of this name isn't final.
    NotFinal(Name),
    /// The channel of this name ended with another outcome.
    WrongOutcome(Name),
    /// An outcome doesn't have the asset.
    NoAsset,
    /// An allocation stands where a guarantee is wanted, or a guarantee where an allocation is.
    WrongKind,
    /// The guarantee is of another target.
    WrongTarget,
    /// The position is past the guarantee's list.
    NotListed,
    /// The index is past the items, or the target has no item for the destination.
    NoItem,
    /// Nothing is due: what the paying channel holds.
    NothingDue(u64),
    /// The time is over: what it is now.
    Backwards(u64),
    /// The time is above 2^62.
    TooLate,
}

/// The answer to an op.
#[derive(Clone, Copy, Debug, PartialEq, Eq)]
pub enum Reply {
    /// What the channel then holds of the asset.
    Held(u64),
    /// A challenge is open, until this time.
    Until(u64),
    /// No challenge is open, and this turn is recorded.
    Opened(u64),
    /// The channel ends at this turn.
    Concluded(u64),
    /// This much was paid.
    Paid(u64),
    /// The time then.
    Now(u64),
    No(Refusal),
}

impl Reply {
    /// Whether the op was accepted.
    pub fn is_accepted(&self) -> bool
        ensures { result ≡ is_accepted self.now }
    {
        !matches!(self, Reply::No(_))
    }
}
