//! What is entered.

ghost use Rattle.std.specs.Prelude.{◌≡◌, IfOk};

use channel_values::{Chain, Fixed, Listed, Name, NoMemory, Outcome, Signed, State};

/// Brings `amount` of an asset into a channel, unless it holds less than `expected`.
#[derive(Clone, Copy)]
pub struct DepositCall {
    pub channel: Name,
    pub asset: u32,
    pub expected: u64,
    pub amount: u64,
}

/// Sets a deadline, after which the last state of the chain is what the channel ends with. The participant at the
/// position `challenger` signs for it.
#[derive(Drop)]
pub struct ChallengeCall {
    pub chain: Chain,
    pub challenger: u8,
    pub signature: Listed<u8>,
}

/// Answers a challenge with the next state, which follows from the challenged one.
#[derive(Drop)]
pub struct RespondCall {
    pub fixed: Fixed,
    pub from: State,
    pub next: Signed,
}

/// Pays an item of an asset from what its final channel holds. The outcome is the one that the channel ended with.
#[derive(Drop)]
pub struct TransferCall {
    pub channel: Name,
    pub outcome: Outcome,
    pub asset: u32,
    pub index: u8,
}

/// Pays a destination of a guarantor's list from what the guarantor holds. What is paid is an item of the target. Both
/// channels are final, and the outcomes are those that they ended with.
#[derive(Drop)]
pub struct ClaimCall {
    pub guarantor: Name,
    pub guarantor_outcome: Outcome,
    pub target: Name,
    pub target_outcome: Outcome,
    pub asset: u32,
    pub position: u8,
}

/// A call of the adjudicator.
#[derive(Drop)]
pub enum Call {
    Deposit(DepositCall),
    Challenge(ChallengeCall),
    Respond(RespondCall),
    /// Answers a challenge with a newer state that the challenger signed.
    Refute { fixed: Fixed, next: Signed },
    /// Records a newer supported turn, and ends a challenge.
    Checkpoint { chain: Chain },
    /// Ends the channel at once, with final states.
    Conclude { chain: Chain },
    Transfer(TransferCall),
    Claim(ClaimCall),
}

/// A call, or a new time.
#[derive(Drop)]
pub enum Op {
    Call(Call),
    Time(u64),
}

impl ChallengeCall {
    fn copy(&self) -> Result<ChallengeCall, NoMemory>
        ensures { IfOk result (λ c. c ≡ self.now) }
    {
        let chain = self.chain.copy()?;
        let signature = self.signature.copy()?;
        Ok(ChallengeCall {
            chain,
            challenger: self.challenger,
            signature,
        })
    }
}

impl RespondCall {
    fn copy(&self) -> Result<RespondCall, NoMemory>
        ensures { IfOk result (λ c. c ≡ self.now) }
    {
        let fixed = self.fixed.copy()?;
        let from = self.from.copy()?;
        let next = self.next.copy()?;
        Ok(RespondCall { fixed, from, next })
    }
}

impl TransferCall {
    fn copy(&self) -> Result<TransferCall, NoMemory>
        ensures { IfOk result (λ c. c ≡ self.now) }
    {
        let outcome = self.outcome.copy()?;
        Ok(TransferCall {
            channel: self.channel,
            outcome,
            asset: self.asset,
            index: self.index,
        })
    }
}

impl ClaimCall {
    fn copy(&self) -> Result<ClaimCall, NoMemory>
        ensures { IfOk result (λ c. c ≡ self.now) }
    {
        let guarantor_outcome = self.guarantor_outcome.copy()?;
        let target_outcome = self.target_outcome.copy()?;
        Ok(ClaimCall {
            guarantor: self.guarantor,
            guarantor_outcome,
            target: self.target,
            target_outcome,
            asset: self.asset,
            position: self.position,
        })
    }
}

impl Call {
    /// A second call that equals this one.
    pub fn copy(&self) -> Result<Call, NoMemory>
        ensures { IfOk result (λ c. c ≡ self.now) }
    {
        match self {
            Call::Deposit(deposit) => Ok(Call::Deposit(*deposit)),
            Call::Challenge(challenge) => {
                let copy = challenge.copy()?;
                Ok(Call::Challenge(copy))
            }
            Call::Respond(respond) => {
                let copy = respond.copy()?;
                Ok(Call::Respond(copy))
            }
            Call::Refute { fixed, next } => {
                let fixed = fixed.copy()?;
                let next = next.copy()?;
                Ok(Call::Refute { fixed, next })
            }
            Call::Checkpoint { chain } => {
                let chain = chain.copy()?;
                Ok(Call::Checkpoint { chain })
            }
            Call::Conclude { chain } => {
                let chain = chain.copy()?;
                Ok(Call::Conclude { chain })
            }
            Call::Transfer(transfer) => {
                let copy = transfer.copy()?;
                Ok(Call::Transfer(copy))
            }
            Call::Claim(claim) => {
                let copy = claim.copy()?;
                Ok(Call::Claim(copy))
            }
        }
    }
}

impl Op {
    /// A second op that equals this one.
    pub fn copy(&self) -> Result<Op, NoMemory>
        ensures { IfOk result (λ o. o ≡ self.now) }
    {
        match self {
            Op::Call(call) => {
                let call = call.copy()?;
                Ok(Op::Call(call))
            }
            Op::Time(to) => Ok(Op::Time(*to)),
        }
    }
}
