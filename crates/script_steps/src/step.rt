//! The steps of a script, and the rules that one can break.

ghost use Rattle.std.specs.Prelude.{◌≡◌};
ghost use Rattle.script_steps.specs.Messages.{rule_words};
ghost use Rattle.script_steps.specs.declared.step.StepFault.TheVariants.{NoMemory as NoMemoryLeft};

use channel_values::{Label, Listed, NoMemory, Outcome};
use network::{Release, Route};
use std::alloc::{AllocError, AllocFailed};
use std::error::Error;
use std::fmt;

/// The rules of a script, in the order of their numbers in the text, where 5 is no rule.
#[derive(Clone, Copy, Debug, PartialEq, Eq)]
pub enum Rule {
    NotJson,
    Shape,
    Name,
    Limit,
    NotInRace,
}

impl Rule {
    /// The rule in words.
    fn words(&self) -> &'static str
        ensures { result.now ≡ rule_words self.now }
    {
        match self {
            Rule::NotJson => "not a JSON text",
            Rule::Shape => "an unknown word, or keys or values of another kind",
            Rule::Name => "a name that is taken, or isn't declared as what its key needs",
            Rule::Limit => "a value beyond its limit",
            Rule::NotInRace => "a step that a race doesn't have",
        }
    }
}

impl fmt::Display for Rule {
    ghost use Rattle.std.specs.Prelude.{Some};

    ghost output = { λ x. Some (rule_words x) };

    fn fmt<W: fmt::Write>(&self, f: &mut fmt::Formatter<W>) -> fmt::Result {
        f.write_str(self.words())
    }
}

impl Error for Rule {}

/// The keys of a deposit step. `channel` is the name of a declared channel or 64 digits 0-9 a-f, and `asset` is below
/// 2^32.
#[derive(Drop)]
pub struct DepositStep {
    pub channel: Label,
    pub asset: u64,
    pub expected: u64,
    pub amount: u64,
}

/// The keys of a person step. `h` is 5 or 10.
#[derive(Drop)]
pub struct PersonStep {
    pub name: Label,
    pub seed: [u8; 32],
    pub h: u64,
    pub node: bool,
    pub watchers: u64,
}

/// The keys of a channel step, of two to four people. `app` is 0 consensus, 1 payment or 2 fixed; `duration` is 1 to
/// 2^32 - 1.
#[derive(Drop)]
pub struct ChannelStep {
    pub name: Label,
    pub people: Listed<Label>,
    pub nonce: u64,
    pub app: u8,
    pub duration: u64,
}

/// The keys of a sign step. `turn` is below 2^48, and `votes` is at most 3. With 0 votes the proposal is empty.
#[derive(Drop)]
pub struct SignStep {
    pub name: Label,
    pub channel: Label,
    pub by: Label,
    pub turn: u64,
    pub is_final: bool,
    pub outcome: Outcome,
    pub votes: u64,
    pub proposal: Outcome,
}

/// The keys of a catch step: the state that the node of `from` signed at that turn, which is below 2^48.
#[derive(Drop)]
pub struct CatchStep {
    pub name: Label,
    pub from: Label,
    pub channel: Label,
    pub turn: u64,
}

/// The keys of a challenge step. A chain names at most four states.
#[derive(Drop)]
pub struct ChallengeStep {
    pub channel: Label,
    pub chain: Listed<Label>,
    pub by: Label,
}

/// The keys of a respond step.
#[derive(Drop)]
pub struct RespondStep {
    pub channel: Label,
    pub from: Label,
    pub state: Label,
}

/// The keys of a transfer step. The outcome is that of the state. `asset` is below 2^32, and `index` below 2^8.
#[derive(Drop)]
pub struct TransferStep {
    pub channel: Label,
    pub state: Label,
    pub asset: u64,
    pub index: u64,
}

/// The keys of a claim step. The outcomes are those of the states. `asset` is below 2^32, and `position` below 2^8.
#[derive(Drop)]
pub struct ClaimStep {
    pub guarantor: Label,
    pub state: Label,
    pub target: Label,
    pub target_state: Label,
    pub asset: u64,
    pub position: u64,
}

/// The keys of an open step, for people with nodes, as in all commands.
#[derive(Drop)]
pub struct OpenStep {
    pub who: Listed<Label>,
    pub channel: Label,
    pub outcome: Outcome,
}

/// The keys of an open_on step. `asset` is below 2^32.
#[derive(Drop)]
pub struct OpenOnStep {
    pub who: Listed<Label>,
    pub ledger: Label,
    pub channel: Label,
    pub asset: u64,
    pub amounts: (u64, u64),
}

/// The keys of an open_virtual step, with two ledgers and two guarantors; `asset` is below 2^32. A script that is read
/// has the plain route.
#[derive(Drop)]
pub struct OpenVirtualStep {
    pub who: Listed<Label>,
    pub route: Route,
    pub ledgers: Listed<Label>,
    pub guarantors: Listed<Label>,
    pub joint: Label,
    pub channel: Label,
    pub asset: u64,
    pub amounts: (u64, u64),
}

/// The keys of a pay step. `asset` is below 2^32.
#[derive(Drop)]
pub struct PayStep {
    pub who: Label,
    pub channel: Label,
    pub asset: u64,
    pub amount: u64,
}

/// A step, whose fields are the keys of its form in order.
#[derive(Drop)]
pub enum Step {
    Deposit(DepositStep),
    Time {
        to: u64,
    },
    Person(PersonStep),
    Channel(ChannelStep),
    Sign(SignStep),
    Catch(CatchStep),
    Send {
        to: Label,
        state: Label,
    },
    Drop {
        to: Label,
    },
    Challenge(ChallengeStep),
    Respond(RespondStep),
    Refute {
        channel: Label,
        state: Label,
    },
    /// A chain names at most four states.
    Checkpoint {
        channel: Label,
        chain: Listed<Label>,
    },
    Conclude {
        channel: Label,
        chain: Listed<Label>,
    },
    Transfer(TransferStep),
    Claim(ClaimStep),
    Open(OpenStep),
    OpenOn(OpenOnStep),
    OpenVirtual(OpenVirtualStep),
    Pay(PayStep),
    Close {
        who: Listed<Label>,
        channel: Label,
    },
    /// `how` is the word of the form, `settle` or `abandon`.
    Release {
        how: Release,
        who: Listed<Label>,
        channel: Label,
    },
    Resend {
        who: Listed<Label>,
        channel: Label,
    },
    Exit {
        who: Listed<Label>,
    },
    /// `count` is 1 to 64, and all counts of a script add up to at most 4,096.
    Rounds {
        count: u64,
    },
}

/// Why a step is not read.
#[derive(Clone, Copy, Debug, PartialEq, Eq)]
pub enum StepFault {
    NoMemory,
    Broken(Rule),
}

impl From<AllocError> for StepFault {
    ghost from_gives = { λ _ e. e ≡ NoMemoryLeft };

    fn from(_: AllocError) -> StepFault {
        StepFault::NoMemory
    }
}

impl From<NoMemory> for StepFault {
    ghost from_gives = { λ _ e. e ≡ NoMemoryLeft };

    fn from(_: NoMemory) -> StepFault {
        StepFault::NoMemory
    }
}

impl<T: Drop> From<AllocFailed<T>> for StepFault {
    ghost from_gives = { λ _ e. e ≡ NoMemoryLeft };

    fn from(_: AllocFailed<T>) -> StepFault {
        StepFault::NoMemory
    }
}

impl From<lms_signatures::NoMemory> for StepFault {
    ghost from_gives = { λ _ e. e ≡ NoMemoryLeft };

    fn from(_: lms_signatures::NoMemory) -> StepFault {
        StepFault::NoMemory
    }
}
