//! What a participant opened.

ghost use Rattle.std.specs.Prelude.{◌≡◌, ◌∷◌, []};
ghost use Rattle.call_history.specs.Flows.{is_among};
ghost use Rattle.funding_plans.specs.Parts as parts;

use channel_values::{Listed, Name, Outcome};

/// A virtual channel: a payment channel of A and B whose funds an intermediary's two ledgers hold. On each ledger a
/// guarantor is funded, and the joint channel of the three says who is paid from both.
#[derive(Clone, Copy, Debug, PartialEq, Eq)]
pub struct Virtual {
    pub ledger_a: Name,
    pub ledger_b: Name,
    pub guarantor_a: Name,
    pub guarantor_b: Name,
    pub joint: Name,
    pub channel: Name,
    pub asset: u32,
    /// What each guarantor guarantees at most.
    pub total: u64,
    /// At an end, that the participant is B.
    pub side_b: bool,
}

/// What a participant opened: what one opening command adds to its plan.
#[derive(Clone, Copy, Debug, PartialEq, Eq)]
pub enum Part {
    /// A channel that holds its own funds.
    Root(Name),
    /// A channel that a ledger funds: the ledger, and the channel.
    OnLedger(Name, Name),
    /// An end of a virtual channel.
    End(Virtual),
    /// The intermediary of a virtual channel.
    Middle(Virtual),
}

/// The plan's owner, and its parts in the order in which they were opened.
#[derive(Drop)]
pub struct Plan {
    pub me: Name,
    pub parts: Listed<Part>,
}

/// What was commanded of a part. It has its place in the plan, the outcome with which its channel opens and the
/// amounts of its two people. It says whether the part is to close, and whether the participant let go of it.
#[derive(Drop)]
pub struct Goal {
    pub part: u8,
    pub opening: Outcome,
    pub amounts: (u64, u64),
    pub closing: bool,
    pub over: bool,
}

impl Virtual {
    /// The ledger of the end whose part it is.
    pub fn own_ledger(&self) -> Name
        ensures { result ≡ parts.own_ledger self.now }
    {
        if self.side_b {
            self.ledger_b
        } else {
            self.ledger_a
        }
    }

    /// The guarantor of the end whose part it is.
    pub fn own_guarantor(&self) -> Name
        ensures { result ≡ parts.own_guarantor self.now }
    {
        if self.side_b {
            self.guarantor_b
        } else {
            self.guarantor_a
        }
    }

    fn is_guarantor(&self, name: &Name) -> bool
        ensures { result ≡ is_among name.now (self.now.guarantor_a ∷ self.now.guarantor_b ∷ []) }
    {
        *name == self.guarantor_a || *name == self.guarantor_b
    }

    /// Whether it is a guarantor, the joint channel or the payment channel.
    fn has_channel(&self, name: &Name) -> bool
        ensures { result ≡ is_among name.now (parts.channels_of_virtual self.now) }
    {
        self.is_guarantor(name) || *name == self.joint || *name == self.channel
    }

    fn is_of_middle(&self, name: &Name) -> bool
        ensures { result ≡ is_among name.now (self.now.guarantor_a ∷ self.now.guarantor_b ∷ self.now.joint ∷ []) }
    {
        self.is_guarantor(name) || *name == self.joint
    }

    fn is_of_end(&self, name: &Name) -> bool
        ensures { result ≡ is_among name.now (parts.own_guarantor self.now ∷ self.now.joint ∷ self.now.channel ∷ []) }
    {
        *name == self.own_guarantor() || *name == self.joint || *name == self.channel
    }
}

impl Part {
    /// The channel that the part is about.
    pub fn own_channel(&self) -> Name
        ensures { result ≡ parts.own_channel self.now }
    {
        match self {
            Part::Root(channel) => *channel,
            Part::OnLedger(_, channel) => *channel,
            Part::End(v) => v.channel,
            Part::Middle(v) => v.channel,
        }
    }
    /// Whether a channel is one of the part's.
    pub fn has_channel(&self, name: &Name) -> bool
        ensures { result ≡ is_among name.now (parts.channels_of self.now) }
    {
        match self {
            Part::Root(channel) | Part::OnLedger(_, channel) => *name == *channel,
            Part::End(v) | Part::Middle(v) => v.has_channel(name),
        }
    }

    /// Whether a channel is one of the part's in which the person is a participant.
    pub fn joins(&self, name: &Name) -> bool
        ensures { result ≡ is_among name.now (parts.joined_of self.now) }
    {
        match self {
            Part::Root(channel) | Part::OnLedger(_, channel) => *name == *channel,
            Part::End(v) => v.is_of_end(name),
            Part::Middle(v) => v.is_of_middle(name),
        }
    }

    /// Whether the part stands on a ledger.
    pub fn stands_on(&self, name: &Name) -> bool
        ensures { result ≡ is_among name.now (parts.ledgers_of self.now) }
    {
        match self {
            Part::Root(_) => false,
            Part::OnLedger(ledger, _) => *name == *ledger,
            Part::End(v) => *name == v.own_ledger(),
            Part::Middle(v) => *name == v.ledger_a || *name == v.ledger_b,
        }
    }

    /// The stage in which the part runs.
    pub fn running(&self) -> u8
        ensures { result ≡ parts.running self.now }
    {
        match self {
            Part::Root(_) | Part::OnLedger(_, _) => 3,
            Part::End(_) | Part::Middle(_) => 5,
        }
    }

    /// The stage in which the part is closed.
    pub fn closed(&self) -> u8
        ensures { result ≡ parts.closed self.now }
    {
        match self {
            Part::Root(_) | Part::OnLedger(_, _) => 6,
            Part::End(_) | Part::Middle(_) => 9,
        }
    }
}
