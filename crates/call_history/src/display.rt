//! How refusals are printed in words.

use crate::event::NodeRefusal;
use crate::refusal::Refusal;
use crate::standing::Standing;
use channel_values::Name;
use std::error::Error;
use std::fmt;

/// A name in digits 0-9 a-f.
#[derive(Clone, Copy)]
struct Digits(Name);

impl fmt::Display for Digits {
    fn fmt<W: fmt::Write>(&self, f: &mut fmt::Formatter<W>) -> fmt::Result {
        for byte in self.0 {
            write!(f, "{byte:02x}")?;
        }
        Ok(())
    }
}

impl fmt::Display for Refusal {
    fn fmt<W: fmt::Write>(&self, f: &mut fmt::Formatter<W>) -> fmt::Result {
        match self {
            Refusal::IsFinal => write!(f, "the channel is final"),
            Refusal::NotSupported(fault) => write!(f, "the chain isn't supported: {fault}"),
            Refusal::Stale(turn) => write!(f, "turn {turn} is recorded"),
            Refusal::BadChallenger => write!(f, "no participant signed the challenge"),
            Refusal::NoChallenge => write!(f, "no challenge is open"),
            Refusal::WrongState => write!(f, "another state is challenged"),
            Refusal::WrongTurn(turn) => write!(f, "turn {turn} comes next"),
            Refusal::BadSignature => write!(f, "the state isn't signed by its mover"),
            Refusal::BadStep(step) => write!(f, "the state doesn't follow: {step}"),
            Refusal::NotNewer(turn) => write!(
                f,
                "turn {turn} is recorded, and this isn't above it"
            ),
            Refusal::NotChallengers => write!(f, "the state isn't the challenger's"),
            Refusal::NotFinalState(at) => write!(f, "state {at} isn't final"),
            Refusal::Zero => write!(f, "nothing would be deposited"),
            Refusal::Underheld(held) => write!(f, "the channel holds {held} alone"),
            Refusal::AssetFull(total) => write!(f, "{total} were deposited, and no more can be"),
            Refusal::NotFinal(name) => write!(f, "channel {} isn't final", Digits(*name)),
            Refusal::WrongOutcome(name) => {
                write!(f, "channel {} ended with another outcome", Digits(*name))
            }
            Refusal::NoAsset => write!(f, "an outcome doesn't have the asset"),
            Refusal::WrongKind => write!(
                f,
                "an allocation in place of a guarantee, or a guarantee in place of an allocation"
            ),
            Refusal::WrongTarget => write!(f, "the guarantee is of another target"),
            Refusal::NotListed => write!(f, "the position is past the guarantee's list"),
            Refusal::NoItem => write!(f, "there is no such item"),
            Refusal::NothingDue(held) => write!(f, "nothing is due of the {held} held"),
            Refusal::Backwards(now) => write!(f, "it is {now} already"),
            Refusal::TooLate => write!(f, "a time above 2^62"),
        }
    }
}

impl Error for Refusal {}

impl fmt::Display for NodeRefusal {
    fn fmt<W: fmt::Write>(&self, f: &mut fmt::Formatter<W>) -> fmt::Result {
        match self {
            NodeRefusal::BadBytes => write!(f, "the bytes are no message"),
            NodeRefusal::UnknownChannel => write!(f, "an unknown channel"),
            NodeRefusal::NotOpen(name, Standing::Final) => {
                write!(f, "channel {} is final", Digits(*name))
            }
            NodeRefusal::NotOpen(name, _) => write!(f, "channel {} isn't open", Digits(*name)),
            NodeRefusal::NotNext(turn) => write!(f, "turn {turn} comes next"),
            NodeRefusal::BadSignature => write!(f, "the state isn't signed by its mover"),
            NodeRefusal::NotAStep => write!(f, "what was asked or shown doesn't fit the channel"),
            NodeRefusal::NotWanted(stage) => write!(f, "not wanted at stage {stage}"),
            NodeRefusal::KeySpent(used) => write!(
                f,
                "the key has signed {used} times, and can't again"
            ),
            NodeRefusal::TooMany(channels) => write!(f, "the plan has {channels} channels already"),
        }
    }
}

impl Error for NodeRefusal {}
