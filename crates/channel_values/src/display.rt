//! How faults are told in words.

use crate::fault::{ByteFault, NoMemory, StepFault, SupportFault};
use std::error::Error;
use std::fmt;

impl fmt::Display for NoMemory {
    fn fmt<W: fmt::Write>(&self, f: &mut fmt::Formatter<W>) -> fmt::Result {
        write!(f, "out of memory")
    }
}

impl Error for NoMemory {}

impl fmt::Display for ByteFault {
    fn fmt<W: fmt::Write>(&self, f: &mut fmt::Formatter<W>) -> fmt::Result {
        match self {
            ByteFault::Cut(at) => write!(f, "the bytes end at {at}, within a field"),
            ByteFault::BadTag(at) => write!(f, "an unknown tag at byte {at}"),
            ByteFault::OverLimit(at) => write!(f, "a number beyond its limit at byte {at}"),
            ByteFault::Unordered(at) => write!(f, "assets out of order at byte {at}"),
            ByteFault::Doubled(at) => write!(f, "something that stands twice at byte {at}"),
            ByteFault::TotalTooLarge(at) => write!(f, "a total above 2^64 - 1 at byte {at}"),
            ByteFault::Trailing(at) => write!(f, "bytes are left at {at}"),
            ByteFault::NoMemory => write!(f, "out of memory"),
        }
    }
}

impl Error for ByteFault {}

impl fmt::Display for StepFault {
    fn fmt<W: fmt::Write>(&self, f: &mut fmt::Formatter<W>) -> fmt::Result {
        match self {
            StepFault::Outcome => write!(f, "the outcome changes otherwise than it may"),
            StepFault::Data => write!(f, "the data of the application don't fit"),
            StepFault::Votes => write!(f, "the number of votes doesn't follow"),
            StepFault::Proposal => write!(f, "another outcome is voted on"),
            StepFault::Raised => write!(f, "the mover gets more than before"),
            StepFault::Lowered => write!(f, "somebody gets less than before"),
            StepFault::EarlyFinal => write!(f, "final before the channel is set up"),
            StepFault::AfterFinal => write!(f, "not final after a final state"),
        }
    }
}

impl Error for StepFault {}

impl fmt::Display for SupportFault {
    fn fmt<W: fmt::Write>(&self, f: &mut fmt::Formatter<W>) -> fmt::Result {
        match self {
            SupportFault::Length => write!(f, "the chain has too few or too many states or marks"),
            SupportFault::Turn(at) => write!(f, "state {at} doesn't have the next turn"),
            SupportFault::Step(at, step) => write!(f, "state {at} doesn't follow: {step}"),
            SupportFault::Signature(at) => write!(f, "the mark of participant {at} doesn't do"),
        }
    }
}

impl Error for SupportFault {}
