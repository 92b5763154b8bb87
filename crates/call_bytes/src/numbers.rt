//! The numbers by which replies, refusals and faults are distinguished.

ghost use Rattle.std.specs.Prelude.{◌≡◌};
ghost use Rattle.call_bytes.specs.Numbers as numbers;

use call_history::{Refusal, Reply};
use channel_values::{Name, StepFault, SupportFault};

pub(crate) fn step_number(fault: StepFault) -> u8
    ensures { result ≡ numbers.step_number fault }
{
    match fault {
        StepFault::Outcome => 1,
        StepFault::Data => 2,
        StepFault::Votes => 3,
        StepFault::Proposal => 4,
        StepFault::Raised => 5,
        StepFault::Lowered => 6,
        StepFault::EarlyFinal => 7,
        StepFault::AfterFinal => 8,
    }
}

pub(crate) fn step_of(number: u8) -> Option<StepFault>
    ensures { result ≡ numbers.step_of number }
{
    match number {
        1 => Some(StepFault::Outcome),
        2 => Some(StepFault::Data),
        3 => Some(StepFault::Votes),
        4 => Some(StepFault::Proposal),
        5 => Some(StepFault::Raised),
        6 => Some(StepFault::Lowered),
        7 => Some(StepFault::EarlyFinal),
        8 => Some(StepFault::AfterFinal),
        _ => None,
    }
}

fn bare_of(tag: u8, place: u64) -> Option<SupportFault>
    ensures { result ≡ numbers.bare_of tag place }
{
    match tag {
        1 => Some(SupportFault::Length),
        2 => Some(SupportFault::Turn(place as usize)),
        4 => Some(SupportFault::Signature(place as usize)),
        _ => None,
    }
}

pub(crate) fn support_of(tag: u8, place: u64, step: u8) -> Option<SupportFault>
    ensures { result ≡ numbers.support_of tag place step }
{
    if tag == 3 {
        return match step_of(step) {
            None => None,
            Some(fault) => Some(SupportFault::Step(place as usize, fault)),
        };
    }
    if step == 0 { bare_of(tag, place) } else { None }
}

/// The refusals that keep nothing.
pub(crate) fn plain_of(tag: u8) -> Option<Refusal>
    ensures { result ≡ numbers.plain_of tag }
{
    match tag {
        1 => Some(Refusal::IsFinal),
        4 => Some(Refusal::BadChallenger),
        5 => Some(Refusal::NoChallenge),
        6 => Some(Refusal::WrongState),
        8 => Some(Refusal::BadSignature),
        11 => Some(Refusal::NotChallengers),
        13 => Some(Refusal::Zero),
        18 => Some(Refusal::NoAsset),
        19 => Some(Refusal::WrongKind),
        20 => Some(Refusal::WrongTarget),
        21 => Some(Refusal::NotListed),
        22 => Some(Refusal::NoItem),
        25 => Some(Refusal::TooLate),
        _ => None,
    }
}

/// Those that keep a number, with this one.
pub(crate) fn numbered_of(tag: u8, n: u64) -> Option<Refusal>
    ensures { result ≡ numbers.numbered_of tag n }
{
    match tag {
        3 => Some(Refusal::Stale(n)),
        7 => Some(Refusal::WrongTurn(n)),
        10 => Some(Refusal::NotNewer(n)),
        12 => Some(Refusal::NotFinalState(n as usize)),
        14 => Some(Refusal::Underheld(n)),
        15 => Some(Refusal::AssetFull(n)),
        23 => Some(Refusal::NothingDue(n)),
        24 => Some(Refusal::Backwards(n)),
        _ => None,
    }
}

/// Those that keep a channel's name, with this one.
pub(crate) fn named_of(tag: u8, name: Name) -> Option<Refusal>
    ensures { result ≡ numbers.named_of tag name }
{
    match tag {
        16 => Some(Refusal::NotFinal(name)),
        17 => Some(Refusal::WrongOutcome(name)),
        _ => None,
    }
}

/// The replies that aren't refusals, with this number.
pub(crate) fn accepted_of(tag: u8, n: u64) -> Option<Reply>
    ensures { result ≡ numbers.accepted_of tag n }
{
    match tag {
        1 => Some(Reply::Held(n)),
        2 => Some(Reply::Until(n)),
        3 => Some(Reply::Opened(n)),
        4 => Some(Reply::Concluded(n)),
        5 => Some(Reply::Paid(n)),
        6 => Some(Reply::Now(n)),
        _ => None,
    }
}
