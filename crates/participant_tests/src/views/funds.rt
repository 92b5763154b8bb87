//! Deposits, transfers and claims.

use super::*;

const DEPOSITS: [Case; 12] = [
    Case::LedgerIs(None),
    Case::Follows(Act::Deposit(LEDGER, 0, 5), Reply::Held(5)),
    Case::Follows(Act::Deposit(LEDGER, 0, 3), Reply::Held(8)),
    Case::Follows(Act::Deposit(LEDGER, 1, 2), Reply::Held(2)),
    Case::Follows(Act::Deposit(OTHER, 0, 4), Reply::Held(4)),
    Case::Follows(Act::Deposit(LEDGER, 0, 9), Reply::No(Refusal::Underheld(8))),
    Case::Holds(LEDGER, 0, 8),
    Case::Holds(LEDGER, 1, 2),
    Case::Holds(OTHER, 0, 4),
    Case::Holds(OTHER, 1, 0),
    Case::Count(5),
    Case::LedgerIs(Some((0, None, None, None, None))),
];

#[test]
fn deposits_are_held_by_channel_and_asset(rt: HostRuntime) -> Result<(), Fail> {
    all_are_so(&rt, &DEPOSITS)
}

const STOPS: [Case; 5] = [
    Case::Follows(Act::Deposit(LEDGER, 0, u64::MAX), Reply::Held(u64::MAX)),
    Case::Stops(1, Act::Deposit(LEDGER, 0, 1), Reply::Held(0)),
    Case::Follows(Act::Deposit(OTHER, 0, 1), Reply::Held(1)),
    Case::Stops(0, Act::Time(1), Reply::Now(1)),
    Case::Holds(LEDGER, 0, u64::MAX),
];

#[test]
fn an_entry_follows_only_in_its_place_and_with_room(rt: HostRuntime) -> Result<(), Fail> {
    all_are_so(&rt, &STOPS)
}

/// The channel holds 2 when the first item, of 4, is paid for the first time.
const PAYOUTS: [Case; 14] = [
    Case::Follows(Act::Conclude(5), Reply::Concluded(5)),
    Case::Follows(Act::Fund(2), Reply::Held(2)),
    Case::Follows(Act::Transfer(0), Reply::Paid(2)),
    Case::Known((5, Some(0), Some((1, 5, 0)), Some((4, 4)), Some((2, 4)))),
    Case::IsFunded(0),
    Case::FirstPaid(0, 2),
    Case::Follows(Act::Fund(6), Reply::Held(6)),
    Case::Follows(Act::Transfer(0), Reply::Paid(2)),
    Case::Follows(Act::Transfer(1), Reply::Paid(4)),
    Case::Known((5, Some(0), Some((1, 5, 0)), Some((4, 4)), Some((0, 0)))),
    Case::IsFunded(0),
    Case::FirstPaid(0, 4),
    Case::SecondPaid(0, 4),
    Case::FirstPaid(1, 0),
];

#[test]
fn a_person_is_paid_twice_of_one_item(rt: HostRuntime) -> Result<(), Fail> {
    all_are_so(&rt, &PAYOUTS)
}

/// A transfer to the channel itself leaves what it holds, even where that is the most. A channel isn't the person of
/// its name.
const RELAYS: [Case; 7] = [
    Case::Follows(Act::Deposit(LEDGER, 0, u64::MAX), Reply::Held(u64::MAX)),
    Case::Follows(Act::Relay(0), Reply::Paid(7)),
    Case::Holds(LEDGER, 0, u64::MAX),
    Case::Follows(Act::Relay(1), Reply::Paid(9)),
    Case::Holds(LEDGER, 0, u64::MAX - 9),
    Case::Holds(OTHER, 0, 9),
    Case::Paid(OTHER, 0, 0),
];

#[test]
fn a_channel_pays_itself_and_others(rt: HostRuntime) -> Result<(), Fail> {
    all_are_so(&rt, &RELAYS)
}

/// The guarantor pays, and the target's items are lowered.
const CLAIMS: [Case; 11] = [
    Case::Follows(Act::Conclude(5), Reply::Concluded(5)),
    Case::Follows(Act::Fund(1), Reply::Held(1)),
    Case::Follows(Act::Deposit(LEDGER, 0, 5), Reply::Held(5)),
    Case::Follows(Act::Claim(0), Reply::Paid(4)),
    Case::Known((5, Some(0), Some((1, 5, 0)), Some((4, 4)), Some((4, 0)))),
    Case::Follows(Act::Claim(1), Reply::Paid(1)),
    Case::Known((5, Some(0), Some((1, 5, 0)), Some((4, 4)), Some((3, 0)))),
    Case::IsFunded(1),
    Case::Holds(LEDGER, 0, 0),
    Case::SecondPaid(0, 4),
    Case::FirstPaid(0, 1),
];

#[test]
fn a_claim_lowers_the_targets_items(rt: HostRuntime) -> Result<(), Fail> {
    all_are_so(&rt, &CLAIMS)
}
