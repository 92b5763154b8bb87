//! Turning calls, and entries that are refused.

use super::*;

const BOTH: Option<(u64, u64)> = Some((4, 4));

/// A challenge settles an outcome; its answer opens the channel again, and is shown from its first marked state on.
const RESPONDED: [Case; 4] = [
    Case::Follows(Act::Challenge(3, 4), Reply::Until(10)),
    Case::Known((4, Some(10), Some((2, 4, 2)), BOTH, BOTH)),
    Case::Follows(Act::Respond(4, 5), Reply::Opened(5)),
    Case::Known((5, None, Some((2, 5, 2)), BOTH, BOTH)),
];

#[test]
fn a_respond_lengthens_what_is_shown(rt: HostRuntime) -> Result<(), Fail> {
    all_are_so(&rt, &RESPONDED)
}

/// A refute opens the channel at its turn and shows nothing. The same turn may be challenged again.
const REFUTED: [Case; 8] = [
    Case::Follows(Act::Checkpoint(2, 4), Reply::Opened(4)),
    Case::Known((4, None, Some((3, 4, 0)), None, None)),
    Case::Follows(Act::Challenge(3, 4), Reply::Until(10)),
    Case::Known((4, Some(10), Some((2, 4, 2)), BOTH, BOTH)),
    Case::Follows(Act::Refute(5), Reply::Opened(4)),
    Case::Known((4, None, Some((2, 4, 2)), BOTH, BOTH)),
    // No legal history has this one: what is shown stays, since it is newer.
    Case::Follows(Act::Checkpoint(2, 3), Reply::Opened(3)),
    Case::Known((3, None, Some((2, 4, 2)), BOTH, BOTH)),
];

#[test]
fn a_later_chain_of_the_same_turn_is_shown(rt: HostRuntime) -> Result<(), Fail> {
    all_are_so(&rt, &REFUTED)
}

/// The second person's challenge is refuted, entered again, and responded to, with refused answers between.
const ANSWERED: [Case; 18] = [
    Case::Follows(Act::Challenge(3, 4), Reply::Until(10)),
    Case::Known((4, Some(10), Some((2, 4, 2)), BOTH, BOTH)),
    Case::Follows(Act::Refute(3), Reply::No(Refusal::NotNewer(4))),
    Case::Known((4, Some(10), Some((2, 4, 2)), BOTH, BOTH)),
    Case::Follows(Act::Refute(6), Reply::No(Refusal::NotChallengers)),
    Case::Known((4, Some(10), Some((2, 4, 2)), BOTH, BOTH)),
    Case::Follows(Act::Refute(5), Reply::Opened(4)),
    Case::Known((4, None, Some((2, 4, 2)), BOTH, BOTH)),
    Case::Follows(Act::Challenge(3, 4), Reply::Until(10)),
    Case::Known((4, Some(10), Some((2, 4, 2)), BOTH, BOTH)),
    Case::Follows(Act::Respond(3, 5), Reply::No(Refusal::WrongState)),
    Case::Known((4, Some(10), Some((2, 4, 2)), BOTH, BOTH)),
    Case::Follows(Act::Respond(4, 6), Reply::No(Refusal::WrongTurn(5))),
    Case::Known((4, Some(10), Some((2, 4, 2)), BOTH, BOTH)),
    Case::Follows(Act::Respond(4, 5), Reply::Opened(5)),
    Case::Known((5, None, Some((2, 5, 2)), BOTH, BOTH)),
    Case::Follows(Act::Respond(4, 5), Reply::No(Refusal::NoChallenge)),
    Case::Known((5, None, Some((2, 5, 2)), BOTH, BOTH)),
];

#[test]
fn refutes_and_responds_are_followed(rt: HostRuntime) -> Result<(), Fail> {
    all_are_so(&rt, &ANSWERED)
}

/// A challenge is answered by a newer chain, which is shown from then on; the same challenge again is refused.
const CHECKED: [Case; 5] = [
    Case::Follows(Act::Challenge(3, 4), Reply::Until(10)),
    Case::Follows(Act::Checkpoint(5, 6), Reply::Opened(6)),
    Case::Known((6, None, Some((2, 6, 0)), BOTH, BOTH)),
    Case::Follows(Act::Challenge(3, 4), Reply::No(Refusal::Stale(6))),
    Case::Known((6, None, Some((2, 6, 0)), BOTH, BOTH)),
];

#[test]
fn a_checkpoint_is_followed(rt: HostRuntime) -> Result<(), Fail> {
    all_are_so(&rt, &CHECKED)
}

const CONCLUDED: [Case; 4] = [
    Case::Follows(Act::Time(6), Reply::Now(6)),
    Case::Now(6),
    Case::Follows(Act::Conclude(5), Reply::Concluded(5)),
    Case::Known((5, Some(6), Some((1, 5, 0)), BOTH, BOTH)),
];

#[test]
fn a_conclude_ends_at_the_time_before_it(rt: HostRuntime) -> Result<(), Fail> {
    all_are_so(&rt, &CONCLUDED)
}

#[test]
fn refused_entries_are_only_counted(rt: HostRuntime) -> Result<(), Fail> {
    let ours = pair_of(rt.alloc(), 1).channel()?;
    let known = Case::Known((4, Some(12), Some((2, 4, 2)), BOTH, BOTH));
    let cases = [
        Case::Follows(Act::Time(2), Reply::Now(2)),
        Case::Follows(Act::Challenge(3, 4), Reply::Until(12)),
        Case::Follows(Act::Fund(8), Reply::Held(8)),
        known,
        Case::Follows(Act::Challenge(2, 3), Reply::No(Refusal::Stale(4))),
        Case::Follows(Act::Checkpoint(2, 3), Reply::No(Refusal::NotNewer(4))),
        Case::Follows(Act::Respond(2, 5), Reply::No(Refusal::WrongState)),
        Case::Follows(Act::Transfer(0), Reply::No(Refusal::NotFinal(ours))),
        Case::Follows(Act::Fund(0), Reply::No(Refusal::Zero)),
        Case::Follows(Act::Time(1), Reply::No(Refusal::Backwards(2))),
        known,
        Case::IsFunded(8),
        Case::Now(2),
        Case::Count(9),
    ];
    all_are_so(&rt, &cases)
}
