//! Challenges.

ghost use Rattle.std.specs.Prelude.{◌≡◌, ◌+◌, ◌≤◌, ◌<◌, ◌^◌, Bool, false, List, Some, take, length, slice_index_or, IfOk};
ghost use Rattle.std.specs.Option.{option_map};
ghost use Rattle.channel_values.specs.Rules.{newest};
ghost use Rattle.channel_values.specs.Support.{support_of};
ghost use Rattle.call_history.specs.Mode.{mode_at, is_final};
ghost use Rattle.call_history.specs.Rows.{row_or_blank, is_stale, after_challenge};
ghost use Rattle.call_history.specs.Replies as replies;
ghost use Rattle.support_rules.specs.Real.{real};
ghost use Rattle.adjudicator.specs.Values.{challenge_values};

use crate::top::{digest_of, digest_of_outcome, is_challenge_signed, is_over};
use call_history::{Refusal, Row, Standing, mode, newest, row_or_blank};
use channel_values::{Chain, State, SupportFault};
use support_rules::{supports, supports_with};

/// Whether a challenge at this turn comes too late.
fn is_stale(standing: Standing, recorded: u64, turn: u64) -> bool
    ensures { result ≡ is_stale standing recorded turn }
{
    match standing {
        Standing::Challenged => turn <= recorded,
        Standing::Open | Standing::Final => turn < recorded,
    }
}

/// The row that a challenge on a chain with this last state makes.
fn after_challenge(now: u64, chain: &Chain, last: &State, challenger: u8) -> Row
    requires soon { now ≤ 2 ^ 62 }
    requires last { newest chain.now.states ≡ Some last.now }
    ensures row { result ≡ after_challenge real now chain.now challenger }
    ensures small { result.turn < 2 ^ 48 }
{
    Row {
        turn: last.turn(),
        deadline: Some(now + chain.fixed.duration() as u64),
        state_digest: digest_of(&chain.fixed, last),
        outcome_digest: digest_of_outcome(last.outcome()),
        challenger,
    }
}

/// The challenge of a channel that isn't final, where `support` is what the chain supports and `signed` says whether
/// the challenger signed.
fn challenged(
    row: Row,
    now: u64,
    chain: &Chain,
    challenger: u8,
    support: Result<u64, SupportFault>,
    signed: bool,
) -> Result<Row, Refusal>
    requires soon { now ≤ 2 ^ 62 }
    requires still { is_final (mode_at row.deadline now) ≡ false }
    ensures answer { (verified : List Bool) → support ≡ support_of real chain.now verified
        → result ≡ replies.challenge_with real row now chain.now challenger verified signed }
    ensures small { IfOk result (λ new. new.turn < 2 ^ 48) }
{
    if let Err(fault) = support {
        return Err(Refusal::NotSupported(fault));
    }
    let Some(last) = newest(chain.states.as_slice()) else {
        return Err(Refusal::NotSupported(SupportFault::Length));
    };
    if is_stale(mode(row.deadline, now), row.turn, last.turn()) {
        return Err(Refusal::Stale(row.turn));
    }
    if !signed {
        return Err(Refusal::BadChallenger);
    }
    Ok(after_challenge(now, chain, last, challenger))
}

/// A challenge with a supported chain, which the challenger signs. The channel ends with the chain's last state
/// unless it is answered before the deadline, which is the duration from now.
#[tactic(auto, unfolding(channel_values::specs::Support::supports))]
pub fn challenge(
    row: Option<&Row>,
    now: u64,
    chain: &Chain,
    challenger: u8,
    signature: &[u8],
) -> Result<Row, Refusal>
    requires { now ≤ 2 ^ 62 }
    ensures answer { result ≡ replies.challenge real (row_or_blank (option_map (λ m. m.now) row.entry)) now
        chain.now challenger signature.now }
    ensures small { IfOk result (λ new. new.turn < 2 ^ 48) }
{
    let row = row_or_blank(row);
    if is_over(&row, now) {
        return Err(Refusal::IsFinal);
    }
    let signed = is_challenge_signed(chain, challenger, signature);
    challenged(row, now, chain, challenger, supports(chain), signed)
}

/// As `challenge`, where `verified` says of each mark whether it verifies, and last whether the challenger's signature
/// does.
pub fn challenge_with(
    row: Option<&Row>,
    now: u64,
    chain: &Chain,
    challenger: u8,
    signature: &[u8],
    verified: &[bool],
) -> Result<Row, Refusal>
    requires soon { now ≤ 2 ^ 62 }
    requires each { length verified.now ≡ length chain.now.marks + 1 }
    ensures answer { result ≡ replies.challenge_with real (row_or_blank (option_map (λ m. m.now) row.entry)) now
        chain.now challenger
        (take (length chain.now.marks) verified.now) (slice_index_or verified.now (length chain.now.marks) false) }
    ensures checked { verified.now ≡ challenge_values real chain.now challenger signature.now
        → result ≡ replies.challenge real (row_or_blank (option_map (λ m. m.now) row.entry)) now
        chain.now challenger signature.now }
    ensures small { IfOk result (λ new. new.turn < 2 ^ 48) }
{
    let row = row_or_blank(row);
    if is_over(&row, now) {
        return Err(Refusal::IsFinal);
    }
    let marks = chain.marks.as_slice().len();
    let support = supports_with(chain, &verified[..marks]);
    challenged(row, now, chain, challenger, support, verified[marks])
}
