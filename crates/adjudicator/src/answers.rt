//! What the calls on a channel's row answer. Their signatures are verified, unless that was done and `verified` says
//! which of them do.

ghost use Rattle.std.specs.Prelude.{◌≡◌, ◌≤◌, ◌<◌, ◌^◌, IfOk};
ghost use Rattle.std.specs.Option.{option_map};
ghost use Rattle.channel_values.specs.Support.{verified_marks};
ghost use Rattle.call_history.specs.Replies as replies;
ghost use Rattle.call_history.specs.Rows.{row_or_blank};
ghost use Rattle.adjudicator.specs.Values.{challenge_values, answer_values};
ghost use Rattle.support_rules.specs.Real.{real};
ghost use Rattle.adjudicator.specs.Checked.{AreKnown};

use crate::challenge_answers::{refute, refute_with, respond, respond_with};
use crate::opening::{challenge, challenge_with};
use crate::supported::{checkpoint, checkpoint_with, conclude, conclude_with};
use call_history::{ChallengeCall, Refusal, RespondCall, Row};
use channel_values::{Chain, Fixed, Signed};

#[tactic(auto, using(crate::proofs::Checking::one_more))]
pub(crate) fn to_challenge(
    row: Option<&Row>,
    now: u64,
    call: &ChallengeCall,
    verified: Option<&[bool]>,
) -> Result<Row, Refusal>
    requires soon { now ≤ 2 ^ 62 }
    requires known { AreKnown (challenge_values real call.now.chain call.now.challenger call.now.signature)
        (option_map (λ m. m.now) verified) }
    ensures answer { result ≡ replies.challenge real (row_or_blank (option_map (λ m. m.now) row.entry)) now
        call.now.chain call.now.challenger call.now.signature }
    ensures small { IfOk result (λ new. new.turn < 2 ^ 48) }
{
    let chain = &call.chain;
    let signature = call.signature.as_slice();
    match verified {
        Some(verified) => challenge_with(row, now, chain, call.challenger, signature, verified),
        None => challenge(row, now, chain, call.challenger, signature),
    }
}

pub(crate) fn to_respond(
    row: Option<&Row>,
    now: u64,
    call: &RespondCall,
    verified: Option<&[bool]>,
) -> Result<Row, Refusal>
    requires small { (row_or_blank (option_map (λ m. m.now) row)).turn < 2 ^ 48 }
    requires known { AreKnown (answer_values real call.now.fixed call.now.next) (option_map (λ m. m.now) verified) }
    ensures answer { result ≡ replies.respond real (row_or_blank (option_map (λ m. m.now) row.entry)) now
        call.now.fixed call.now.from call.now.next }
    ensures small { IfOk result (λ new. new.turn < 2 ^ 48) }
{
    match verified {
        Some(verified) => respond_with(row, now, &call.fixed, &call.from, &call.next, verified),
        None => respond(row, now, &call.fixed, &call.from, &call.next),
    }
}

pub(crate) fn to_refute(
    row: Option<&Row>,
    now: u64,
    fixed: &Fixed,
    next: &Signed,
    verified: Option<&[bool]>,
) -> Result<Row, Refusal>
    requires known { AreKnown (answer_values real fixed.now next.now) (option_map (λ m. m.now) verified) }
    ensures answer { result ≡ replies.refute real (row_or_blank (option_map (λ m. m.now) row.entry)) now
        fixed.now next.now }
    ensures kept { IfOk result (λ new. new.turn ≡ (row_or_blank (option_map (λ m. m.now) row.entry)).turn) }
{
    match verified {
        Some(verified) => refute_with(row, now, fixed, next, verified),
        None => refute(row, now, fixed, next),
    }
}

#[tactic(auto, using(crate::proofs::Checking::as_many))]
pub(crate) fn to_checkpoint(
    row: Option<&Row>,
    now: u64,
    chain: &Chain,
    verified: Option<&[bool]>,
) -> Result<Row, Refusal>
    requires known { AreKnown (verified_marks real chain.now) (option_map (λ m. m.now) verified) }
    ensures answer { result ≡ replies.checkpoint real (row_or_blank (option_map (λ m. m.now) row.entry)) now chain.now }
    ensures small { IfOk result (λ new. new.turn < 2 ^ 48) }
{
    match verified {
        Some(verified) => checkpoint_with(row, now, chain, verified),
        None => checkpoint(row, now, chain),
    }
}

#[tactic(auto, using(crate::proofs::Checking::as_many))]
pub(crate) fn to_conclude(
    row: Option<&Row>,
    now: u64,
    chain: &Chain,
    verified: Option<&[bool]>,
) -> Result<Row, Refusal>
    requires known { AreKnown (verified_marks real chain.now) (option_map (λ m. m.now) verified) }
    ensures answer { result ≡ replies.conclude real (row_or_blank (option_map (λ m. m.now) row.entry)) now chain.now }
    ensures small { IfOk result (λ new. new.turn < 2 ^ 48) }
{
    match verified {
        Some(verified) => conclude_with(row, now, chain, verified),
        None => conclude(row, now, chain),
    }
}
