//! What answers a challenge: a respond and a refute.

ghost use Rattle.std.specs.Prelude.{◌≡◌, ◌<◌, ◌^◌, false, length, slice_index_or, IfOk};
ghost use Rattle.std.specs.Option.{option_map};
ghost use Rattle.std.specs.Result.{result_err};
ghost use Rattle.call_history.specs.Rows.{row_or_blank};
ghost use Rattle.call_history.specs.Replies as replies;
ghost use Rattle.support_rules.specs.Real.{real};
ghost use Rattle.adjudicator.specs.Values.{answer_values};

use crate::top::digest_of;
use call_history::{Refusal, Row, Standing, mode, row_or_blank};
use channel_values::{Fixed, Signed, State, StepFault, mover_at};
use support_rules::{is_signed_well, people_of, step};

/// Whether a state follows from another.
fn follows(fixed: &Fixed, from: &State, to: &State) -> Result<(), StepFault>
    ensures { result_err result ≡ real.step fixed.now from.now to.now }
{
    let people = people_of(fixed);
    step(fixed, people.as_slice(), from, to)
}

/// The respond, where `signed` says whether the mover's signature verifies.
fn responded(
    row: Row,
    now: u64,
    fixed: &Fixed,
    from: &State,
    next: &Signed,
    signed: bool,
) -> Result<Row, Refusal>
    requires { row.turn < 2 ^ 48 }
    ensures answer { result ≡ replies.respond_with real row now fixed.now from.now next.now signed }
    ensures small { IfOk result (λ new. new.turn < 2 ^ 48) }
{
    if mode(row.deadline, now) != Standing::Challenged {
        return Err(Refusal::NoChallenge);
    }
    if digest_of(fixed, from) != row.state_digest {
        return Err(Refusal::WrongState);
    }
    let wanted = row.turn + 1;
    if next.state.turn() != wanted {
        return Err(Refusal::WrongTurn(wanted));
    }
    if !signed {
        return Err(Refusal::BadSignature);
    }
    if let Err(fault) = follows(fixed, from, &next.state) {
        return Err(Refusal::BadStep(fault));
    }
    Ok(Row {
        turn: next.state.turn(),
        deadline: None,
        ..row
    })
}

/// Answers a challenge with the state after the challenged one, which its mover signed: the channel stands open at
/// that state's turn.
pub fn respond(
    row: Option<&Row>,
    now: u64,
    fixed: &Fixed,
    from: &State,
    next: &Signed,
) -> Result<Row, Refusal>
    requires { (row_or_blank (option_map (λ m. m.now) row)).turn < 2 ^ 48 }
    ensures answer { result ≡ replies.respond real (row_or_blank (option_map (λ m. m.now) row.entry)) now
        fixed.now from.now next.now }
    ensures small { IfOk result (λ new. new.turn < 2 ^ 48) }
{
    let signed = is_signed_well(fixed, next);
    responded(row_or_blank(row), now, fixed, from, next, signed)
}

/// As `respond`, where the one value of `verified` says whether the mover's signature verifies.
pub fn respond_with(
    row: Option<&Row>,
    now: u64,
    fixed: &Fixed,
    from: &State,
    next: &Signed,
    verified: &[bool],
) -> Result<Row, Refusal>
    requires small { (row_or_blank (option_map (λ m. m.now) row)).turn < 2 ^ 48 }
    requires one { length verified.now ≡ 1 }
    ensures answer { result ≡ replies.respond_with real (row_or_blank (option_map (λ m. m.now) row.entry)) now
        fixed.now from.now next.now (slice_index_or verified.now 0 false) }
    ensures checked { verified.now ≡ answer_values real fixed.now next.now
        → result ≡ replies.respond real (row_or_blank (option_map (λ m. m.now) row.entry)) now
        fixed.now from.now next.now }
    ensures small { IfOk result (λ new. new.turn < 2 ^ 48) }
{
    responded(row_or_blank(row), now, fixed, from, next, verified[0])
}

/// The refute, where `signed` says whether the mover's signature verifies.
fn refuted(row: Row, now: u64, fixed: &Fixed, next: &Signed, signed: bool) -> Result<Row, Refusal>
    ensures answer { result ≡ replies.refute_with row now fixed.now next.now signed }
    ensures kept { IfOk result (λ new. new.turn ≡ row.turn) }
{
    if mode(row.deadline, now) != Standing::Challenged {
        return Err(Refusal::NoChallenge);
    }
    if next.state.turn() <= row.turn {
        return Err(Refusal::NotNewer(row.turn));
    }
    if mover_at(fixed, next.state.turn()) != row.challenger as usize {
        return Err(Refusal::NotChallengers);
    }
    if !signed {
        return Err(Refusal::BadSignature);
    }
    let opened = Row {
        deadline: None,
        ..row
    };
    Ok(opened)
}

/// Answers a challenge with a newer state that the challenger itself signed: the recorded turn stays, and the channel
/// stands open.
pub fn refute(row: Option<&Row>, now: u64, fixed: &Fixed, next: &Signed) -> Result<Row, Refusal>
    ensures answer { result ≡ replies.refute real (row_or_blank (option_map (λ m. m.now) row.entry)) now
        fixed.now next.now }
    ensures kept { IfOk result (λ new. new.turn ≡ (row_or_blank (option_map (λ m. m.now) row.entry)).turn) }
{
    refuted(
        row_or_blank(row),
        now,
        fixed,
        next,
        is_signed_well(fixed, next),
    )
}

/// As `refute`, where the one value of `verified` says whether the mover's signature verifies.
pub fn refute_with(
    row: Option<&Row>,
    now: u64,
    fixed: &Fixed,
    next: &Signed,
    verified: &[bool],
) -> Result<Row, Refusal>
    requires { length verified.now ≡ 1 }
    ensures answer { result ≡ replies.refute_with (row_or_blank (option_map (λ m. m.now) row.entry)) now
        fixed.now next.now (slice_index_or verified.now 0 false) }
    ensures checked { verified.now ≡ answer_values real fixed.now next.now
        → result ≡ replies.refute real (row_or_blank (option_map (λ m. m.now) row.entry)) now fixed.now next.now }
    ensures kept { IfOk result (λ new. new.turn ≡ (row_or_blank (option_map (λ m. m.now) row.entry)).turn) }
{
    refuted(row_or_blank(row), now, fixed, next, verified[0])
}
