//! What a supported chain alone brings about: a checkpoint and a conclude.

ghost use Rattle.std.specs.Prelude.{◌≡◌, ◌+◌, ◌<◌, ◌^◌, Bool, false, List, Some, length, IfOk};
ghost use Rattle.std.specs.Option.{option_map};
ghost use Rattle.channel_values.specs.Rules.{newest};
ghost use Rattle.channel_values.specs.Support.{support_of, verified_marks};
ghost use Rattle.call_history.specs.Mode.{mode_at, is_final};
ghost use Rattle.call_history.specs.Rows.{row_or_blank, after_conclude};
ghost use Rattle.call_history.specs.Replies as replies;
ghost use Rattle.support_rules.specs.Real.{real};

use crate::top::{digest_of, digest_of_outcome, is_over};
use call_history::{Refusal, Row, newest, row_or_blank};
use channel_values::{Chain, State, SupportFault};
use support_rules::{supports, supports_with};

/// The place of the first state that isn't final. The first of these has place `i`.
fn first_unfinished(i: usize, states: &[State]) -> Option<usize>
    requires { i + length states.now < 2 ^ 64 }
    ensures { result ≡ replies.first_unfinished i states.now }
{
    let [first, rest @ ..] = states else {
        return None;
    };
    if !first.is_final() {
        return Some(i);
    }
    first_unfinished(i + 1, rest)
}

/// The row that a conclude with a chain of this last state makes.
fn after_conclude(row: &Row, now: u64, chain: &Chain, last: &State) -> Row
    requires { newest chain.now.states ≡ Some last.now }
    ensures row { result ≡ after_conclude real now chain.now row.now }
    ensures small { result.turn < 2 ^ 48 }
{
    Row {
        turn: last.turn(),
        deadline: Some(now),
        state_digest: digest_of(&chain.fixed, last),
        outcome_digest: digest_of_outcome(last.outcome()),
        challenger: row.challenger,
    }
}

/// The checkpoint of a channel that isn't final, where `support` is what the chain supports.
fn checkpointed(
    row: Row,
    now: u64,
    chain: &Chain,
    support: Result<u64, SupportFault>,
) -> Result<Row, Refusal>
    requires { is_final (mode_at row.deadline now) ≡ false }
    ensures answer { (verified : List Bool) → support ≡ support_of real chain.now verified
        → result ≡ replies.checkpoint_with real row now chain.now verified }
    ensures small { IfOk result (λ new. new.turn < 2 ^ 48) }
{
    if let Err(fault) = support {
        return Err(Refusal::NotSupported(fault));
    }
    let Some(last) = newest(chain.states.as_slice()) else {
        return Err(Refusal::NotSupported(SupportFault::Length));
    };
    if last.turn() <= row.turn {
        return Err(Refusal::NotNewer(row.turn));
    }
    Ok(Row {
        turn: last.turn(),
        deadline: None,
        ..row
    })
}

/// Records a newer supported turn: the channel stands open.
#[tactic(auto, unfolding(channel_values::specs::Support::supports))]
pub fn checkpoint(row: Option<&Row>, now: u64, chain: &Chain) -> Result<Row, Refusal>
    ensures answer { result ≡ replies.checkpoint real (row_or_blank (option_map (λ m. m.now) row.entry)) now
        chain.now }
    ensures small { IfOk result (λ new. new.turn < 2 ^ 48) }
{
    let row = row_or_blank(row);
    if is_over(&row, now) {
        return Err(Refusal::IsFinal);
    }
    checkpointed(row, now, chain, supports(chain))
}

/// As `checkpoint`, where `verified` says which marks verify.
pub fn checkpoint_with(
    row: Option<&Row>,
    now: u64,
    chain: &Chain,
    verified: &[bool],
) -> Result<Row, Refusal>
    requires { length verified.now ≡ length chain.now.marks }
    ensures answer { result ≡ replies.checkpoint_with real (row_or_blank (option_map (λ m. m.now) row.entry)) now
        chain.now verified.now }
    ensures checked { verified.now ≡ verified_marks real chain.now
        → result ≡ replies.checkpoint real (row_or_blank (option_map (λ m. m.now) row.entry)) now chain.now }
    ensures small { IfOk result (λ new. new.turn < 2 ^ 48) }
{
    let row = row_or_blank(row);
    if is_over(&row, now) {
        return Err(Refusal::IsFinal);
    }
    checkpointed(row, now, chain, supports_with(chain, verified))
}

/// The conclude of a channel that isn't final, where `support` is what the chain supports.
fn concluded(
    row: Row,
    now: u64,
    chain: &Chain,
    support: Result<u64, SupportFault>,
) -> Result<Row, Refusal>
    requires { is_final (mode_at row.deadline now) ≡ false }
    ensures answer { (verified : List Bool) → support ≡ support_of real chain.now verified
        → result ≡ replies.conclude_with real row now chain.now verified }
    ensures small { IfOk result (λ new. new.turn < 2 ^ 48) }
{
    if let Err(fault) = support {
        return Err(Refusal::NotSupported(fault));
    }
    let states = chain.states.as_slice();
    let Some(last) = newest(states) else {
        return Err(Refusal::NotSupported(SupportFault::Length));
    };
    if let Some(i) = first_unfinished(0, states) {
        return Err(Refusal::NotFinalState(i));
    }
    Ok(after_conclude(&row, now, chain, last))
}

/// Ends the channel at once with a supported chain of final states.
#[tactic(auto, unfolding(channel_values::specs::Support::supports))]
pub fn conclude(row: Option<&Row>, now: u64, chain: &Chain) -> Result<Row, Refusal>
    ensures answer { result ≡ replies.conclude real (row_or_blank (option_map (λ m. m.now) row.entry)) now
        chain.now }
    ensures small { IfOk result (λ new. new.turn < 2 ^ 48) }
{
    let row = row_or_blank(row);
    if is_over(&row, now) {
        return Err(Refusal::IsFinal);
    }
    concluded(row, now, chain, supports(chain))
}

/// As `conclude`, where `verified` says which marks verify.
pub fn conclude_with(
    row: Option<&Row>,
    now: u64,
    chain: &Chain,
    verified: &[bool],
) -> Result<Row, Refusal>
    requires { length verified.now ≡ length chain.now.marks }
    ensures answer { result ≡ replies.conclude_with real (row_or_blank (option_map (λ m. m.now) row.entry)) now
        chain.now verified.now }
    ensures checked { verified.now ≡ verified_marks real chain.now
        → result ≡ replies.conclude real (row_or_blank (option_map (λ m. m.now) row.entry)) now chain.now }
    ensures small { IfOk result (λ new. new.turn < 2 ^ 48) }
{
    let row = row_or_blank(row);
    if is_over(&row, now) {
        return Err(Refusal::IsFinal);
    }
    concluded(row, now, chain, supports_with(chain, verified))
}
