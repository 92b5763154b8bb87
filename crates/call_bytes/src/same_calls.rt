//! Whether two calls are one call.

ghost use Rattle.std.specs.Prelude.{◌≡◌, ◌&&◌};
ghost use Rattle.std.specs.Cmp.Lexicographic.{pointwise};
ghost use Rattle.std.specs.Str.{bytes_eq};
ghost use Rattle.call_history.specs.Same as same;
ghost use Rattle.call_history.specs.declared.call.Call.TheVariants as calls;

use call_history::{Call, ChallengeCall, ClaimCall, DepositCall, Op, RespondCall, TransferCall};
use channel_values::{Chain, Fixed, Mark, Name, Outcome, Signed, State};

fn same_fixed(a: &Fixed, b: &Fixed) -> bool
    ensures { result ≡ same.same_fixed a.now b.now }
{
    a.bytes() == b.bytes()
}

fn same_state(a: &State, b: &State) -> bool
    ensures { result ≡ same.same_state a.now b.now }
{
    a.bytes() == b.bytes()
}

fn same_outcome(a: &Outcome, b: &Outcome) -> bool
    ensures { result ≡ same.same_outcome a.now b.now }
{
    a.bytes() == b.bytes()
}

fn same_signed(a: &Signed, b: &Signed) -> bool
    ensures { result ≡ same.same_signed a.now b.now }
{
    same_state(&a.state, &b.state) && a.signature.as_slice() == b.signature.as_slice()
}

fn same_mark(a: &Mark, b: &Mark) -> bool
    ensures { result ≡ same.same_mark a.now b.now }
{
    a.place == b.place && a.signature.as_slice() == b.signature.as_slice()
}

fn same_states(a: &[State], b: &[State]) -> bool
    ensures { result ≡ pointwise same.same_state a.now b.now }
{
    match a {
        [] => b.is_empty(),
        [first, rest @ ..] => match b {
            [] => false,
            [other, others @ ..] => same_state(first, other) && same_states(rest, others),
        },
    }
}

fn same_marks(a: &[Mark], b: &[Mark]) -> bool
    ensures { result ≡ pointwise same.same_mark a.now b.now }
{
    match a {
        [] => b.is_empty(),
        [first, rest @ ..] => match b {
            [] => false,
            [other, others @ ..] => same_mark(first, other) && same_marks(rest, others),
        },
    }
}

fn same_chain(a: &Chain, b: &Chain) -> bool
    ensures { result ≡ same.same_chain a.now b.now }
{
    same_fixed(&a.fixed, &b.fixed)
        && same_states(a.states.as_slice(), b.states.as_slice())
        && same_marks(a.marks.as_slice(), b.marks.as_slice())
}

fn is_deposit(call: &Call, deposit: &DepositCall) -> bool
    ensures { result ≡ same.same_call (calls.Deposit deposit.now) call.now }
{
    match call {
        Call::Deposit(other) => {
            deposit.channel == other.channel
                && deposit.asset == other.asset
                && deposit.expected == other.expected
                && deposit.amount == other.amount
        }
        _ => false,
    }
}

fn is_challenge(call: &Call, challenge: &ChallengeCall) -> bool
    ensures { result ≡ same.same_call (calls.Challenge challenge.now) call.now }
{
    match call {
        Call::Challenge(other) => {
            same_chain(&challenge.chain, &other.chain)
                && challenge.challenger == other.challenger
                && challenge.signature.as_slice() == other.signature.as_slice()
        }
        _ => false,
    }
}

fn is_respond(call: &Call, respond: &RespondCall) -> bool
    ensures { result ≡ same.same_call (calls.Respond respond.now) call.now }
{
    match call {
        Call::Respond(other) => {
            same_fixed(&respond.fixed, &other.fixed)
                && same_state(&respond.from, &other.from)
                && same_signed(&respond.next, &other.next)
        }
        _ => false,
    }
}

fn is_refute(call: &Call, fixed: &Fixed, next: &Signed) -> bool
    ensures { result ≡ same.same_call (calls.Refute fixed.now next.now) call.now }
{
    match call {
        Call::Refute {
            fixed: other,
            next: end,
        } => same_fixed(fixed, other) && same_signed(next, end),
        _ => false,
    }
}

fn is_checkpoint(call: &Call, chain: &Chain) -> bool
    ensures { result ≡ same.same_call (calls.Checkpoint chain.now) call.now }
{
    match call {
        Call::Checkpoint { chain: other } => same_chain(chain, other),
        _ => false,
    }
}

fn is_conclude(call: &Call, chain: &Chain) -> bool
    ensures { result ≡ same.same_call (calls.Conclude chain.now) call.now }
{
    match call {
        Call::Conclude { chain: other } => same_chain(chain, other),
        _ => false,
    }
}

/// A channel with the outcome that it ended with.
fn same_ending(a: &Name, outcome: &Outcome, b: &Name, other: &Outcome) -> bool
    ensures { result ≡ (bytes_eq a.now b.now && same.same_outcome outcome.now other.now) }
{
    *a == *b && same_outcome(outcome, other)
}

fn is_transfer(call: &Call, transfer: &TransferCall) -> bool
    ensures { result ≡ same.same_call (calls.Transfer transfer.now) call.now }
{
    match call {
        Call::Transfer(other) => {
            transfer.channel == other.channel
                && same_outcome(&transfer.outcome, &other.outcome)
                && transfer.asset == other.asset
                && transfer.index == other.index
        }
        _ => false,
    }
}

fn same_claim(a: &ClaimCall, b: &ClaimCall) -> bool
    ensures { result ≡ same.same_call (calls.Claim a.now) (calls.Claim b.now) }
{
    same_ending(
        &a.guarantor,
        &a.guarantor_outcome,
        &b.guarantor,
        &b.guarantor_outcome,
    ) && same_ending(&a.target, &a.target_outcome, &b.target, &b.target_outcome)
        && a.asset == b.asset
        && a.position == b.position
}

fn is_claim(call: &Call, claim: &ClaimCall) -> bool
    ensures { result ≡ same.same_call (calls.Claim claim.now) call.now }
{
    match call {
        Call::Claim(other) => same_claim(claim, other),
        _ => false,
    }
}

/// Whether two calls are one call.
pub fn same_call(a: &Call, b: &Call) -> bool
    ensures { result ≡ same.same_call a.now b.now }
{
    match a {
        Call::Deposit(deposit) => is_deposit(b, deposit),
        Call::Challenge(challenge) => is_challenge(b, challenge),
        Call::Respond(respond) => is_respond(b, respond),
        Call::Refute { fixed, next } => is_refute(b, fixed, next),
        Call::Checkpoint { chain } => is_checkpoint(b, chain),
        Call::Conclude { chain } => is_conclude(b, chain),
        Call::Transfer(transfer) => is_transfer(b, transfer),
        Call::Claim(claim) => is_claim(b, claim),
    }
}

/// Whether the op is this call.
pub fn is_op(call: &Call, op: &Op) -> bool
    ensures { result ≡ same.is_op call.now op.now }
{
    match op {
        Op::Call(own) => same_call(own, call),
        Op::Time(_) => false,
    }
}
