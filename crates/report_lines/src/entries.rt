//! The lines of entries.

ghost use Rattle.std.specs.Prelude.{◌≡◌, IfOk, string_bytes};
ghost use Rattle.std.specs.Fmt.{decimal};
ghost use Rattle.report_lines.specs.Text.{◌&◌, fixed_text, top_text, call_text, op_text, step_fault_number, support_fault_text, refusal_text, reply_text, entry_line};

use crate::names::{channel_text, fixed_text};
use call_history::{Call, Entry, Op, Refusal, Reply, newest};
use channel_values::{Chain, Dest, Fixed, Label, State, StepFault, SupportFault};
use std::alloc::{AllocError, Global};

/// The turn of the last state of a row, or `-` where it has none.
fn top_text(alloc: Global, states: &[State]) -> Result<String, AllocError>
    ensures { IfOk result (λ text. string_bytes text ≡ top_text states.now) }
{
    match newest(states) {
        Some(top) => {
            let turn = top.turn();
            format!(in alloc; "{turn}")
        }
        None => String::from_str(alloc, "-"),
    }
}

/// `WORD CHANNEL TURN` of a call with a chain.
fn chain_text(
    alloc: Global,
    labels: &[(Dest, Label)],
    word: &str,
    chain: &Chain,
) -> Result<String, AllocError>
    ensures { IfOk result (λ text. string_bytes text
        ≡ word.now & fixed_text labels.now chain.now.fixed & top_text chain.now.states) }
{
    let name = fixed_text(alloc, labels, &chain.fixed)?;
    let turn = top_text(alloc, chain.states.as_slice())?;
    format!(in alloc; "{word} {name} {turn}")
}

/// `WORD CHANNEL TURN` of a call with a next state.
fn next_text(
    alloc: Global,
    labels: &[(Dest, Label)],
    word: &str,
    fixed: &Fixed,
    next: &State,
) -> Result<String, AllocError>
    ensures { IfOk result (λ text. string_bytes text
        ≡ word.now & fixed_text labels.now fixed.now & decimal next.now.turn) }
{
    let name = fixed_text(alloc, labels, fixed)?;
    let turn = next.turn();
    format!(in alloc; "{word} {name} {turn}")
}

fn call_text(alloc: Global, labels: &[(Dest, Label)], call: &Call) -> Result<String, AllocError>
    ensures { IfOk result (λ text. string_bytes text ≡ call_text labels.now call.now) }
{
    match call {
        Call::Deposit(deposit) => {
            let name = channel_text(alloc, labels, &deposit.channel)?;
            let asset = deposit.asset;
            let expected = deposit.expected;
            let amount = deposit.amount;
            format!(in alloc; "deposit {name} {asset} {expected} {amount}")
        }
        Call::Challenge(challenge) => chain_text(alloc, labels, "challenge", &challenge.chain),
        Call::Respond(respond) => {
            next_text(
                alloc,
                labels,
                "respond",
                &respond.fixed,
                &respond.next.state,
            )
        }
        Call::Refute { fixed, next } => next_text(alloc, labels, "refute", fixed, &next.state),
        Call::Checkpoint { chain } => chain_text(alloc, labels, "checkpoint", chain),
        Call::Conclude { chain } => chain_text(alloc, labels, "conclude", chain),
        Call::Transfer(transfer) => {
            let name = channel_text(alloc, labels, &transfer.channel)?;
            let asset = transfer.asset;
            let index = transfer.index;
            format!(in alloc; "transfer {name} {asset} {index}")
        }
        Call::Claim(claim) => {
            let guarantor = channel_text(alloc, labels, &claim.guarantor)?;
            let target = channel_text(alloc, labels, &claim.target)?;
            let asset = claim.asset;
            let position = claim.position;
            format!(in alloc; "claim {guarantor} {target} {asset} {position}")
        }
    }
}

fn op_text(alloc: Global, labels: &[(Dest, Label)], op: &Op) -> Result<String, AllocError>
    ensures { IfOk result (λ text. string_bytes text ≡ op_text labels.now op.now) }
{
    match op {
        Op::Call(call) => call_text(alloc, labels, call),
        Op::Time(to) => format!(in alloc; "time {to}"),
    }
}

/// The number of a broken rule of a step.
fn step_fault_number(fault: &StepFault) -> u8
    ensures { result ≡ step_fault_number fault.now }
{
    match fault {
        StepFault::Outcome => 1,
        StepFault::Data => 2,
        StepFault::Votes => 3,
        StepFault::Proposal => 4,
        StepFault::Raised => 5,
        StepFault::Lowered => 6,
        StepFault::EarlyFinal => 7,
        StepFault::AfterFinal => 8,
    }
}

/// The number of a break of a chain, its place, and the number of the broken rule.
fn support_fault_text(alloc: Global, fault: &SupportFault) -> Result<String, AllocError>
    ensures { IfOk result (λ text. string_bytes text ≡ support_fault_text fault.now) }
{
    match fault {
        SupportFault::Length => String::from_str(alloc, "1"),
        SupportFault::Turn(place) => format!(in alloc; "2 {place}"),
        SupportFault::Step(place, fault) => {
            let number = step_fault_number(fault);
            format!(in alloc; "3 {place} {number}")
        }
        SupportFault::Signature(who) => format!(in alloc; "4 {who}"),
    }
}

fn refusal_text(
    alloc: Global,
    labels: &[(Dest, Label)],
    refusal: &Refusal,
) -> Result<String, AllocError>
    ensures { IfOk result (λ text. string_bytes text ≡ refusal_text labels.now refusal.now) }
{
    match refusal {
        Refusal::IsFinal => String::from_str(alloc, "1 IsFinal"),
        Refusal::NotSupported(fault) => {
            let fault = support_fault_text(alloc, fault)?;
            format!(in alloc; "2 NotSupported {fault}")
        }
        Refusal::Stale(recorded) => format!(in alloc; "3 Stale {recorded}"),
        Refusal::BadChallenger => String::from_str(alloc, "4 BadChallenger"),
        Refusal::NoChallenge => String::from_str(alloc, "5 NoChallenge"),
        Refusal::WrongState => String::from_str(alloc, "6 WrongState"),
        Refusal::WrongTurn(wanted) => format!(in alloc; "7 WrongTurn {wanted}"),
        Refusal::BadSignature => String::from_str(alloc, "8 BadSignature"),
        Refusal::BadStep(fault) => {
            let number = step_fault_number(fault);
            format!(in alloc; "9 BadStep {number}")
        }
        Refusal::NotNewer(recorded) => format!(in alloc; "10 NotNewer {recorded}"),
        Refusal::NotChallengers => String::from_str(alloc, "11 NotChallengers"),
        Refusal::NotFinalState(place) => format!(in alloc; "12 NotFinalState {place}"),
        Refusal::Zero => String::from_str(alloc, "13 Zero"),
        Refusal::Underheld(held) => format!(in alloc; "14 Underheld {held}"),
        Refusal::AssetFull(deposited) => format!(in alloc; "15 AssetFull {deposited}"),
        Refusal::NotFinal(channel) => {
            let name = channel_text(alloc, labels, channel)?;
            format!(in alloc; "16 NotFinal {name}")
        }
        Refusal::WrongOutcome(channel) => {
            let name = channel_text(alloc, labels, channel)?;
            format!(in alloc; "17 WrongOutcome {name}")
        }
        Refusal::NoAsset => String::from_str(alloc, "18 NoAsset"),
        Refusal::WrongKind => String::from_str(alloc, "19 WrongKind"),
        Refusal::WrongTarget => String::from_str(alloc, "20 WrongTarget"),
        Refusal::NotListed => String::from_str(alloc, "21 NotListed"),
        Refusal::NoItem => String::from_str(alloc, "22 NoItem"),
        Refusal::NothingDue(held) => format!(in alloc; "23 NothingDue {held}"),
        Refusal::Backwards(now) => format!(in alloc; "24 Backwards {now}"),
        Refusal::TooLate => String::from_str(alloc, "25 TooLate"),
    }
}

fn reply_text(alloc: Global, labels: &[(Dest, Label)], reply: &Reply) -> Result<String, AllocError>
    ensures { IfOk result (λ text. string_bytes text ≡ reply_text labels.now reply.now) }
{
    match reply {
        Reply::Held(amount) => format!(in alloc; "ok held {amount}"),
        Reply::Until(time) => format!(in alloc; "ok until {time}"),
        Reply::Opened(turn) => format!(in alloc; "ok open {turn}"),
        Reply::Concluded(turn) => format!(in alloc; "ok final {turn}"),
        Reply::Paid(amount) => format!(in alloc; "ok paid {amount}"),
        Reply::Now(time) => format!(in alloc; "ok now {time}"),
        Reply::No(refusal) => {
            let refusal = refusal_text(alloc, labels, refusal)?;
            format!(in alloc; "no {refusal}")
        }
    }
}

/// `NUMBER BY OP REPLY`.
pub fn entry_line(
    alloc: Global,
    labels: &[(Dest, Label)],
    entry: &Entry,
) -> Result<String, AllocError>
    ensures { IfOk result (λ text. string_bytes text ≡ entry_line labels.now entry.now) }
{
    let number = entry.number;
    let by = entry.by;
    let op = op_text(alloc, labels, &entry.op)?;
    let reply = reply_text(alloc, labels, &entry.reply)?;
    format!(in alloc; "{number} {by} {op} {reply}\n")
}
