//! Entries of the ledger.

ghost use Rattle.std.specs.Prelude.{◌≡◌, IfOk};
ghost use Rattle.serde_json.specs.View.{view};
ghost use Rattle.channel_values.specs.Reading.{all_of, Tells};
ghost use Rattle.call_bytes.specs.Reading.{reply_at};
ghost use Rattle.node_lines.specs.Faults.{Gives};
ghost use Rattle.node_lines.specs.Entries.{call_in, time_in, op_in, op_of, reply_in, reply_of, entry_of, KeepsOp};

use crate::faults::{Invalid, LineError};
use crate::values::{bytes_at, keys, small_at};
use call_bytes::{read_call, take_reply};
use call_history::{Op, Reply};
use channel_values::{ByteFault, ended};
use serde_json::Value;
use std::alloc::Global;

/// An entry of the ledger, as its operator tells it.
#[derive(Drop)]
pub struct LedgerEntry {
    /// The entry's number, from 1.
    pub number: u32,
    /// Who entered it.
    pub by: u32,
    pub op: Op,
    pub reply: Reply,
}

fn call_in(alloc: Global, bytes: &[u8]) -> Result<Op, LineError>
    ensures op { Gives (λ op. op) result (call_in bytes.now) }
    ensures keeps { IfOk result KeepsOp }
{
    match read_call(alloc, bytes) {
        Ok(call) => Ok(Op::Call(call)),
        Err(ByteFault::NoMemory) => Err(LineError::NoMemory),
        Err(_) => Err(LineError::Invalid(Invalid::Bytes)),
    }
}

fn time_in(bytes: &[u8]) -> Result<Op, LineError>
    ensures op { Gives (λ op. op) result (time_in bytes.now) }
    ensures keeps { IfOk result KeepsOp }
{
    match bytes {
        [a, b, c, d, e, f, g, h] => {
            let time = u64::from_be_bytes([*a, *b, *c, *d, *e, *f, *g, *h]);
            Ok(Op::Time(time))
        }
        _ => Err(LineError::Invalid(Invalid::Bytes)),
    }
}

fn op_in(alloc: Global, bytes: &[u8]) -> Result<Op, LineError>
    ensures op { Gives (λ op. op) result (op_in bytes.now) }
    ensures keeps { IfOk result KeepsOp }
{
    match bytes {
        [1, rest @ ..] => call_in(alloc, rest),
        [2, rest @ ..] => time_in(rest),
        _ => Err(LineError::Invalid(Invalid::Bytes)),
    }
}

fn op_of(alloc: Global, value: &Value) -> Result<Op, LineError>
    ensures op { Gives (λ op. op) result (op_of (view value.now)) }
    ensures keeps { IfOk result KeepsOp }
{
    let bytes = bytes_at(alloc, value, "op")?;
    op_in(alloc, &bytes)
}

#[tactic(auto, unfolding(channel_values::specs::Reading::all_of))]
fn reply_from(bytes: &[u8]) -> Result<Reply, ByteFault>
    ensures { Tells (λ x. x) result (all_of reply_at bytes.now) }
{
    let whole = bytes.len();
    let (reply, rest) = take_reply(whole, bytes)?;
    ended(whole, reply, rest)
}

fn reply_in(bytes: &[u8]) -> Result<Reply, LineError>
    ensures { Gives (λ reply. reply) result (reply_in bytes.now) }
{
    match reply_from(bytes) {
        Ok(reply) => Ok(reply),
        Err(_) => Err(LineError::Invalid(Invalid::Bytes)),
    }
}

fn reply_of(alloc: Global, value: &Value) -> Result<Reply, LineError>
    ensures { Gives (λ reply. reply) result (reply_of (view value.now)) }
{
    let bytes = bytes_at(alloc, value, "reply")?;
    reply_in(&bytes)
}

/// The entry that the value is.
pub(crate) fn entry_of(alloc: Global, value: &Value) -> Result<LedgerEntry, LineError>
    ensures entry { Gives (λ entry. entry) result (entry_of (view value.now)) }
    ensures keeps { IfOk result (λ entry. KeepsOp entry.op) }
{
    keys(value, 5)?;
    let number = small_at(value, "number")?;
    let by = small_at(value, "by")?;
    let reply = reply_of(alloc, value)?;
    let op = op_of(alloc, value)?;
    Ok(LedgerEntry {
        number,
        by,
        op,
        reply,
    })
}
