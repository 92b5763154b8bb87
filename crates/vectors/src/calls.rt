//! Reads calls and messages that a writer in another language spelled, copies calls in entries, and writes all back.
//!
//! A line of the file is `NAME KIND HEX`: the kind is `call` or `message`, the bytes are in hex, `-` for none. A line
//! `NAME same` is printed where the same bytes are written back, `NAME other` where others are, and else `NAME FAULT
//! PLACE` with the first fault.
ghost use Rattle.std.specs.Prelude.{◌≡◌};
ghost use Rattle.call_history.specs.Limits.{KeepsCall};
ghost use Rattle.call_history.specs.declared.call.Call.{Call as AnyCall};
ghost use Rattle.call_history.specs.declared.call.Op.TheVariants as ops;

use anyhow::{Context, Result};
use call_bytes::{read_call, read_message, write_call, write_message};
use call_history::{Entry, Op, Reply};
use channel_values::{ByteFault, NoMemory};

/// Appends the bytes of the call of an entry's copy.
fn write_copy(entry: &Entry, out: &mut Vec<u8>) -> Result<(), NoMemory>
    requires { (c : AnyCall) → entry.now.op ≡ ops.Call c → KeepsCall c }
{
    let copy = entry.copy()?;
    match &copy.op {
        Op::Call(call) => write_call(call, out),
        Op::Time(_) => Ok(()),
    }
}

/// Appends what a copy of the call that the bytes spell is written as.
fn call_again(bytes: &[u8], out: &mut Vec<u8>) -> Result<(), ByteFault> {
    let call = read_call(*out.allocator(), bytes)?;
    let entry = Entry {
        number: 1,
        by: 2,
        op: Op::Call(call),
        reply: Reply::Held(3),
    };
    write_copy(&entry, out).map_err(|_| ByteFault::NoMemory)
}

/// Appends what the message that the bytes spell is written as.
fn message_again(bytes: &[u8], out: &mut Vec<u8>) -> Result<(), ByteFault> {
    let message = read_message(*out.allocator(), bytes)?;
    write_message(&message.0, &message.1, out).map_err(|_| ByteFault::NoMemory)
}

/// The word of a fault, and its place.
fn told(fault: ByteFault) -> (&'static str, usize) {
    match fault {
        ByteFault::Cut(place) => ("cut", place),
        ByteFault::BadTag(place) => ("tag", place),
        ByteFault::OverLimit(place) => ("over", place),
        ByteFault::Unordered(place) => ("unordered", place),
        ByteFault::Doubled(place) => ("doubled", place),
        ByteFault::TotalTooLarge(place) => ("total", place),
        ByteFault::Trailing(place) => ("trailing", place),
        ByteFault::NoMemory => ("memory", 0),
    }
}

/// Prints what came of reading and writing, and whether what was written is what was read.
fn print(rt: &HostRuntime, name: &str, read: Result<(), ByteFault>, same: bool) -> Result<()> {
    match read {
        Ok(()) => {
            let word = if same { "same" } else { "other" };
            println!(rt; "{name} {word}")?;
        }
        Err(fault) => {
            let (word, place) = told(fault);
            println!(rt; "{name} {word} {place}")?;
        }
    }
    Ok(())
}

/// Prints what is said of a line.
pub(crate) fn judge(rt: &HostRuntime, line: &str) -> Result<()> {
    let mut fields = line.split(' ');
    let name = fields.next().context("a name is missing")?;
    let kind = fields.next().context("a kind is missing")?;
    let digits = fields.next().context("bytes are missing")?;
    let bytes = hex::decode(rt.alloc(), digits.trim_matches('-'))?;
    let mut written = Vec::new(rt.alloc());
    let read = if kind == "call" {
        call_again(&bytes, &mut written)
    } else {
        message_again(&bytes, &mut written)
    };
    print(rt, name, read, written == bytes)
}
