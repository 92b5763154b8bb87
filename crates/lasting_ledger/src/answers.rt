//! Answers and error messages.

ghost use Rattle.std.specs.Prelude.{◌≡◌, ◌<◌, ℕ, List, [], ◌∷◌, ◌++◌, length, IfOk};
ghost use Rattle.call_bytes.specs.Spelling as spelling;
ghost use Rattle.call_history.specs.declared.entry.Entry.{Entry as AnEntry};
ghost use Rattle.network.specs.Entered.{oldest_first};
ghost use Rattle.lasting_ledger.specs.Spelling.{KeepsOp, op_bytes, words_of, entry_text, entry_answer, fault_word, error_text};

use crate::events::Invalid;
use call_bytes::{put_numbered, put_reply, write_call};
use call_history::{Entry, Op, Reply};
use channel_values::NoMemory;
use report_lines::entry_line;
use std::alloc::Global;

/// The bytes of an op.
#[tactic(auto, unfolding(crate::specs::Spelling::op_bytes))]
pub(crate) fn op_bytes(alloc: Global, op: &Op) -> Result<Vec<u8>, NoMemory>
    requires { KeepsOp op.now }
    ensures { IfOk result (λ bytes. bytes.items ≡ op_bytes op.now) }
{
    let mut bytes = Vec::new(alloc);
    match op {
        Op::Call(call) => {
            bytes.push(1)?;
            write_call(call, &mut bytes)?;
        }
        Op::Time(to) => put_numbered(&mut bytes, 2, *to)?,
    }
    Ok(bytes)
}

fn reply_bytes(alloc: Global, reply: &Reply) -> Result<Vec<u8>, NoMemory>
    ensures { IfOk result (λ bytes. bytes.items ≡ spelling.reply reply.now) }
{
    let mut bytes = Vec::new(alloc);
    put_reply(&mut bytes, reply)?;
    Ok(bytes)
}

// What stands in a line after the first words and before the line feed.
#[tactic(auto, using(crate::proofs::Words::inner))]
fn inner<'l>(line: &'l [u8], front: &[u8]) -> &'l [u8]
    requires { length front.now < length line.now }
    ensures { (words : List ℕ) → line.now ≡ front.now ++ (words ++ 10 ∷ []) → result.now ≡ words }
{
    &line[front.len()..line.len() - 1]
}

// The words of an entry in a run's text, with neither its number and caller nor the line feed.
#[tactic(auto, using(crate::proofs::Words::split_line))]
fn words_of(alloc: Global, entry: &Entry) -> Result<Vec<u8>, NoMemory>
    ensures { IfOk result (λ words. words.items ≡ words_of entry.now) }
{
    let (number, by) = (entry.number, entry.by);
    let line = entry_line(alloc, &[], entry)?;
    let front = format!(in alloc; "{number} {by} ")?;
    let words = inner(line.as_bytes(), front.as_bytes());
    Ok(Vec::from_slice(alloc, words)?)
}

#[tactic(auto, unfolding(crate::specs::Spelling::entry_text))]
fn entry_text(alloc: Global, entry: &Entry, op: &[u8], words: &[u8]) -> Result<Vec<u8>, NoMemory>
    ensures { IfOk result (λ text. text.items
        ≡ entry_text entry.now.number entry.now.by op.now (spelling.reply entry.now.reply) words.now) }
{
    let reply = reply_bytes(alloc, &entry.reply)?;
    let (number, by) = (entry.number, entry.by);
    let (op, reply) = (
        hex::encode(alloc, op)?,
        hex::encode(alloc, reply.as_slice())?,
    );
    let head = format!(in alloc;
        "{{\"effect\":\"entry\",\"number\":{number},\"by\":{by},\"op\":\"{op}\",\"reply\":\"{reply}\",\"text\":\""
    )?;
    let mut text = head.into_bytes();
    text.extend_from_slice(words)?;
    text.extend_from_slice(b"\"}\n")?;
    Ok(text)
}

/// The answer for the last entry, whose op has these bytes.
pub(crate) fn newest_answer(
    alloc: Global,
    entries: &[Entry],
    op: &[u8],
) -> Result<Vec<u8>, NoMemory>
    ensures { (e : AnEntry) (past : List AnEntry) → entries.now ≡ oldest_first (e ∷ past) → op.now ≡ op_bytes e.op
        → IfOk result (λ text. text.items ≡ entry_answer e) }
{
    match entries.last() {
        None => Ok(Vec::new(alloc)),
        Some(entry) => {
            let words = words_of(alloc, entry)?;
            entry_text(alloc, entry, op, &words)
        }
    }
}

fn fault_word(fault: Invalid) -> &'static str
    ensures { result.now ≡ fault_word fault }
{
    match fault {
        Invalid::Json => "json",
        Invalid::Shape => "shape",
        Invalid::Limit => "limit",
        Invalid::Call => "call",
        Invalid::Full => "full",
    }
}

/// The message for a line that is no event.
#[tactic(auto, unfolding(crate::specs::Spelling::error_text))]
pub(crate) fn error_text(alloc: Global, fault: Invalid) -> Result<Vec<u8>, NoMemory>
    ensures { IfOk result (λ text. text.items ≡ error_text fault) }
{
    let word = fault_word(fault);
    let text = format!(in alloc; "{{\"effect\":\"error\",\"why\":\"{word}\"}}\n")?;
    Ok(text.into_bytes())
}
