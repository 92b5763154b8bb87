//! The lines of what looks answer.

ghost use Rattle.std.specs.Prelude.{◌≡◌, ◌++◌, flat_map, length, map, IfOk, OnOk, string_bytes};
ghost use Rattle.watchtower.specs.Replay.{words_line, checkpoint_line, call_lines, look_lines, last_line, lines_text};

use crate::answering::Answer;
use call_history::{Call, top_turn};
use channel_values::{Chain, Listed, Name, NoMemory, channel_name};
use std::alloc::{AllocError, Global};

/// Lines as bytes, each with its line feed.
pub(crate) type Lines = Vec<Listed<u8>>;

fn words_line(
    alloc: Global,
    number: u32,
    client: &str,
    channel: &str,
    turn: u64,
) -> Result<String, AllocError>
    ensures { IfOk result (λ line. string_bytes line ≡ words_line number client.now channel.now turn) }
{
    format!(in alloc; "{number} {client} checkpoint {channel} {turn}\n")
}

fn checkpoint_line(
    alloc: Global,
    number: u32,
    client: &Name,
    chain: &Chain,
) -> Result<String, AllocError>
    ensures { IfOk result (λ line. string_bytes line ≡ checkpoint_line number client.now chain.now) }
{
    let client = hex::encode(alloc, client.as_slice())?;
    let channel = hex::encode(alloc, channel_name(chain.fixed.bytes()).as_slice())?;
    let turn = top_turn(chain.states.as_slice());
    words_line(alloc, number, client.as_str(), channel.as_str(), turn)
}

fn add_call(lines: &mut Lines, number: u32, client: &Name, call: &Call) -> Result<(), NoMemory>
    ensures { OnOk result (lines.new.items ≡ lines.old.items ++ call_lines number client.now call.now) }
{
    if let Call::Checkpoint { chain } = call {
        let line = checkpoint_line(*lines.allocator(), number, client, chain)?;
        lines.push(Listed::make(line.into_bytes()))?;
    }
    Ok(())
}

fn add_calls(lines: &mut Lines, number: u32, client: &Name, calls: &[Call]) -> Result<(), NoMemory>
    ensures { OnOk result (lines.new.items ≡ lines.old.items ++ flat_map (call_lines number client.now) calls.now) }
{
    for call in calls {
        add_call(lines, number, client, call)?;
    }
    Ok(())
}

/// Adds the lines of what a look answered after the entry with this number.
pub(crate) fn add_answers(
    lines: &mut Lines,
    number: u32,
    answers: &[Answer],
) -> Result<(), NoMemory>
    ensures { OnOk result (lines.new.items
        ≡ lines.old.items ++ look_lines number (map (λ t. (t.0, t.1.items)) answers.now)) }
{
    for answer in answers {
        add_calls(lines, number, &answer.0, &answer.1)?;
    }
    Ok(())
}

fn joined(alloc: Global, lines: &[Listed<u8>]) -> Result<Vec<u8>, NoMemory>
    ensures { IfOk result (λ text. text.items ≡ flat_map (λ line. line) lines.now) }
{
    let mut text = Vec::new(alloc);
    for line in lines {
        text.extend_from_slice(line.as_slice())?;
    }
    Ok(text)
}

fn last_line(
    alloc: Global,
    entries: usize,
    clients: usize,
    calls: usize,
) -> Result<String, AllocError>
    ensures { IfOk result (λ line. string_bytes line ≡ last_line entries clients calls) }
{
    format!(in alloc; "end entries {entries} clients {clients} calls {calls}\n")
}

/// The lines, one after the other, and a last one with counts.
pub(crate) fn text_of(
    alloc: Global,
    lines: &[Listed<u8>],
    entries: usize,
    clients: usize,
) -> Result<Vec<u8>, NoMemory>
    ensures { IfOk result (λ text. text.items ≡ lines_text lines.now entries clients) }
{
    let mut text = joined(alloc, lines)?;
    let last = last_line(alloc, entries, clients, lines.len())?;
    text.extend_from_slice(last.as_bytes())?;
    Ok(text)
}
