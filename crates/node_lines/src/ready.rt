//! The first line of the output.

ghost use Rattle.std.specs.Prelude.{◌≡◌, IfOk, string_bytes};
ghost use Rattle.node_lines.specs.Texts.{ready_front, ready_end, ready_text};

use channel_values::{Key, Name, NoMemory};
use std::alloc::Global;

/// Where a node is when it begins to read lines.
#[derive(Clone, Copy, Debug, PartialEq, Eq)]
pub struct Ready {
    /// How many events its file has.
    pub count: u64,
    /// The mark of the last of them.
    pub mark: [u8; 32],
    /// Its person.
    pub key: Key,
    pub name: Name,
    /// How many entries it has seen.
    pub seen: u32,
    /// How many signatures it has used, of how many.
    pub used: u32,
    pub limit: u32,
    /// How many calls it has given that aren't entered yet.
    pub waits: u32,
}

// How far the file is, and whose it is.
#[tactic(auto, unfolding(crate::specs::Texts::ready_front))]
fn ready_front(alloc: Global, ready: &Ready) -> Result<String, NoMemory>
    ensures { IfOk result (λ text. string_bytes text ≡ ready_front ready.now) }
{
    let count = ready.count;
    let mark = hex::encode(alloc, &ready.mark)?;
    let key = hex::encode(alloc, &ready.key)?;
    let name = hex::encode(alloc, &ready.name)?;
    Ok(format!(in alloc;
        "{{\"effect\":\"ready\",\"n\":{count},\"mark\":\"{mark}\",\"key\":\"{key}\",\"name\":\"{name}\","
    )?)
}

#[tactic(auto, unfolding(crate::specs::Texts::ready_end))]
fn ready_end(alloc: Global, ready: &Ready) -> Result<String, NoMemory>
    ensures { IfOk result (λ text. string_bytes text ≡ ready_end ready.now) }
{
    let (seen, used) = (ready.seen, ready.used);
    let (limit, waits) = (ready.limit, ready.waits);
    Ok(format!(in alloc;
        "\"seen\":{seen},\"used\":{used},\"limit\":{limit},\"waits\":{waits}}}\n"
    )?)
}

/// The line before the first answer.
pub fn ready_text(alloc: Global, ready: &Ready) -> Result<Vec<u8>, NoMemory>
    ensures { IfOk result (λ text. text.items ≡ ready_text ready.now) }
{
    let front = ready_front(alloc, ready)?;
    let end = ready_end(alloc, ready)?;
    let mut text = front.into_bytes();
    text.extend_from_slice(end.as_bytes())?;
    Ok(text)
}
