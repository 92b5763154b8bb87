//! The effects of an event.

ghost use Rattle.std.specs.Prelude.{◌≡◌, IfOk, string_bytes};
ghost use Rattle.std.specs.List.{flat_map, All};
ghost use Rattle.call_history.specs.Limits.{KeepsCall};
ghost use Rattle.node_lines.specs.Texts.{KeepsEffect, send_text, call_front, call_effect_text, took_text, channel_amount_text, refused_text, spent_text, challenged_text, final_text, deadline_text, effect_text};

use crate::calls::{call_digits, call_words};
use crate::refusals::{refusal_name, refusal_number};
use call_history::{Call, NodeRefusal};
use channel_values::{Listed, Name, NoMemory};
use report_lines::node_refusal_text;
use std::alloc::Global;

/// What comes of an event.
#[derive(Drop)]
pub enum Effect {
    /// A message to carry to a person.
    Send {
        to: Name,
        bytes: Listed<u8>,
    },
    /// A call to enter; `place` counts the calls of the event from 0.
    Call {
        place: u32,
        call: Call,
    },
    /// A message was taken: the channel then has a state of this turn.
    Took {
        channel: Name,
        turn: u64,
    },
    /// What the other person paid by a message, of one asset.
    Gained {
        channel: Name,
        asset: u32,
        amount: u64,
    },
    /// Why the node doesn't obey a command, or doesn't take a message.
    Refused(NodeRefusal),
    /// A signature was needed, and the key has signed this often.
    Spent(u32),
    /// A channel is challenged, up to this time.
    Challenged {
        channel: Name,
        until: u64,
    },
    /// A channel is final.
    Final {
        channel: Name,
    },
    /// What a channel paid to the node's person, of one asset.
    Paid {
        channel: Name,
        asset: u32,
        amount: u64,
    },
    /// When the next challenge of one of the node's channels ends.
    Deadline(u64),
}

#[tactic(auto, unfolding(crate::specs::Texts::send_text))]
fn send_text(alloc: Global, event: u32, to: &Name, bytes: &[u8]) -> Result<Vec<u8>, NoMemory>
    ensures { IfOk result (λ text. text.items ≡ send_text event to.now bytes.now) }
{
    let to = hex::encode(alloc, to)?;
    let bytes = hex::encode(alloc, bytes)?;
    let text = format!(in alloc;
        "{{\"effect\":\"send\",\"event\":{event},\"to\":\"{to}\",\"bytes\":\"{bytes}\"}}\n"
    )?;
    Ok(text.into_bytes())
}

#[tactic(auto, unfolding(crate::specs::Texts::call_front))]
fn call_front(alloc: Global, event: u32, place: u32, call: &Call) -> Result<String, NoMemory>
    requires { KeepsCall call.now }
    ensures { IfOk result (λ text. string_bytes text ≡ call_front event place call.now) }
{
    let digits = call_digits(alloc, call)?;
    Ok(format!(in alloc;
        "{{\"effect\":\"call\",\"event\":{event},\"place\":{place},\"call\":\"{digits}\",\"text\":\""
    )?)
}

fn call_text(alloc: Global, event: u32, place: u32, call: &Call) -> Result<Vec<u8>, NoMemory>
    requires { KeepsCall call.now }
    ensures { IfOk result (λ text. text.items ≡ call_effect_text event place call.now) }
{
    let front = call_front(alloc, event, place, call)?;
    let words = call_words(alloc, call)?;
    let mut text = front.into_bytes();
    text.extend_from_slice(&words)?;
    text.extend_from_slice(b"\"}\n")?;
    Ok(text)
}

#[tactic(auto, unfolding(crate::specs::Texts::took_text))]
fn took_text(alloc: Global, event: u32, channel: &Name, turn: u64) -> Result<Vec<u8>, NoMemory>
    ensures { IfOk result (λ text. text.items ≡ took_text event channel.now turn) }
{
    let channel = hex::encode(alloc, channel)?;
    let text = format!(in alloc;
        "{{\"effect\":\"took\",\"event\":{event},\"channel\":\"{channel}\",\"turn\":{turn}}}\n"
    )?;
    Ok(text.into_bytes())
}

// What a channel brings the node's person, with a word for how.
#[tactic(auto, unfolding(crate::specs::Texts::channel_amount_text))]
fn amount_text(
    alloc: Global,
    word: &str,
    event: u32,
    channel: &Name,
    asset: u32,
    amount: u64,
) -> Result<Vec<u8>, NoMemory>
    ensures { IfOk result (λ text. text.items ≡ channel_amount_text word.now event channel.now asset amount) }
{
    let channel = hex::encode(alloc, channel)?;
    let text = format!(in alloc;
        "{{\"effect\":\"{word}\",\"event\":{event},\"channel\":\"{channel}\",\"asset\":{asset},\"amount\":{amount}}}\n"
    )?;
    Ok(text.into_bytes())
}

#[tactic(auto, unfolding(crate::specs::Texts::refused_text))]
fn refused_text(alloc: Global, event: u32, refusal: &NodeRefusal) -> Result<Vec<u8>, NoMemory>
    ensures { IfOk result (λ text. text.items ≡ refused_text event refusal.now) }
{
    let number = refusal_number(refusal);
    let name = refusal_name(refusal);
    let words = node_refusal_text(alloc, &[], refusal)?;
    let text = format!(in alloc;
        "{{\"effect\":\"refused\",\"event\":{event},\"number\":{number},\"name\":\"{name}\",\"text\":\"{words}\"}}\n"
    )?;
    Ok(text.into_bytes())
}

#[tactic(auto, unfolding(crate::specs::Texts::spent_text))]
fn spent_text(alloc: Global, event: u32, used: u32) -> Result<Vec<u8>, NoMemory>
    ensures { IfOk result (λ text. text.items ≡ spent_text event used) }
{
    let text = format!(in alloc; "{{\"effect\":\"spent\",\"event\":{event},\"used\":{used}}}\n")?;
    Ok(text.into_bytes())
}

#[tactic(auto, unfolding(crate::specs::Texts::challenged_text))]
fn challenged_text(
    alloc: Global,
    event: u32,
    channel: &Name,
    until: u64,
) -> Result<Vec<u8>, NoMemory>
    ensures { IfOk result (λ text. text.items ≡ challenged_text event channel.now until) }
{
    let channel = hex::encode(alloc, channel)?;
    let text = format!(in alloc;
        "{{\"effect\":\"challenged\",\"event\":{event},\"channel\":\"{channel}\",\"until\":{until}}}\n"
    )?;
    Ok(text.into_bytes())
}

#[tactic(auto, unfolding(crate::specs::Texts::final_text))]
fn final_text(alloc: Global, event: u32, channel: &Name) -> Result<Vec<u8>, NoMemory>
    ensures { IfOk result (λ text. text.items ≡ final_text event channel.now) }
{
    let channel = hex::encode(alloc, channel)?;
    let text = format!(in alloc;
        "{{\"effect\":\"final\",\"event\":{event},\"channel\":\"{channel}\"}}\n"
    )?;
    Ok(text.into_bytes())
}

#[tactic(auto, unfolding(crate::specs::Texts::deadline_text))]
fn deadline_text(alloc: Global, event: u32, time: u64) -> Result<Vec<u8>, NoMemory>
    ensures { IfOk result (λ text. text.items ≡ deadline_text event time) }
{
    let text = format!(in alloc;
        "{{\"effect\":\"deadline\",\"event\":{event},\"time\":{time}}}\n"
    )?;
    Ok(text.into_bytes())
}

/// The line of an effect of the event with this number.
pub fn effect_text(alloc: Global, event: u32, effect: &Effect) -> Result<Vec<u8>, NoMemory>
    requires { KeepsEffect effect.now }
    ensures { IfOk result (λ text. text.items ≡ effect_text event effect.now) }
{
    match effect {
        Effect::Send { to, bytes } => send_text(alloc, event, to, bytes.as_slice()),
        Effect::Call { place, call } => call_text(alloc, event, *place, call),
        Effect::Took { channel, turn } => took_text(alloc, event, channel, *turn),
        Effect::Gained {
            channel,
            asset,
            amount,
        } => amount_text(alloc, "gained", event, channel, *asset, *amount),
        Effect::Refused(refusal) => refused_text(alloc, event, refusal),
        Effect::Spent(used) => spent_text(alloc, event, *used),
        Effect::Challenged { channel, until } => challenged_text(alloc, event, channel, *until),
        Effect::Final { channel } => final_text(alloc, event, channel),
        Effect::Paid {
            channel,
            asset,
            amount,
        } => amount_text(alloc, "paid", event, channel, *asset, *amount),
        Effect::Deadline(time) => deadline_text(alloc, event, *time),
    }
}

/// The lines of all effects of the event with this number.
pub fn effect_lines(alloc: Global, event: u32, effects: &[Effect]) -> Result<Vec<u8>, NoMemory>
    requires { All KeepsEffect effects.now }
    ensures { IfOk result (λ text. text.items ≡ flat_map (effect_text event) effects.now) }
{
    let mut text = Vec::new(alloc);
    for effect in effects {
        let line = effect_text(alloc, event, effect)?;
        text.extend_from_slice(&line)?;
    }
    Ok(text)
}
