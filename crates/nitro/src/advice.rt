//! What is wrong with the keys of a step. It is only printed on standard error, and nothing of it is proved.

use channel_values::NoMemory;
use serde_json::Value;
use std::alloc::Global;

/// The keys of a step's form besides `do`.
fn keys_of(word: &str) -> Option<&'static str> {
    match word {
        "deposit" => Some("channel asset expected amount"),
        "time" => Some("to"),
        "person" => Some("name seed h node watchers"),
        "channel" => Some("name people nonce app duration"),
        "sign" => Some("name channel by turn final outcome votes proposal"),
        "challenge" => Some("channel chain by"),
        "respond" => Some("channel from state"),
        "refute" => Some("channel state"),
        "checkpoint" | "conclude" => Some("channel chain"),
        "transfer" => Some("channel state asset index"),
        "claim" => Some("guarantor state target target_state asset position"),
        "open" => Some("who channel outcome"),
        "open_on" => Some("who ledger channel asset amounts"),
        "open_virtual" => Some("who ledgers guarantors joint channel asset amounts"),
        "pay" => Some("who channel asset amount"),
        "close" | "settle" | "abandon" | "resend" => Some("who channel"),
        "exit" => Some("who"),
        "rounds" => Some("count"),
        "catch" => Some("name from channel turn"),
        "send" => Some("to state"),
        "drop" => Some("to"),
        _ => None,
    }
}

fn has_key(keys: &str, key: &str) -> bool {
    for one in keys.split(' ') {
        if one == key {
            return true;
        }
    }
    false
}

/// The step of this number, from 1.
fn step_of(script: &Value, number: u32) -> Option<&Value> {
    let steps = script.get("steps").and_then(Value::as_array)?;
    let place = number.checked_sub(1)?;
    steps.as_slice().get(place as usize)
}

/// Adds the keys that a step lacks, and those that its form doesn't have.
fn push_faults(out: &mut String, step: &Value, keys: &str) -> Result<(), NoMemory> {
    for key in keys.split(' ') {
        if step.get(key).is_none() {
            out.push_str(" no key \"")?;
            out.push_str(key)?;
            out.push_str("\",")?;
        }
    }
    if let Some(members) = step.as_object() {
        for key in members.keys() {
            if key.as_str() != "do" && !has_key(keys, key.as_str()) {
                out.push_str(" unknown key \"")?;
                out.push_str(key.as_str())?;
                out.push_str("\",")?;
            }
        }
    }
    Ok(())
}

/// What is wrong with the keys of a step.
fn fault_of(alloc: Global, step: &Value) -> Result<Option<String>, NoMemory> {
    let mut out = String::new(alloc);
    let Some(word) = step.get("do").and_then(Value::as_str) else {
        out.push_str(": no key \"do\" with a word")?;
        return Ok(Some(out));
    };
    let Some(keys) = keys_of(word) else {
        out.push_str(": unknown word \"")?;
        out.push_str(word)?;
        out.push_str("\"")?;
        return Ok(Some(out));
    };
    out.push_str(" (")?;
    out.push_str(word)?;
    out.push_str("):")?;
    let length = out.len();
    push_faults(&mut out, step, keys)?;
    if out.len() == length {
        return Ok(None);
    }
    out.push_str(" wanted: do ")?;
    out.push_str(keys)?;
    Ok(Some(out))
}

/// What is wrong with the keys of the step of this number in a script, if that can be said.
pub(crate) fn key_fault(
    alloc: Global,
    script: &[u8],
    number: u32,
) -> Result<Option<String>, NoMemory> {
    let Ok(text) = str::from_utf8(script) else {
        return Ok(None);
    };
    let Ok(script) = Value::from_str(alloc, text) else {
        return Ok(None);
    };
    let fault = match step_of(&script, number) {
        Some(step) => fault_of(alloc, step),
        None => Ok(None),
    };
    drop(script);
    fault
}
