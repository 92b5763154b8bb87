//! What a line says.

ghost use Rattle.std.specs.Prelude.{◌≡◌, IfOk};
ghost use Rattle.serde_json.specs.View.{view};
ghost use Rattle.node_lines.specs.Faults.{Gives};
ghost use Rattle.node_lines.specs.Lines.{entered, message_of, tick_of, dropped_of, commanded, event_in, share_of, balance_of, plain_of, is_query, query_in, told, asked, line_in, line_of, KeepsEvent, KeepsLine, height_in, first_word, start_in, start_of};

use crate::commands::command_in;
use crate::entries::{LedgerEntry, entry_of};
use crate::faults::{Invalid, LineError};
use crate::values::{bytes_at, keys, name_at, number_at, small_at, text_at, value_of};
use channel_values::{Listed, Name};
use network::Command;
use serde_json::Value;
use std::alloc::Global;

/// One of the calls that a node gave.
#[derive(Clone, Copy, Debug, PartialEq, Eq)]
pub struct CallNumber {
    /// The number of the event that it came of.
    pub event: u32,
    /// Its place among the calls of that event, from 0.
    pub place: u32,
}

/// What happens to a node.
#[derive(Drop)]
pub enum NodeEvent {
    /// The ledger has this entry.
    Entry(LedgerEntry),
    /// These bytes came from another participant.
    Message(Listed<u8>),
    Command(Command),
    /// A tick: time for what waits.
    Tick,
    /// A call won't be entered.
    Dropped(CallNumber),
}

/// What a node is asked. No answer changes it.
#[derive(Clone, Copy, Debug, PartialEq, Eq)]
pub enum Query {
    /// Its share of an asset.
    Share(u32),
    /// What a channel holds.
    Balance(Name),
    Report,
    Plan,
    Chains,
    /// The messages that it sent.
    Resend,
}

/// What a line says.
#[derive(Drop)]
pub enum Line {
    Event(NodeEvent),
    Query(Query),
}

fn entered(alloc: Global, value: &Value) -> Result<NodeEvent, LineError>
    ensures event { Gives (λ e. e) result (entered (view value.now)) }
    ensures keeps { IfOk result KeepsEvent }
{
    let entry = entry_of(alloc, value)?;
    Ok(NodeEvent::Entry(entry))
}

fn message_of(alloc: Global, value: &Value) -> Result<NodeEvent, LineError>
    ensures event { Gives (λ e. e) result (message_of (view value.now)) }
    ensures keeps { IfOk result KeepsEvent }
{
    keys(value, 2)?;
    let bytes = bytes_at(alloc, value, "bytes")?;
    Ok(NodeEvent::Message(Listed::make(bytes)))
}

fn tick_of(value: &Value) -> Result<NodeEvent, LineError>
    ensures event { Gives (λ e. e) result (tick_of (view value.now)) }
    ensures keeps { IfOk result KeepsEvent }
{
    keys(value, 1)?;
    Ok(NodeEvent::Tick)
}

fn dropped_of(value: &Value) -> Result<NodeEvent, LineError>
    ensures event { Gives (λ e. e) result (dropped_of (view value.now)) }
    ensures keeps { IfOk result KeepsEvent }
{
    keys(value, 3)?;
    let event = small_at(value, "event")?;
    let place = small_at(value, "place")?;
    Ok(NodeEvent::Dropped(CallNumber { event, place }))
}

fn commanded(alloc: Global, word: &str, value: &Value) -> Result<NodeEvent, LineError>
    ensures event { Gives (λ e. e) result (commanded word.now (view value.now)) }
    ensures keeps { IfOk result KeepsEvent }
{
    let command = command_in(alloc, word, value)?;
    Ok(NodeEvent::Command(command))
}

fn event_in(alloc: Global, word: &str, value: &Value) -> Result<NodeEvent, LineError>
    ensures event { Gives (λ e. e) result (event_in word.now (view value.now)) }
    ensures keeps { IfOk result KeepsEvent }
{
    match word {
        "entry" => entered(alloc, value),
        "message" => message_of(alloc, value),
        "tick" => tick_of(value),
        "dropped" => dropped_of(value),
        _ => commanded(alloc, word, value),
    }
}

fn share_of(value: &Value) -> Result<Query, LineError>
    ensures { Gives (λ q. q) result (share_of (view value.now)) }
{
    keys(value, 2)?;
    let asset = small_at(value, "asset")?;
    Ok(Query::Share(asset))
}

fn balance_of(value: &Value) -> Result<Query, LineError>
    ensures { Gives (λ q. q) result (balance_of (view value.now)) }
{
    keys(value, 2)?;
    let channel = name_at(value, "channel")?;
    Ok(Query::Balance(channel))
}

fn plain_of(query: Query, value: &Value) -> Result<Query, LineError>
    ensures { Gives (λ q. q) result (plain_of query (view value.now)) }
{
    keys(value, 1)?;
    Ok(query)
}

fn is_query(word: &str) -> bool
    ensures { result ≡ is_query word.now }
{
    matches!(
        word,
        "share" | "balance" | "report" | "plan" | "chains" | "resend"
    )
}

fn query_in(word: &str, value: &Value) -> Result<Query, LineError>
    ensures { Gives (λ q. q) result (query_in word.now (view value.now)) }
{
    match word {
        "share" => share_of(value),
        "balance" => balance_of(value),
        "report" => plain_of(Query::Report, value),
        "plan" => plain_of(Query::Plan, value),
        "chains" => plain_of(Query::Chains, value),
        "resend" => plain_of(Query::Resend, value),
        _ => Err(LineError::Invalid(Invalid::Shape)),
    }
}

fn told(alloc: Global, word: &str, value: &Value) -> Result<Line, LineError>
    ensures line { Gives (λ l. l) result (told word.now (view value.now)) }
    ensures keeps { IfOk result KeepsLine }
{
    let event = event_in(alloc, word, value)?;
    Ok(Line::Event(event))
}

fn asked(word: &str, value: &Value) -> Result<Line, LineError>
    ensures line { Gives (λ l. l) result (asked word.now (view value.now)) }
    ensures keeps { IfOk result KeepsLine }
{
    let query = query_in(word, value)?;
    Ok(Line::Query(query))
}

fn line_in(alloc: Global, word: &str, value: &Value) -> Result<Line, LineError>
    ensures line { Gives (λ l. l) result (line_in word.now (view value.now)) }
    ensures keeps { IfOk result KeepsLine }
{
    if is_query(word) {
        asked(word, value)
    } else {
        told(alloc, word, value)
    }
}

/// What a line says, or the first fault. An op that is read keeps the limits of its format.
#[tactic(auto, unfolding(crate::specs::Lines::line_of))]
pub fn read_line(alloc: Global, line: &[u8]) -> Result<Line, LineError>
    ensures line { Gives (λ l. l) result (line_of line.now) }
    ensures keeps { IfOk result KeepsLine }
{
    let value = value_of(alloc, line)?;
    let word = text_at(&value, "do")?;
    line_in(alloc, word, &value)
}

/// The node's signer: the seed of its key, and the height of the key's tree.
#[derive(Clone, Copy, Debug, PartialEq, Eq)]
pub struct Start {
    pub seed: [u8; 32],
    /// 5, 10 or 15.
    pub h: u8,
}

fn height_in(number: u64) -> Result<u8, LineError>
    ensures { Gives (λ h. h) result (height_in number) }
{
    match number {
        5 => Ok(5),
        10 => Ok(10),
        15 => Ok(15),
        _ => Err(LineError::Invalid(Invalid::Limit)),
    }
}

fn first_word(word: &str) -> Result<(), LineError>
    ensures { Gives (λ _. 0) result (first_word word.now) }
{
    if word == "start" {
        Ok(())
    } else {
        Err(LineError::Invalid(Invalid::Shape))
    }
}

fn start_in(word: &str, value: &Value) -> Result<Start, LineError>
    ensures { Gives (λ s. s) result (start_in word.now (view value.now)) }
{
    first_word(word)?;
    keys(value, 3)?;
    let seed = name_at(value, "seed")?;
    let number = number_at(value, "h")?;
    let h = height_in(number)?;
    Ok(Start { seed, h })
}

/// The start that the first line says, or the first fault.
#[tactic(auto, unfolding(crate::specs::Lines::start_of))]
pub fn read_start(alloc: Global, line: &[u8]) -> Result<Start, LineError>
    ensures { Gives (λ s. s) result (start_of line.now) }
{
    let value = value_of(alloc, line)?;
    let word = text_at(&value, "do")?;
    start_in(word, &value)
}
