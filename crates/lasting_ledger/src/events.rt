//! What a line asks of the ledger.

ghost use Rattle.std.specs.Prelude.{◌≡◌, IfOk};
ghost use Rattle.serde_json.specs.View.{view};
ghost use Rattle.lasting_ledger.specs.Events.{Gives, value_of, keys, text_at, number_at, bytes_of, call_in, call_in_digits, caller_of, enter_of, time_of, event_in, event_of};
ghost use Rattle.lasting_ledger.specs.Spelling.{KeepsOp};
ghost use Rattle.call_history.specs.Limits.{KeepsCall};
ghost use Rattle.lasting_ledger.specs.declared.events.EventError.TheVariants.{NoMemory as NoMemoryLeft};

use call_bytes::read_call;
use call_history::{Call, Op};
use channel_values::ByteFault;
use hex::FromHexError;
use serde_json::Value;
use std::alloc::{AllocError, Global};

/// An op to enter, and the caller's number.
#[derive(Drop)]
pub struct Event {
    pub by: u32,
    pub op: Op,
}

/// Why a line is no event. The first of these that applies is reported.
#[derive(Clone, Copy, Debug, PartialEq, Eq)]
pub enum Invalid {
    /// It is no JSON text.
    Json,
    /// It is no object, `do` has no word of an event, or a key of the event is missing, is extra or has another kind
    /// of value.
    Shape,
    /// The caller's number has more than 32 bits.
    Limit,
    /// The digits are not the canonical bytes of a call.
    Call,
    /// The ledger can't have more entries.
    Full,
}

/// Why no event was read.
#[derive(Clone, Copy, Debug, PartialEq, Eq)]
pub enum EventError {
    NoMemory,
    Invalid(Invalid),
}

impl From<AllocError> for EventError {
    ghost from_gives = { λ _ e. e ≡ NoMemoryLeft };

    fn from(_: AllocError) -> EventError {
        EventError::NoMemory
    }
}

fn value_of(alloc: Global, line: &[u8]) -> Result<Value, EventError>
    ensures { Gives (λ v. view v) result (value_of line.now) }
{
    match Value::from_slice(alloc, line) {
        Ok(value) => Ok(value),
        Err(error) if error.is_memory() => Err(EventError::NoMemory),
        Err(_) => Err(EventError::Invalid(Invalid::Json)),
    }
}

// Tests that the value is an object of so many keys.
#[tactic(auto, using(crate::proofs::Values::member_count_view))]
fn keys(value: &Value, count: usize) -> Result<(), EventError>
    ensures { Gives (λ _. 0) result (keys count (view value.now)) }
{
    match value.as_object() {
        Some(members) if members.len() == count => Ok(()),
        _ => Err(EventError::Invalid(Invalid::Shape)),
    }
}

fn text_at<'v>(value: &'v Value, key: &str) -> Result<&'v str, EventError>
    ensures { Gives (λ text. text.now) result (text_at key.now (view value.now)) }
{
    match value.get(key).and_then(Value::as_str) {
        Some(text) => Ok(text),
        None => Err(EventError::Invalid(Invalid::Shape)),
    }
}

fn number_at(value: &Value, key: &str) -> Result<u64, EventError>
    ensures { Gives (λ number. number) result (number_at key.now (view value.now)) }
{
    match value.get(key).and_then(Value::as_u64) {
        Some(number) => Ok(number),
        None => Err(EventError::Invalid(Invalid::Shape)),
    }
}

fn bytes_of(alloc: Global, digits: &str) -> Result<Vec<u8>, EventError>
    ensures { Gives (λ bytes. bytes.items) result (bytes_of digits.now) }
{
    match hex::decode(alloc, digits) {
        Ok(bytes) => Ok(bytes),
        Err(FromHexError::OutOfMemory) => Err(EventError::NoMemory),
        Err(_) => Err(EventError::Invalid(Invalid::Call)),
    }
}

fn call_in(alloc: Global, bytes: &[u8]) -> Result<Call, EventError>
    ensures call { Gives (λ call. call) result (call_in bytes.now) }
    ensures keeps { IfOk result KeepsCall }
{
    match read_call(alloc, bytes) {
        Ok(call) => Ok(call),
        Err(ByteFault::NoMemory) => Err(EventError::NoMemory),
        Err(_) => Err(EventError::Invalid(Invalid::Call)),
    }
}

fn call_in_digits(alloc: Global, digits: &str) -> Result<Call, EventError>
    ensures call { Gives (λ call. call) result (call_in_digits digits.now) }
    ensures keeps { IfOk result KeepsCall }
{
    let bytes = bytes_of(alloc, digits)?;
    call_in(alloc, &bytes)
}

fn caller_of(number: u64) -> Result<u32, EventError>
    ensures { Gives (λ by. by) result (caller_of number) }
{
    match u32::try_from(number) {
        Ok(by) => Ok(by),
        Err(_) => Err(EventError::Invalid(Invalid::Limit)),
    }
}

fn enter_of(alloc: Global, value: &Value) -> Result<Event, EventError>
    ensures event { Gives (λ event. event) result (enter_of (view value.now)) }
    ensures keeps { IfOk result (λ event. KeepsOp event.op) }
{
    keys(value, 3)?;
    let number = number_at(value, "by")?;
    let digits = text_at(value, "call")?;
    let by = caller_of(number)?;
    let call = call_in_digits(alloc, digits)?;
    Ok(Event {
        by,
        op: Op::Call(call),
    })
}

fn time_of(value: &Value) -> Result<Event, EventError>
    ensures event { Gives (λ event. event) result (time_of (view value.now)) }
    ensures keeps { IfOk result (λ event. KeepsOp event.op) }
{
    keys(value, 2)?;
    let to = number_at(value, "to")?;
    Ok(Event {
        by: 0,
        op: Op::Time(to),
    })
}

fn event_in(alloc: Global, word: &str, value: &Value) -> Result<Event, EventError>
    ensures event { Gives (λ event. event) result (event_in word.now (view value.now)) }
    ensures keeps { IfOk result (λ event. KeepsOp event.op) }
{
    match word {
        "enter" => enter_of(alloc, value),
        "time" => time_of(value),
        _ => Err(EventError::Invalid(Invalid::Shape)),
    }
}

/// The event that a line is, or the first fault. A call that is read keeps the limits of its format.
#[tactic(auto, unfolding(crate::specs::Events::event_of))]
pub fn read_event(alloc: Global, line: &[u8]) -> Result<Event, EventError>
    ensures event { Gives (λ event. event) result (event_of line.now) }
    ensures keeps { IfOk result (λ event. KeepsOp event.op) }
{
    let value = value_of(alloc, line)?;
    let word = text_at(&value, "do")?;
    event_in(alloc, word, &value)
}
