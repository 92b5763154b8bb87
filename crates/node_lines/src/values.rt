//! JSON values by their kinds.

ghost use Rattle.std.specs.Prelude.{◌≡◌};
ghost use Rattle.std.specs.List.{list_all};
ghost use Rattle.serde_json.specs.View.{view, items_view};
ghost use Rattle.node_lines.specs.Faults.{Gives};
ghost use Rattle.node_lines.specs.Values.{value_of, keys, value_at, array_of, two_in, two_of, array_at, number_of, number_at, small_at, amounts_at, text_of, text_at, is_digit, bytes_in, bytes_at, array_in, name_of, name_at, names_at, key_of};

use crate::faults::{Invalid, LineError};
use channel_values::{Key, Name};
use hex::{FromHex, FromHexError};
use serde_json::Value;
use std::alloc::Global;

/// The JSON value of a line.
pub(crate) fn value_of(alloc: Global, line: &[u8]) -> Result<Value, LineError>
    ensures { Gives (λ v. view v) result (value_of line.now) }
{
    match Value::from_slice(alloc, line) {
        Ok(value) => Ok(value),
        Err(error) if error.is_memory() => Err(LineError::NoMemory),
        Err(_) => Err(LineError::Invalid(Invalid::Json)),
    }
}

/// Tests that the value is an object of so many keys.
#[tactic(auto, using(crate::proofs::Json::member_count_view))]
pub(crate) fn keys(value: &Value, count: usize) -> Result<(), LineError>
    ensures { Gives (λ _. 0) result (keys count (view value.now)) }
{
    match value.as_object() {
        Some(members) if members.len() == count => Ok(()),
        _ => Err(LineError::Invalid(Invalid::Shape)),
    }
}

/// The value at the key.
pub(crate) fn value_at<'v>(value: &'v Value, key: &str) -> Result<&'v Value, LineError>
    ensures { Gives (λ v. view v.now) result (value_at key.now (view value.now)) }
{
    match value.get(key) {
        Some(found) => Ok(found),
        None => Err(LineError::Invalid(Invalid::Shape)),
    }
}

/// The items of the array that the value is.
pub(crate) fn array_of(value: &Value) -> Result<&[Value], LineError>
    ensures { Gives (λ v. items_view v.now) result (array_of (view value.now)) }
{
    match value.as_array() {
        Some(values) => Ok(values.as_slice()),
        None => Err(LineError::Invalid(Invalid::Shape)),
    }
}

#[tactic(auto, using(crate::proofs::Two::short, crate::proofs::Two::long))]
fn two_in(values: &[Value]) -> Result<(&Value, &Value), LineError>
    ensures { Gives (λ p. (view p.0.now, view p.1.now)) result (two_in (items_view values.now)) }
{
    match values {
        [first, second] => Ok((first, second)),
        _ => Err(LineError::Invalid(Invalid::Shape)),
    }
}

/// The items of the array of two that the value is.
pub(crate) fn two_of(value: &Value) -> Result<(&Value, &Value), LineError>
    ensures { Gives (λ p. (view p.0.now, view p.1.now)) result (two_of (view value.now)) }
{
    let values = array_of(value)?;
    two_in(values)
}

/// The items of the array at the key.
pub(crate) fn array_at<'v>(value: &'v Value, key: &str) -> Result<&'v [Value], LineError>
    ensures { Gives (λ v. items_view v.now) result (array_at key.now (view value.now)) }
{
    let found = value_at(value, key)?;
    array_of(found)
}

/// The number from 0 to 2^64-1 that the value is.
pub(crate) fn number_of(value: &Value) -> Result<u64, LineError>
    ensures { Gives (λ n. n) result (number_of (view value.now)) }
{
    match value.as_u64() {
        Some(number) => Ok(number),
        None => Err(LineError::Invalid(Invalid::Shape)),
    }
}

/// The number from 0 to 2^64-1 at the key.
pub(crate) fn number_at(value: &Value, key: &str) -> Result<u64, LineError>
    ensures { Gives (λ n. n) result (number_at key.now (view value.now)) }
{
    let found = value_at(value, key)?;
    number_of(found)
}

/// The number of 32 bits at the key.
pub(crate) fn small_at(value: &Value, key: &str) -> Result<u32, LineError>
    ensures { Gives (λ n. n) result (small_at key.now (view value.now)) }
{
    let number = number_at(value, key)?;
    match u32::try_from(number) {
        Ok(small) => Ok(small),
        Err(_) => Err(LineError::Invalid(Invalid::Limit)),
    }
}

/// The two numbers that the array at the key holds.
pub(crate) fn amounts_at(value: &Value, key: &str) -> Result<(u64, u64), LineError>
    ensures { Gives (λ p. p) result (amounts_at key.now (view value.now)) }
{
    let found = value_at(value, key)?;
    let (first, second) = two_of(found)?;
    let first = number_of(first)?;
    let second = number_of(second)?;
    Ok((first, second))
}

/// The text that the value is.
pub(crate) fn text_of(value: &Value) -> Result<&str, LineError>
    ensures { Gives (λ t. t.now) result (text_of (view value.now)) }
{
    match value.as_str() {
        Some(text) => Ok(text),
        None => Err(LineError::Invalid(Invalid::Shape)),
    }
}

/// The text at the key.
pub(crate) fn text_at<'v>(value: &'v Value, key: &str) -> Result<&'v str, LineError>
    ensures { Gives (λ t. t.now) result (text_at key.now (view value.now)) }
{
    let found = value_at(value, key)?;
    text_of(found)
}

fn is_digit(b: u8) -> bool
    ensures { result ≡ is_digit b }
{
    matches!(b, b'0'..=b'9' | b'a'..=b'f')
}

fn are_digits(bytes: &[u8]) -> bool
    ensures { result ≡ list_all is_digit bytes.now }
{
    bytes.iter().all(|b| is_digit(*b))
}

fn bytes_in(alloc: Global, digits: &str) -> Result<Vec<u8>, LineError>
    ensures { Gives (λ bytes. bytes.items) result (bytes_in digits.now) }
{
    if !are_digits(digits.as_bytes()) {
        return Err(LineError::Invalid(Invalid::Bytes));
    }
    match hex::decode(alloc, digits) {
        Ok(bytes) => Ok(bytes),
        Err(FromHexError::OutOfMemory) => Err(LineError::NoMemory),
        Err(_) => Err(LineError::Invalid(Invalid::Bytes)),
    }
}

/// The bytes that the digits at the key spell.
pub(crate) fn bytes_at(alloc: Global, value: &Value, key: &str) -> Result<Vec<u8>, LineError>
    ensures { Gives (λ bytes. bytes.items) result (bytes_at key.now (view value.now)) }
{
    let digits = text_at(value, key)?;
    bytes_in(alloc, digits)
}

/// The 32 bytes that 64 digits spell.
pub(crate) fn name_in(digits: &str) -> Result<Name, LineError>
    ensures { Gives (λ n. n) result (array_in 32 digits.now) }
{
    if !are_digits(digits.as_bytes()) {
        return Err(LineError::Invalid(Invalid::Bytes));
    }
    match <[u8; 32] as FromHex>::from_hex(digits).ok() {
        Some(name) => Ok(name),
        None => Err(LineError::Invalid(Invalid::Bytes)),
    }
}

/// The 56 bytes that 112 digits spell.
pub(crate) fn key_in(digits: &str) -> Result<Key, LineError>
    ensures { Gives (λ k. k) result (array_in 56 digits.now) }
{
    if !are_digits(digits.as_bytes()) {
        return Err(LineError::Invalid(Invalid::Bytes));
    }
    match <[u8; 56] as FromHex>::from_hex(digits).ok() {
        Some(key) => Ok(key),
        None => Err(LineError::Invalid(Invalid::Bytes)),
    }
}

fn name_of(value: &Value) -> Result<Name, LineError>
    ensures { Gives (λ n. n) result (name_of (view value.now)) }
{
    let digits = text_of(value)?;
    name_in(digits)
}

/// The 32 bytes that the 64 digits at the key spell.
pub(crate) fn name_at(value: &Value, key: &str) -> Result<Name, LineError>
    ensures { Gives (λ n. n) result (name_at key.now (view value.now)) }
{
    let found = value_at(value, key)?;
    name_of(found)
}

/// The two names that the array at the key holds.
pub(crate) fn names_at(value: &Value, key: &str) -> Result<(Name, Name), LineError>
    ensures { Gives (λ p. p) result (names_at key.now (view value.now)) }
{
    let found = value_at(value, key)?;
    let (first, second) = two_of(found)?;
    let first = name_of(first)?;
    let second = name_of(second)?;
    Ok((first, second))
}

/// The public key that the value is.
pub(crate) fn key_of(value: &Value) -> Result<Key, LineError>
    ensures { Gives (λ k. k) result (key_of (view value.now)) }
{
    let digits = text_of(value)?;
    key_in(digits)
}
