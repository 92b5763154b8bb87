//! Reads the values of a step's keys by their kinds.

ghost use Rattle.std.specs.Prelude.{◌≡◌, [], option_map};
ghost use Rattle.std.specs.List.{list_all};
ghost use Rattle.serde_json.specs.View.{view, items_view};
ghost use Rattle.script_steps.specs.Rules.{Gives};
ghost use Rattle.script_reader.specs.Kinds.{has_keys, keys, text_in, word_at, number_of, number_at, flag_at, many_in, is_letter, is_name_byte, is_name, name_of, name_at, names_at, numbers_at, place_at, array_at, seed_of, seed_at, app_of, app_at};

use channel_values::{Label, Listed};
use hex::FromHex;
use script_steps::{Rule, StepFault, is_hex};
use serde_json::Value;
use std::alloc::Global;

/// Whether the value is an object of so many keys.
#[tactic(auto, using(crate::proofs::Counts::member_count_view))]
pub fn has_keys(value: &Value, count: usize) -> bool
    ensures { result ≡ has_keys (view value.now) count }
{
    match value.as_object() {
        Some(members) => members.len() == count,
        None => false,
    }
}

/// Tests that the value is an object of so many keys.
pub fn keys(value: &Value, count: usize) -> Result<(), StepFault>
    ensures { Gives (λ _. 0) result (keys count (view value.now)) }
{
    if !has_keys(value, count) {
        return Err(StepFault::Broken(Rule::Shape));
    }
    Ok(())
}

fn text_in<'v>(value: &'v Value, key: &str) -> Option<&'v str>
    ensures { option_map (λ s. s.now) result ≡ text_in key.now (view value.now) }
{
    value.get(key).and_then(Value::as_str)
}

/// The text at `do`.
pub fn word_at(value: &Value) -> Result<&str, StepFault>
    ensures { Gives (λ s. s.now) result (word_at (view value.now)) }
{
    match text_in(value, "do") {
        Some(word) => Ok(word),
        None => Err(StepFault::Broken(Rule::Shape)),
    }
}

/// The number from 0 to 2^64-1 that the value is.
pub fn number_of(value: &Value) -> Result<u64, StepFault>
    ensures { Gives (λ n. n) result (number_of (view value.now)) }
{
    match value.as_u64() {
        Some(number) => Ok(number),
        None => Err(StepFault::Broken(Rule::Shape)),
    }
}

/// The number from 0 to 2^64-1 at the key.
pub fn number_at(value: &Value, key: &str) -> Result<u64, StepFault>
    ensures { Gives (λ n. n) result (number_at key.now (view value.now)) }
{
    match value.get(key).and_then(Value::as_u64) {
        Some(number) => Ok(number),
        None => Err(StepFault::Broken(Rule::Shape)),
    }
}

/// The true or false at the key.
pub fn flag_at(value: &Value, key: &str) -> Result<bool, StepFault>
    ensures { Gives (λ b. b) result (flag_at key.now (view value.now)) }
{
    match value.get(key).and_then(Value::as_bool) {
        Some(flag) => Ok(flag),
        None => Err(StepFault::Broken(Rule::Shape)),
    }
}

/// The items of the array at the key.
pub fn array_at<'v>(value: &'v Value, key: &str) -> Result<&'v [Value], StepFault>
    ensures { Gives (λ v. items_view v.now) result (array_at key.now (view value.now)) }
{
    match value.get(key).and_then(Value::as_array) {
        Some(values) => Ok(values.as_slice()),
        None => Err(StepFault::Broken(Rule::Shape)),
    }
}

fn is_letter(b: u8) -> bool
    ensures { result ≡ is_letter b }
{
    matches!(b, b'A'..=b'Z' | b'a'..=b'z')
}

fn is_name_byte(b: u8) -> bool
    ensures { result ≡ is_name_byte b }
{
    is_letter(b) || matches!(b, b'0'..=b'9') || b == b'_'
}

fn are_name_bytes(bytes: &[u8]) -> bool
    ensures { result ≡ list_all is_name_byte bytes.now }
{
    bytes.iter().all(|b| is_name_byte(*b))
}

fn is_name(text: &str) -> bool
    ensures { result ≡ is_name text.now }
{
    match text.as_bytes() {
        [] => false,
        [first, rest @ ..] => is_letter(*first) && rest.len() <= 15 && are_name_bytes(rest),
    }
}

/// The name, or the 64 digits, at the key.
pub fn place_at(alloc: Global, value: &Value, key: &str) -> Result<Label, StepFault>
    ensures { Gives (λ l. l) result (place_at key.now (view value.now)) }
{
    match text_in(value, key) {
        Some(text) if is_name(text) || is_hex(text) => {
            Ok(Label::make(String::from_str(alloc, text)?))
        }
        _ => Err(StepFault::Broken(Rule::Shape)),
    }
}

/// The name that the value is.
pub fn name_of(alloc: Global, value: &Value) -> Result<Label, StepFault>
    ensures { Gives (λ l. l) result (name_of (view value.now)) }
{
    match value.as_str() {
        Some(text) if is_name(text) => Ok(Label::make(String::from_str(alloc, text)?)),
        _ => Err(StepFault::Broken(Rule::Shape)),
    }
}

/// The name at the key.
pub fn name_at(alloc: Global, value: &Value, key: &str) -> Result<Label, StepFault>
    ensures { Gives (λ l. l) result (name_at key.now (view value.now)) }
{
    match text_in(value, key) {
        Some(text) if is_name(text) => Ok(Label::make(String::from_str(alloc, text)?)),
        _ => Err(StepFault::Broken(Rule::Shape)),
    }
}

#[tactic(auto, using(crate::proofs::Many::goes_on, crate::proofs::Many::stops))]
fn names_in(alloc: Global, values: &[Value]) -> Result<Listed<Label>, StepFault>
    ensures { Gives (λ l. l) result (many_in name_of [] (items_view values.now)) }
{
    let mut names = Listed::make(Vec::new(alloc));
    for value in values {
        let name = name_of(alloc, value)?;
        names.push(name)?;
    }
    Ok(names)
}

/// The names that the array at the key holds.
pub fn names_at(alloc: Global, value: &Value, key: &str) -> Result<Listed<Label>, StepFault>
    ensures { Gives (λ l. l) result (names_at key.now (view value.now)) }
{
    let values = array_at(value, key)?;
    names_in(alloc, values)
}

#[tactic(auto, using(crate::proofs::Many::goes_on, crate::proofs::Many::stops))]
fn numbers_in(alloc: Global, values: &[Value]) -> Result<Listed<u64>, StepFault>
    ensures { Gives (λ l. l) result (many_in number_of [] (items_view values.now)) }
{
    let mut numbers = Listed::make(Vec::new(alloc));
    for value in values {
        let number = number_of(value)?;
        numbers.push(number)?;
    }
    Ok(numbers)
}

/// The numbers that the array at the key holds.
pub fn numbers_at(alloc: Global, value: &Value, key: &str) -> Result<Listed<u64>, StepFault>
    ensures { Gives (λ l. l) result (numbers_at key.now (view value.now)) }
{
    let values = array_at(value, key)?;
    numbers_in(alloc, values)
}

fn seed_of(text: &str) -> Result<[u8; 32], StepFault>
    ensures { Gives (λ s. s) result (seed_of text.now) }
{
    if !is_hex(text) {
        return Err(StepFault::Broken(Rule::Shape));
    }
    match <[u8; 32] as FromHex>::from_hex(text).ok() {
        Some(seed) => Ok(seed),
        None => Err(StepFault::Broken(Rule::Shape)),
    }
}

/// The 32 bytes that the 64 digits at the key spell.
pub fn seed_at(value: &Value, key: &str) -> Result<[u8; 32], StepFault>
    ensures { Gives (λ s. s) result (seed_at key.now (view value.now)) }
{
    match text_in(value, key) {
        Some(text) => seed_of(text),
        None => Err(StepFault::Broken(Rule::Shape)),
    }
}

fn app_of(text: &str) -> Result<u8, StepFault>
    ensures { Gives (λ n. n) result (app_of text.now) }
{
    match text {
        "consensus" => Ok(0),
        "payment" => Ok(1),
        "fixed" => Ok(2),
        _ => Err(StepFault::Broken(Rule::Shape)),
    }
}

/// The number of the application at the key.
pub fn app_at(value: &Value, key: &str) -> Result<u8, StepFault>
    ensures { Gives (λ n. n) result (app_at key.now (view value.now)) }
{
    match text_in(value, key) {
        Some(text) => app_of(text),
        None => Err(StepFault::Broken(Rule::Shape)),
    }
}
