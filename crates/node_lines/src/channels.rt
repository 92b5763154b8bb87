//! Channels by their fixed parts.

ghost use Rattle.std.specs.Prelude.{◌≡◌, []};
ghost use Rattle.serde_json.specs.View.{view, items_view};
ghost use Rattle.channel_values.specs.Parts.{fixed_with};
ghost use Rattle.node_lines.specs.Faults.{Gives};
ghost use Rattle.node_lines.specs.Values.{many_in, key_of};
ghost use Rattle.node_lines.specs.Channels.{app_in, app_at, people_at, fixed_in, channel_of, channel_at, channels_at};

use crate::faults::{Invalid, LineError};
use crate::values::{array_at, key_of, keys, number_at, small_at, text_at, two_of, value_at};
use channel_values::{ByteFault, Fixed, Key};
use serde_json::Value;
use std::alloc::Global;

fn app_in(word: &str) -> Result<u8, LineError>
    ensures { Gives (λ n. n) result (app_in word.now) }
{
    match word {
        "consensus" => Ok(0),
        "payment" => Ok(1),
        "fixed" => Ok(2),
        _ => Err(LineError::Invalid(Invalid::Shape)),
    }
}

fn app_at(value: &Value, key: &str) -> Result<u8, LineError>
    ensures { Gives (λ n. n) result (app_at key.now (view value.now)) }
{
    let word = text_at(value, key)?;
    app_in(word)
}

#[tactic(auto, using(crate::proofs::Many::goes_on, crate::proofs::Many::stops))]
fn people_in(alloc: Global, values: &[Value]) -> Result<Vec<Key>, LineError>
    ensures { Gives (λ v. v.items) result (many_in key_of [] (items_view values.now)) }
{
    let mut people = Vec::new(alloc);
    for value in values {
        let key = key_of(value)?;
        people.push(key)?;
    }
    Ok(people)
}

fn people_at(alloc: Global, value: &Value, key: &str) -> Result<Vec<Key>, LineError>
    ensures { Gives (λ v. v.items) result (people_at key.now (view value.now)) }
{
    let values = array_at(value, key)?;
    people_in(alloc, values)
}

fn fixed_in(
    alloc: Global,
    people: Vec<Key>,
    nonce: u64,
    app: u8,
    duration: u32,
) -> Result<Fixed, LineError>
    ensures { Gives (λ f. f) result (fixed_in (fixed_with people.items nonce app duration)) }
{
    match Fixed::make(alloc, people, nonce, app, duration) {
        Ok(fixed) => Ok(fixed),
        Err(ByteFault::NoMemory) => Err(LineError::NoMemory),
        Err(_) => Err(LineError::Invalid(Invalid::Limit)),
    }
}

fn channel_of(alloc: Global, value: &Value) -> Result<Fixed, LineError>
    ensures { Gives (λ f. f) result (channel_of (view value.now)) }
{
    keys(value, 4)?;
    let people = people_at(alloc, value, "people")?;
    let nonce = number_at(value, "nonce")?;
    let app = app_at(value, "app")?;
    let duration = small_at(value, "duration")?;
    fixed_in(alloc, people, nonce, app, duration)
}

/// The channel at the key.
pub(crate) fn channel_at(alloc: Global, value: &Value, key: &str) -> Result<Fixed, LineError>
    ensures { Gives (λ f. f) result (channel_at key.now (view value.now)) }
{
    let found = value_at(value, key)?;
    channel_of(alloc, found)
}

/// The two channels that the array at the key holds.
pub(crate) fn channels_at(
    alloc: Global,
    value: &Value,
    key: &str,
) -> Result<(Fixed, Fixed), LineError>
    ensures { Gives (λ p. p) result (channels_at key.now (view value.now)) }
{
    let found = value_at(value, key)?;
    let (first, second) = two_of(found)?;
    let first = channel_of(alloc, first)?;
    let second = channel_of(alloc, second)?;
    Ok((first, second))
}
