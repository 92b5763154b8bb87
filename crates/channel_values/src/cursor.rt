//! Fields of canonical bytes, each read from the front. None takes memory.
//!
//! A call is given the length of the whole input, from which the places of faults are counted, and the bytes from the
//! field on. It answers the field and the bytes after it, or the first fault.

ghost use Rattle.std.specs.Prelude.{◌≡◌, ◌≤◌, ◌-◌, length, IfOk};
ghost use Rattle.std.specs.Int.{w16, w32, w64};
ghost use Rattle.channel_values.specs.Reading.{Gives, Tells, ended, byte_at, number_at, front_at, name_at, count_at, flag_at, sized_at};

use crate::fault::ByteFault;
use crate::value::{Key, Name};

/// The place of the bytes in the whole.
pub fn place_of(whole: usize, bytes: &[u8]) -> usize
    ensures { result ≡ whole - length bytes.now }
{
    whole.saturating_sub(bytes.len())
}

/// The value, where nothing stands after it, and else where something does.
pub fn ended<T: Drop>(whole: usize, value: T, rest: &[u8]) -> Result<T, ByteFault>
    ensures tells { Tells (λ x. x) result (ended whole (value, rest.now)) }
    ensures gives { Gives (λ x. x) result (ended whole (value, rest.now)) }
{
    if rest.is_empty() {
        Ok(value)
    } else {
        Err(ByteFault::Trailing(place_of(whole, rest)))
    }
}

pub fn take_byte(whole: usize, bytes: &[u8]) -> Result<(u8, &[u8]), ByteFault>
    ensures { Tells (λ x. (x.0, x.1.now)) result (byte_at whole bytes.now) }
{
    match bytes {
        [] => Err(ByteFault::Cut(whole)),
        [byte, rest @ ..] => Ok((*byte, rest)),
    }
}

pub fn take_u16(whole: usize, bytes: &[u8]) -> Result<(u16, &[u8]), ByteFault>
    ensures { Tells (λ x. (x.0, x.1.now)) result (number_at whole w16 bytes.now) }
{
    if bytes.len() < 2 {
        return Err(ByteFault::Cut(whole));
    }
    let (front, rest) = bytes.split_at(2);
    Ok((u16::from_be_bytes([front[0], front[1]]), rest))
}

pub fn take_u32(whole: usize, bytes: &[u8]) -> Result<(u32, &[u8]), ByteFault>
    ensures { Tells (λ x. (x.0, x.1.now)) result (number_at whole w32 bytes.now) }
{
    if bytes.len() < 4 {
        return Err(ByteFault::Cut(whole));
    }
    let (front, rest) = bytes.split_at(4);
    let number = u32::from_be_bytes([front[0], front[1], front[2], front[3]]);
    Ok((number, rest))
}

pub fn take_u64(whole: usize, bytes: &[u8]) -> Result<(u64, &[u8]), ByteFault>
    ensures { Tells (λ x. (x.0, x.1.now)) result (number_at whole w64 bytes.now) }
{
    if bytes.len() < 8 {
        return Err(ByteFault::Cut(whole));
    }
    let (front, rest) = bytes.split_at(8);
    let number = u64::from_be_bytes([
        front[0], front[1], front[2], front[3], front[4], front[5], front[6], front[7],
    ]);
    Ok((number, rest))
}

pub fn take_name(whole: usize, bytes: &[u8]) -> Result<(Name, &[u8]), ByteFault>
    ensures { Tells (λ x. (x.0, x.1.now)) result (name_at whole bytes.now) }
{
    if bytes.len() < 32 {
        return Err(ByteFault::Cut(whole));
    }
    let (front, rest) = bytes.split_at(32);
    let mut name = [0; 32];
    name.copy_from_slice(front);
    Ok((name, rest))
}

pub(crate) fn take_raw_key(whole: usize, bytes: &[u8]) -> Result<(Key, &[u8]), ByteFault>
    ensures { Tells (λ x. (x.0, x.1.now)) result (front_at whole 56 bytes.now) }
{
    if bytes.len() < 56 {
        return Err(ByteFault::Cut(whole));
    }
    let (front, rest) = bytes.split_at(56);
    let mut key = [0; 56];
    key.copy_from_slice(front);
    Ok((key, rest))
}

/// A count of one byte, at most the limit.
#[tactic(auto, unfolding(crate::specs::Reading::count_at))]
pub fn take_count(whole: usize, limit: u8, bytes: &[u8]) -> Result<(u8, &[u8]), ByteFault>
    ensures few { IfOk result (λ x. x.0 ≤ limit) }
    ensures read { Tells (λ x. (x.0, x.1.now)) result (count_at whole limit bytes.now) }
{
    let (count, rest) = take_byte(whole, bytes)?;
    if count > limit {
        return Err(ByteFault::OverLimit(place_of(whole, bytes)));
    }
    Ok((count, rest))
}

/// A flag, which is one byte: 0 or 1.
#[tactic(auto, unfolding(crate::specs::Reading::flag_at))]
pub fn take_flag(whole: usize, bytes: &[u8]) -> Result<(bool, &[u8]), ByteFault>
    ensures { Tells (λ x. (x.0, x.1.now)) result (flag_at whole bytes.now) }
{
    let (flag, rest) = take_byte(whole, bytes)?;
    match flag {
        0 => Ok((false, rest)),
        1 => Ok((true, rest)),
        _ => Err(ByteFault::BadTag(place_of(whole, bytes))),
    }
}

/// A length of two bytes, at most the limit, and that many bytes.
#[tactic(auto, unfolding(crate::specs::Reading::sized_at))]
pub fn take_sized(whole: usize, limit: u16, bytes: &[u8]) -> Result<(&[u8], &[u8]), ByteFault>
    ensures { Tells (λ x. (x.0.now, x.1.now)) result (sized_at whole limit bytes.now) }
{
    let (len, rest) = take_u16(whole, bytes)?;
    if len > limit {
        return Err(ByteFault::OverLimit(place_of(whole, bytes)));
    }
    let len = len as usize;
    if rest.len() < len {
        return Err(ByteFault::Cut(whole));
    }
    Ok(rest.split_at(len))
}
