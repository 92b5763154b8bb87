//! Fixed parts of channels, which are valid by their type.

ghost use Rattle.std.specs.Prelude.{◌≡◌, ◌≤◌, ◌++◌, IfOk, OnOk, OnErr, Ok};
ghost use Rattle.std.specs.List.{list_any};
ghost use Rattle.std.specs.Str.{bytes_eq};
ghost use Rattle.channel_values.specs.Parts.{FixedParts, IsFixed, fixed_with};
ghost use Rattle.channel_values.specs.Spelling.{fixed};
ghost use Rattle.channel_values.specs.Reading.{Gives, Tells, people_at, key_at, app_at, duration_at, fixed_at, fixed_of};

use crate::cursor::{ended, place_of, take_byte, take_raw_key, take_u32, take_u64};
use crate::fault::{ByteFault, NoMemory};
use crate::limits::MOST_PEOPLE;
use crate::many::{Take, take_many};
use crate::value::Key;
use crate::writing::put_fixed;
use std::alloc::Global;
use std::marker::Model;

/// The parts of a fixed part, valid or not.
#[derive(Drop)]
struct Parts {
    keys: Vec<Key>,
    nonce: u64,
    app: u8,
    duration: u32,
}

/// The fixed part of a channel. Contracts see its parts.
#[derive(Drop)]
pub struct Fixed {
    parts: Parts,
    bytes: Vec<u8>,
}

impl Model for Fixed {
    ghost use Rattle.channel_values.specs.Parts.{FixedParts};

    ghost Value = { FixedParts };

    ghost use Rattle.channel_values.specs.Kept.{fixed_parts, KeepsFixed};

    ghost view = { fixed_parts };

    ghost invariant = { KeepsFixed };
}

impl Fixed {
    /// The fixed part of these keys, or the fault that reading its spelling would give.
    pub fn make(
        alloc: Global,
        keys: Vec<Key>,
        nonce: u64,
        app: u8,
        duration: u32,
    ) -> Result<Fixed, ByteFault>
        ensures made { IfOk result (λ f. f ≡ fixed_with keys.items nonce app duration) }
        ensures exact { Gives (λ f. f) result (fixed_of (fixed (fixed_with keys.items nonce app duration))) }
        ensures only { IsFixed (fixed_with keys.items nonce app duration)
            → Gives (λ f. f) result (Ok (fixed_with keys.items nonce app duration)) }
    {
        let mut bytes = Vec::new(alloc);
        put_fixed(&mut bytes, &keys, nonce, app, duration)?;
        read_fixed(alloc, &bytes)
    }

    /// A second fixed part that equals this one.
    pub fn copy(&self) -> Result<Fixed, NoMemory>
        ensures { IfOk result (λ f. f ≡ self.now) }
    {
        let alloc = *self.bytes.allocator();
        let keys = Vec::from_slice(alloc, &self.parts.keys)?;
        let bytes = Vec::from_slice(alloc, &self.bytes)?;
        let parts = Parts {
            keys,
            nonce: self.parts.nonce,
            app: self.parts.app,
            duration: self.parts.duration,
        };
        Ok(Fixed { parts, bytes })
    }

    pub fn keys(&self) -> &[Key]
        ensures value { result.now ≡ self.now.keys }
        ensures valid { IsFixed self.now }
    {
        self.parts.keys.as_slice()
    }

    pub fn nonce(&self) -> u64
        ensures value { result ≡ self.now.nonce }
        ensures valid { IsFixed self.now }
    {
        self.parts.nonce
    }

    /// The application: 0 consensus, 1 payment, 2 fixed.
    pub fn app(&self) -> u8
        ensures value { result ≡ self.now.app }
        ensures valid { IsFixed self.now }
    {
        self.parts.app
    }

    /// How long a challenge stands open, in units of time.
    pub fn duration(&self) -> u32
        ensures value { result ≡ self.now.duration }
        ensures valid { IsFixed self.now }
    {
        self.parts.duration
    }

    /// The canonical bytes.
    pub fn bytes(&self) -> &[u8]
        ensures value { result.now ≡ fixed self.now }
        ensures valid { IsFixed self.now }
    {
        self.bytes.as_slice()
    }
}

/// How many participants there are.
#[tactic(auto, unfolding(crate::specs::Reading::people_at))]
fn take_people(whole: usize, bytes: &[u8]) -> Result<(u8, &[u8]), ByteFault>
    ensures { Tells (λ x. (x.0, x.1.now)) result (people_at whole bytes.now) }
{
    let (people, rest) = take_byte(whole, bytes)?;
    if people < 2 || people > MOST_PEOPLE as u8 {
        return Err(ByteFault::OverLimit(place_of(whole, bytes)));
    }
    Ok((people, rest))
}

fn same_key(a: &Key, b: &Key) -> bool
    ensures { result ≡ bytes_eq a.now b.now }
{
    a == b
}

fn has_key(seen: &[Key], key: &Key) -> bool
    ensures { result ≡ list_any (λ k. bytes_eq k key.now) seen.now }
{
    seen.iter().any(|k| same_key(k, key))
}

/// A reader of keys, each unlike those before it.
struct Keys;

impl Take for Keys {
    type Value = Key;

    ghost at = { key_at };

    #[tactic(auto, unfolding(crate::specs::Reading::key_at))]
    fn take<'a>(
        _alloc: Global,
        whole: usize,
        seen: &[Key],
        bytes: &'a [u8],
    ) -> Result<(Key, &'a [u8]), ByteFault> {
        let (key, rest) = take_raw_key(whole, bytes)?;
        if has_key(seen, &key) {
            return Err(ByteFault::Doubled(place_of(whole, bytes)));
        }
        Ok((key, rest))
    }
}

/// The application of so many participants. Payment has two.
#[tactic(auto, unfolding(crate::specs::Reading::app_at))]
fn take_app(whole: usize, people: u8, bytes: &[u8]) -> Result<(u8, &[u8]), ByteFault>
    ensures { Tells (λ x. (x.0, x.1.now)) result (app_at whole people bytes.now) }
{
    let (app, rest) = take_byte(whole, bytes)?;
    if app > 2 || (app == 1 && people != 2) {
        return Err(ByteFault::BadTag(place_of(whole, bytes)));
    }
    Ok((app, rest))
}

#[tactic(auto, unfolding(crate::specs::Reading::duration_at))]
fn take_duration(whole: usize, bytes: &[u8]) -> Result<(u32, &[u8]), ByteFault>
    ensures { Tells (λ x. (x.0, x.1.now)) result (duration_at whole bytes.now) }
{
    let (duration, rest) = take_u32(whole, bytes)?;
    if duration == 0 {
        return Err(ByteFault::OverLimit(place_of(whole, bytes)));
    }
    Ok((duration, rest))
}

#[tactic(auto, unfolding(crate::specs::Reading::fixed_at))]
fn take_parts(alloc: Global, whole: usize, bytes: &[u8]) -> Result<(Parts, &[u8]), ByteFault>
    ensures { Gives (λ x. (fixed_with x.0.keys.items x.0.nonce x.0.app x.0.duration, x.1.now)) result
        (fixed_at whole bytes.now) }
{
    let (people, rest) = take_people(whole, bytes)?;
    let (keys, rest) = take_many::<Keys>(alloc, whole, people as u32, rest)?;
    let (nonce, rest) = take_u64(whole, rest)?;
    let (app, rest) = take_app(whole, people, rest)?;
    let (duration, rest) = take_duration(whole, rest)?;
    Ok((
        Parts {
            keys,
            nonce,
            app,
            duration,
        },
        rest,
    ))
}

/// A fixed part, and the bytes after it.
pub fn take_fixed(alloc: Global, whole: usize, bytes: &[u8]) -> Result<(Fixed, &[u8]), ByteFault>
    ensures { Gives (λ x. (x.0, x.1.now)) result (fixed_at whole bytes.now) }
{
    let (parts, rest) = take_parts(alloc, whole, bytes)?;
    let kept = Vec::from_slice(alloc, &bytes[..bytes.len() - rest.len()])?;
    let fixed = Fixed { parts, bytes: kept };
    Ok((fixed, rest))
}

#[tactic(auto, unfolding(crate::specs::Reading::all_of))]
fn fixed_from(alloc: Global, bytes: &[u8]) -> Result<Fixed, ByteFault>
    ensures { Gives (λ x. x) result (fixed_of bytes.now) }
{
    let whole = bytes.len();
    let (fixed, rest) = take_fixed(alloc, whole, bytes)?;
    ended(whole, fixed, rest)
}

/// The fixed part that the bytes spell, all of the bytes, or the first fault.
pub fn read_fixed(alloc: Global, bytes: &[u8]) -> Result<Fixed, ByteFault>
    // What is read is valid, and the input is its spelling.
    ensures found { IfOk result (λ f. IsFixed f × (bytes.now ≡ fixed f)) }
    // A spelling is read, unless memory runs out.
    ensures only { (f : FixedParts) → IsFixed f → bytes.now ≡ fixed f → Gives (λ x. x) result (Ok f) }
    // Which fault it is.
    ensures exact { Gives (λ x. x) result (fixed_of bytes.now) }
{
    fixed_from(alloc, bytes)
}

/// Appends the one spelling, or nothing.
pub fn write_fixed(value: &Fixed, out: &mut Vec<u8>) -> Result<(), NoMemory>
    ensures written { OnOk result (out.new.items ≡ out.old.items ++ fixed value.now) }
    ensures kept { OnErr result (out.new.items ≡ out.old.items) }
{
    out.extend_from_slice(&value.bytes)?;
    Ok(())
}
