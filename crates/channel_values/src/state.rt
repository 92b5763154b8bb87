//! States, which are valid by their type.

ghost use Rattle.std.specs.Prelude.{◌≡◌, ◌++◌, IfOk, OnOk, OnErr, Ok};
ghost use Rattle.channel_values.specs.Parts.{StateParts, IsState, state_with};
ghost use Rattle.channel_values.specs.Spelling.{state};
ghost use Rattle.channel_values.specs.Reading.{Gives, Tells, turn_at, state_at, state_of};

use crate::cursor::{ended, place_of, take_flag, take_sized, take_u64};
use crate::fault::{ByteFault, NoMemory};
use crate::limits::MOST_APP_BYTES;
use crate::outcome::{Outcome, take_outcome};
use crate::writing::put_state;
use std::alloc::Global;
use std::marker::Model;

/// The parts of a state, valid or not.
#[derive(Drop)]
struct Parts {
    turn: u64,
    is_final: bool,
    outcome: Outcome,
    app_bytes: Vec<u8>,
}

/// A state of a channel. Contracts see its parts.
#[derive(Drop)]
pub struct State {
    parts: Parts,
    bytes: Vec<u8>,
}

impl Model for State {
    ghost use Rattle.channel_values.specs.Parts.{StateParts};

    ghost Value = { StateParts };

    ghost use Rattle.channel_values.specs.Kept.{state_parts, KeepsState};

    ghost view = { state_parts };

    ghost invariant = { KeepsState };
}

impl State {
    /// The state of these parts, or the fault that reading its spelling would give.
    pub fn make(
        alloc: Global,
        turn: u64,
        is_final: bool,
        outcome: Outcome,
        app_bytes: Vec<u8>,
    ) -> Result<State, ByteFault>
        ensures made { IfOk result (λ s. s ≡ state_with turn is_final outcome app_bytes.items) }
        ensures exact { Gives (λ s. s) result (state_of (state (state_with turn is_final outcome app_bytes.items))) }
        ensures only { IsState (state_with turn is_final outcome app_bytes.items)
            → Gives (λ s. s) result (Ok (state_with turn is_final outcome app_bytes.items)) }
    {
        let mut bytes = Vec::new(alloc);
        put_state(&mut bytes, turn, is_final, &outcome, &app_bytes)?;
        read_state(alloc, &bytes)
    }

    /// A second state that equals this one.
    pub fn copy(&self) -> Result<State, NoMemory>
        ensures { IfOk result (λ s. s ≡ self.now) }
    {
        let alloc = *self.bytes.allocator();
        let outcome = self.parts.outcome.copy()?;
        let app_bytes = Vec::from_slice(alloc, &self.parts.app_bytes)?;
        let bytes = Vec::from_slice(alloc, &self.bytes)?;
        let parts = Parts {
            turn: self.parts.turn,
            is_final: self.parts.is_final,
            outcome,
            app_bytes,
        };
        Ok(State { parts, bytes })
    }

    pub fn turn(&self) -> u64
        ensures value { result ≡ self.now.turn }
        ensures valid { IsState self.now }
    {
        self.parts.turn
    }

    pub fn is_final(&self) -> bool
        ensures value { result ≡ self.now.is_final }
        ensures valid { IsState self.now }
    {
        self.parts.is_final
    }

    pub fn outcome(&self) -> &Outcome
        ensures value { result.now ≡ self.now.outcome }
        ensures valid { IsState self.now }
    {
        &self.parts.outcome
    }

    pub fn app_bytes(&self) -> &[u8]
        ensures value { result.now ≡ self.now.app_bytes }
        ensures valid { IsState self.now }
    {
        self.parts.app_bytes.as_slice()
    }

    /// The canonical bytes.
    pub fn bytes(&self) -> &[u8]
        ensures value { result.now ≡ state self.now }
        ensures valid { IsState self.now }
    {
        self.bytes.as_slice()
    }
}

#[tactic(auto, unfolding(crate::specs::Reading::turn_at))]
fn take_turn(whole: usize, bytes: &[u8]) -> Result<(u64, &[u8]), ByteFault>
    ensures { Tells (λ x. (x.0, x.1.now)) result (turn_at whole bytes.now) }
{
    let (turn, rest) = take_u64(whole, bytes)?;
    if turn >= 1 << 48 {
        return Err(ByteFault::OverLimit(place_of(whole, bytes)));
    }
    Ok((turn, rest))
}

#[tactic(auto, unfolding(crate::specs::Reading::state_at))]
fn take_parts(alloc: Global, whole: usize, bytes: &[u8]) -> Result<(Parts, &[u8]), ByteFault>
    ensures { Gives (λ x. (state_with x.0.turn x.0.is_final x.0.outcome x.0.app_bytes.items, x.1.now)) result
        (state_at whole bytes.now) }
{
    let (turn, rest) = take_turn(whole, bytes)?;
    let (is_final, rest) = take_flag(whole, rest)?;
    let (outcome, rest) = take_outcome(alloc, whole, rest)?;
    let (data, rest) = take_sized(whole, MOST_APP_BYTES as u16, rest)?;
    let app_bytes = Vec::from_slice(alloc, data)?;
    Ok((
        Parts {
            turn,
            is_final,
            outcome,
            app_bytes,
        },
        rest,
    ))
}

/// A state, and the bytes after it.
pub fn take_state(alloc: Global, whole: usize, bytes: &[u8]) -> Result<(State, &[u8]), ByteFault>
    ensures { Gives (λ x. (x.0, x.1.now)) result (state_at whole bytes.now) }
{
    let (parts, rest) = take_parts(alloc, whole, bytes)?;
    let kept = Vec::from_slice(alloc, &bytes[..bytes.len() - rest.len()])?;
    let state = State { parts, bytes: kept };
    Ok((state, rest))
}

#[tactic(auto, unfolding(crate::specs::Reading::all_of))]
fn state_from(alloc: Global, bytes: &[u8]) -> Result<State, ByteFault>
    ensures { Gives (λ x. x) result (state_of bytes.now) }
{
    let whole = bytes.len();
    let (state, rest) = take_state(alloc, whole, bytes)?;
    ended(whole, state, rest)
}

/// The state that the bytes spell, all of the bytes, or the first fault.
pub fn read_state(alloc: Global, bytes: &[u8]) -> Result<State, ByteFault>
    // What is read is valid, and the input is its spelling.
    ensures found { IfOk result (λ s. IsState s × (bytes.now ≡ state s)) }
    // A spelling is read, unless memory runs out.
    ensures only { (s : StateParts) → IsState s → bytes.now ≡ state s → Gives (λ x. x) result (Ok s) }
    // Which fault it is.
    ensures exact { Gives (λ x. x) result (state_of bytes.now) }
{
    state_from(alloc, bytes)
}

/// Appends the one spelling, or nothing.
pub fn write_state(value: &State, out: &mut Vec<u8>) -> Result<(), NoMemory>
    ensures written { OnOk result (out.new.items ≡ out.old.items ++ state value.now) }
    ensures kept { OnErr result (out.new.items ≡ out.old.items) }
{
    out.extend_from_slice(&value.bytes)?;
    Ok(())
}
