//! Signed states, and chains of states with the marks of their signers.

ghost use Rattle.std.specs.Prelude.{◌≡◌, ◌<◌, ◌≤◌, ◌++◌, length, IfOk, OnOk, OnErr, Ok};
ghost use Rattle.std.specs.List.{flat_map, AllByRecursion};
ghost use Rattle.channel_values.specs.declared.chain.Signed.{Signed as SignedParts};
ghost use Rattle.channel_values.specs.declared.chain.Chain.{Chain as ChainParts};
ghost use Rattle.channel_values.specs.Parts.{IsState};
ghost use Rattle.channel_values.specs.Chains.{IsSignature, IsSigned, IsMark, IsChain, FitsMark, KeepsMark, KeepsLimits};
ghost use Rattle.channel_values.specs.Spelling.{state, signed, mark, chain};
ghost use Rattle.channel_values.specs.Rows.{mover};
ghost use Rattle.channel_values.specs.Rules.{people};
ghost use Rattle.channel_values.specs.Reading.{Gives, sized_at, next_state_at, mark_at, signed_at, signed_of, chain_at, chain_of};

use crate::cursor::{ended, take_byte, take_sized};
use crate::fault::{ByteFault, NoMemory};
use crate::fixed::{Fixed, take_fixed};
use crate::limits::{MOST_MARKS, MOST_SIGNATURE_BYTES, MOST_STATES};
use crate::listed::Listed;
use crate::many::{Take, take_short_list};
use crate::state::{State, take_state};
use crate::writing::{put_count, put_sized};
use std::alloc::Global;

/// A state, and the signature of its mover.
#[derive(Drop)]
pub struct Signed {
    pub state: State,
    pub signature: Listed<u8>,
}

impl Signed {
    /// A second one that equals this one.
    pub fn copy(&self) -> Result<Signed, NoMemory>
        ensures { IfOk result (λ s. s ≡ self.now) }
    {
        let state = self.state.copy()?;
        let signature = self.signature.copy()?;
        Ok(Signed { state, signature })
    }
}

/// The position of the participant who moves to this turn.
pub fn mover_at(fixed: &Fixed, turn: u64) -> usize
    ensures value { result ≡ mover (people fixed.now) turn }
    ensures there { result < people fixed.now }
{
    (turn % fixed.keys().len() as u64) as usize
}

/// A participant's signature of the state at a place of its chain.
#[derive(Drop)]
pub struct Mark {
    pub place: u8,
    pub signature: Listed<u8>,
}

impl Mark {
    /// A second mark that equals this one.
    pub fn copy(&self) -> Result<Mark, NoMemory>
        ensures { IfOk result (λ m. m ≡ self.now) }
    {
        let signature = self.signature.copy()?;
        Ok(Mark {
            place: self.place,
            signature,
        })
    }
}

/// States in a row, and for each participant in turn the mark of what it signed.
#[derive(Drop)]
pub struct Chain {
    pub fixed: Fixed,
    pub states: Listed<State>,
    pub marks: Listed<Mark>,
}

impl Chain {
    /// A second chain that equals this one.
    pub fn copy(&self) -> Result<Chain, NoMemory>
        ensures { IfOk result (λ c. c ≡ self.now) }
    {
        let fixed = self.fixed.copy()?;
        let states = copy_states(&self.states)?;
        let marks = copy_marks(&self.marks)?;
        Ok(Chain {
            fixed,
            states,
            marks,
        })
    }
}

/// Copies of states, in their order.
pub fn copy_states(states: &Listed<State>) -> Result<Listed<State>, NoMemory>
    ensures { IfOk result (λ s. s ≡ states.now) }
{
    let mut copies = Vec::new(states.allocator());
    for state in states.as_slice() {
        let copy = state.copy()?;
        copies.push(copy)?;
    }
    Ok(Listed::make(copies))
}

/// Copies of marks, in their order.
pub fn copy_marks(marks: &Listed<Mark>) -> Result<Listed<Mark>, NoMemory>
    ensures { IfOk result (λ m. m ≡ marks.now) }
{
    let mut copies = Vec::new(marks.allocator());
    for mark in marks.as_slice() {
        let copy = mark.copy()?;
        copies.push(copy)?;
    }
    Ok(Listed::make(copies))
}

/// A signature after its length, and the bytes after it.
pub fn take_signature(
    alloc: Global,
    whole: usize,
    bytes: &[u8],
) -> Result<(Listed<u8>, &[u8]), ByteFault>
    ensures { Gives (λ x. (x.0, x.1.now)) result (sized_at whole 9004 bytes.now) }
{
    let (front, rest) = take_sized(whole, MOST_SIGNATURE_BYTES as u16, bytes)?;
    let items = Vec::from_slice(alloc, front)?;
    Ok((Listed::make(items), rest))
}

/// A signed state, and the bytes after it.
#[tactic(auto, unfolding(crate::specs::Reading::signed_at))]
pub fn take_signed(alloc: Global, whole: usize, bytes: &[u8]) -> Result<(Signed, &[u8]), ByteFault>
    ensures { Gives (λ x. (x.0, x.1.now)) result (signed_at whole bytes.now) }
{
    let (state, rest) = take_state(alloc, whole, bytes)?;
    let (signature, rest) = take_signature(alloc, whole, rest)?;
    Ok((Signed { state, signature }, rest))
}

/// A reader of states, whatever was read before them.
struct States;

impl Take for States {
    type Value = State;

    ghost at = { next_state_at };

    fn take<'a>(
        alloc: Global,
        whole: usize,
        _seen: &[State],
        bytes: &'a [u8],
    ) -> Result<(State, &'a [u8]), ByteFault> {
        take_state(alloc, whole, bytes)
    }
}

/// A reader of marks, whatever was read before them.
struct Marks;

impl Take for Marks {
    type Value = Mark;

    ghost at = { mark_at };

    #[tactic(auto, unfolding(crate::specs::Reading::mark_at))]
    fn take<'a>(
        alloc: Global,
        whole: usize,
        _seen: &[Mark],
        bytes: &'a [u8],
    ) -> Result<(Mark, &'a [u8]), ByteFault> {
        let (place, rest) = take_byte(whole, bytes)?;
        let (signature, rest) = take_signature(alloc, whole, rest)?;
        Ok((Mark { place, signature }, rest))
    }
}

/// A chain, and the bytes after it.
#[tactic(auto, unfolding(crate::specs::Reading::chain_at, crate::specs::Reading::states_at, crate::specs::Reading::marks_at))]
pub fn take_chain(alloc: Global, whole: usize, bytes: &[u8]) -> Result<(Chain, &[u8]), ByteFault>
    ensures { Gives (λ x. (x.0, x.1.now)) result (chain_at whole bytes.now) }
{
    let (fixed, rest) = take_fixed(alloc, whole, bytes)?;
    let (states, rest) = take_short_list::<States>(alloc, whole, MOST_STATES as u8, rest)?;
    let (marks, rest) = take_short_list::<Marks>(alloc, whole, MOST_MARKS as u8, rest)?;
    Ok((
        Chain {
            fixed,
            states,
            marks,
        },
        rest,
    ))
}

#[tactic(auto, unfolding(crate::specs::Reading::all_of))]
fn signed_from(alloc: Global, bytes: &[u8]) -> Result<Signed, ByteFault>
    ensures { Gives (λ x. x) result (signed_of bytes.now) }
{
    let whole = bytes.len();
    let (signed, rest) = take_signed(alloc, whole, bytes)?;
    ended(whole, signed, rest)
}

/// The signed state that the bytes spell, all of the bytes, or the first fault.
pub fn read_signed(alloc: Global, bytes: &[u8]) -> Result<Signed, ByteFault>
    // What is read keeps the limits, and the input is its spelling.
    ensures found { IfOk result (λ s. IsSigned s × (bytes.now ≡ signed s)) }
    // A spelling is read, unless memory runs out.
    ensures only { (s : SignedParts) → IsSigned s → bytes.now ≡ signed s → Gives (λ x. x) result (Ok s) }
    // Which fault it is.
    ensures exact { Gives (λ x. x) result (signed_of bytes.now) }
{
    signed_from(alloc, bytes)
}

#[tactic(auto, unfolding(crate::specs::Reading::all_of))]
fn chain_from(alloc: Global, bytes: &[u8]) -> Result<Chain, ByteFault>
    ensures { Gives (λ x. x) result (chain_of bytes.now) }
{
    let whole = bytes.len();
    let (chain, rest) = take_chain(alloc, whole, bytes)?;
    ended(whole, chain, rest)
}

/// The chain that the bytes spell, all of the bytes, or the first fault.
pub fn read_chain(alloc: Global, bytes: &[u8]) -> Result<Chain, ByteFault>
    // What is read keeps the limits, and the input is its spelling.
    ensures found { IfOk result (λ c. IsChain c × (bytes.now ≡ chain c)) }
    // So it may be written.
    ensures keeps { IfOk result KeepsLimits }
    // A spelling is read, unless memory runs out.
    ensures only { (c : ChainParts) → IsChain c → bytes.now ≡ chain c → Gives (λ x. x) result (Ok c) }
    // Which fault it is.
    ensures exact { Gives (λ x. x) result (chain_of bytes.now) }
{
    chain_from(alloc, bytes)
}

#[tactic(auto, unfolding(crate::specs::Spelling::signed))]
fn put_signed(out: &mut Vec<u8>, value: &Signed) -> Result<(), NoMemory>
    requires { length value.now.signature ≤ 9004 }
    ensures put { OnOk result (out.new.items ≡ out.old.items ++ signed value.now) }
    ensures valid { OnOk result (IsSigned value.now) }
{
    out.extend_from_slice(value.state.bytes())?;
    put_sized(out, value.signature.as_slice())
}

/// Appends the one spelling, or nothing.
pub fn write_signed(value: &Signed, out: &mut Vec<u8>) -> Result<(), NoMemory>
    requires { length value.now.signature ≤ 9004 }
    ensures written { OnOk result (out.new.items ≡ out.old.items ++ signed value.now) }
    ensures kept { OnErr result (out.new.items ≡ out.old.items) }
    ensures valid { OnOk result (IsSigned value.now) }
{
    let mut text = Vec::new(*out.allocator());
    put_signed(&mut text, value)?;
    out.extend_from_slice(&text)?;
    Ok(())
}

fn put_states(out: &mut Vec<u8>, states: &[State]) -> Result<(), NoMemory>
    ensures put { OnOk result (out.new.items ≡ out.old.items ++ flat_map state states.now) }
    ensures fits { OnOk result (AllByRecursion IsState states.now) }
{
    for s in states {
        out.extend_from_slice(s.bytes())?;
    }
    Ok(())
}

fn put_mark(out: &mut Vec<u8>, m: &Mark) -> Result<(), NoMemory>
    ensures put { OnOk result (out.new.items ≡ out.old.items ++ mark m.now) }
    ensures fits { OnOk result (FitsMark m.now) }
{
    out.push(m.place)?;
    put_sized(out, m.signature.as_slice())
}

fn put_marks(out: &mut Vec<u8>, marks: &[Mark]) -> Result<(), NoMemory>
    ensures put { OnOk result (out.new.items ≡ out.old.items ++ flat_map mark marks.now) }
    ensures fits { OnOk result (AllByRecursion FitsMark marks.now) }
{
    for m in marks {
        put_mark(out, m)?;
    }
    Ok(())
}

#[tactic(auto, unfolding(crate::specs::Spelling::chain))]
fn put_chain(out: &mut Vec<u8>, value: &Chain) -> Result<(), NoMemory>
    requires { KeepsLimits value.now }
    ensures put { OnOk result (out.new.items ≡ out.old.items ++ chain value.now) }
    ensures valid { OnOk result (IsChain value.now) }
{
    let states = value.states.as_slice();
    let marks = value.marks.as_slice();
    out.extend_from_slice(value.fixed.bytes())?;
    put_count(out, states.len())?;
    put_states(out, states)?;
    put_count(out, marks.len())?;
    put_marks(out, marks)
}

/// Appends the one spelling, or nothing.
pub fn write_chain(value: &Chain, out: &mut Vec<u8>) -> Result<(), NoMemory>
    requires { KeepsLimits value.now }
    ensures written { OnOk result (out.new.items ≡ out.old.items ++ chain value.now) }
    ensures kept { OnErr result (out.new.items ≡ out.old.items) }
    ensures valid { OnOk result (IsChain value.now) }
{
    let mut text = Vec::new(*out.allocator());
    put_chain(&mut text, value)?;
    out.extend_from_slice(&text)?;
    Ok(())
}
