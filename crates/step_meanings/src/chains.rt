//! The states that a script names, and the chains that it makes of them.

ghost use Rattle.std.specs.Prelude.{◌≡◌, ◌≤◌, ◌<◌, length, map, IfOk};
ghost use Rattle.std.specs.Option.{option_map};
ghost use Rattle.step_meanings.specs.Chains.{state_by, listed, repeats, states_of, mark_of, chain_of};

use channel_values::{Chain, Fixed, Key, Label, Listed, Mark, Name, NoMemory, Signed, State};
use std::alloc::Global;

/// A state of a channel that a script names, signed with the secret of this public key.
#[derive(Drop)]
pub struct NamedState {
    pub name: Label,
    pub key: Key,
    pub channel: Name,
    pub signed: Signed,
}

impl NamedState {
    fn copy(&self) -> Result<NamedState, NoMemory>
        ensures { IfOk result (λ s. s ≡ self.now) }
    {
        let name = self.name.copy()?;
        let signed = self.signed.copy()?;
        Ok(NamedState {
            name,
            key: self.key,
            channel: self.channel,
            signed,
        })
    }
}

/// The state of this name.
pub fn state_by<'a>(known: &'a [NamedState], name: &str) -> Option<&'a NamedState>
    ensures { option_map (λ x. x.now) result ≡ state_by known.now name.now }
{
    known.iter().find(|x| x.name.as_str() == name)
}

/// The states that the names stand for, the last name's first. A name that stands for none is left out.
pub fn listed(
    alloc: Global,
    known: &[NamedState],
    names: &[Label],
) -> Result<Vec<NamedState>, NoMemory>
    ensures listed { IfOk result (λ states. states.items ≡ listed known.now names.now) }
    ensures few { IfOk result (λ states. length states.items ≤ length names.now) }
{
    let [first, rest @ ..] = names else {
        return Ok(Vec::new(alloc));
    };
    let mut states = listed(alloc, known, rest)?;
    if let Some(state) = state_by(known, first.as_str()) {
        let copy = state.copy()?;
        states.push(copy)?;
    }
    Ok(states)
}

/// Whether the name before stands for an equal state.
fn repeats(state: &NamedState, earlier: &[NamedState]) -> bool
    ensures { result ≡ repeats state.now earlier.now }
{
    match earlier {
        [] => false,
        [before, ..] => state.signed.state.bytes() == before.signed.state.bytes(),
    }
}

/// The states in order, where names that follow each other with equal states are one state.
fn states_of(alloc: Global, listed: &[NamedState]) -> Result<Vec<State>, NoMemory>
    ensures { IfOk result (λ states. states.items ≡ states_of listed.now) }
{
    let [last, earlier @ ..] = listed else {
        return Ok(Vec::new(alloc));
    };
    let mut states = states_of(alloc, earlier)?;
    if !repeats(last, earlier) {
        let state = last.signed.state.copy()?;
        states.push(state)?;
    }
    Ok(states)
}

/// How many states the names stand for.
fn state_count(listed: &[NamedState]) -> usize
    ensures count { result ≡ length (states_of listed.now) }
    ensures few { result ≤ length listed.now }
{
    match listed {
        [] => 0,
        [last, earlier @ ..] if repeats(last, earlier) => state_count(earlier),
        [_, earlier @ ..] => state_count(earlier) + 1,
    }
}

/// What the owner of a key signed of the states: the last one that it signed, with its place.
fn mark_of(alloc: Global, listed: &[NamedState], key: &Key) -> Result<Mark, NoMemory>
    requires { length listed.now ≤ 4 }
    ensures { IfOk result (λ mark. mark ≡ mark_of listed.now key.now) }
{
    let [last, earlier @ ..] = listed else {
        return Ok(Mark {
            place: 255,
            signature: Listed::make(Vec::new(alloc)),
        });
    };
    if last.key != *key {
        return mark_of(alloc, earlier, key);
    }
    let place = state_count(listed).saturating_sub(1);
    let signature = last.signed.signature.copy()?;
    Ok(Mark {
        place: place as u8,
        signature,
    })
}

fn marks_of(alloc: Global, keys: &[Key], listed: &[NamedState]) -> Result<Vec<Mark>, NoMemory>
    requires { length listed.now ≤ 4 }
    ensures { IfOk result (λ marks. marks.items ≡ map (mark_of listed.now) keys.now) }
{
    let mut marks = Vec::new(alloc);
    for key in keys {
        let mark = mark_of(alloc, listed, key)?;
        marks.push(mark)?;
    }
    Ok(marks)
}

/// The chain of the states that a script lists, the last name's first: each participant has the mark of the last that
/// it signed.
pub fn chain_of(alloc: Global, fixed: &Fixed, listed: &[NamedState]) -> Result<Chain, NoMemory>
    requires { length listed.now ≤ 4 }
    ensures { IfOk result (λ chain. chain ≡ chain_of fixed.now listed.now) }
{
    let states = states_of(alloc, listed)?;
    let marks = marks_of(alloc, fixed.keys(), listed)?;
    let fixed = fixed.copy()?;
    Ok(Chain {
        fixed,
        states: Listed::make(states),
        marks: Listed::make(marks),
    })
}
