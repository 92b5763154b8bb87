//! The order of channels in a tick, and the messages of a signed state.

ghost use Rattle.std.specs.Prelude.{◌≡◌, ◌++◌, ◌+◌, map, take, drop, OnOk, IfOk};
ghost use Rattle.std.specs.List.{flat_map};
ghost use Rattle.std.specs.Option.{option_map};
ghost use Rattle.call_history.specs.Spelling.{message};
ghost use Rattle.funding_plans.specs.Parts.{joined_of};
ghost use Rattle.channel_node.specs.Giving as giving;

use channel_store::Kept;
use channel_values::{Listed, Name, NoMemory, State, put_sized};
use funding_plans::Part;
use std::alloc::Global;
use support_rules::people_of;

fn is_root(part: &Part) -> bool
    ensures { result ≡ giving.is_root part.now }
{
    match part {
        Part::Root(_) => true,
        _ => false,
    }
}

/// Adds the channels of a part in which its person is a participant.
fn put_joined(names: &mut Vec<Name>, part: &Part) -> Result<(), NoMemory>
    ensures { OnOk result (names.new.items ≡ names.old.items ++ joined_of part.now) }
{
    match part {
        Part::Root(channel) | Part::OnLedger(_, channel) => names.push(*channel)?,
        Part::End(v) => names.extend_from_slice(&[v.own_guarantor(), v.joint, v.channel])?,
        Part::Middle(v) => names.extend_from_slice(&[v.guarantor_a, v.guarantor_b, v.joint])?,
    }
    Ok(())
}

fn put_roots(names: &mut Vec<Name>, parts: &[Part]) -> Result<(), NoMemory>
    ensures { OnOk result (names.new.items ≡ names.old.items ++ flat_map giving.of_root parts.now) }
{
    for part in parts {
        if is_root(part) {
            put_joined(names, part)?;
        }
    }
    Ok(())
}

fn put_others(names: &mut Vec<Name>, parts: &[Part]) -> Result<(), NoMemory>
    ensures { OnOk result (names.new.items ≡ names.old.items ++ flat_map giving.of_other parts.now) }
{
    for part in parts {
        if !is_root(part) {
            put_joined(names, part)?;
        }
    }
    Ok(())
}

/// The roots as they were opened, then the channels of each further part.
pub(crate) fn in_order(alloc: Global, parts: &[Part]) -> Result<Vec<Name>, NoMemory>
    ensures { IfOk result (λ names. names.items ≡ giving.in_order parts.now) }
{
    let mut names = Vec::new(alloc);
    put_roots(&mut names, parts)?;
    put_others(&mut names, parts)?;
    Ok(names)
}

fn before(people: &[Name], place: usize) -> &[Name]
    ensures { result.now ≡ take place people.now }
{
    if place < people.len() {
        &people[..place]
    } else {
        people
    }
}

fn after(people: &[Name], place: usize) -> &[Name]
    ensures { result.now ≡ drop (place + 1) people.now }
{
    if place < people.len() {
        &people[place + 1..]
    } else {
        &[]
    }
}

/// The message with a signed state, whatever the length of the signature.
#[tactic(auto, unfolding(call_history::specs::Spelling::message, channel_values::specs::Spelling::signed))]
fn message_of(
    alloc: Global,
    channel: &Name,
    state: &State,
    signature: &[u8],
) -> Result<Listed<u8>, NoMemory>
    ensures { IfOk result (λ bytes.
        bytes ≡ message (channel.now, record { state = state.now; signature = signature.now })) }
{
    let mut out = Vec::new(alloc);
    out.extend_from_slice(channel)?;
    out.extend_from_slice(state.bytes())?;
    put_sized(&mut out, signature)?;
    Ok(Listed::make(out))
}

fn put_sends(
    sends: &mut Vec<(Name, Listed<u8>)>,
    people: &[Name],
    channel: &Name,
    state: &State,
    signature: &[u8],
) -> Result<(), NoMemory>
    ensures { OnOk result (sends.new.items ≡ sends.old.items ++ map (λ person.
        (person, message (channel.now, record { state = state.now; signature = signature.now }))) people.now) }
{
    for person in people {
        let bytes = message_of(*sends.allocator(), channel, state, signature)?;
        sends.push((*person, bytes))?;
    }
    Ok(())
}

/// A signed state for each of the channel's other people.
fn sends_among(
    alloc: Global,
    channel: &Name,
    state: &State,
    signature: &[u8],
    k: &Kept,
) -> Result<Vec<(Name, Listed<u8>)>, NoMemory>
    ensures { IfOk result (λ sends.
        sends.items ≡ map (λ person. (
          person,
          message
              (channel.now, record { state = state.now; signature = signature.now }),
        )) (giving.others k.now)) }
{
    let people = people_of(&k.chain.fixed);
    let me = k.me as usize;
    let mut sends = Vec::new(alloc);
    put_sends(
        &mut sends,
        before(people.as_slice(), me),
        channel,
        state,
        signature,
    )?;
    put_sends(
        &mut sends,
        after(people.as_slice(), me),
        channel,
        state,
        signature,
    )?;
    Ok(sends)
}

/// Those of a channel that is kept, and else none.
pub(crate) fn sends_to(
    alloc: Global,
    channel: &Name,
    state: &State,
    signature: &[u8],
    kept: Option<&Kept>,
) -> Result<Vec<(Name, Listed<u8>)>, NoMemory>
    ensures { IfOk result (λ sends.
        sends.items ≡ giving.sends_to channel.now state.now signature.now (option_map (λ m. m.now) kept.entry)) }
{
    match kept {
        None => Ok(Vec::new(alloc)),
        Some(k) => sends_among(alloc, channel, state, signature, k),
    }
}
