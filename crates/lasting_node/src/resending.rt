//! The last messages once more.

ghost use Rattle.std.specs.Prelude.{◌≡◌, ◌++◌, flat_map, length, IfOk, OnOk};
ghost use Rattle.channel_values.specs.Digests.{name_of_person};
ghost use Rattle.call_history.specs.Naming.{name_of};
ghost use Rattle.call_history.specs.Spelling.{message};
ghost use Rattle.node_guarantees.specs.Ways.{ways};
ghost use Rattle.channel_node.specs.Openings.{opened_by};
ghost use Rattle.lasting_node.specs.Queries.{letter_to, letters, letters_in, later, last_letters, resent, resent_text, sends_text};

use crate::effects::add_sends;
use crate::machine::{NodeMachine, lines_of};
use call_bytes::write_message;
use call_history::{Deed, Event};
use channel_values::{
    Fixed, Key, Listed, MOST_SIGNATURE_BYTES, Name, NoMemory, Signed, State, channel_name,
    person_name,
};
use network::{Command, Party};
use network_node::Node;
use std::alloc::Global;

/// A message, with the person it is for.
type Letter = (Name, Listed<u8>);

/// The canonical bytes of a message.
fn message_bytes(
    alloc: Global,
    fixed: &Fixed,
    state: &State,
    signature: &Listed<u8>,
) -> Result<Listed<u8>, NoMemory>
    ensures { IfOk result (λ bytes.
        bytes ≡ message (name_of fixed.now, record { state = state.now; signature = signature.now })) }
{
    if signature.as_slice().len() > MOST_SIGNATURE_BYTES {
        return Err(NoMemory);
    }
    let signed = Signed {
        state: state.copy()?,
        signature: signature.copy()?,
    };
    let mut bytes = Vec::new(alloc);
    write_message(&channel_name(fixed.bytes()), &signed, &mut bytes)?;
    Ok(Listed::make(bytes))
}

/// Adds the message of a state for the person with this key, if it is another.
fn add_letter(
    all: &mut Vec<Letter>,
    me: &Name,
    fixed: &Fixed,
    state: &State,
    signature: &Listed<u8>,
    key: &Key,
) -> Result<(), NoMemory>
    ensures { OnOk result (all.new.items
        ≡ all.old.items ++ letter_to me.now fixed.now state.now signature.now key.now) }
{
    let person = person_name(key);
    if person != *me {
        let bytes = message_bytes(*all.allocator(), fixed, state, signature)?;
        all.push((person, bytes))?;
    }
    Ok(())
}

#[tactic(auto, using(premises::proofs::Adding::joined_step))]
fn letters(
    alloc: Global,
    me: &Name,
    fixed: &Fixed,
    state: &State,
    signature: &Listed<u8>,
) -> Result<Vec<Letter>, NoMemory>
    ensures { IfOk result (λ all. all.items ≡ letters me.now fixed.now state.now signature.now) }
{
    let mut all = Vec::new(alloc);
    for key in fixed.keys() {
        add_letter(&mut all, me, fixed, state, signature, key)?;
    }
    Ok(all)
}

fn letters_in(alloc: Global, me: &Name, fixed: &Fixed, deed: &Deed) -> Result<Vec<Letter>, NoMemory>
    ensures { IfOk result (λ all. all.items ≡ letters_in me.now fixed.now deed.now) }
{
    match deed {
        Deed::Signed(channel, state, signature) => {
            if *channel == channel_name(fixed.bytes()) {
                letters(alloc, me, fixed, state, signature)
            } else {
                Ok(Vec::new(alloc))
            }
        }
        _ => Ok(Vec::new(alloc)),
    }
}

fn later(before: Vec<Letter>, next: Vec<Letter>) -> Vec<Letter>
    ensures { result.items ≡ later before.items next.items }
{
    if next.is_empty() { before } else { next }
}

/// The messages of the last state that the node signed in a channel.
fn last_letters(
    alloc: Global,
    me: &Name,
    fixed: &Fixed,
    events: &[Event],
) -> Result<Vec<Letter>, NoMemory>
    ensures { IfOk result (λ all. all.items ≡ last_letters me.now fixed.now events.now) }
{
    let mut last = Vec::new(alloc);
    for event in events {
        let next = letters_in(alloc, me, fixed, &event.deed)?;
        last = later(last, next);
    }
    Ok(last)
}

fn add_channel(all: &mut Vec<Letter>, node: &Node, fixed: &Fixed) -> Result<(), NoMemory>
    ensures { OnOk result (all.new.items ≡ all.old.items
        ++ last_letters (name_of_person (ways.key node.now)) fixed.now (ways.journal node.now)) }
{
    let me = person_name(node.key());
    let mut letters = last_letters(*all.allocator(), &me, fixed, node.journal())?;
    all.append(&mut letters)?;
    Ok(())
}

fn add_opened(all: &mut Vec<Letter>, node: &Node, command: &Command) -> Result<(), NoMemory>
    ensures { OnOk result (all.new.items ≡ all.old.items
        ++ flat_map (λ f. last_letters (name_of_person (ways.key node.now)) f (ways.journal node.now))
        (opened_by command.now)) }
{
    match command {
        Command::Open { fixed, .. } => add_channel(all, node, fixed),
        Command::OpenOn(funding) => add_channel(all, node, &funding.fixed),
        Command::OpenVirtual(funding) => {
            let (first, second) = &funding.guarantors;
            add_channel(all, node, first)?;
            add_channel(all, node, second)?;
            add_channel(all, node, &funding.joint)?;
            add_channel(all, node, &funding.channel)
        }
        _ => Ok(()),
    }
}

fn resent(alloc: Global, node: &Node) -> Result<Vec<Letter>, NoMemory>
    ensures { IfOk result (λ all. all.items ≡ resent node.now) }
{
    let mut all = Vec::new(alloc);
    for command in node.commands() {
        add_opened(&mut all, node, command)?;
    }
    Ok(all)
}

#[tactic(auto, unfolding(crate::specs::Queries::resent_text))]
fn resent_text(alloc: Global, count: usize) -> Result<Vec<u8>, NoMemory>
    ensures { IfOk result (λ text. text.items ≡ resent_text count) }
{
    let text = format!(in alloc; "{{\"effect\":\"resent\",\"count\":{count}}}\n")?;
    Ok(text.into_bytes())
}

fn sends_text(alloc: Global, number: u32, letters: &[Letter]) -> Result<Vec<u8>, NoMemory>
    ensures { IfOk result (λ text. text.items ≡ sends_text number letters.now) }
{
    let mut effects = Vec::new(alloc);
    add_sends(&mut effects, letters)?;
    let mut text = lines_of(alloc, number, &effects)?;
    text.extend_from_slice(&resent_text(alloc, letters.len())?)?;
    Ok(text)
}

impl NodeMachine {
    /// The message of the last state that the node signed, once more, in each channel that a command opened.
    pub(crate) fn resend(&self, alloc: Global) -> Result<Vec<u8>, NoMemory>
        ensures { IfOk result (λ text. text.items ≡ sends_text self.now.count (resent self.now.node)) }
    {
        let letters = resent(alloc, &self.node)?;
        sends_text(alloc, self.count, &letters)
    }
}
