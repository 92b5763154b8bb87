//! A history, entry after entry.

ghost use Rattle.std.specs.Prelude.{◌≡◌, ◌↔◌, ◌≤◌, ◌+◌, ◌++◌, List, [], length, IsTrue, IfOk, OnOk};
ghost use Rattle.call_history.specs.History.{flow_of};
ghost use Rattle.call_history.specs.declared.entry.Entry.{Entry as AnEntry};
ghost use Rattle.record_checker.specs.Walking.{WalksTo, Steps, Walks, Ends};

use crate::past::Past;
use crate::rests::note;
use adjudicator::Adjudicator;
use call_bytes::same_reply;
use call_history::{Entry, Flow, Reply, flow_of};
use channel_values::{Name, NoMemory, Outcome};
use indexmap::IndexMap;
use std::alloc::Global;

/// What a history is: legal, and then what it says and its flows; or else the number of its first wrong entry.
#[derive(Drop)]
pub(crate) enum Walked<'a> {
    Whole(Past<'a>, Vec<Flow>),
    Wrong(usize),
}

/// Adds the flow of an accepted call.
fn add_flow(flows: &mut Vec<Flow>, entry: &Entry) -> Result<(), NoMemory>
    ensures { OnOk result (flows.new.items ≡ flows.old.items ++ flow_of entry.now.op entry.now.reply) }
{
    if let Some(flow) = flow_of(&entry.op, &entry.reply) {
        flows.push(flow)?;
    }
    Ok(())
}

/// Whether the entry has this number and this reply.
fn is_next(alloc: Global, entry: &Entry, number: usize, reply: &Reply) -> Result<bool, NoMemory>
    ensures { IfOk result (λ b. IsTrue b ↔ ((entry.now.number ≡ number) × (entry.now.reply ≡ reply.now))) }
{
    let same = same_reply(alloc, &entry.reply, reply)?;
    Ok(entry.number as usize == number && same)
}

/// Whether the entry has this number and the reply that the adjudicator gives; then it is applied and noted.
fn step(
    alloc: Global,
    adjudicator: &mut Adjudicator,
    rests: &mut IndexMap<Name, Option<Outcome>>,
    flows: &mut Vec<Flow>,
    entry: &Entry,
    number: usize,
) -> Result<bool, NoMemory>
    requires { 1 ≤ number }
    ensures { (g : List AnEntry) → WalksTo g adjudicator.old rests.old.entries flows.old.items → number ≡ length g + 1
        → IfOk result (λ follows. Steps follows g entry.now adjudicator.new rests.new.entries flows.new.items) }
{
    adjudicator.reserve()?;
    let now = adjudicator.now();
    let reply = adjudicator.apply(&entry.op);
    if !is_next(alloc, entry, number, &reply)? {
        return Ok(false);
    }
    note(alloc, rests, now, entry)?;
    add_flow(flows, entry)?;
    Ok(true)
}

/// Applies the entries in their order, and answers the number of the first that is wrong.
fn walk_on(
    alloc: Global,
    adjudicator: &mut Adjudicator,
    rests: &mut IndexMap<Name, Option<Outcome>>,
    flows: &mut Vec<Flow>,
    history: &[Entry],
) -> Result<Option<usize>, NoMemory>
    requires { WalksTo [] adjudicator.old rests.old.entries flows.old.items }
    ensures { IfOk result (λ wrong. Walks wrong history.now adjudicator.new rests.new.entries flows.new.items) }
{
    let mut count = 0;
    for entry in history {
        if !step(alloc, adjudicator, rests, flows, entry, count + 1)? {
            return Ok(Some(count + 1));
        }
        count += 1;
    }
    Ok(None)
}

/// What a history is, by a new adjudicator.
pub(crate) fn walk_through<'a>(alloc: Global, history: &'a [Entry]) -> Result<Walked<'a>, NoMemory>
    ensures { IfOk result (Ends history.now) }
{
    let mut adjudicator = Adjudicator::make(alloc);
    let mut rests = IndexMap::new(alloc);
    let mut flows = Vec::new(alloc);
    match walk_on(alloc, &mut adjudicator, &mut rests, &mut flows, history)? {
        Some(number) => Ok(Walked::Wrong(number)),
        None => Ok(Walked::Whole(Past::make(history, adjudicator, rests), flows)),
    }
}
