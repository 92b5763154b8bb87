//! The journals of nodes, and what their types promise.

ghost use Rattle.std.specs.Prelude.{◌≡◌, map, IfOk};
ghost use Rattle.std.specs.List.{AllByRecursion};
ghost use Rattle.channel_safety.specs.Valid.{IsValidEvent};
ghost use Rattle.play_report.specs.Members.{AllFixed};
ghost use Rattle.play_report.specs.Reported.{journal_of};

use call_history::Event;
use channel_safety::events_are_valid;
use channel_values::{Listed, NoMemory};
use network::{Member, Party};
use node_guarantees::ReportedNode;
use premises::Journal;
use std::alloc::Global;

fn copy_events(alloc: Global, events: &[Event]) -> Result<Vec<Event>, NoMemory>
    ensures { IfOk result (λ copies. copies.items ≡ events.now) }
{
    let mut copies = Vec::new(alloc);
    for event in events {
        let copy = event.copy()?;
        copies.push(copy)?;
    }
    Ok(copies)
}

fn journal_of<P: Party>(alloc: Global, member: &Member<P>) -> Result<Journal, NoMemory>
    ensures { IfOk result (λ j. j ≡ journal_of P.ways member.now) }
{
    let node = member.node();
    let events = copy_events(alloc, node.journal())?;
    Ok(Journal {
        number: node.number(),
        key: *node.key(),
        events: Listed::make(events),
    })
}

/// The journals of nodes, in their order.
#[tactic(auto, using(premises::proofs::Adding::map_step))]
pub(crate) fn journals_of<P: Party>(
    alloc: Global,
    members: &[Member<P>],
) -> Result<Vec<Journal>, NoMemory>
    ensures { IfOk result (λ journals. journals.items ≡ map (journal_of P.ways) members.now) }
{
    let mut journals = Vec::new(alloc);
    for member in members {
        let journal = journal_of(alloc, member)?;
        journals.push(journal)?;
    }
    Ok(journals)
}

/// The values in the journals are such as their types promise.
pub(crate) fn journals_are_valid(journals: &[Journal])
    ensures { AllByRecursion (λ j. AllByRecursion IsValidEvent j.events) journals.now }
{
    for journal in journals {
        events_are_valid(journal.events.as_slice());
    }
}

/// The fixed parts that the commands of the nodes add are such as their type promises.
pub(crate) fn openings_are_fixed<P: ReportedNode>(members: &[Member<P>])
    ensures { AllFixed P.ways members.now }
{
    for person in members {
        person.node().openings_are_fixed();
    }
}
