//! Why a part isn't closed, or the participant doesn't let go of it.

ghost use Rattle.std.specs.Prelude.{◌≡◌};
ghost use Rattle.channel_node.specs.Refusing as refusing;
ghost use Rattle.stage_tables.specs.Stages.{stages};

use crate::live::{has_left, not_open, not_running, part_with};
use crate::unfinished::unfinished;
use call_history::NodeRefusal;
use channel_values::Name;
use funding_plans::{Facts, Part};
use network::Release;
use node_knowledge::Known;
use stage_tables::{releases, stage};

/// The part stands on the channel and isn't closed.
fn standing_part(facts: &Facts, ledger: &Name, part: &Part) -> Option<NodeRefusal>
    ensures { result ≡ refusing.standing_part stages facts.now ledger.now part.now }
{
    let stage = stage(part, facts);
    if part.stands_on(ledger) && stage != part.closed() {
        Some(NodeRefusal::NotWanted(stage))
    } else {
        None
    }
}

fn standing_among(facts: &Facts, ledger: &Name, parts: &[Part]) -> Option<NodeRefusal>
    ensures { result ≡ refusing.first_fault (refusing.standing_part stages facts.now ledger.now) parts.now }
{
    match parts {
        [] => None,
        [part, others @ ..] => match standing_part(facts, ledger, part) {
            None => standing_among(facts, ledger, others),
            refusal => refusal,
        },
    }
}

/// What holds of every part.
fn close_refusal(known: &Known, part: &Part) -> Option<NodeRefusal>
    ensures { result ≡ refusing.close_part stages known.now (Some part.now) }
{
    let facts = known.facts();
    if let Some(refusal) = not_open(&facts) {
        return Some(refusal);
    }
    if let Some(refusal) = has_left(known) {
        return Some(refusal);
    }
    if let Some(refusal) = unfinished(&facts) {
        return Some(refusal);
    }
    if let Some(refusal) = not_running(&facts, Some(part)) {
        return Some(refusal);
    }
    standing_among(&facts, &part.own_channel(), known.parts())
}

/// Why the part that has a channel isn't closed.
pub(crate) fn close_part(known: &Known, channel: &Name) -> Option<NodeRefusal>
    ensures { result ≡ refusing.close_part stages known.now (refusing.part_with channel.now known.now.parts) }
{
    match part_with(channel, known.parts()) {
        None => Some(NodeRefusal::UnknownChannel),
        Some(part) => close_refusal(known, part),
    }
}

/// What keeps the participant from letting go of a part.
fn part_refusal(known: &Known, how: Release, part: &Part) -> Option<NodeRefusal>
    ensures { result ≡ refusing.release_part stages known.now how (Some part.now) }
{
    let facts = known.facts();
    if let Some(refusal) = has_left(known) {
        return Some(refusal);
    }
    if !releases(&facts, how, part) {
        return Some(NodeRefusal::NotWanted(stage(part, &facts)));
    }
    let channel = part.own_channel();
    standing_among(&facts, &channel, known.parts())
}

/// Why the participant doesn't let go of the part that has a channel.
pub(crate) fn release_part(known: &Known, how: Release, channel: &Name) -> Option<NodeRefusal>
    ensures { result ≡ refusing.release_part stages known.now how (refusing.part_with channel.now known.now.parts) }
{
    match part_with(channel, known.parts()) {
        None => Some(NodeRefusal::UnknownChannel),
        Some(part) => part_refusal(known, how, part),
    }
}
