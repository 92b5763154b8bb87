//! Whether every live channel is open, and the part that a channel is of.

ghost use Rattle.std.specs.Prelude.{◌≡◌};
ghost use Rattle.std.specs.Option.{option_copied};
ghost use Rattle.funding_plans.specs.Parts.{joined_of};
ghost use Rattle.channel_node.specs.Refusing as refusing;
ghost use Rattle.stage_tables.specs.Stages.{stages};

use call_history::{NodeRefusal, Standing};
use channel_values::Name;
use funding_plans::{Facts, Part};
use node_knowledge::{Known, stands_in};
use stage_tables::stage;

fn not_open_in(facts: &Facts, channel: &Name) -> Option<NodeRefusal>
    ensures { result ≡ refusing.not_open_in facts.now channel.now }
{
    match stands_in(facts, channel) {
        Standing::Open => None,
        standing => Some(NodeRefusal::NotOpen(*channel, standing)),
    }
}

/// The first of these channels that isn't open.
fn not_open_among(facts: &Facts, channels: &[Name]) -> Option<NodeRefusal>
    ensures { result ≡ refusing.first_fault (refusing.not_open_in facts.now) channels.now }
{
    match channels {
        [] => None,
        [channel, others @ ..] => match not_open_in(facts, channel) {
            None => not_open_among(facts, others),
            refusal => refusal,
        },
    }
}

/// The first channel of the part in which the person is a participant that isn't open.
fn not_open_joined(facts: &Facts, part: &Part) -> Option<NodeRefusal>
    ensures { result ≡ refusing.first_fault (refusing.not_open_in facts.now) (joined_of part.now) }
{
    match part {
        Part::Root(channel) => not_open_among(facts, &[*channel]),
        Part::OnLedger(_, channel) => not_open_among(facts, &[*channel]),
        Part::End(v) => not_open_among(facts, &[v.own_guarantor(), v.joint, v.channel]),
        Part::Middle(v) => not_open_among(facts, &[v.guarantor_a, v.guarantor_b, v.joint]),
    }
}

/// The same of a part that isn't closed.
fn not_open_part(facts: &Facts, part: &Part) -> Option<NodeRefusal>
    ensures { result ≡ refusing.not_open_part stages facts.now part.now }
{
    if stage(part, facts) == part.closed() {
        None
    } else {
        not_open_joined(facts, part)
    }
}

fn not_open_parts(facts: &Facts, parts: &[Part]) -> Option<NodeRefusal>
    ensures { result ≡ refusing.first_fault (refusing.not_open_part stages facts.now) parts.now }
{
    match parts {
        [] => None,
        [part, others @ ..] => match not_open_part(facts, part) {
            None => not_open_parts(facts, others),
            refusal => refusal,
        },
    }
}

/// The first live channel that isn't open.
pub fn not_open(facts: &Facts) -> Option<NodeRefusal>
    ensures { result ≡ refusing.not_open stages facts.now }
{
    not_open_parts(facts, facts.plan.parts.as_slice())
}

/// The refusal once the node left: nothing more is signed or taken.
pub fn has_left(known: &Known) -> Option<NodeRefusal>
    ensures { result ≡ refusing.has_left known.now }
{
    if known.left() {
        Some(NodeRefusal::NotWanted(99))
    } else {
        None
    }
}

/// The part that has a channel.
pub fn part_with<'a>(channel: &Name, parts: &'a [Part]) -> Option<&'a Part>
    ensures { option_copied result ≡ refusing.part_with channel.now parts.now }
{
    parts.iter().find(|part| part.has_channel(channel))
}

/// The part that has a channel in which the person is a participant.
pub fn part_joined<'a>(channel: &Name, parts: &'a [Part]) -> Option<&'a Part>
    ensures { option_copied result ≡ refusing.part_joined channel.now parts.now }
{
    parts.iter().find(|part| part.joins(channel))
}

/// The stage of a part, or 0 where there is none.
pub fn stage_of(facts: &Facts, part: Option<&Part>) -> u8
    ensures { result ≡ refusing.stage_of stages facts.now (option_copied part.entry) }
{
    match part {
        None => 0,
        Some(part) => stage(part, facts),
    }
}

/// Why the part isn't running.
pub fn not_running(facts: &Facts, part: Option<&Part>) -> Option<NodeRefusal>
    ensures { result ≡ refusing.not_running stages facts.now (option_copied part.entry) }
{
    let Some(part) = part else {
        return Some(NodeRefusal::NotWanted(0));
    };
    let stage = stage(part, facts);
    if stage == part.running() {
        None
    } else {
        Some(NodeRefusal::NotWanted(stage))
    }
}
