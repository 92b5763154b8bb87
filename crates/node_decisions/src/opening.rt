//! Why a command that opens is refused.

ghost use Rattle.std.specs.Prelude.{◌≡◌, ◌≤◌, length, map};
ghost use Rattle.channel_node.specs.Openings as openings;
ghost use Rattle.channel_node.specs.Refusing as refusing;
ghost use Rattle.node_decisions.specs.Lines.{own_ledgers, too_many};
ghost use Rattle.stage_tables.specs.Stages.{stages};
ghost use Rattle.support_rules.specs.Real.{real};

use crate::live::{has_left, not_open};
use crate::planned::{are_new, are_planned, channel_count};
use crate::unfinished::unfinished;
use call_history::NodeRefusal;
use channel_values::{Fixed, Key, Name};
use funding_plans::Facts;
use network::Command;
use node_knowledge::{Known, name_of, place_among, takes_part};
use stage_tables::fits;

/// The names of the channels that a command opens are new.
fn opens_new(known: &Known, command: &Command) -> bool
    ensures { result ≡ refusing.are_new known.now (map real.named (openings.opened_by command.now)) }
{
    match command {
        Command::Open { fixed, .. } => are_new(known, &[name_of(fixed)]),
        Command::OpenOn(funding) => are_new(known, &[name_of(&funding.fixed)]),
        Command::OpenVirtual(funding) => are_new(
            known,
            &[
                name_of(&funding.guarantors.0),
                name_of(&funding.guarantors.1),
                name_of(&funding.joint),
                name_of(&funding.channel),
            ],
        ),
        _ => are_new(known, &[]),
    }
}

fn can_open(known: &Known, command: &Command) -> bool
    ensures { result ≡ refusing.can_open stages real known.now command.now }
{
    fits(&known.facts(), command) && opens_new(known, command)
}

/// The ledgers of a virtual channel on which the part of the participant with this key stands are in the plan.
fn virtual_ledgers_are_planned(known: &Known, ledgers: &(Name, Name), channel: &Fixed) -> bool
    ensures { result ≡ refusing.are_planned known.now (own_ledgers known.now.key ledgers.now channel.now) }
{
    let key = known.key();
    if !takes_part(key, channel) {
        are_planned(known, &[ledgers.0, ledgers.1])
    } else if place_among(key, channel) == 1 {
        are_planned(known, &[ledgers.1])
    } else {
        are_planned(known, &[ledgers.0])
    }
}

/// The ledgers that the part stands on are in the plan.
fn ledgers_are_planned(known: &Known, command: &Command) -> bool
    ensures { result ≡ refusing.are_planned known.now (openings.ledgers_for known.now.key command.now) }
{
    match command {
        Command::OpenOn(funding) => are_planned(known, &[funding.ledger]),
        Command::OpenVirtual(funding) => {
            virtual_ledgers_are_planned(known, &funding.ledgers, &funding.channel)
        }
        _ => are_planned(known, &[]),
    }
}

fn opened_count(command: &Command) -> u32
    ensures value { result ≡ length (openings.opened_by command.now) }
    ensures few { result ≤ 4 }
{
    match command {
        Command::Open { .. } | Command::OpenOn(_) => 1,
        Command::OpenVirtual(_) => 4,
        _ => 0,
    }
}

/// The plan would have more than 64 channels.
fn too_many(known: &Known, command: &Command) -> Option<NodeRefusal>
    ensures { result ≡ too_many known.now command.now }
{
    let count = channel_count(known.parts());
    if count + opened_count(command) > 64 {
        Some(NodeRefusal::TooMany(count))
    } else {
        None
    }
}

pub(crate) fn open_refusal(known: &Known, command: &Command) -> Option<NodeRefusal>
    ensures { result ≡ refusing.open_refusal stages real known.now command.now }
{
    if !ledgers_are_planned(known, command) {
        return Some(NodeRefusal::UnknownChannel);
    }
    let facts = known.facts();
    if let Some(refusal) = not_open(&facts) {
        return Some(refusal);
    }
    if !can_open(known, command) {
        return Some(NodeRefusal::NotAStep);
    }
    if let Some(refusal) = has_left(known) {
        return Some(refusal);
    }
    if let Some(refusal) = unfinished(&facts) {
        return Some(refusal);
    }
    too_many(known, command)
}
