//! Which channels are in a node's plan.

ghost use Rattle.std.specs.Prelude.{◌≡◌, ◌≤◌, ◌*◌, length, not};
ghost use Rattle.std.specs.List.{list_all};
ghost use Rattle.call_history.specs.Flows.{is_among};
ghost use Rattle.funding_plans.specs.Parts.{channels_of, channels};
ghost use Rattle.channel_node.specs.Openings.{are_apart};
ghost use Rattle.channel_node.specs.Refusing.{is_planned, are_new, goal_about, is_over, is_there, are_planned};

use channel_values::Name;
use funding_plans::{Part, goal_in};
use node_knowledge::Known;
use stage_tables::is_among;

fn channels_in(part: &Part) -> u32
    ensures value { result ≡ length (channels_of part.now) }
    ensures few { result ≤ 4 }
{
    match part {
        Part::Root(_) | Part::OnLedger(_, _) => 1,
        Part::End(_) | Part::Middle(_) => 4,
    }
}

/// How many channels a plan has.
#[tactic(auto, using(crate::proofs::Among::count_more))]
pub(crate) fn channel_count(parts: &[Part]) -> u32
    requires { length parts.now ≤ 64 }
    ensures value { result ≡ length (channels parts.now) }
    ensures few { result ≤ 4 * length parts.now }
{
    match parts {
        [] => 0,
        [part, others @ ..] => channels_in(part) + channel_count(others),
    }
}

/// Whether a part has the channel.
#[tactic(auto, using(crate::proofs::Among::among_more))]
fn has_channel(parts: &[Part], name: &Name) -> bool
    ensures { result ≡ is_among name.now (channels parts.now) }
{
    match parts {
        [] => false,
        [part, others @ ..] => part.has_channel(name) || has_channel(others, name),
    }
}

/// Whether the node keeps the channel, or a part of its plan has it.
fn is_planned(known: &Known, name: &Name) -> bool
    ensures { result ≡ is_planned known.now name.now }
{
    known.store().kept(name).is_some() || has_channel(known.parts(), name)
}

/// Whether the node let go of the part that is about the channel.
fn is_let_go(known: &Known, name: &Name) -> bool
    ensures { result ≡ is_over (goal_about known.now name.now) }
{
    match goal_in(&known.facts(), name) {
        None => false,
        Some(goal) => goal.over,
    }
}

/// Whether the channel is in the plan, and the node didn't let go of it.
fn is_there(known: &Known, name: &Name) -> bool
    ensures { result ≡ is_there known.now name.now }
{
    has_channel(known.parts(), name) && !is_let_go(known, name)
}

/// Whether each of these channels is in the plan, and the node let go of none.
pub(crate) fn are_planned(known: &Known, names: &[Name]) -> bool
    ensures { result ≡ are_planned known.now names.now }
{
    match names {
        [] => true,
        [name, others @ ..] => is_there(known, name) && are_planned(known, others),
    }
}

fn are_apart(names: &[Name]) -> bool
    ensures { result ≡ are_apart names.now }
{
    match names {
        [] => true,
        [name, others @ ..] => !is_among(name, others) && are_apart(others),
    }
}

fn none_planned(known: &Known, names: &[Name]) -> bool
    ensures { result ≡ list_all (λ name. not (is_planned known.now name)) names.now }
{
    match names {
        [] => true,
        [name, others @ ..] => !is_planned(known, name) && none_planned(known, others),
    }
}

/// Whether the channels are apart, and none is in the plan.
pub(crate) fn are_new(known: &Known, names: &[Name]) -> bool
    ensures { result ≡ are_new known.now names.now }
{
    are_apart(names) && none_planned(known, names)
}
