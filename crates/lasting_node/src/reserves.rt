//! How many indices of its key a node keeps, so that it can close each of its channels, and challenge in it.

ghost use Rattle.std.specs.Prelude.{◌≡◌, ◌≤◌, ◌<◌, ◌*◌, ◌+◌, ◌^◌, nat_le, length};
ghost use Rattle.channel_node.specs.Openings.{opened_by};
ghost use Rattle.funding_plans.specs.Parts.{channels, channels_of};
ghost use Rattle.lasting_node.specs.Reserves.{ledger_count, signs_for, needed, has_reserve};

use funding_plans::Part;
use network::Command;
use network_node::Node;

/// How many channels a command opens.
fn opened_count(command: &Command) -> u128
    ensures value { result ≡ length (opened_by command.now) }
    ensures few { result ≤ 4 }
{
    match command {
        Command::Open { .. } | Command::OpenOn(_) => 1,
        Command::OpenVirtual(_) => 4,
        Command::Pay { .. }
        | Command::Close { .. }
        | Command::Release { .. }
        | Command::Resend { .. }
        | Command::Exit => 0,
    }
}

fn ledger_count(command: &Command) -> u128
    ensures value { result ≡ ledger_count command.now }
    ensures few { result ≤ 2 }
{
    match command {
        Command::OpenOn(_) => 1,
        Command::OpenVirtual(_) => 2,
        _ => 0,
    }
}

fn signs_for(command: &Command) -> u128
    ensures value { result ≡ signs_for command.now }
    ensures few { result ≤ 12 }
{
    match command {
        Command::Pay { .. } => 1,
        _ => 2 * opened_count(command) + 2 * ledger_count(command),
    }
}

fn channels_in(part: &Part) -> u128
    ensures value { result ≡ length (channels_of part.now) }
    ensures few { result ≤ 4 }
{
    match part {
        Part::Root(_) | Part::OnLedger(_, _) => 1,
        Part::End(_) | Part::Middle(_) => 4,
    }
}

/// How many channels a plan has.
fn channel_count(parts: &[Part]) -> u128
    ensures value { result ≡ length (channels parts.now) }
    ensures few { result ≤ 4 * length parts.now }
{
    match parts {
        [] => 0,
        [first, rest @ ..] => channels_in(first) + channel_count(rest),
    }
}

/// How many indices have to be left before a command is given.
fn needed(node: &Node, command: &Command) -> u128
    ensures value { result ≡ needed node.now command.now }
    ensures few { result < 2 ^ 100 }
{
    let parts = node.plan().parts.as_slice();
    3 * (channel_count(parts) + opened_count(command)) + signs_for(command)
}

fn leaves_enough(node: &Node, command: &Command) -> bool
    ensures { result
        ≡ nat_le (node.now.node.used + needed node.now command.now) (2 ^ node.now.node.signer.h) }
{
    node.used() as u128 + needed(node, command) <= node.limit() as u128
}

/// Whether the key has as many indices left as a command needs.
pub(crate) fn has_reserve(node: &Node, command: &Command) -> bool
    ensures { result ≡ has_reserve node.now command.now }
{
    match command {
        Command::Exit | Command::Release { .. } | Command::Resend { .. } => true,
        _ => leaves_enough(node, command),
    }
}
