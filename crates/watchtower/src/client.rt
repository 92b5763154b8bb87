//! A client and its chains.

ghost use Rattle.std.specs.Prelude.{◌≡◌, OnOk, OnErr, position, find};
ghost use Rattle.std.specs.Option.{option_map};
ghost use Rattle.support_rules.specs.Real.{real};
ghost use Rattle.watchtower.specs.Towers.{is_of, named, handed, chain_fault, fault_told};

use crate::fault::HandFault;
use call_history::{HeldChain, top_turn};
use channel_values::{Chain, Listed, Name, NoMemory, channel_name};
use support_rules::supports;

/// No client has chains of more channels.
const MOST_CHAINS: usize = 64;

/// A client, and the last chain that it handed of each channel, in the order in which the channels were first handed.
#[derive(Drop)]
pub struct Client {
    pub name: Name,
    pub chains: Listed<HeldChain>,
}

/// A chain under its channel's name.
pub(crate) fn named(chain: Chain) -> HeldChain
    ensures { result ≡ named chain }
{
    HeldChain {
        channel: channel_name(chain.fixed.bytes()),
        chain,
    }
}

fn place_of(chains: &[HeldChain], channel: &Name) -> Option<usize>
    ensures { result ≡ position (is_of channel.now) chains.now }
{
    chains.iter().position(|held| held.channel == *channel)
}

fn held_of<'a>(chains: &'a [HeldChain], channel: &Name) -> Option<&'a HeldChain>
    ensures { option_map (λ m. m.now) result ≡ find (is_of channel.now) chains.now }
{
    chains.iter().find(|held| held.channel == *channel)
}

/// Why the client that has these chains can't hand a new one, if it can't.
pub(crate) fn check(chains: &[HeldChain], new: &HeldChain) -> Result<(), HandFault>
    ensures { fault_told result ≡ chain_fault real new.now chains.now }
{
    if let Err(fault) = supports(&new.chain) {
        return Err(HandFault::NotSupported(fault));
    }
    match held_of(chains, &new.channel) {
        Some(held) => {
            let turn = top_turn(held.chain.states.as_slice());
            if top_turn(new.chain.states.as_slice()) <= turn {
                return Err(HandFault::NotNewer(turn));
            }
        }
        None => {
            if chains.len() >= MOST_CHAINS {
                return Err(HandFault::TooMany(MOST_CHAINS as u64));
            }
        }
    }
    Ok(())
}

/// Replaces the chain of the same channel, or adds it after the others.
pub(crate) fn put(chains: &mut Listed<HeldChain>, new: HeldChain) -> Result<(), NoMemory>
    ensures ok { OnOk result (chains.new ≡ handed new chains.old) }
    ensures err { OnErr result (chains.new ≡ chains.old) }
{
    match place_of(chains.as_slice(), &new.channel) {
        Some(place) => {
            chains.set(place, new);
            Ok(())
        }
        None => chains.push(new),
    }
}
