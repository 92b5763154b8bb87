//! What flows sum up to.

ghost use Rattle.std.specs.Prelude.{◌≡◌};
ghost use Rattle.call_history.specs.Flows.{into, out_of, held_in, paid_in, deposited_in, held_by_all, paid_to_all, is_person, comes_from, AreWithinAmounts};

use crate::funds::Flow;
use channel_values::{Dest, Name};

/// What flowed to a destination. Funds may pass through a channel again and again, so the sum may be above any `u64`.
fn received(flows: &[Flow], to: &Dest, asset: u32) -> u128
    ensures { result ≡ into flows.now to.now asset }
{
    let mut sum: u128 = 0;
    for flow in flows {
        if flow.to == *to && flow.asset == asset {
            sum += u128::from(flow.amount);
        }
    }
    sum
}

fn is_from(flow: &Flow, channel: &Name) -> bool
    ensures { result ≡ comes_from channel.now flow.now.from }
{
    match &flow.from {
        Some(source) => *source == *channel,
        None => false,
    }
}

/// What flowed out of a channel.
fn sent(flows: &[Flow], channel: &Name, asset: u32) -> u128
    ensures { result ≡ out_of flows.now channel.now asset }
{
    let mut sum: u128 = 0;
    for flow in flows {
        if is_from(flow, channel) && flow.asset == asset {
            sum += u128::from(flow.amount);
        }
    }
    sum
}

/// What a channel holds of an asset.
#[tactic(auto, using(crate::proofs::Conservation::held_fits))]
pub fn held(flows: &[Flow], channel: &Name, asset: u32) -> u64
    requires { AreWithinAmounts flows.now }
    ensures { result ≡ held_in flows.now channel.now asset }
{
    let received = received(flows, &Dest::Channel(*channel), asset);
    (received - sent(flows, channel, asset)) as u64
}

/// What a person was paid of an asset.
#[tactic(auto, using(crate::proofs::Conservation::paid_fits))]
pub fn paid(flows: &[Flow], person: &Name, asset: u32) -> u64
    requires { AreWithinAmounts flows.now }
    ensures { result ≡ paid_in flows.now person.now asset }
{
    received(flows, &Dest::Person(*person), asset) as u64
}

fn is_person(dest: &Dest) -> bool
    ensures { result ≡ is_person dest.now }
{
    matches!(dest, Dest::Person(_))
}

/// What all persons were paid of an asset.
pub fn paid_to_all(flows: &[Flow], asset: u32) -> u64
    requires { AreWithinAmounts flows.now }
    ensures { result ≡ paid_to_all flows.now asset }
{
    let mut sum: u128 = 0;
    for flow in flows {
        if is_person(&flow.to) && flow.asset == asset {
            sum += u128::from(flow.amount);
        }
    }
    sum as u64
}

/// What all channels hold of an asset.
#[tactic(auto, using(crate::proofs::Conservation::held_is_left))]
pub fn held_by_all(flows: &[Flow], asset: u32) -> u64
    requires { AreWithinAmounts flows.now }
    ensures { result ≡ held_by_all flows.now asset }
{
    deposited(flows, asset) - paid_to_all(flows, asset)
}

/// What was deposited of an asset.
#[tactic(auto, using(crate::proofs::Conservation::deposit_fits))]
pub fn deposited(flows: &[Flow], asset: u32) -> u64
    requires { AreWithinAmounts flows.now }
    ensures { result ≡ deposited_in flows.now asset }
{
    let mut sum: u128 = 0;
    for flow in flows {
        if flow.from.is_none() && flow.asset == asset {
            sum += u128::from(flow.amount);
        }
    }
    sum as u64
}
