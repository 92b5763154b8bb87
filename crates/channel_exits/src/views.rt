//! What the view says of a channel.

ghost use Rattle.std.specs.Prelude.{◌≡◌};
ghost use Rattle.std.specs.Option.{option_copied};
ghost use Rattle.channel_exits.specs.Exits as exits;
ghost use Rattle.funding_plans.specs.Gathered as gathered;

use call_history::{ChannelView, HeldChain, Standing, WorldView, mode};
use channel_values::{Name, Outcome};
use funding_plans::{chain_in, view_in};

fn is_final_at(now: u64, view: Option<&ChannelView>) -> bool
    ensures { result ≡ exits.is_final_at now (option_copied view.entry) }
{
    match view {
        None => false,
        Some(view) => mode(view.deadline, now) == Standing::Final,
    }
}

fn is_final_in(world: &WorldView, name: &Name) -> bool
    ensures { result ≡ exits.is_final_in world.entry.now name.now }
{
    is_final_at(world.now, view_in(&world.channels, name))
}

fn settled_at<'a>(view: Option<&'a ChannelView>) -> Option<&'a Outcome>
    ensures { option_copied result ≡ exits.settled_at (option_copied view.entry) }
{
    match view {
        None => None,
        Some(view) => view.settled.as_ref(),
    }
}

fn settled_in<'a>(world: &'a WorldView, name: &Name) -> Option<&'a Outcome>
    ensures { option_copied result ≡ exits.settled_at (gathered.view_in name.now world.entry.now.channels) }
{
    settled_at(view_in(&world.channels, name))
}

/// What a final channel ended with.
pub(crate) fn ended_in<'a>(world: &'a WorldView, name: &Name) -> Option<&'a Outcome>
    ensures { option_copied result ≡ exits.ended_in world.entry.now name.now }
{
    if is_final_in(world, name) {
        settled_in(world, name)
    } else {
        None
    }
}

fn is_held(chains: &[HeldChain], name: &Name) -> bool
    ensures { result ≡ exits.is_held name.now chains.now }
{
    match chain_in(chains, name) {
        None => false,
        Some(_) => true,
    }
}

/// The channel, where a chain of it is held and it isn't final.
pub(crate) fn not_final(world: &WorldView, chains: &[HeldChain], name: &Name) -> Option<Name>
    ensures { result ≡ exits.not_final world.entry.now chains.now name.now }
{
    if is_held(chains, name) && !is_final_in(world, name) {
        Some(*name)
    } else {
        None
    }
}
