//! What a view says.

ghost use Rattle.std.specs.Prelude.{◌≡◌, MatchOption};
ghost use Rattle.std.specs.List.{find};
ghost use Rattle.std.specs.Option.{option_map};
ghost use Rattle.history_view.specs.Views.{unknown, is_of, view_of, held_amount, paid_amount};

use crate::balances::amount_held;
use call_history::{ChannelView, WorldView};
use channel_values::Name;

/// What is known of the channel, if anything is.
pub fn view_of<'a>(view: &'a WorldView, channel: &Name) -> Option<&'a ChannelView>
    ensures found { option_map (λ v. v.now) result ≡ find (is_of channel.now) view.entry.now.channels }
    ensures meant { MatchOption result (view_of view.entry.now.channels channel.now ≡ unknown channel.now)
        (λ v. view_of view.entry.now.channels channel.now ≡ v.now) }
{
    view.channels.get(channel)
}

/// What the channel holds of the asset.
pub fn held_amount(view: &WorldView, channel: &Name, asset: u32) -> u64
    ensures { result ≡ held_amount (view_of view.entry.now.channels channel.now).held asset }
{
    match view_of(view, channel) {
        Some(known) => amount_held(known.held.as_slice(), asset),
        None => 0,
    }
}

/// What the person was paid of the asset.
pub fn paid_amount(view: &WorldView, person: &Name, asset: u32) -> u64
    ensures { result ≡ paid_amount view.entry.now.paid person.now asset }
{
    view.paid.amount(person, asset)
}
