//! What is commanded of a part that is to close.

ghost use Rattle.std.specs.Prelude.{◌≡◌, ◌==◌, map};
ghost use Rattle.channel_node.specs.Minds.{place_with, close_if};

use channel_values::Name;
use funding_plans::{Goal, Part};

/// The place of the part that has a channel, or how many parts there are.
pub fn place_with(channel: &Name, parts: &[Part]) -> usize
    ensures { result ≡ place_with channel.now parts.now }
{
    for (place, part) in parts.iter().enumerate() {
        if part.has_channel(channel) {
            return place;
        }
    }
    parts.len()
}

/// The part at a place is to close; with `lets` the participant lets go of it.
pub(crate) fn close(goals: &mut [Goal], place: usize, lets: bool)
    ensures { goals.new ≡ map (λ goal. close_if lets (goal.part == place) goal) goals.old }
{
    for goal in goals.iter_mut() {
        if goal.part as usize == place {
            goal.closing = true;
            goal.over = lets | goal.over;
        }
    }
}
