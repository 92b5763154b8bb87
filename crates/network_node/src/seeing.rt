//! Whether an entry can be followed.

ghost use Rattle.std.specs.Prelude.{◌≡◌, ◌↔◌, true, IsTrue};
ghost use Rattle.std.specs.Option.{option_map};
ghost use Rattle.call_history.specs.Naming.{name_of};
ghost use Rattle.call_history.specs.Rows.{fixed_of};
ghost use Rattle.history_view.specs.Views.{view_of};
ghost use Rattle.history_view.specs.Room.{CanFollow};
ghost use Rattle.node_knowledge.specs.Shown.{HasFew, FewIn, CanSee};

use call_history::{Call, Entry, Op, WorldView};
use channel_values::{Chain, Name, channel_name};
use history_view::{can_follow, view_of};

/// The newest chain of the channel that was shown.
fn shown<'a>(view: &'a WorldView, channel: &Name) -> Option<&'a Chain>
    ensures { option_map (λ m. m.now) result ≡ (view_of view.entry.now.channels channel.now).shown }
{
    match view_of(view, channel) {
        None => None,
        Some(known) => known.shown.as_ref(),
    }
}

fn has_few(shown: Option<&Chain>) -> bool
    ensures { IsTrue result ↔ HasFew (option_map (λ m. m.now) shown.entry) }
{
    match shown {
        None => true,
        Some(chain) => chain.states.as_slice().len() <= 255,
    }
}

/// Whether an answer has room on the chain that was shown.
fn has_room(view: &WorldView, op: &Op) -> bool
    ensures { IsTrue result ↔ FewIn view.entry.now op.now (fixed_of op.now) }
{
    match op {
        Op::Call(Call::Respond(answer)) => {
            has_few(shown(view, &channel_name(answer.fixed.bytes())))
        }
        _ => true,
    }
}

/// Whether the entry is the next one, and what it pays and the answer that it gives have room.
pub(crate) fn can_see(view: &WorldView, entry: &Entry) -> bool
    ensures enough { IsTrue result → CanSee entry.now view.entry.now }
    ensures exact { IsTrue result ↔ (CanFollow name_of entry.now view.entry.now
        × FewIn view.entry.now entry.now.op (fixed_of entry.now.op)) }
{
    can_follow(view, entry) && has_room(view, &entry.op)
}
