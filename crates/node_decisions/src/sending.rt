//! Why a state isn't sent again.

ghost use Rattle.std.specs.Prelude.{◌≡◌};
ghost use Rattle.channel_node.specs.Refusing as refusing;
ghost use Rattle.channel_store.specs.Storing.{kept_of};
ghost use Rattle.stage_tables.specs.Stages.{stages};

use crate::live::{part_joined, stage_of};
use call_history::NodeRefusal;
use channel_store::Kept;
use channel_values::Name;
use node_knowledge::Known;

fn unsigned(known: &Known, channel: &Name, kept: &Kept) -> Option<NodeRefusal>
    ensures { result ≡ refusing.resend_refusal stages known.now channel.now (Some kept.now) }
{
    if kept.last.is_some() {
        return None;
    }
    let part = part_joined(channel, known.parts());
    Some(NodeRefusal::NotWanted(stage_of(&known.facts(), part)))
}

/// Why the newest state that the node signed in a channel isn't sent again.
pub(crate) fn resend_refusal(known: &Known, channel: &Name) -> Option<NodeRefusal>
    ensures { result ≡ refusing.resend_refusal stages known.now channel.now (kept_of channel.now known.now.kept) }
{
    match known.store().kept(channel) {
        None => Some(NodeRefusal::UnknownChannel),
        Some(kept) => unsigned(known, channel, kept),
    }
}
