//! Laws alone: what a node's mind keeps is what is held, and its journal is honest, whatever its stages are; keys
//! that are made of a seed sign well. Each function is empty: its contract is the law.

ghost use Rattle.channel_node.specs.Stored.{RefusedAsNoted};
ghost use Rattle.channel_node.specs.NodeLaws.{CallsKeepStanding, FollowsWithin, FreshNodesStand, KeptIsHeld, LostNodesStand, PlayedJournalsAreHonest, PlayedJournalsLeaveForGood, StandingGrows, StandingNodesAreHonest};
ghost use Rattle.channel_node.specs.Keys.{MadeKeysSignWell, MadeNodesAreHonest};

/// What a node's rules keep of a channel at a place of a legal history and a journal is what is held of it there.
pub fn kept_is_held()
    ensures { KeptIsHeld }
{}

/// A journal whose events are what a node's rules give at their places is honest over the whole legal history.
pub fn played_journals_are_honest()
    ensures { PlayedJournalsAreHonest }
{}

/// After an exit that was accepted a node signs no state, and it challenges only then.
pub fn played_journals_leave_for_good()
    ensures { PlayedJournalsLeaveForGood }
{}

/// A node that stands for a legal history still does after a message, a command or a tick with its states, challenges
/// and calls. So it does after a look of its watcher, or the entry that comes next.
pub fn calls_keep_standing()
    ensures { CallsKeepStanding }
{}

/// A new node stands for every history.
pub fn fresh_nodes_stand()
    ensures { FreshNodesStand }
{}

/// A node whose memory ran out stands for what it stood for, as long as its journal and its commands stay.
pub fn lost_nodes_stand()
    ensures { LostNodesStand }
{}

/// The journal of a node that stands for a legal history is honest.
pub fn standing_nodes_are_honest()
    ensures { StandingNodesAreHonest }
{}

/// A node that stands for a history stands for it with one more entry.
pub fn standing_grows()
    ensures { StandingGrows }
{}

/// And it has followed no more entries than there are.
pub fn follows_within()
    ensures { FollowsWithin }
{}

/// The lines of a message's table that are about its state are the faults of a note, in their order.
pub fn refused_as_noted()
    ensures { RefusedAsNoted }
{}

/// Each signature of a key that is made of a seed verifies, as often as it signs.
pub fn made_keys_sign_well()
    ensures { MadeKeysSignWell }
{}

/// The journal of a node with such a key is honest over every legal history that it stands for, with no premise
/// besides.
pub fn made_nodes_are_honest()
    ensures { MadeNodesAreHonest }
{}
