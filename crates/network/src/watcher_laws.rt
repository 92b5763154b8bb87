//! What watchers stand for. Each function is empty: its contract is the law.

ghost use Rattle.network.specs.Laws.{UnseeingStands, LooksAreKept, LooksAreTheHistorys};

/// A watcher that has followed nothing stands for the empty history, under any rules.
pub fn unseeing_stands()
    ensures { UnseeingStands }
{}

/// A watcher that stands for a history stands for the longer one once it has followed the entries that come next. The
/// longer history is legal, and the rules name channels as this network does.
pub fn looks_are_kept()
    ensures { LooksAreKept }
{}

/// The checkpoints of a watcher that stands for a history are those of the channels that are then challenged below the
/// held chain, in the order of the chains.
pub fn looks_are_the_historys()
    ensures { LooksAreTheHistorys }
{}
