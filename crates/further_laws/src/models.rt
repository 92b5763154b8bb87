//! The laws over model lists, the newest first. Their parts carry no types, so that they are valid is a premise. Each
//! function is empty: its contract is the law.

ghost use Rattle.std.specs.Prelude.{List};
ghost use Rattle.call_history.specs.declared.entry.Entry.{Entry};
ghost use Rattle.channel_safety.specs.Journals.{Line};
ghost use Rattle.channel_safety.specs.Occurring.{AreValid};
ghost use Rattle.further_laws.specs.Network.{RacedWatchersAreInTime, RacedOutcomesAreNotOlder, RacedSharesAreKept, RacedExitsPay, RacedLeaversArePaid};

/// `raced_watchers_are_in_time` of each history and journal whose parts are valid.
pub fn raced_watchers_of_models_are_in_time()
    ensures { (h : List Entry) (journal : List Line) → AreValid h journal → RacedWatchersAreInTime h journal }
{}

/// `raced_outcomes_are_not_older` likewise.
pub fn raced_outcomes_of_models_are_not_older()
    ensures { (h : List Entry) (journal : List Line) → AreValid h journal → RacedOutcomesAreNotOlder h journal }
{}

/// `raced_shares_are_kept` likewise.
pub fn raced_shares_of_models_are_kept()
    ensures { (h : List Entry) (journal : List Line) → AreValid h journal → RacedSharesAreKept h journal }
{}

/// `raced_exits_pay` likewise.
pub fn raced_exits_of_models_pay()
    ensures { (h : List Entry) (journal : List Line) → AreValid h journal → RacedExitsPay h journal }
{}

/// `raced_leavers_are_paid` likewise.
pub fn raced_leavers_of_models_are_paid()
    ensures { (h : List Entry) (journal : List Line) → AreValid h journal → RacedLeaversArePaid h journal }
{}
