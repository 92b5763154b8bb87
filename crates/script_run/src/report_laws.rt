//! Laws alone: the record of a report is sound. Each function is empty: its contract is the law.

ghost use Rattle.std.specs.Prelude.{List};
ghost use Rattle.script_run.specs.Laws.{PlaysHaveSoundRecords, RacesHaveSoundRecords, RecordsHaveSums};
ghost use Rattle.network_rounds.specs.Players.{Player};

use network::Party;

/// The history of a record is legal, and its sums are those of the history's flows.
pub fn records_have_sums<P: Party>()
    ensures { RecordsHaveSums P.ways }
{}

/// A checker finds no fault in the record of a play, where nothing of each person with a node is said to be forged
/// and no strings collide. Its watchers needn't be in time.
pub fn plays_have_sound_records<P: Party>()
    ensures { PlaysHaveSoundRecords P.ways }
{}

/// Nor in that of a race.
pub fn races_have_sound_records<P: Party>()
    ensures { (cast : List Player) → RacesHaveSoundRecords P.ways cast }
{}
