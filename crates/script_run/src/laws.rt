//! A law of runs. The function is empty: its contract is the law.

ghost use Rattle.std.specs.Prelude.{◌≢◌, ℕ, List, Some};
ghost use Rattle.network_rounds.specs.Players.{Player};
ghost use Rattle.script_run.specs.Run.{Given, IsCalm, EndsAlike, wanted};
ghost use Rattle.command_words.specs.declared.asking.Asked.{Asked};

use network::Party;

/// The words and the bytes of a source that doesn't fail determine the end and the report, unless they ask for a race.
pub fn calm_runs_end_alike<P: Party>()
    ensures { (words : List (List ℕ)) (bytes : List ℕ) (cast : List Player) (g h : Given)
        → wanted words ≢ Some Asked.Race
        → IsCalm words bytes g → IsCalm words bytes h → EndsAlike P.ways cast g h }
{}
