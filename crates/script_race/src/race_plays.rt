//! Definitions of what the steps of a script do in a race, and a law alone: a race stays one. The function is empty:
//! its contract is the law.

ghost use Rattle.script_race.specs.PlayLaws.{RacesOfScriptsStay};

use network::Party;

/// Whatever the steps of a script do in a race, each node stays one of a race, as do those that join.
pub fn races_of_scripts_stay<P: Party>()
    ensures { RacesOfScriptsStay P.ways P.stands }
{}
