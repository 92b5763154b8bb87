//! Laws alone: what runs is a round, as described for each node and each actor. After it the crew stands for the
//! longer history. Rounds with a time entry after each make a race. Each function is empty: its contract is the law.

ghost use Rattle.network_rounds.specs.Laws.{RunsAreRounds, RoundsKeepCrews, CrewsAreHonest, RacesStay, RoundsKeepOrder};

use network::Party;

/// What two phases of workers did is a round: what each node and each actor did, and who made each new entry.
pub fn runs_are_rounds<P: Party>()
    ensures { RunsAreRounds P }
{}

/// After a round the nodes and the watchers stand for the history that the driver has seen then, and the actors' notes
/// begin it, where nodes keep what they must.
pub fn rounds_keep_crews<P: Party>()
    ensures { RoundsKeepCrews P.ways P.stands }
{}

/// So each journal is honest over it.
pub fn crews_are_honest<P: Party>()
    ensures { CrewsAreHonest P.ways P.stands }
{}

/// A run of rounds with a time entry after each is a race, for each node with a watcher, whatever the driver enters and
/// commands between rounds.
pub fn races_stay<P: Party>()
    ensures { RacesStay P.ways P.stands }
{}

/// In a race each round leaves its crew in order: nodes and actors rise by their numbers, nobody has the number of
/// another, and no node the key of another.
pub fn rounds_keep_order<P: Party>()
    ensures { RoundsKeepOrder P.ways P.stands }
{}
