//! Laws alone, by examples that can be played. The tables of stages are played in whole runs, where what is said of
//! each place comes from an independent model of the network. The journal of a node isn't always empty, nor in a
//! race. The premises of the laws on shares and on leaving can hold together. Each function is empty: its contract is
//! the law.

ghost use Rattle.further_laws.specs.ChildRuns.{ChildRuns};
ghost use Rattle.further_laws.specs.EndRuns.{EndRuns};
ghost use Rattle.further_laws.specs.MiddleRuns.{MiddleRuns};
ghost use Rattle.further_laws.specs.Race.{RacesCanBePlayed};
ghost use Rattle.further_laws.specs.NodeWitness.{StandsWithJournal};
ghost use Rattle.further_laws.specs.Premises.{PremisesHold};

/// A channel on a ledger, from its set-up to its end.
pub fn a_channel_on_a_ledger_runs()
    ensures { ChildRuns }
{}

/// The ends of a virtual channel, from its set-up to its end.
pub fn the_ends_run()
    ensures { EndRuns }
{}

/// The intermediary of a virtual channel, from its set-up to its end.
pub fn the_intermediary_runs()
    ensures { MiddleRuns }
{}

/// There are rules, a legal history and a node that stands for it. The node was commanded to open a channel, signed a
/// state, took a message and signed another state, and its look gave a checkpoint.
pub fn journals_can_be_played()
    ensures { StandsWithJournal }
{}

/// And that checkpoint can be entered in the round of the look, after which the round's time comes. The node plays a
/// race, its channel has a duration of two or more, and nothing collides. The law that its watchers are in time asks
/// for this.
pub fn races_can_be_played()
    ensures { RacesCanBePlayed }
{}

/// There are rules, a legal history and an honest journal of a person in which all premises hold. It opens a payment
/// channel with another. Its share is 5 once that is funded, 3 once it has paid 2, and 4 once it was paid 1 back. The
/// other challenges with the state between, and the person is paid 4.
pub fn premises_can_hold()
    ensures { PremisesHold }
{}
