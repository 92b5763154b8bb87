//! Laws alone: in a race the premises of safety on what a node notes hold, whatever its stages are. So its watchers
//! are in time and nothing old becomes final for it. Each function is empty: its contract is the law.

ghost use Rattle.channel_node.specs.RaceNodeLaws.{LastingPlansAreNoted, RacedNodesAreInTime, RacedNodesAreSafe, StatesAreOfOpenedChannels};
ghost use Rattle.channel_node.specs.Network.{NetworkRacersAreInTime, NetworkRacersAreSafe};

/// A node signs and takes states only in channels that an accepted command opened before, with any rules and over any
/// history. Of another channel it signs nothing, and it refuses each message.
pub fn states_are_of_opened_channels()
    ensures { StatesAreOfOpenedChannels }
{}

/// So where the channels that its commands open have durations of two or more, it notes states of such channels only.
pub fn lasting_plans_are_noted()
    ensures { LastingPlansAreNoted }
{}

/// In a race a node's watchers are in time, where names determine fixed parts and its channels have durations of two
/// or more.
pub fn raced_nodes_are_in_time()
    ensures { RacedNodesAreInTime }
{}

/// So no channel of a node whose signatures verify becomes final with an outcome older than its newest supported
/// state. Nothing is forged and nothing collides, and the rules keep final states.
pub fn raced_nodes_are_safe()
    ensures { RacedNodesAreSafe }
{}

/// `raced_nodes_are_in_time` under the network's own rules, where no hashed strings collide.
pub fn network_racers_are_in_time()
    ensures { NetworkRacersAreInTime }
{}

/// `raced_nodes_are_safe` likewise.
pub fn network_racers_are_safe()
    ensures { NetworkRacersAreSafe }
{}
