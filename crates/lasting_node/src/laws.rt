//! Laws of a node over its state file.

ghost use Rattle.channel_safety.specs.Occurring.{AreValid};
ghost use Rattle.network.specs.Standing.{AreKept};
ghost use Rattle.node_guarantees.specs.Telling.{ChallengesAreOwn};
ghost use Rattle.node_guarantees.specs.Ways.{ways};
ghost use Rattle.lms_signatures.specs.Signing.{IsHeight};
ghost use Rattle.lasting_node.specs.Laws.{Lasts, NodesLast};
ghost use Rattle.lasting_node.specs.Runs.{signer_of};

use crate::machine::NodeMachine;
use channel_safety::{entries_are_valid, events_are_valid};
use network::{Docket, Party};
use network_node::Node;
use node_guarantees::ReportedNode;
use node_lines::Start;

// Whatever comes to a node of these rules, it stands for its history, and calls its own challenges alone.
fn nodes_own_challenges<P: ReportedNode>()
    ensures keeps { AreKept P.ways P.stands }
    ensures owns { ChallengesAreOwn P.ways P.stands P.lost P.reported }
{}

/// Of each key that has signed nothing, whatever bytes its file holds: the history is legal, the node stands for it,
/// and keeps what it promises its person. Over any crashes and restarts what each run wrote is a prefix of the
/// responses to the lines that are in the file in the end. Each message that is sent in them, and each challenge that
/// is called, is signed in one journal, in which no index of the key signs twice.
pub fn nodes_last()
    ensures { NodesLast }
{
    nodes_own_challenges::<Node>();
}

/// The same holds of the key that a first line makes.
pub(crate) fn started_nodes_last(start: &Start)
    requires { IsHeight start.now.h }
    ensures { Lasts (signer_of start.now) }
{
    nodes_last();
}

impl NodeMachine {
    /// The entries of its history, and the events of its node's journal with what they add, are such as their types
    /// promise.
    #[tactic(auto, using(crate::proofs::Values::values_valid))]
    pub fn values_are_valid(&self)
        ensures { AreValid self.now.ledger (ways.lines self.now.node) }
    {
        entries_are_valid(self.ledger.entries());
        events_are_valid(self.node.journal());
        self.node.openings_are_fixed();
    }
}
