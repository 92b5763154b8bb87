//! A node whose journal can be reported.

ghost use Rattle.std.specs.Prelude.{◌≡◌, ℕ, List, Option, IfOk, reverse};
ghost use Rattle.std.specs.Option.{option_map};
ghost use Rattle.funding_plans.specs.Known.{FactsOf};
ghost use Rattle.channel_node.specs.Places.{Told};
ghost use Rattle.network.specs.Standing.{AreKept};
ghost use Rattle.node_guarantees.specs.Sends.{SendWhatTheySigned, SignaturesStay};
ghost use Rattle.node_guarantees.specs.Telling.{AreTold, HaveFixed, LinesAreTold, TellsCommands, SharesAreReal, ExitsAreReal, FactsAreReal, ChallengesAreOwn, JournalsAreByRules, KeepsShares};

use call_history::{HeldChain, Known};
use channel_values::NoMemory;
use funding_plans::Plan;
use network::Party;

/// A node that keeps what it must, and whose journal says what it did.
pub trait ReportedNode: Party {
    // What its person can get of an asset, by what the node knows.
    ghost shares: { Self → ℕ → ℕ };

    // Where the person was commanded to exit, what it could get just after the first such command that was accepted, of
    // each asset that the node knew then.
    ghost exits: { Self → Option (List (ℕ × ℕ)) };

    // What it knows.
    ghost facts: { Self → FactsOf };

    // The events of its journal with their commands, the newest first.
    ghost reported: { Self → List Told };

    /// What its person can get of an asset.
    fn share(&self, asset: u32) -> Result<u128, NoMemory>
        ensures { IfOk result (λ n. n ≡ shares self.now asset) };

    /// What its person could get when it was commanded to exit, if it was.
    fn exit_shares(&self) -> Option<&[(u32, u128)]>
        ensures { option_map (λ s. s.now) result ≡ exits self.now };

    /// Its person, and the parts in the order in which they were opened.
    fn own_plan(&self) -> &Plan
        ensures { result.now ≡ (facts self.now).plan };

    /// The last state that it signed in each channel of which it holds a chain, in the order in which they were added.
    fn own_states(&self) -> &[Known]
        ensures { result.now ≡ (facts self.now).known };

    /// The chains that it holds, in the same order.
    fn own_chains(&self) -> &[HeldChain]
        ensures { result.now ≡ (facts self.now).chains };

    /// The fixed parts that its commands add to its plan are such as their type promises.
    fn openings_are_fixed(&self)
        ensures { HaveFixed (Self.ways.lines self.now) };

    // Its journal stays honest, whatever comes to it.
    ghost keeps: { AreKept Self.ways Self.stands };

    // Its lines are the events of its journal, the newest first.
    ghost reports: { (p : Self) → AreTold (Self.ways.lines p) (reverse (Self.ways.journal p)) };

    // And what they open is what the commands open, which are those of the steps.
    ghost opens: { LinesAreTold Self.ways reported };

    ghost commands: { TellsCommands Self.ways reported };

    // Unless memory failed it, it called no challenge but one that it signed right before, as itself.
    ghost calls: { ChallengesAreOwn Self.ways Self.stands Self.lost reported };

    // What it sends its journal has signed, unless memory failed it, and what its journal signed stays there.
    ghost sends: { SendWhatTheySigned Self.ways Self.lost reported };

    ghost stays: { SignaturesStay Self.ways reported };

    // Where it followed the whole history, its shares are those of the definition.
    ghost gets: { SharesAreReal Self.ways Self.stands Self.lost shares reported };

    // And what it knows is what is known by its journal.
    ghost knows: { FactsAreReal Self.ways Self.stands Self.lost facts reported };

    // What it says of its exit are those of the definition just after the command.
    ghost got: { ExitsAreReal Self.ways Self.stands Self.lost exits reported };

    // Each event is what the rules and tables of the network's node give.
    ghost plays: { JournalsAreByRules Self.ways Self.stands reported };

    // Where its premises hold, its own signatures are fair, and a checker finds no fault in how it ended. Nobody
    // lowers the share of its person, and it can leave with it.
    ghost holds: { KeepsShares Self.ways Self.stands reported };
}
