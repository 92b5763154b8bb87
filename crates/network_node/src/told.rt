//! What is reported of a node.

ghost use Rattle.std.specs.List.{AllByRecursion};
ghost use Rattle.channel_values.specs.Parts.{IsFixed};
ghost use Rattle.channel_node.specs.Openings.{opened_by};
ghost use Rattle.fairness_laws.proofs.Owning.{nodes_stand, own_calls};
ghost use Rattle.node_guarantees.proofs.Commanding.{nodes_follow_commands};
ghost use Rattle.node_guarantees.proofs.Sending.{nodes_send_what_they_signed, signatures_stay};
ghost use Rattle.node_guarantees.specs.Commanded.{told};
ghost use Rattle.network_node.specs.Gets.{nodes_get};
ghost use Rattle.network_node.specs.Got.{nodes_got};
ghost use Rattle.network_node.specs.Holds.{nodes_hold};
ghost use Rattle.network_node.specs.Openings.{lines_are_told, lines_open};
ghost use Rattle.network_node.specs.Ruled.{nodes_play};
ghost use Rattle.network_node.specs.Knows.{nodes_know};
ghost use Rattle.network_node.specs.Shares.{shares, exits, facts};

use crate::node::Node;
use crate::sharing::share_known;
use call_history::{HeldChain, Known};
use channel_values::{Fixed, NoMemory};
use funding_plans::Plan;
use network::Command;
use node_guarantees::ReportedNode;

fn fixed_is_valid(fixed: &Fixed)
    ensures { IsFixed fixed.now }
{
    let _nonce = fixed.nonce();
}

fn openings_are_valid(command: &Command)
    ensures { AllByRecursion IsFixed (opened_by command.now) }
{
    match command {
        Command::Open { fixed, .. } => fixed_is_valid(fixed),
        Command::OpenOn(funding) => fixed_is_valid(&funding.fixed),
        Command::OpenVirtual(funding) => {
            let (first, second) = &funding.guarantors;
            fixed_is_valid(first);
            fixed_is_valid(second);
            fixed_is_valid(&funding.joint);
            fixed_is_valid(&funding.channel);
        }
        Command::Pay { .. }
        | Command::Close { .. }
        | Command::Release { .. }
        | Command::Resend { .. }
        | Command::Exit => {}
    }
}

/// The fixed parts that commands open are such as their type promises.
fn all_openings_are_valid(commands: &[Command])
    ensures { AllByRecursion (λ c. AllByRecursion IsFixed (opened_by c)) commands.now }
{
    for command in commands {
        openings_are_valid(command);
    }
}

impl ReportedNode for Node {
    ghost shares = { shares };

    ghost exits = { exits };

    ghost facts = { facts };

    ghost reported = { told };

    fn share(&self, asset: u32) -> Result<u128, NoMemory> {
        share_known(self.alloc(), self.mind(), asset)
    }

    fn exit_shares(&self) -> Option<&[(u32, u128)]> {
        self.exits()
    }

    fn own_plan(&self) -> &Plan {
        self.plan()
    }

    fn own_states(&self) -> &[Known] {
        self.known()
    }

    fn own_chains(&self) -> &[HeldChain] {
        self.chains()
    }

    #[tactic(auto, using(crate::specs::Openings::adds_are_fixed))]
    fn openings_are_fixed(&self) {
        all_openings_are_valid(self.commands());
    }

    ghost keeps = { nodes_stand };

    ghost reports = { lines_are_told };

    ghost opens = { lines_open };

    ghost commands = { nodes_follow_commands };

    ghost calls = { own_calls };

    ghost sends = { nodes_send_what_they_signed };

    ghost stays = { signatures_stay };

    ghost gets = { λ h p legal valid st. nodes_get h p legal valid st.placed };

    ghost knows = { λ history p legal valid st. nodes_know history p legal valid st.placed };

    ghost got = { λ h p legal valid st. nodes_got h p legal valid st.placed };

    ghost plays = { λ h p legal valid st. nodes_play h p legal valid st.placed };

    ghost holds = { λ h p legal st. nodes_hold h p legal st.placed };
}
