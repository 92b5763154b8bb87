//! Why a command is refused, if it is.

ghost use Rattle.std.specs.Prelude.{◌≡◌, None, IfOk};
ghost use Rattle.channel_node.specs.Refusing.{command_refusal};
ghost use Rattle.node_knowledge.specs.Taking.{CanTake};
ghost use Rattle.stage_tables.specs.Stages.{stages};
ghost use Rattle.support_rules.specs.Real.{real};

use crate::closing::{close_part, release_part};
use crate::opening::open_refusal;
use crate::payments::pay_refusal;
use crate::sending::resend_refusal;
use call_history::NodeRefusal;
use channel_values::NoMemory;
use network::Command;
use node_knowledge::Known;

fn refusal_of(
    known: &Known,
    limit: u32,
    used: u32,
    command: &Command,
) -> Result<Option<NodeRefusal>, NoMemory>
    ensures { IfOk result (λ refusal. refusal ≡ command_refusal stages real limit used known.now command.now) }
{
    match command {
        Command::Open { .. } => Ok(open_refusal(known, command)),
        Command::OpenOn(_) => Ok(open_refusal(known, command)),
        Command::OpenVirtual(_) => Ok(open_refusal(known, command)),
        Command::Pay {
            channel,
            asset,
            amount,
        } => pay_refusal(known, limit, used, channel, *asset, *amount),
        Command::Close { channel } => Ok(close_part(known, channel)),
        Command::Release { how, channel } => Ok(release_part(known, *how, channel)),
        Command::Resend { channel } => Ok(resend_refusal(known, channel)),
        Command::Exit => Ok(None),
    }
}

/// Why a command is refused, with a key that signs `limit` times and has signed `used` times. One that isn't can be
/// taken up.
#[tactic(auto, using(crate::proofs::Taken::accepted_fits))]
pub fn command_refusal(
    known: &Known,
    limit: u32,
    used: u32,
    command: &Command,
) -> Result<Option<NodeRefusal>, NoMemory>
    ensures refusal { IfOk result (λ refusal. refusal ≡ command_refusal stages real limit used known.now command.now) }
    ensures taken { IfOk result (λ refusal. refusal ≡ None → CanTake command.now known.now) }
{
    let refusal = refusal_of(known, limit, used, command)?;
    Ok(refusal)
}
