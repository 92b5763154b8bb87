//! What a node is told to do.

ghost use Rattle.std.specs.Prelude.{◌≡◌, IfOk};
ghost use Rattle.network.specs.declared.command.Command.TheVariants as commands;

use channel_values::{Fixed, Name, NoMemory, Outcome};

/// What a channel of two people through an intermediary stands on, and what it is.
#[derive(Clone, Copy, Debug, PartialEq, Eq)]
pub enum Route {
    /// A payment channel on roots.
    Plain,
    /// A virtual ledger on roots.
    Ledger,
    /// A payment channel one of whose ledgers is a virtual one.
    Onward,
}

/// How a participant lets go of a channel that holds its own funds.
#[derive(Clone, Copy, Debug, PartialEq, Eq)]
pub enum Release {
    /// It is final, and what is due in it is taken.
    Settle,
    /// It isn't set up yet, and the participant deposited nothing.
    Abandon,
}

/// How a channel of the ledger's two people is funded by what they have in the ledger.
#[derive(Drop)]
pub struct LedgerFunding {
    pub ledger: Name,
    pub fixed: Fixed,
    pub asset: u32,
    pub amounts: (u64, u64),
}

impl LedgerFunding {
    /// A second one that equals this one.
    pub fn copy(&self) -> Result<LedgerFunding, NoMemory>
        ensures { IfOk result (λ f. f ≡ self.now) }
    {
        let fixed = self.fixed.copy()?;
        Ok(LedgerFunding {
            ledger: self.ledger,
            fixed,
            asset: self.asset,
            amounts: self.amounts,
        })
    }
}

/// How a channel of two people is funded through an intermediary with whom each has a ledger.
#[derive(Drop)]
pub struct VirtualFunding {
    pub route: Route,
    pub ledgers: (Name, Name),
    pub guarantors: (Fixed, Fixed),
    pub joint: Fixed,
    pub channel: Fixed,
    pub asset: u32,
    pub amounts: (u64, u64),
}

impl VirtualFunding {
    /// A second one that equals this one.
    pub fn copy(&self) -> Result<VirtualFunding, NoMemory>
        ensures { IfOk result (λ f. f ≡ self.now) }
    {
        let (first, second) = &self.guarantors;
        let first = first.copy()?;
        let second = second.copy()?;
        let joint = self.joint.copy()?;
        let channel = self.channel.copy()?;
        Ok(VirtualFunding {
            route: self.route,
            ledgers: self.ledgers,
            guarantors: (first, second),
            joint,
            channel,
            asset: self.asset,
            amounts: self.amounts,
        })
    }
}

/// A command.
#[derive(Drop)]
pub enum Command {
    /// Opens a direct channel with this outcome.
    Open {
        fixed: Fixed,
        outcome: Outcome,
    },
    /// Opens a channel of the ledger's two people.
    OpenOn(LedgerFunding),
    /// Opens a channel of two people through an intermediary.
    OpenVirtual(VirtualFunding),
    /// Pays the other an amount in a payment channel, or passes the turn with 0.
    Pay {
        channel: Name,
        asset: u32,
        amount: u64,
    },
    /// Closes what a channel belongs to.
    Close {
        channel: Name,
    },
    /// Lets go of what a channel belongs to.
    Release {
        how: Release,
        channel: Name,
    },
    /// Sends the newest state that the node signed in a channel once more.
    Resend {
        channel: Name,
    },
    /// Leaves every channel.
    Exit,
}

fn copy_open(fixed: &Fixed, outcome: &Outcome) -> Result<Command, NoMemory>
    ensures { IfOk result (λ c. c ≡ commands.Open fixed.now outcome.now) }
{
    let fixed = fixed.copy()?;
    let outcome = outcome.copy()?;
    Ok(Command::Open { fixed, outcome })
}

/// A second command that equals this one.
pub fn copy_command(command: &Command) -> Result<Command, NoMemory>
    ensures { IfOk result (λ c. c ≡ command.now) }
{
    match command {
        Command::Open { fixed, outcome } => copy_open(fixed, outcome),
        Command::OpenOn(funding) => Ok(Command::OpenOn(funding.copy()?)),
        Command::OpenVirtual(funding) => Ok(Command::OpenVirtual(funding.copy()?)),
        Command::Pay {
            channel,
            asset,
            amount,
        } => Ok(Command::Pay {
            channel: *channel,
            asset: *asset,
            amount: *amount,
        }),
        Command::Close { channel } => Ok(Command::Close { channel: *channel }),
        Command::Release { how, channel } => Ok(Command::Release {
            how: *how,
            channel: *channel,
        }),
        Command::Resend { channel } => Ok(Command::Resend { channel: *channel }),
        Command::Exit => Ok(Command::Exit),
    }
}
