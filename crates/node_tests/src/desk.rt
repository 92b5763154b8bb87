//! The first person's node, which is commanded and shown one thing after the other. The second has no node: its
//! messages are signed by the tests.

use crate::messages::{
    Brought, People, amounts, channel_of, fixed_of, key_of, message_of, open, outcome_of, state_of,
};
use call_bytes::read_message;
use call_history::{
    Call, ChallengeCall, DepositCall, Entry, NodeRefusal, Op, Reply, Standing, TransferCall,
};
use channel_values::{Chain, Key, Listed, Name, State, person_name};
use lms_signatures::Signer;
use network::{Command, NodeFault, Outs, Party, Release};
use network_node::Node;
use std::alloc::Global;
use std::test::Fail;

/// What happens to the node.
#[derive(Clone, Copy)]
pub(crate) enum Step {
    /// It is told to open the channel of a nonce.
    Open(u64),
    /// It is told to pay, or with 0 to pass its turn.
    Pay(u64),
    /// It is told to let go of the channel.
    Release(Release),
    /// It is told to send its newest state of the channel once more.
    Resend,
    Exit,
    Tick,
    /// It sees a deposit: what was expected, the amount, and what the channel holds then.
    Deposit(u64, u64, u64),
    /// It sees the second's challenge with the states of turns 3 and 4, which is open until 2.
    Challenge,
    /// It sees the time.
    Time(u64),
    /// It sees that its item of the state of turn 4 was paid: the amount.
    Paid(u64),
    /// A state of the channel comes: its turn, what both have, and the number of the person that signed it.
    Comes(u64, (u64, u64), u8),
    /// A state of an unknown channel comes.
    Strange,
}

/// What it answers.
#[derive(Clone, Copy, Debug, PartialEq, Eq)]
pub(crate) enum Said {
    /// Nothing is sent and nothing is called.
    Quiet,
    /// A state goes to the second: its turn, and what the first and the second have.
    Sends(u64, u64, u64),
    /// The node deposits: what it expects, and the amount.
    Deposits(u64, u64),
    /// The node calls for the item of an index.
    Transfers(u8),
    /// The channel isn't open.
    NotOpen(Standing),
    No(NodeRefusal),
    Other,
}

const STRANGE: Brought = Brought {
    turn: 3,
    amounts: (2, 6),
    number: 3,
};

/// The people and their channel.
#[derive(Clone, Copy)]
pub(crate) struct Desk {
    alloc: Global,
    people: People,
    channel: Name,
}

pub(crate) fn node_of(alloc: Global, number: u8) -> Result<Node, Fail> {
    let signer = Signer::make(alloc, [number; 32], [number; 16], 5)?;
    Ok(Node::make(alloc, number as u32, signer)?)
}

impl Desk {
    /// With the key of the first.
    pub(crate) fn make(alloc: Global, first: Key) -> Result<Desk, Fail> {
        let people = (first, key_of(alloc, 2)?);
        let channel = channel_of(alloc, &people)?;
        Ok(Desk {
            alloc,
            people,
            channel,
        })
    }

    /// What the state of the channel says.
    fn said_of(&self, channel: &Name, state: &State) -> Said {
        match amounts(state) {
            Some(amounts) if *channel == self.channel => {
                Said::Sends(state.turn(), amounts.0, amounts.1)
            }
            _ => Said::Other,
        }
    }

    /// What a message to the second says.
    fn sent(&self, to: &Name, bytes: &[u8]) -> Said {
        if *to != person_name(&self.people.1) {
            return Said::Other;
        }
        match read_message(self.alloc, bytes) {
            Ok(message) => self.said_of(&message.0, &message.1.state),
            Err(_) => Said::Other,
        }
    }

    fn told(&self, outs: &Outs) -> Said {
        match (outs.sends.as_slice(), outs.calls.as_slice()) {
            ([], []) => Said::Quiet,
            ([send], []) => self.sent(&send.0, send.1.as_slice()),
            ([], [Call::Deposit(deposit)]) => Said::Deposits(deposit.expected, deposit.amount),
            ([], [Call::Transfer(transfer)]) => Said::Transfers(transfer.index),
            _ => Said::Other,
        }
    }

    fn refused(&self, fault: NodeFault) -> Said {
        match fault {
            NodeFault::Refused(NodeRefusal::NotOpen(channel, standing))
                if channel == self.channel => { Said::NotOpen(standing) }
            NodeFault::Refused(refusal) => Said::No(refusal),
            NodeFault::NoMemory => Said::Other,
        }
    }

    fn commanded(&self, node: &mut Node, command: Command) -> Said {
        match node.command(1, command) {
            Ok(outs) => self.told(&outs),
            Err(fault) => self.refused(fault),
        }
    }

    fn opens(&self, node: &mut Node, nonce: u64) -> Result<Said, Fail> {
        let command = open(self.alloc, &self.people, nonce)?;
        Ok(self.commanded(node, command))
    }

    fn pays(&self, node: &mut Node, amount: u64) -> Said {
        let channel = self.channel;
        let pay = Command::Pay {
            channel,
            asset: 0,
            amount,
        };
        self.commanded(node, pay)
    }

    fn ticks(&self, node: &mut Node) -> Result<Said, Fail> {
        let outs = node.tick()?;
        Ok(self.told(&outs))
    }

    fn releases(&self, node: &mut Node, how: Release) -> Said {
        let channel = self.channel;
        self.commanded(node, Command::Release { how, channel })
    }

    fn resends(&self, node: &mut Node) -> Said {
        let channel = self.channel;
        self.commanded(node, Command::Resend { channel })
    }

    /// The node follows one more entry.
    fn sees(&self, node: &mut Node, op: Op, reply: Reply) -> Result<Said, Fail> {
        let seen = node.seen();
        if seen >= 99 {
            drop(op);
            return Ok(Said::Other);
        }
        let number = seen + 1;
        let entry = Entry {
            number,
            by: 0,
            op,
            reply,
        };
        let entries = vec![in self.alloc; entry]?;
        node.see(&entries)?;
        Ok(Said::Quiet)
    }

    /// The second's challenge with the states of turns 3 and 4.
    fn challenge(&self) -> Result<Call, Fail> {
        let third = state_of(self.alloc, &self.people, 3, (5, 3))?;
        let fourth = state_of(self.alloc, &self.people, 4, (3, 5))?;
        let states = Listed::make(vec![in self.alloc; third, fourth]?);
        let fixed = fixed_of(self.alloc, &self.people, 1)?;
        let chain = Chain {
            fixed,
            states,
            marks: Listed::make(Vec::new(self.alloc)),
        };
        Ok(Call::Challenge(ChallengeCall {
            chain,
            challenger: 1,
            signature: Listed::make(Vec::new(self.alloc)),
        }))
    }

    fn challenged(&self, node: &mut Node) -> Result<Said, Fail> {
        let call = self.challenge()?;
        self.sees(node, Op::Call(call), Reply::Until(2))
    }

    fn paid(&self, node: &mut Node, amount: u64) -> Result<Said, Fail> {
        let call = Call::Transfer(TransferCall {
            channel: self.channel,
            outcome: outcome_of(self.alloc, &self.people, (3, 5))?,
            asset: 0,
            index: 0,
        });
        self.sees(node, Op::Call(call), Reply::Paid(amount))
    }

    fn deposited(
        &self,
        node: &mut Node,
        expected: u64,
        amount: u64,
        held: u64,
    ) -> Result<Said, Fail> {
        let call = Call::Deposit(DepositCall {
            channel: self.channel,
            asset: 0,
            expected,
            amount,
        });
        self.sees(node, Op::Call(call), Reply::Held(held))
    }

    fn comes(&self, node: &mut Node, channel: &Name, row: &Brought) -> Result<Said, Fail> {
        let bytes = message_of(self.alloc, &self.people, channel, row)?;
        match node.handle(&bytes) {
            Ok(()) => Ok(Said::Quiet),
            Err(fault) => Ok(self.refused(fault)),
        }
    }

    /// The bytes of a message of the channel.
    pub(crate) fn message(&self, row: &Brought) -> Result<Vec<u8>, Fail> {
        message_of(self.alloc, &self.people, &self.channel, row)
    }

    pub(crate) fn answer(&self, node: &mut Node, step: &Step) -> Result<Said, Fail> {
        match step {
            Step::Open(nonce) => self.opens(node, *nonce),
            Step::Pay(amount) => Ok(self.pays(node, *amount)),
            Step::Release(how) => Ok(self.releases(node, *how)),
            Step::Resend => Ok(self.resends(node)),
            Step::Exit => Ok(self.commanded(node, Command::Exit)),
            Step::Tick => self.ticks(node),
            Step::Deposit(expected, amount, held) => {
                self.deposited(node, *expected, *amount, *held)
            }
            Step::Challenge => self.challenged(node),
            Step::Time(time) => self.sees(node, Op::Time(*time), Reply::Now(*time)),
            Step::Paid(amount) => self.paid(node, *amount),
            Step::Comes(turn, amounts, number) => {
                let row = Brought {
                    turn: *turn,
                    amounts: *amounts,
                    number: *number,
                };
                self.comes(node, &self.channel, &row)
            }
            Step::Strange => self.comes(node, &[9; 32], &STRANGE),
        }
    }
}
