//! A wallet: a key, a node with its watcher, and what they need of the world. That is a ledger, into which calls are
//! entered, and somebody who carries messages.

use call_history::{Call, Op, flow_of, newest};
use channel_values::{
    AssetOutcome, ByteFault, Dest, Fixed, Item, Key, Listed, Name, Outcome, Shape, person_name,
};
use lms_signatures::Signer;
use network::{Command, Docket, Lookout, NodeFault, Outs, Party};
use network_node::Node;
use sequential_ledger::Ledger;
use std::alloc::Global;
use std::test::Fail;

/// The application of channels in which one pays and then the other, and how long a challenge can be answered.
const PAYMENTS: u8 = 1;

const DURATION: u32 = 2;

/// A message, with the person it is for.
pub(crate) type Letter = (Name, Listed<u8>);

/// The result of what a wallet was told.
#[derive(Clone, Copy, Debug, PartialEq, Eq)]
pub(crate) enum Told {
    Done,
    Refused,
}

#[derive(Drop)]
pub(crate) struct Wallet {
    alloc: Global,
    node: Node,
    lookout: Lookout,
    /// Messages that nobody has carried yet.
    pub(crate) post: Vec<Letter>,
}

impl Wallet {
    /// The seed has to be 32 random bytes, of which no second signer is ever made: a signer begins at index 0.
    pub(crate) fn new(alloc: Global, number: u32, seed: [u8; 32]) -> Result<Wallet, Fail> {
        let signer = Signer::make(alloc, seed, [7; 16], 5)?;
        Ok(Wallet {
            alloc,
            node: Node::make(alloc, number, signer)?,
            lookout: Lookout::make(alloc),
            post: Vec::new(alloc),
        })
    }

    pub(crate) fn key(&self) -> Key {
        *self.node.key()
    }

    /// The person, as outcomes and messages name it.
    pub(crate) fn who(&self) -> Name {
        person_name(self.node.key())
    }

    /// Tells the node what the person wants. It may refuse.
    pub(crate) fn tell(&mut self, ledger: &mut Ledger, command: Command) -> Result<Told, Fail> {
        match self.node.command(0, command) {
            Ok(outs) => {
                self.pass_on(ledger, &outs)?;
                Ok(Told::Done)
            }
            Err(NodeFault::Refused(_)) => Ok(Told::Refused),
            Err(NodeFault::NoMemory) => Err(Fail::new("out of memory")),
        }
    }

    /// Hands the node a message. It may refuse.
    pub(crate) fn take(&mut self, bytes: &[u8]) -> Result<Told, Fail> {
        match self.node.handle(bytes) {
            Ok(()) => Ok(Told::Done),
            Err(NodeFault::Refused(_)) => Ok(Told::Refused),
            Err(NodeFault::NoMemory) => Err(Fail::new("out of memory")),
        }
    }

    /// One round: the node reads what is new in the ledger and acts, and then its watcher looks. A round has to come in
    /// time: before a challenge of another can no longer be answered.
    pub(crate) fn go_round(&mut self, ledger: &mut Ledger) -> Result<(), Fail> {
        self.read(ledger)?;
        let outs = self.node.tick()?;
        self.pass_on(ledger, &outs)?;
        self.watch(ledger)
    }

    /// The node reads the entries that it hasn't seen.
    fn read(&mut self, ledger: &Ledger) -> Result<(), Fail> {
        let entries = ledger.entries();
        let seen = (self.node.seen() as usize).min(entries.len());
        self.node.see(&entries[seen..])?;
        Ok(())
    }

    /// The watcher answers a challenge with an old state by a newer one.
    fn watch(&mut self, ledger: &mut Ledger) -> Result<(), Fail> {
        let entries = ledger.entries();
        let seen = (self.lookout.seen as usize).min(entries.len());
        let calls = self.node.watch(&mut self.lookout, 0, &entries[seen..])?;
        self.enter(ledger, &calls)
    }

    /// Enters the calls of a node, and keeps its messages for anyone who carries them.
    fn pass_on(&mut self, ledger: &mut Ledger, outs: &Outs) -> Result<(), Fail> {
        self.enter(ledger, outs.calls.as_slice())?;
        for letter in outs.sends.as_slice() {
            self.post.push((letter.0, letter.1.copy()?))?;
        }
        Ok(())
    }

    fn enter(&self, ledger: &mut Ledger, calls: &[Call]) -> Result<(), Fail> {
        for call in calls {
            enter(ledger, self.node.number(), Op::Call(call.copy()?))?;
        }
        Ok(())
    }

    /// What the person has in a channel by the newest state that the node holds.
    pub(crate) fn balance(&self, channel: &Name) -> u64 {
        for held in self.node.chains() {
            if held.channel == *channel {
                return match newest(held.chain.states.as_slice()) {
                    Some(state) => amount_of(state.outcome(), &self.who()),
                    None => 0,
                };
            }
        }
        0
    }
}

/// Enters an op, with the adjudicator's reply.
pub(crate) fn enter(ledger: &mut Ledger, by: u32, op: Op) -> Result<(), Fail> {
    if ledger.entries().len() >= u32::MAX as usize {
        drop(op);
        return Err(Fail::new("the ledger is full"));
    }
    ledger.enter(by, op)?;
    Ok(())
}

/// What an outcome gives a person of its first asset.
fn amount_of(outcome: &Outcome, who: &Name) -> u64 {
    let [asset, ..] = outcome.assets() else {
        return 0;
    };
    let Shape::Allocation(items) = &asset.shape else {
        return 0;
    };
    for item in items.as_slice() {
        if item.to == Dest::Person(*who) {
            return item.amount;
        }
    }
    0
}

/// The fixed part of a payment channel of two people. Its nonce tells it from their other channels.
pub(crate) fn fixed_part(alloc: Global, a: Key, b: Key, nonce: u64) -> Result<Fixed, ByteFault> {
    let keys = vec![in alloc; a, b]?;
    Fixed::make(alloc, keys, nonce, PAYMENTS, DURATION)
}

fn item((who, amount): (Name, u64)) -> Item {
    Item {
        to: Dest::Person(who),
        amount,
    }
}

/// The command to open the channel, with what each brings of asset 0. Both people need the identical command.
pub(crate) fn opening(
    alloc: Global,
    fixed: Fixed,
    a: (Name, u64),
    b: (Name, u64),
) -> Result<Command, ByteFault> {
    let items = vec![in alloc; item(a), item(b)]?;
    let shape = Shape::Allocation(Listed::make(items));
    let assets = vec![in alloc; AssetOutcome { asset: 0, shape }]?;
    let outcome = Outcome::make(alloc, assets)?;
    Ok(Command::Open { fixed, outcome })
}

/// What the ledger paid a person of asset 0.
pub(crate) fn paid(ledger: &Ledger, who: &Name) -> u64 {
    let mut sum: u64 = 0;
    for entry in ledger.entries() {
        if let Some(flow) = flow_of(&entry.op, &entry.reply) {
            if flow.to == Dest::Person(*who) {
                sum = sum.saturating_add(flow.amount);
            }
        }
    }
    sum
}
