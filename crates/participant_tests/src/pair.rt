//! A payment channel of two: its states and chains, and what is entered. The first person moves to even turns, and pays
//! 1 at turns 4 and 6.

ghost use Rattle.std.specs.Prelude.{◌≡◌, IfOk};
ghost use Rattle.channel_values.specs.Rules.{people};

use call_history::{Call, ChallengeCall, ClaimCall, DepositCall, Op, RespondCall, TransferCall};
use channel_values::{
    AssetOutcome, Chain, Dest, Fixed, Item, Key, Listed, Mark, Name, Outcome, Shape, Signed, State,
    channel_name, person_name, state_digest, state_message,
};
use lms_signatures::Signer;
use std::alloc::Global;
use std::test::Fail;

pub(super) const LEDGER: Name = [7; 32];

pub(super) const OTHER: Name = [8; 32];

/// A turn, whether it is final, and what the first and the second person have.
pub(super) type Parts = (u64, bool, u64, u64);

/// The state of the turn.
pub(super) fn at(turn: u64) -> Parts {
    match turn {
        0..=3 => (turn, false, 5, 3),
        4..=5 => (turn, false, 4, 4),
        _ => (turn, false, 3, 5),
    }
}

/// What is entered. A chain has the states from one turn to another.
#[derive(Clone, Copy)]
pub(super) enum Act {
    Time(u64),
    Deposit(Name, u32, u64),
    /// A deposit of asset 0 in the channel itself.
    Fund(u64),
    /// Pays the item of the outcome in which both have 4.
    Transfer(u8),
    /// Pays the item of the ledger's outcome: 7 to the ledger itself, 9 to the other channel.
    Relay(u8),
    /// Pays the person of the position, the second or the first, from the ledger, which guarantees them in that order.
    Claim(u8),
    /// The second person's. The first marked the last of two states, the second the first.
    Challenge(u64, u64),
    Checkpoint(u64, u64),
    Conclude(u64),
    Refute(u64),
    Respond(u64, u64),
}

/// A channel of the people with these keys.
#[derive(Clone, Copy)]
pub(super) struct Pair {
    pub(super) alloc: Global,
    pub(super) keys: [Key; 2],
    pub(super) nonce: u64,
}

fn unsigned(alloc: Global) -> Listed<u8> {
    Listed::make(Vec::new(alloc))
}

fn item(to: Dest, amount: u64) -> Item {
    Item { to, amount }
}

pub(super) fn mark(place: u8, signature: Listed<u8>) -> Mark {
    Mark { place, signature }
}

/// An outcome that has one asset, 0.
fn outcome_of(alloc: Global, shape: Shape) -> Result<Outcome, Fail> {
    let asset = AssetOutcome { asset: 0, shape };
    Ok(Outcome::make(alloc, vec![in alloc; asset]?)?)
}

fn allocation(alloc: Global, first: Item, second: Item) -> Result<Outcome, Fail> {
    let items = Listed::make(vec![in alloc; first, second]?);
    outcome_of(alloc, Shape::Allocation(items))
}

fn deposit(channel: Name, asset: u32, amount: u64) -> Op {
    Op::Call(Call::Deposit(DepositCall {
        channel,
        asset,
        expected: 0,
        amount,
    }))
}

fn transfer(channel: Name, outcome: Outcome, index: u8) -> Op {
    Op::Call(Call::Transfer(TransferCall {
        channel,
        outcome,
        asset: 0,
        index,
    }))
}

pub(super) fn pair_of(alloc: Global, nonce: u64) -> Pair {
    let keys = [[1; 56], [2; 56]];
    Pair { alloc, keys, nonce }
}

impl Pair {
    pub(super) fn fixed(&self) -> Result<Fixed, Fail>
        ensures { IfOk result (λ f. people f ≡ 2) }
    {
        let mut keys = Vec::new(self.alloc);
        keys.push(self.keys[0])?;
        keys.push(self.keys[1])?;
        Ok(Fixed::make(self.alloc, keys, self.nonce, 1, 10)?)
    }

    pub(super) fn channel(&self) -> Result<Name, Fail> {
        Ok(channel_name(self.fixed()?.bytes()))
    }

    /// The names of both people.
    fn people(&self) -> (Dest, Dest) {
        let first = Dest::Person(person_name(&self.keys[0]));
        (first, Dest::Person(person_name(&self.keys[1])))
    }

    fn outcome(&self, first: u64, second: u64) -> Result<Outcome, Fail> {
        let (one, other) = self.people();
        allocation(self.alloc, item(one, first), item(other, second))
    }

    pub(super) fn state(&self, parts: Parts) -> Result<State, Fail> {
        let (turn, is_final, first, second) = parts;
        let outcome = self.outcome(first, second)?;
        Ok(State::make(self.alloc, turn, is_final, outcome, Vec::new(self.alloc))?)
    }

    /// The state with the signature of this signer.
    pub(super) fn signed_by(&self, signer: &mut Signer, parts: Parts) -> Result<Signed, Fail> {
        let channel = self.channel()?;
        let state = self.state(parts)?;
        let signature = signer.sign(&state_message(&state_digest(&channel, state.bytes())))?;
        Ok(Signed {
            state,
            signature: Listed::make(signature),
        })
    }

    fn next(&self, turn: u64) -> Result<Signed, Fail> {
        Ok(Signed {
            state: self.state(at(turn))?,
            signature: unsigned(self.alloc),
        })
    }

    fn states(&self, first: u64, last: u64) -> Result<Vec<State>, Fail> {
        let mut states = Vec::new(self.alloc);
        for turn in first..=last {
            states.push(self.state(at(turn))?)?;
        }
        Ok(states)
    }

    fn marks(&self, places: &[u8]) -> Result<Vec<Mark>, Fail> {
        let mut marks = Vec::new(self.alloc);
        for place in places {
            marks.push(mark(*place, unsigned(self.alloc)))?;
        }
        Ok(marks)
    }

    pub(super) fn chain(&self, first: u64, last: u64, places: &[u8]) -> Result<Chain, Fail> {
        Ok(Chain {
            fixed: self.fixed()?,
            states: Listed::make(self.states(first, last)?),
            marks: Listed::make(self.marks(places)?),
        })
    }

    fn challenge(&self, first: u64, last: u64) -> Result<Op, Fail> {
        let chain = self.chain(first, last, &[1, 0])?;
        Ok(Op::Call(Call::Challenge(ChallengeCall {
            chain,
            challenger: 1,
            signature: unsigned(self.alloc),
        })))
    }

    fn checkpoint(&self, first: u64, last: u64) -> Result<Op, Fail> {
        let chain = self.chain(first, last, &[])?;
        Ok(Op::Call(Call::Checkpoint { chain }))
    }

    fn conclude(&self, turn: u64) -> Result<Op, Fail> {
        let chain = self.chain(turn, turn, &[])?;
        Ok(Op::Call(Call::Conclude { chain }))
    }

    fn refute(&self, next: u64) -> Result<Op, Fail> {
        Ok(Op::Call(Call::Refute {
            fixed: self.fixed()?,
            next: self.next(next)?,
        }))
    }

    fn respond(&self, from: u64, next: u64) -> Result<Op, Fail> {
        Ok(Op::Call(Call::Respond(RespondCall {
            fixed: self.fixed()?,
            from: self.state(at(from))?,
            next: self.next(next)?,
        })))
    }

    fn fund(&self, amount: u64) -> Result<Op, Fail> {
        Ok(deposit(self.channel()?, 0, amount))
    }

    fn transfer(&self, index: u8) -> Result<Op, Fail> {
        let channel = self.channel()?;
        Ok(transfer(channel, self.outcome(4, 4)?, index))
    }

    fn relay(&self, index: u8) -> Result<Op, Fail> {
        let itself = item(Dest::Channel(LEDGER), 7);
        let other = item(Dest::Channel(OTHER), 9);
        Ok(transfer(LEDGER, allocation(self.alloc, itself, other)?, index))
    }

    fn guarantee(&self, target: Name) -> Result<Outcome, Fail> {
        let (one, other) = self.people();
        let list = Listed::make(vec![in self.alloc; other, one]?);
        outcome_of(self.alloc, Shape::Guarantee(target, list))
    }

    fn claim(&self, position: u8) -> Result<Op, Fail> {
        let target = self.channel()?;
        Ok(Op::Call(Call::Claim(ClaimCall {
            guarantor: LEDGER,
            guarantor_outcome: self.guarantee(target)?,
            target,
            target_outcome: self.outcome(4, 4)?,
            asset: 0,
            position,
        })))
    }

    pub(super) fn op(&self, act: Act) -> Result<Op, Fail> {
        match act {
            Act::Time(to) => Ok(Op::Time(to)),
            Act::Deposit(channel, asset, amount) => Ok(deposit(channel, asset, amount)),
            Act::Fund(amount) => self.fund(amount),
            Act::Transfer(index) => self.transfer(index),
            Act::Relay(index) => self.relay(index),
            Act::Claim(position) => self.claim(position),
            Act::Challenge(first, last) => self.challenge(first, last),
            Act::Checkpoint(first, last) => self.checkpoint(first, last),
            Act::Conclude(turn) => self.conclude(turn),
            Act::Refute(next) => self.refute(next),
            Act::Respond(from, next) => self.respond(from, next),
        }
    }
}
