//! Two wallets: they open a channel, pay and close it; and one leaves when the other is silent.

use crate::wallet::{Told, Wallet, enter, fixed_part, opening, paid};
use call_history::Op;
use channel_values::{Name, channel_name};
use network::{Command, Docket};
use sequential_ledger::Ledger;
use std::alloc::Global;
use std::test::Fail;

/// What both have in their channel, by the node of each, and what the ledger paid them.
#[derive(Clone, Copy, Debug, PartialEq, Eq)]
struct Facts {
    balances: (u64, u64),
    paid: (u64, u64),
}

/// Two people with wallets, and the ledger.
#[derive(Drop)]
struct Pair {
    ledger: Ledger,
    alice: Wallet,
    bob: Wallet,
    channel: Name,
}

/// Carries the messages of one to the other.
fn carry(from: &mut Wallet, to: &mut Wallet) -> Result<(), Fail> {
    for letter in from.post.as_slice() {
        if letter.0 == to.who() {
            to.take(letter.1.as_slice())?;
        }
    }
    from.post.clear();
    Ok(())
}

impl Pair {
    /// Both are told to open a channel with 5 of Alice's and 3 of Bob's.
    fn opened(alloc: Global) -> Result<Pair, Fail> {
        let mut ledger = Ledger::make(alloc);
        let mut alice = Wallet::new(alloc, 1, [1; 32])?;
        let mut bob = Wallet::new(alloc, 2, [2; 32])?;
        let fixed = fixed_part(alloc, alice.key(), bob.key(), 1)?;
        let channel = channel_name(fixed.bytes());
        let other = fixed.copy()?;
        let (a, b) = ((alice.who(), 5), (bob.who(), 3));
        alice.tell(&mut ledger, opening(alloc, fixed, a, b)?)?;
        bob.tell(&mut ledger, opening(alloc, other, a, b)?)?;
        let mut pair = Pair {
            ledger,
            alice,
            bob,
            channel,
        };
        pair.go_rounds()?;
        Ok(pair)
    }

    /// Six rounds, which are enough to open or close a channel.
    fn go_rounds(&mut self) -> Result<(), Fail> {
        for _ in 0..6 {
            self.carry_all()?;
            self.alice.go_round(&mut self.ledger)?;
            self.bob.go_round(&mut self.ledger)?;
        }
        Ok(())
    }

    fn carry_all(&mut self) -> Result<(), Fail> {
        carry(&mut self.alice, &mut self.bob)?;
        carry(&mut self.bob, &mut self.alice)
    }

    fn payment(&self, amount: u64) -> Command {
        Command::Pay {
            channel: self.channel,
            asset: 0,
            amount,
        }
    }

    /// Alice pays 2, and Bob pays 4.
    fn pay(&mut self) -> Result<(Told, Told), Fail> {
        let payment = self.payment(2);
        let first = self.alice.tell(&mut self.ledger, payment)?;
        self.carry_all()?;
        let payment = self.payment(4);
        let second = self.bob.tell(&mut self.ledger, payment)?;
        self.carry_all()?;
        Ok((first, second))
    }

    fn close(&mut self) -> Result<(), Fail> {
        let channel = self.channel;
        self.alice
            .tell(&mut self.ledger, Command::Close { channel })?;
        self.bob.tell(&mut self.ledger, Command::Close { channel })?;
        self.go_rounds()
    }

    /// Alice leaves, and Bob does nothing. Her challenge can be answered until time 2.
    fn leave(&mut self) -> Result<(), Fail> {
        self.alice.tell(&mut self.ledger, Command::Exit)?;
        for time in 1..6 {
            self.alice.go_round(&mut self.ledger)?;
            enter(&mut self.ledger, 0, Op::Time(time))?;
        }
        Ok(())
    }

    fn facts(&self) -> Facts {
        let balances = (
            self.alice.balance(&self.channel),
            self.bob.balance(&self.channel),
        );
        let paid = (
            paid(&self.ledger, &self.alice.who()),
            paid(&self.ledger, &self.bob.who()),
        );
        Facts { balances, paid }
    }
}

fn paid_in_the_end(alloc: Global) -> Result<(Facts, (Told, Told), Facts, Facts), Fail> {
    let mut pair = Pair::opened(alloc)?;
    let opened = pair.facts();
    let told = pair.pay()?;
    let after = pair.facts();
    pair.close()?;
    Ok((opened, told, after, pair.facts()))
}

/// Alice has 5 - 2 + 4 and Bob 3 + 2 - 4.
#[test]
fn both_are_paid_what_they_have(rt: HostRuntime) -> Result<(), Fail> {
    let (opened, told, after, closed) = paid_in_the_end(rt.alloc())?;
    assert_eq!(rt; (opened.balances, opened.paid), ((5, 3), (0, 0)));
    assert_eq!(rt; told, (Told::Done, Told::Done));
    assert_eq!(rt; (after.balances, after.paid), ((7, 1), (0, 0)));
    assert_eq!(rt; closed.paid, (7, 1));
    Ok(())
}

fn left(alloc: Global) -> Result<Facts, Fail> {
    let mut pair = Pair::opened(alloc)?;
    pair.pay()?;
    pair.leave()?;
    Ok(pair.facts())
}

/// Her own transfer pays her; nobody has called for Bob's.
#[test]
fn one_leaves_alone(rt: HostRuntime) -> Result<(), Fail> {
    assert_eq!(rt; left(rt.alloc())?.paid, (7, 0));
    Ok(())
}
