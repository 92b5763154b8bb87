//! The sums of flows.

ghost use Rattle.std.specs.Prelude.{◌≡◌, ◌++◌, map, flat_map, IfOk, OnOk};
ghost use Rattle.call_history.specs.Flows.{AreWithinAmounts};
ghost use Rattle.run_record.specs.Sums as sums;

use crate::run_record::{Sum, SumOf};
use asset_holder::Balances;
use channel_values::{Dest, Name, NoMemory};
use std::alloc::Global;

const NO_NAME: Name = [0; 32];

fn deposited_sum(balances: &Balances, asset: u32) -> Sum
    requires { AreWithinAmounts balances.now }
    ensures { result ≡ sums.deposited_sum balances.now asset }
{
    Sum {
        kind: SumOf::Deposited,
        name: NO_NAME,
        asset,
        amount: balances.deposited(asset),
    }
}

/// Adds a sum where the amount isn't 0.
fn put_sum(
    all: &mut Vec<Sum>,
    kind: SumOf,
    name: Name,
    asset: u32,
    amount: u64,
) -> Result<(), NoMemory>
    ensures { OnOk result (all.new.items ≡ all.old.items ++ sums.sum_if kind name asset amount) }
{
    if amount != 0 {
        all.push(Sum {
            kind,
            name,
            asset,
            amount,
        })?;
    }
    Ok(())
}

/// Adds what a channel holds; nothing of a person.
fn put_held(all: &mut Vec<Sum>, balances: &Balances, pair: &(Dest, u32)) -> Result<(), NoMemory>
    requires { AreWithinAmounts balances.now }
    ensures { OnOk result (all.new.items ≡ all.old.items ++ sums.held_sum balances.now pair.now) }
{
    let (to, asset) = pair;
    match to {
        Dest::Person(_) => Ok(()),
        Dest::Channel(channel) => {
            let held = balances.held(channel, *asset);
            put_sum(all, SumOf::Held, *channel, *asset, held)
        }
    }
}

/// Adds what a person was paid; nothing of a channel.
fn put_paid(all: &mut Vec<Sum>, balances: &Balances, pair: &(Dest, u32)) -> Result<(), NoMemory>
    requires { AreWithinAmounts balances.now }
    ensures { OnOk result (all.new.items ≡ all.old.items ++ sums.paid_sum balances.now pair.now) }
{
    let (to, asset) = pair;
    match to {
        Dest::Channel(_) => Ok(()),
        Dest::Person(person) => {
            let paid = balances.paid(person, *asset);
            put_sum(all, SumOf::Paid, *person, *asset, paid)
        }
    }
}

fn put_deposited(all: &mut Vec<Sum>, balances: &Balances, assets: &[u32]) -> Result<(), NoMemory>
    requires { AreWithinAmounts balances.now }
    ensures { OnOk result (all.new.items ≡ all.old.items ++ map (sums.deposited_sum balances.now) assets.now) }
{
    for asset in assets {
        let sum = deposited_sum(balances, *asset);
        all.push(sum)?;
    }
    Ok(())
}

fn put_all_held(
    all: &mut Vec<Sum>,
    balances: &Balances,
    pairs: &[(Dest, u32)],
) -> Result<(), NoMemory>
    requires { AreWithinAmounts balances.now }
    ensures { OnOk result (all.new.items ≡ all.old.items ++ flat_map (sums.held_sum balances.now) pairs.now) }
{
    for pair in pairs {
        put_held(all, balances, pair)?;
    }
    Ok(())
}

fn put_all_paid(
    all: &mut Vec<Sum>,
    balances: &Balances,
    pairs: &[(Dest, u32)],
) -> Result<(), NoMemory>
    requires { AreWithinAmounts balances.now }
    ensures { OnOk result (all.new.items ≡ all.old.items ++ flat_map (sums.paid_sum balances.now) pairs.now) }
{
    for pair in pairs {
        put_paid(all, balances, pair)?;
    }
    Ok(())
}

/// What was deposited of each asset, rising; then what each channel holds, and what each person was paid, in the order
/// in which they first received something.
pub fn sums_of(alloc: Global, balances: &Balances) -> Result<Vec<Sum>, NoMemory>
    requires { AreWithinAmounts balances.now }
    ensures { IfOk result (λ all. all.items ≡ sums.sums_of balances.now) }
{
    let mut all = Vec::new(alloc);
    let assets = balances.listed_assets(alloc)?;
    put_deposited(&mut all, balances, &assets)?;
    put_all_held(&mut all, balances, balances.receivers())?;
    put_all_paid(&mut all, balances, balances.receivers())?;
    Ok(all)
}
