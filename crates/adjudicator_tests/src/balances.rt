//! Receivers and assets of flows that were worked out by hand.

use asset_holder::Balances;
use call_history::Flow;
use channel_values::{Dest, Name, NoMemory};
use std::alloc::Global;
use std::test::Fail;

const FIRST: Dest = Dest::Channel([1; 32]);

const SECOND: Dest = Dest::Channel([2; 32]);

const PERSON: Dest = Dest::Person([1; 32]);

/// Two deposits, and what the first channel pays to a person, to the other channel and to itself.
const FLOWS: [(Option<Name>, Dest, u32, u64); 5] = [
    (None, FIRST, 3, 10),
    (None, SECOND, 1, 5),
    (Some([1; 32]), PERSON, 3, 4),
    (Some([1; 32]), SECOND, 3, 2),
    (Some([1; 32]), FIRST, 3, 1),
];

const RECEIVERS: [(Dest, u32); 4] = [(FIRST, 3), (SECOND, 1), (PERSON, 3), (SECOND, 3)];

fn balances(alloc: Global) -> Result<Balances, NoMemory> {
    let mut flows = Vec::new(alloc);
    for (from, to, asset, amount) in FLOWS {
        flows.push(Flow {
            from,
            to,
            asset,
            amount,
        })?;
    }
    Balances::of(alloc, flows)
}

/// Whether the receivers are those wanted, how many assets there are, and whether 1 and 3 are among them.
fn seen(balances: &Balances) -> (bool, usize, bool, bool) {
    let assets = balances.assets();
    (
        balances.receivers() == RECEIVERS.as_slice(),
        assets.len(),
        assets.contains(&1),
        assets.contains(&3),
    )
}

#[test]
fn each_receiver_comes_once_in_the_order_of_first_receipt(rt: HostRuntime) -> Result<(), Fail> {
    let balances = balances(rt.alloc())?;
    assert_eq!(rt; seen(&balances), (true, 2, true, true));
    Ok(())
}
