//! Amounts worked out by hand.

use asset_holder::{affordable, lower};
use channel_values::{Dest, Item};

const MOST: u64 = u64::MAX;

fn items(amounts: [u64; 3]) -> [Item; 3] {
    let [first, second, third] = amounts;
    [
        Item {
            to: Dest::Person([1; 32]),
            amount: first,
        },
        Item {
            to: Dest::Channel([1; 32]),
            amount: second,
        },
        Item {
            to: Dest::Person([3; 32]),
            amount: third,
        },
    ]
}

/// What each of the three items is afforded.
fn afforded(amounts: [u64; 3], balance: u64) -> [u64; 3] {
    let items = items(amounts);
    [
        affordable(&items, 0, balance),
        affordable(&items, 1, balance),
        affordable(&items, 2, balance),
    ]
}

/// The amounts of three items, a balance, and what each item is afforded of it.
const AFFORDED: [([u64; 3], u64, [u64; 3]); 14] = [
    ([5, 3, 2], 10, [5, 3, 2]),
    ([5, 3, 2], 20, [5, 3, 2]),
    ([5, 3, 2], 9, [5, 3, 1]),
    ([5, 3, 2], 8, [5, 3, 0]),
    ([5, 3, 2], 6, [5, 1, 0]),
    ([5, 3, 2], 5, [5, 0, 0]),
    ([5, 3, 2], 4, [4, 0, 0]),
    ([5, 3, 2], 0, [0, 0, 0]),
    // An item of nothing takes nothing.
    ([0, 3, 2], 4, [0, 3, 1]),
    ([0, 0, 2], 1, [0, 0, 1]),
    // The largest amounts.
    ([MOST, MOST, 1], MOST, [MOST, 0, 0]),
    ([MOST - 1, 1, 1], MOST, [MOST - 1, 1, 0]),
    ([0, MOST, 1], MOST, [0, MOST, 0]),
    ([1, MOST, 1], MOST, [1, MOST - 1, 0]),
];

#[test]
fn earlier_items_are_served_first(rt: HostRuntime) {
    for (amounts, balance, wanted) in AFFORDED {
        assert_eq!(rt;
            afforded(amounts, balance),
            wanted,
            "{amounts:?} of {balance}"
        );
    }
}

/// The items after one of them is lowered, unless that is more than it has.
fn lowered(mut items: [Item; 3], index: usize, amount: u64) -> Option<[Item; 3]> {
    if index >= items.len() || items[index].amount < amount {
        return None;
    }
    lower(&mut items, index, amount);
    Some(items)
}

/// Which item is lowered, by how much, and the amounts then.
const LOWERED: [(usize, u64, [u64; 3]); 4] = [
    (1, 1, [5, MOST - 1, 2]),
    (1, MOST, [5, 0, 2]),
    (0, 0, [5, MOST, 2]),
    (2, 2, [5, MOST, 0]),
];

#[test]
fn one_item_falls_and_the_others_stay(rt: HostRuntime) {
    for (index, amount, amounts) in LOWERED {
        let items_then = lowered(items([5, MOST, 2]), index, amount);
        assert_eq!(rt; items_then, Some(items(amounts)), "{index} by {amount}");
    }
}
