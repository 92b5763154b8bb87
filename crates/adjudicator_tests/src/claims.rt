//! Amounts worked out by hand.

use asset_holder::claimable;
use channel_values::{Dest, Item};

const A: Dest = Dest::Person([1; 32]);

const B: Dest = Dest::Person([2; 32]);

const I: Dest = Dest::Person([3; 32]);
/// A channel with the name of the first person.
const X: Dest = Dest::Channel([1; 32]);

const MOST: u64 = u64::MAX;

fn item(to: Dest, amount: u64) -> Item {
    Item { to, amount }
}

/// What each of the three destinations may claim.
fn claimed(items: &[Item], list: &[Dest; 3], balance: u64) -> [u64; 3] {
    [
        claimable(items, list, 0, balance),
        claimable(items, list, 1, balance),
        claimable(items, list, 2, balance),
    ]
}

#[test]
fn the_order_is_the_lists(rt: HostRuntime) {
    let items = [item(A, 4), item(B, 6), item(I, 10)];
    for (list, balance, wanted) in [
        ([I, A, B], 20, [10, 4, 6]),
        ([I, A, B], 15, [10, 4, 1]),
        ([I, A, B], 13, [10, 3, 0]),
        ([I, A, B], 3, [3, 0, 0]),
        ([I, A, B], 0, [0, 0, 0]),
        ([B, I, A], 13, [6, 7, 0]),
    ] {
        assert_eq!(rt; claimed(&items, &list, balance), wanted, "of {balance}");
    }
}

#[test]
fn items_that_the_list_leaves_out_take_nothing(rt: HostRuntime) {
    let items = [item(B, 6), item(A, 4)];
    for (balance, wanted) in [(5, 4), (3, 3)] {
        assert_eq!(rt; claimable(&items, &[A], 0, balance), wanted);
    }
}

#[test]
fn a_destination_without_an_item_has_nothing(rt: HostRuntime) {
    let items = [item(X, 6), item(I, 4)];
    for (list, wanted) in [([A, X, I], [0, 6, 2]), ([X, A, I], [6, 0, 2])] {
        assert_eq!(rt; claimed(&items, &list, 8), wanted);
    }
    assert_eq!(rt; claimed(&[], &[X, A, I], 8), [0, 0, 0]);
}

#[test]
fn the_largest_amounts(rt: HostRuntime) {
    let items = [item(A, MOST), item(B, 1)];
    for (list, wanted) in [([A, B, I], [MOST, 0, 0]), ([B, A, I], [1, MOST - 1, 0])] {
        assert_eq!(rt; claimed(&items, &list, MOST), wanted);
    }
}
