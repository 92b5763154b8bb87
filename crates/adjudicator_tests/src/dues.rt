//! Amounts due, worked out by hand.

use asset_holder::{PaidItems, claim_due, transfer_due};
use call_history::{Due, Refusal};
use channel_values::{AssetOutcome, ByteFault, Dest, Item, Listed, Name, NoMemory, Outcome, Shape};
use std::alloc::Global;
use std::test::Fail;

const A: Dest = Dest::Person([1; 32]);

const B: Dest = Dest::Person([2; 32]);

const I: Dest = Dest::Person([3; 32]);
/// The guarantor, the joint channel that it is for, and the channel that the joint one pays.
const G: Name = [5; 32];

const J: Name = [6; 32];

const X: Dest = Dest::Channel([7; 32]);

const MOST: u64 = u64::MAX;

/// How an asset is paid out: items in their order, or what a target has for destinations.
#[derive(Clone, Copy)]
enum Part {
    Items(&'static [(Dest, u64)]),
    Promise(Name, &'static [Dest]),
}

/// An asset, and how it is paid out.
type Asset = (u32, Part);

/// What was paid of an item: its channel, asset and place, and the amount.
type Paid = (Name, u32, u8, u64);

/// Who a call pays, of which place, how much; or why it doesn't.
type Answer = Result<(Dest, u8, u64), Refusal>;

fn shape(alloc: Global, part: &Part) -> Result<Shape, NoMemory> {
    match part {
        Part::Items(rows) => {
            let mut items = Vec::new(alloc);
            for (to, amount) in *rows {
                items.push(Item {
                    to: *to,
                    amount: *amount,
                })?;
            }
            Ok(Shape::Allocation(Listed::make(items)))
        }
        Part::Promise(target, list) => {
            let list = Vec::from_slice(alloc, list)?;
            Ok(Shape::Guarantee(*target, Listed::make(list)))
        }
    }
}

fn outcome(alloc: Global, rows: &[Asset]) -> Result<Outcome, ByteFault> {
    let mut assets = Vec::new(alloc);
    for (asset, part) in rows {
        let shape = shape(alloc, part)?;
        assets.push(AssetOutcome {
            asset: *asset,
            shape,
        })?;
    }
    Outcome::make(alloc, assets)
}

/// More was paid of an item, unless it wouldn't fit.
fn note(paid: &mut PaidItems, payment: &Paid) -> Result<bool, NoMemory> {
    let (channel, asset, place, amount) = *payment;
    paid.reserve()?;
    if amount > MOST - paid.paid_of(&channel, asset, place) {
        return Ok(false);
    }
    paid.add(channel, asset, place, amount);
    Ok(true)
}

/// What was paid of items, and whether all of it fits.
fn paid_items(alloc: Global, payments: &[Paid]) -> Result<(PaidItems, bool), NoMemory> {
    let mut paid = PaidItems::make(alloc);
    let mut fits = true;
    for payment in payments {
        fits = note(&mut paid, payment)? && fits;
    }
    Ok((paid, fits))
}

fn told(due: Result<Due, Refusal>) -> Answer {
    match due {
        Ok(due) => Ok((due.to, due.place, due.amount)),
        Err(refusal) => Err(refusal),
    }
}

const PAYMENTS: [Paid; 4] = [(J, 0, 1, 5), (J, 0, 1, 2), (J, 1, 1, MOST), (G, 0, 1, 1)];

/// What was paid of the item, and whether the payments fit.
fn sum(alloc: Global, payments: &[Paid], item: (Name, u32, u8)) -> Result<(u64, bool), NoMemory> {
    let (channel, asset, place) = item;
    let (paid, fits) = paid_items(alloc, payments)?;
    Ok((paid.paid_of(&channel, asset, place), fits))
}

/// Payments, an item, and what was paid of it.
const SUMS: [(&[Paid], (Name, u32, u8), u64); 6] = [
    (&[], (J, 0, 0), 0),
    (&PAYMENTS, (J, 0, 0), 0),
    (&PAYMENTS, (J, 0, 1), 7),
    (&PAYMENTS, (J, 1, 1), MOST),
    (&PAYMENTS, (G, 0, 1), 1),
    (&PAYMENTS, (G, 1, 1), 0),
];

#[test]
fn payments_add_up_for_each_item(rt: HostRuntime) -> Result<(), Fail> {
    for (payments, item, wanted) in SUMS {
        assert_eq!(rt; sum(rt.alloc(), payments, item)?, (wanted, true));
    }
    Ok(())
}

/// What was paid, what the channel holds, the channel, and the asset and the place of the item.
type Transfer = (&'static [Paid], u64, Name, u32, u8);

/// What a transfer pays, and whether the payments before it fit.
fn transferred(
    alloc: Global,
    assets: &[Asset],
    transfer: &Transfer,
) -> Result<(Answer, bool), Fail> {
    let (payments, held, channel, asset, index) = *transfer;
    let outcome = outcome(alloc, assets)?;
    let (paid, fits) = paid_items(alloc, payments)?;
    let due = transfer_due(&paid, held, &channel, &outcome, asset, index);
    Ok((told(due), fits))
}

const IN_ORDER: [Asset; 2] = [
    (0, Part::Items(&[(A, 5), (X, 3), (B, 2)])),
    (1, Part::Items(&[(B, MOST), (A, 0)])),
];

/// Of the first item 4 was paid, and of the second all of it.
const BEGUN: [Paid; 2] = [(J, 0, 0, 4), (J, 0, 1, 3)];

/// More than the first item was paid, where another outcome has the same digest.
const ABOVE: [Paid; 3] = [(J, 0, 0, 4), (J, 0, 1, 3), (J, 0, 0, 9)];

/// Of the other asset's first item all but 1 was paid too.
const OTHER: [Paid; 4] = [
    (J, 0, 0, 4),
    (J, 0, 1, 3),
    (J, 0, 0, 9),
    (J, 1, 0, MOST - 1),
];

const TRANSFERS: [(Transfer, Answer); 16] = [
    ((&[], 10, J, 0, 2), Ok((B, 2, 2))),
    ((&[], 9, J, 0, 2), Ok((B, 2, 1))),
    ((&[], 8, J, 0, 2), Err(Refusal::NothingDue(8))),
    ((&[], 6, J, 0, 1), Ok((X, 1, 1))),
    ((&[], 6, J, 0, 0), Ok((A, 0, 5))),
    ((&[], 0, J, 0, 0), Err(Refusal::NothingDue(0))),
    ((&BEGUN, 3, J, 0, 0), Ok((A, 0, 1))),
    ((&BEGUN, 3, J, 0, 1), Err(Refusal::NothingDue(3))),
    ((&BEGUN, 3, J, 0, 2), Ok((B, 2, 2))),
    ((&BEGUN, 1, J, 0, 2), Err(Refusal::NothingDue(1))),
    // Payments of another channel's items don't count.
    ((&BEGUN, 8, G, 0, 2), Err(Refusal::NothingDue(8))),
    ((&ABOVE, 2, J, 0, 0), Err(Refusal::NothingDue(2))),
    ((&ABOVE, 2, J, 0, 2), Ok((B, 2, 2))),
    // The other asset.
    ((&ABOVE, MOST, J, 1, 0), Ok((B, 0, MOST))),
    ((&ABOVE, MOST, J, 1, 1), Err(Refusal::NothingDue(MOST))),
    ((&OTHER, MOST, J, 1, 0), Ok((B, 0, 1))),
];

#[test]
fn earlier_items_are_paid_first(rt: HostRuntime) -> Result<(), Fail> {
    for (transfer, wanted) in TRANSFERS {
        assert_eq!(rt;
            transferred(rt.alloc(), &IN_ORDER, &transfer)?,
            (wanted, true)
        );
    }
    Ok(())
}

const PROMISED: [Asset; 2] = [(0, Part::Promise(J, &[A])), (1, Part::Items(&[(A, 5)]))];

const REFUSED_TRANSFERS: [(Transfer, Answer); 6] = [
    ((&[], 0, G, 2, 9), Err(Refusal::NoAsset)),
    ((&[], 0, G, 0, 9), Err(Refusal::WrongKind)),
    ((&[], 0, G, 1, 1), Err(Refusal::NoItem)),
    ((&[], 0, G, 1, 255), Err(Refusal::NoItem)),
    ((&[], 0, G, 1, 0), Err(Refusal::NothingDue(0))),
    ((&[], 7, G, 1, 0), Ok((A, 0, 5))),
];

#[test]
fn transfers_are_refused_in_order(rt: HostRuntime) -> Result<(), Fail> {
    for (transfer, wanted) in REFUSED_TRANSFERS {
        assert_eq!(rt;
            transferred(rt.alloc(), &PROMISED, &transfer)?,
            (wanted, true)
        );
    }
    Ok(())
}

/// The outcomes of the guarantor and of the target.
type Outcomes = (&'static [Asset], &'static [Asset]);

/// What was paid, what the guarantor holds, the target, and the asset and the position of the destination.
type Claim = (&'static [Paid], u64, Name, u32, u8);

/// What a claim pays, and whether the payments before it fit.
fn claimed(alloc: Global, outcomes: &Outcomes, claim: &Claim) -> Result<(Answer, bool), Fail> {
    let (payments, held, target, asset, position) = *claim;
    let promise = outcome(alloc, outcomes.0)?;
    let joint = outcome(alloc, outcomes.1)?;
    let (paid, fits) = paid_items(alloc, payments)?;
    let due = claim_due(&paid, held, &promise, &target, &joint, asset, position);
    Ok((told(due), fits))
}

/// I has no item, and so takes nothing.
const LISTED: Outcomes = (
    &[(0, Part::Promise(J, &[X, I, A]))],
    &[(0, Part::Items(&[(A, 4), (B, 6), (X, 10)]))],
);

const CLAIMS: [(Claim, Answer); 8] = [
    ((&[], 12, J, 0, 0), Ok((X, 2, 10))),
    ((&[], 12, J, 0, 1), Err(Refusal::NoItem)),
    ((&[], 12, J, 0, 2), Ok((A, 0, 2))),
    ((&[], 10, J, 0, 2), Err(Refusal::NothingDue(10))),
    // The claim for X paid all of its item, and left 2: the same claim has nothing due, and A gets what is left.
    ((&[(J, 0, 2, 10)], 2, J, 0, 0), Err(Refusal::NothingDue(2))),
    ((&[(J, 0, 2, 10)], 2, J, 0, 2), Ok((A, 0, 2))),
    ((&[(J, 0, 2, 10), (J, 0, 0, 3)], 2, J, 0, 2), Ok((A, 0, 1))),
    // What was paid of the guarantor's places doesn't count.
    ((&[(G, 0, 2, 10)], 12, J, 0, 0), Ok((X, 2, 10))),
];

#[test]
fn claims_are_paid_in_the_order_of_the_list(rt: HostRuntime) -> Result<(), Fail> {
    for (claim, wanted) in CLAIMS {
        assert_eq!(rt; claimed(rt.alloc(), &LISTED, &claim)?, (wanted, true));
    }
    Ok(())
}

const JOINT: [Asset; 2] = [(0, Part::Items(&[(A, 4)])), (1, Part::Promise(J, &[A]))];

const PROMISE: [Asset; 2] = [(0, Part::Promise(J, &[A, B])), (1, Part::Promise(J, &[A]))];

const SHORT: [Asset; 1] = [(1, Part::Promise(J, &[A]))];

const REFUSED_CLAIMS: [(Outcomes, Claim, Answer); 11] = [
    ((&PROMISE, &JOINT), (&[], 0, G, 2, 9), Err(Refusal::NoAsset)),
    ((&SHORT, &JOINT), (&[], 0, G, 0, 9), Err(Refusal::NoAsset)),
    ((&PROMISE, &SHORT), (&[], 0, G, 0, 9), Err(Refusal::NoAsset)),
    (
        (&PROMISE, &PROMISE),
        (&[], 0, G, 0, 9),
        Err(Refusal::WrongKind),
    ),
    ((&JOINT, &JOINT), (&[], 0, G, 0, 9), Err(Refusal::WrongKind)),
    (
        (&PROMISE, &JOINT),
        (&[], 0, G, 1, 9),
        Err(Refusal::WrongKind),
    ),
    (
        (&PROMISE, &JOINT),
        (&[], 0, G, 0, 9),
        Err(Refusal::WrongTarget),
    ),
    (
        (&PROMISE, &JOINT),
        (&[], 0, J, 0, 2),
        Err(Refusal::NotListed),
    ),
    ((&PROMISE, &JOINT), (&[], 0, J, 0, 1), Err(Refusal::NoItem)),
    (
        (&PROMISE, &JOINT),
        (&[], 0, J, 0, 0),
        Err(Refusal::NothingDue(0)),
    ),
    ((&PROMISE, &JOINT), (&[], 3, J, 0, 0), Ok((A, 0, 3))),
];

#[test]
fn claims_are_refused_in_order(rt: HostRuntime) -> Result<(), Fail> {
    for (outcomes, claim, wanted) in REFUSED_CLAIMS {
        assert_eq!(rt; claimed(rt.alloc(), &outcomes, &claim)?, (wanted, true));
    }
    Ok(())
}

const LARGEST: Outcomes = (
    &[(0, Part::Promise(J, &[B, A]))],
    &[(0, Part::Items(&[(A, MOST - 1), (B, 1)]))],
);

const LARGEST_CLAIMS: [(Claim, Answer); 4] = [
    ((&[], MOST, J, 0, 1), Ok((A, 0, MOST - 1))),
    ((&[], MOST - 1, J, 0, 1), Ok((A, 0, MOST - 2))),
    (
        (&[(J, 0, 0, MOST - 1)], MOST, J, 0, 1),
        Err(Refusal::NothingDue(MOST)),
    ),
    ((&[(J, 0, 0, MOST - 1)], MOST, J, 0, 0), Ok((B, 1, 1))),
];

#[test]
fn claims_of_the_largest_amounts(rt: HostRuntime) -> Result<(), Fail> {
    for (claim, wanted) in LARGEST_CLAIMS {
        assert_eq!(rt; claimed(rt.alloc(), &LARGEST, &claim)?, (wanted, true));
    }
    Ok(())
}
