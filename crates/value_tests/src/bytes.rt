//! Canonical bytes, read and refused.

use channel_values::{
    AssetOutcome, ByteFault, Dest, Fixed, Item, Label, Listed, Outcome, Shape, State, is_outcome,
    item_in, outcome_is, read_chain, read_fixed, read_outcome, read_signed, read_state,
    write_chain, write_fixed, write_outcome, write_signed, write_state,
};
use std::alloc::Global;
use std::test::Fail;

fn joined(alloc: Global, parts: &[&[u8]]) -> Result<Vec<u8>, Fail> {
    let mut bytes = Vec::new(alloc);
    for part in parts {
        bytes.extend_from_slice(part)?;
    }
    Ok(bytes)
}

fn outcome_fault(alloc: Global, bytes: &[u8]) -> Option<ByteFault> {
    read_outcome(alloc, bytes).err()
}

fn fixed_fault(alloc: Global, bytes: &[u8]) -> Option<ByteFault> {
    read_fixed(alloc, bytes).err()
}

fn state_fault(alloc: Global, bytes: &[u8]) -> Option<ByteFault> {
    read_state(alloc, bytes).err()
}

fn signed_fault(alloc: Global, bytes: &[u8]) -> Option<ByteFault> {
    read_signed(alloc, bytes).err()
}

fn chain_fault(alloc: Global, bytes: &[u8]) -> Option<ByteFault> {
    read_chain(alloc, bytes).err()
}

/// One allocation of asset 7, with an item for each of two persons.
fn two_items(alloc: Global, a: u8, first: u64, b: u8, second: u64) -> Result<Vec<u8>, Fail> {
    joined(
        alloc,
        &[
            &[1, 0, 0, 0, 7, 1, 2],
            &[1],
            &[a; 32],
            &first.to_be_bytes(),
            &[1],
            &[b; 32],
            &second.to_be_bytes(),
        ],
    )
}

/// A fixed part of two keys and nonce 7: 126 bytes.
fn pair(alloc: Global, n: u8, second: u8, app: u8, duration: u8) -> Result<Vec<u8>, Fail> {
    joined(
        alloc,
        &[
            &[n],
            &[1; 56],
            &[second; 56],
            &[0, 0, 0, 0, 0, 0, 0, 7],
            &[app],
            &[0, 0, 0, duration],
        ],
    )
}

/// An outcome that pays 5 of asset 7 to a person and 3 to a channel, and asset 9 as a guarantee: 160 bytes.
fn paying_outcome(alloc: Global) -> Result<Vec<u8>, Fail> {
    joined(
        alloc,
        &[
            &[2, 0, 0, 0, 7, 1, 2, 1],
            &[21; 32],
            &[0, 0, 0, 0, 0, 0, 0, 5, 2],
            &[22; 32],
            &[0, 0, 0, 0, 0, 0, 0, 3, 0, 0, 0, 9, 2],
            &[23; 32],
            &[1, 2],
            &[24; 32],
        ],
    )
}

/// The final state of turn 5 with that outcome and two bytes of data: 173 bytes.
fn paying_state(alloc: Global) -> Result<Vec<u8>, Fail> {
    let outcome = paying_outcome(alloc)?;
    joined(
        alloc,
        &[&[0, 0, 0, 0, 0, 0, 0, 5, 1], &outcome, &[0, 2, 254, 255]],
    )
}

/// A chain of that one state, which both participants signed: 310 bytes.
fn one_state_chain(alloc: Global) -> Result<Vec<u8>, Fail> {
    let fixed = pair(alloc, 2, 2, 1, 10)?;
    let state = paying_state(alloc)?;
    joined(
        alloc,
        &[&fixed, &[1], &state, &[2, 0, 0, 1, 31], &[0, 0, 2, 32, 33]],
    )
}

/// Bytes, and the first fault of the outcome in them.
const OUTCOMES: [(&[u8], Option<ByteFault>); 6] = [
    (&[0], None),
    (&[], Some(ByteFault::Cut(0))),
    (&[0, 0], Some(ByteFault::Trailing(1))),
    (&[5], Some(ByteFault::OverLimit(0))),
    (&[1, 0, 0, 0, 7, 3], Some(ByteFault::BadTag(5))),
    (
        &[2, 0, 0, 0, 7, 1, 0, 0, 0, 0, 7, 1, 0],
        Some(ByteFault::Unordered(7)),
    ),
];

#[test]
fn outcome_faults(rt: HostRuntime) {
    for (bytes, fault) in OUTCOMES {
        assert_eq!(rt; outcome_fault(rt.alloc(), bytes), fault);
    }
}

/// The first fault of an outcome with an item for each of two persons.
fn fault_of_items(alloc: Global, items: [(u8, u64); 2]) -> Result<Option<ByteFault>, Fail> {
    let [(a, first), (b, second)] = items;
    let bytes = two_items(alloc, a, first, b, second)?;
    Ok(outcome_fault(alloc, &bytes))
}

/// Two persons with their amounts, and the first fault.
const ITEMS: [([(u8, u64); 2], Option<ByteFault>); 3] = [
    ([(9, 1), (9, 1)], Some(ByteFault::Doubled(48))),
    ([(9, u64::MAX), (8, 1)], Some(ByteFault::TotalTooLarge(81))),
    ([(9, u64::MAX), (8, 0)], None),
];

#[test]
fn outcome_faults_of_lists(rt: HostRuntime) -> Result<(), Fail> {
    for (items, fault) in ITEMS {
        assert_eq!(rt; fault_of_items(rt.alloc(), items)?, fault);
    }
    Ok(())
}

/// The first fault of a fixed part of two keys and nonce 7.
fn fault_of_pair(
    alloc: Global,
    n: u8,
    second: u8,
    app: u8,
    duration: u8,
) -> Result<Option<ByteFault>, Fail> {
    let bytes = pair(alloc, n, second, app, duration)?;
    Ok(fixed_fault(alloc, &bytes))
}

/// The number of keys that is said, the second key, the app, the duration, and the first fault.
const PAIRS: [(u8, u8, u8, u8, Option<ByteFault>); 7] = [
    (2, 2, 1, 10, None),
    (1, 2, 0, 10, Some(ByteFault::OverLimit(0))),
    (5, 2, 0, 10, Some(ByteFault::OverLimit(0))),
    (2, 1, 0, 10, Some(ByteFault::Doubled(57))),
    (2, 2, 3, 10, Some(ByteFault::BadTag(121))),
    (2, 2, 2, 0, Some(ByteFault::OverLimit(122))),
    (3, 2, 0, 10, Some(ByteFault::Cut(126))),
];

#[test]
fn fixed_part_faults(rt: HostRuntime) -> Result<(), Fail> {
    for (n, second, app, duration, fault) in PAIRS {
        let found = fault_of_pair(rt.alloc(), n, second, app, duration)?;
        assert_eq!(rt; found, fault);
    }
    Ok(())
}

/// The first fault of a fixed part of payments that is joined of parts.
fn fault_of_parts(alloc: Global, parts: &[&[u8]]) -> Result<Option<ByteFault>, Fail> {
    let bytes = joined(alloc, parts)?;
    Ok(fixed_fault(alloc, &bytes))
}

const REST: [u8; 13] = [0, 0, 0, 0, 0, 0, 0, 7, 1, 0, 0, 0, 10];

const KEYS: [(&[&[u8]], Option<ByteFault>); 2] = [
    (
        &[&[3], &[1; 56], &[2; 56], &[3; 56], &REST],
        Some(ByteFault::BadTag(177)),
    ),
    (
        &[&[2], &[1; 56], &[2; 56], &REST, &[0]],
        Some(ByteFault::Trailing(126)),
    ),
];

#[test]
fn payment_has_two_keys(rt: HostRuntime) -> Result<(), Fail> {
    for (parts, fault) in KEYS {
        assert_eq!(rt; fault_of_parts(rt.alloc(), parts)?, fault);
    }
    Ok(())
}

/// Bytes, and the first fault of the state in them.
const STATES: [(&[u8], ByteFault); 6] = [
    (
        &[0, 1, 0, 0, 0, 0, 0, 0, 0, 0, 0, 0],
        ByteFault::OverLimit(0),
    ),
    (
        &[0, 0, 255, 255, 255, 255, 255, 255, 2, 0, 0, 0],
        ByteFault::BadTag(8),
    ),
    (
        &[0, 0, 0, 0, 0, 0, 0, 0, 0, 5, 0, 0],
        ByteFault::OverLimit(9),
    ),
    (
        &[0, 0, 0, 0, 0, 0, 0, 0, 0, 0, 16, 1],
        ByteFault::OverLimit(10),
    ),
    (
        &[0, 0, 0, 0, 0, 0, 0, 0, 0, 0, 16, 0, 1],
        ByteFault::Cut(13),
    ),
    (
        &[0, 0, 255, 255, 255, 255, 255, 255, 1, 0, 0, 1, 7, 7],
        ByteFault::Trailing(13),
    ),
];

#[test]
fn state_faults(rt: HostRuntime) {
    for (bytes, fault) in STATES {
        assert_eq!(rt; state_fault(rt.alloc(), bytes), Some(fault));
    }
}

/// The first fault of a signed state of turn 4 with this signature.
fn fault_of_signed(alloc: Global, signature: &[u8]) -> Result<Option<ByteFault>, Fail> {
    let state = [0, 0, 0, 0, 0, 0, 0, 4, 0, 0, 0, 0];
    let bytes = joined(alloc, &[&state, signature])?;
    Ok(signed_fault(alloc, &bytes))
}

/// The bytes of a signature, and the first fault.
const SIGNATURES: [(&[u8], Option<ByteFault>); 4] = [
    (&[0, 0], None),
    (&[35, 45], Some(ByteFault::OverLimit(12))),
    (&[35, 44, 1], Some(ByteFault::Cut(15))),
    (&[0, 1, 9, 9], Some(ByteFault::Trailing(15))),
];

#[test]
fn signed_state_faults(rt: HostRuntime) -> Result<(), Fail> {
    for (signature, fault) in SIGNATURES {
        assert_eq!(rt; fault_of_signed(rt.alloc(), signature)?, fault);
    }
    Ok(())
}

/// The fault of a chain with the fixed part of 126 bytes.
fn fault_behind(alloc: Global, rest: &[u8]) -> Result<Option<ByteFault>, Fail> {
    let fixed = pair(alloc, 2, 2, 1, 10)?;
    let bytes = joined(alloc, &[&fixed, rest])?;
    Ok(chain_fault(alloc, &bytes))
}

/// The bytes after the fixed part, and the first fault.
const CHAINS: [(&[u8], Option<ByteFault>); 6] = [
    (&[0, 0], None),
    (&[5], Some(ByteFault::OverLimit(126))),
    (&[0, 5], Some(ByteFault::OverLimit(127))),
    (&[0, 1, 255, 35, 45], Some(ByteFault::OverLimit(129))),
    (&[0, 1, 255, 0, 1, 9, 9], Some(ByteFault::Trailing(132))),
    (
        &[2, 0, 0, 0, 0, 0, 0, 0, 4, 0, 0, 0, 0, 0, 1],
        Some(ByteFault::Cut(141)),
    ),
];

#[test]
fn chain_faults(rt: HostRuntime) -> Result<(), Fail> {
    for (rest, fault) in CHAINS {
        assert_eq!(rt; fault_behind(rt.alloc(), rest)?, fault);
    }
    Ok(())
}

/// How many prefixes, without the whole, are cut at their end.
fn cut_prefixes(alloc: Global, bytes: &[u8]) -> usize {
    let mut count: usize = 0;
    for n in 0..bytes.len() {
        if chain_fault(alloc, &bytes[..n]) == Some(ByteFault::Cut(n)) {
            count = count.saturating_add(1);
        }
    }
    count
}

/// The length of a chain, how many of its prefixes are cut, and the fault of the whole.
fn prefixes(alloc: Global) -> Result<(usize, usize, Option<ByteFault>), Fail> {
    let bytes = one_state_chain(alloc)?;
    let count = cut_prefixes(alloc, &bytes);
    Ok((bytes.len(), count, chain_fault(alloc, &bytes)))
}

#[test]
fn every_prefix_of_a_chain_is_cut(rt: HostRuntime) -> Result<(), Fail> {
    assert_eq!(rt; prefixes(rt.alloc())?, (310, 310, None));
    Ok(())
}

/// Whether a chain that is read, copied and written has the same bytes.
fn is_chain_rewritten(alloc: Global, bytes: &[u8]) -> Result<bool, ByteFault> {
    let chain = read_chain(alloc, bytes)?;
    let copy = chain.copy()?;
    let mut out = Vec::new(alloc);
    write_chain(&copy, &mut out)?;
    Ok(out.as_slice() == bytes)
}

/// Whether a signed state that is read, copied and written has the same bytes.
fn is_signed_rewritten(alloc: Global, bytes: &[u8]) -> Result<bool, ByteFault> {
    let signed = read_signed(alloc, bytes)?;
    let copy = signed.copy()?;
    let mut out = Vec::new(alloc);
    write_signed(&copy, &mut out)?;
    Ok(out.as_slice() == bytes)
}

/// Whether a chain, and whether a signed state, is written as it was read.
fn rewritten(alloc: Global) -> Result<(bool, bool), Fail> {
    let chain = one_state_chain(alloc)?;
    let state = paying_state(alloc)?;
    let signed = joined(alloc, &[&state, &[0, 1, 9]])?;
    Ok((
        is_chain_rewritten(alloc, &chain)?,
        is_signed_rewritten(alloc, &signed)?,
    ))
}

#[test]
fn what_is_read_is_written_back(rt: HostRuntime) -> Result<(), Fail> {
    assert_eq!(rt; rewritten(rt.alloc())?, (true, true));
    Ok(())
}

/// Whether a state that is made of the parts of another, and written, has the same bytes.
fn is_state_remade(alloc: Global, bytes: &[u8]) -> Result<bool, ByteFault> {
    let state = read_state(alloc, bytes)?;
    let outcome = state.outcome().copy()?;
    let app_bytes = Vec::from_slice(alloc, state.app_bytes())?;
    let made = State::make(alloc, state.turn(), state.is_final(), outcome, app_bytes)?;
    let mut out = Vec::new(alloc);
    write_state(&made, &mut out)?;
    Ok(out.as_slice() == bytes)
}

/// Whether a fixed part that is made of the parts of another, and written, has the same bytes.
fn is_fixed_remade(alloc: Global, bytes: &[u8], duration: u32) -> Result<bool, ByteFault> {
    let fixed = read_fixed(alloc, bytes)?;
    let keys = Vec::from_slice(alloc, fixed.keys())?;
    let made = Fixed::make(alloc, keys, fixed.nonce(), fixed.app(), duration)?;
    let mut out = Vec::new(alloc);
    write_fixed(&made, &mut out)?;
    Ok(out.as_slice() == bytes)
}

/// Whether a state, and a fixed part with duration 10 and with none, is written as what it was made of.
type Remade = (
    Result<bool, ByteFault>,
    Result<bool, ByteFault>,
    Result<bool, ByteFault>,
);

fn remade(alloc: Global) -> Result<Remade, Fail> {
    let state = paying_state(alloc)?;
    let fixed = pair(alloc, 2, 2, 1, 10)?;
    Ok((
        is_state_remade(alloc, &state),
        is_fixed_remade(alloc, &fixed, 10),
        is_fixed_remade(alloc, &fixed, 0),
    ))
}

#[test]
fn what_is_made_is_written(rt: HostRuntime) -> Result<(), Fail> {
    let wanted = (Ok(true), Ok(true), Err(ByteFault::OverLimit(122)));
    assert_eq!(rt; remade(rt.alloc())?, wanted);
    Ok(())
}

/// An outcome of one allocation of asset 7 with so many items, one for each person.
fn persons(alloc: Global, count: u8) -> Result<Outcome, ByteFault> {
    let mut items = Vec::new(alloc);
    for k in 0..count {
        items.push(Item {
            to: Dest::Person([k; 32]),
            amount: 1,
        })?;
    }
    let mut assets = Vec::new(alloc);
    assets.push(AssetOutcome {
        asset: 7,
        shape: Shape::Allocation(Listed::make(items)),
    })?;
    Outcome::make(alloc, assets)
}

/// The fault of an outcome of so many items.
fn fault_of_persons(alloc: Global, count: u8) -> Option<ByteFault> {
    persons(alloc, count).err()
}

/// The length of an outcome of 16 items, whether its bytes are its own and an outcome, and whether they are with a
/// byte more.
fn sixteen(alloc: Global) -> Result<(usize, bool, bool, bool), ByteFault> {
    let outcome = persons(alloc, 16)?;
    let mut out = Vec::new(alloc);
    write_outcome(&outcome, &mut out)?;
    let length = out.len();
    let own = outcome_is(&outcome, &out);
    let whole = is_outcome(&out);
    out.push(0)?;
    Ok((length, own, whole, is_outcome(&out)))
}

#[test]
fn sixteen_items_and_no_more(rt: HostRuntime) -> Result<(), Fail> {
    let many = fault_of_persons(rt.alloc(), 17);
    assert_eq!(rt; many, Some(ByteFault::OverLimit(6)));
    assert_eq!(rt; sixteen(rt.alloc())?, (663, true, true, false));
    Ok(())
}

fn item_of(alloc: Global, asset: u32, index: usize) -> Result<Option<Item>, Fail> {
    let bytes = paying_outcome(alloc)?;
    Ok(item_in(&bytes, asset, index))
}

#[test]
fn one_item_of_bytes(rt: HostRuntime) -> Result<(), Fail> {
    let to = Dest::Channel([22; 32]);
    for (asset, index, wanted) in [
        (7, 1, Some(Item { to, amount: 3 })),
        (7, 2, None),
        (8, 0, None),
        (9, 0, None),
    ] {
        assert_eq!(rt; item_of(rt.alloc(), asset, index)?, wanted);
    }
    Ok(())
}

/// Whether the copy of a text is right, and the copy of its bytes with a 7 after them.
fn copies(alloc: Global) -> Result<(bool, bool), Fail> {
    let mut label = Label::make(String::from_str(alloc, "at")?);
    label.push('é')?;
    let text = label.copy()?;
    let mut list = Listed::make(label.into_vec());
    list.push(7)?;
    let bytes = list.copy()?;
    Ok((
        text.as_str() == "até",
        bytes.as_slice() == [97, 116, 195, 169, 7].as_slice(),
    ))
}

#[test]
fn lists_and_texts(rt: HostRuntime) -> Result<(), Fail> {
    assert_eq!(rt; copies(rt.alloc())?, (true, true));
    Ok(())
}
