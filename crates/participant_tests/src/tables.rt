//! Tables of what is known of channels and of payments.

use call_history::{ChannelView, ChannelViews, PaidAmounts};
use channel_values::{Listed, Name, NoMemory};
use std::alloc::Global;
use std::test::Fail;

/// What is done to a table of channels, whose names are one byte many times and which differ in their turns.
#[derive(Clone, Copy)]
enum Act {
    Push(u8, u64),
    Put(u8, u64),
    /// Takes a channel out, which has this turn.
    Take(u8, u64),
}

fn name_of(byte: u8) -> Name {
    [byte; 32]
}

fn known(alloc: Global, byte: u8, turn: u64) -> ChannelView {
    ChannelView {
        channel: name_of(byte),
        turn,
        deadline: None,
        held: Listed::make(Vec::new(alloc)),
        shown: None,
        settled: None,
        rest: None,
    }
}

/// Whether the act was done, and found what it says.
fn is_done(alloc: Global, views: &mut ChannelViews, act: Act) -> Result<bool, NoMemory> {
    match act {
        Act::Push(byte, turn) => views.push(known(alloc, byte, turn))?,
        Act::Put(byte, turn) => views.put(known(alloc, byte, turn))?,
        Act::Take(byte, turn) => return Ok(views.take(&name_of(byte))?.turn == turn),
    }
    Ok(true)
}

fn turn_of(views: &ChannelViews, byte: u8) -> Option<u64> {
    match views.get(&name_of(byte)) {
        Some(view) => Some(view.turn),
        None => None,
    }
}

/// Of each act: then the turn of channel 1, that of channel 2, and how many rows there are.
const CHANNELS: [(Act, Option<u64>, Option<u64>, usize); 9] = [
    (Act::Take(1, 0), Some(0), None, 1),
    (Act::Put(1, 5), Some(5), None, 1),
    (Act::Put(2, 7), Some(5), Some(7), 2),
    (Act::Push(3, 9), Some(5), Some(7), 3),
    // A second row of a name isn't found.
    (Act::Push(1, 8), Some(5), Some(7), 4),
    (Act::Take(1, 5), Some(0), Some(7), 4),
    (Act::Put(1, 6), Some(6), Some(7), 4),
    (Act::Take(2, 7), Some(6), Some(0), 4),
    (Act::Put(2, 4), Some(6), Some(4), 4),
];

#[test]
fn channels_are_found_by_name(rt: HostRuntime) -> Result<(), Fail> {
    let views = &mut ChannelViews::new(rt.alloc());
    assert_eq!(rt; turn_of(views, 1), None);
    for (place, (act, first, second, count)) in CHANNELS.iter().enumerate() {
        assert!(rt; is_done(rt.alloc(), views, *act)?, "act {place}");
        assert_eq!(rt; turn_of(views, 1), *first);
        assert_eq!(rt; turn_of(views, 2), *second);
        assert_eq!(rt; views.as_slice().len(), *count);
    }
    Ok(())
}

/// Of each payment: the person, the asset and the amount. Then what person 1 has of assets 0 and 1, and person 2 of
/// asset 0.
const PAYMENTS: [(u8, u32, u64, [u64; 3]); 4] = [
    (1, 0, 3, [3, 0, 0]),
    (2, 0, 4, [3, 0, 4]),
    (1, 1, 5, [3, 5, 4]),
    (1, 0, 9, [9, 5, 4]),
];

#[test]
fn payments_are_found_by_person_and_asset(rt: HostRuntime) -> Result<(), Fail> {
    let paid = &mut PaidAmounts::new(rt.alloc());
    for (person, asset, amount, wanted) in PAYMENTS {
        paid.set(&name_of(person), asset, amount)?;
        let is = [
            paid.amount(&name_of(1), 0),
            paid.amount(&name_of(1), 1),
            paid.amount(&name_of(2), 0),
        ];
        assert_eq!(rt; is, wanted);
    }
    Ok(())
}
