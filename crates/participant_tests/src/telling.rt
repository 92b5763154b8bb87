//! A dispute that runs out, and signatures under a key that signs outside of its journal.

use crate::pair::{Act, Pair, at, mark, pair_of};
use call_bytes::write_message;
use call_history::{Call, Deed, Entry, Event, Op, Reply};
use channel_values::{Chain, Key, Listed, person_name};
use lms_signatures::Signer;
use premises::{Journal, distinct, in_time, unforged};
use std::alloc::{AllocGlobal, Global};
use std::process::Abort;
use std::test::Fail;

const SECOND: Key = [2; 56];

/// What a participant did: a look, a signing, or the taking of a message, after so many entries.
#[derive(Clone, Copy)]
enum Did<'a> {
    Look(u32),
    Sign(u32),
    Take(&'a [u8]),
}

fn deed_of(pair: &Pair, did: Did) -> Result<Deed, Fail> {
    let alloc = pair.alloc;
    Ok(match did {
        Did::Look(_) => Deed::Watched(0, Listed::make(Vec::new(alloc))),
        Did::Sign(_) => Deed::Signed(
            pair.channel()?,
            pair.state(at(1))?,
            Listed::make(Vec::new(alloc)),
        ),
        Did::Take(bytes) => Deed::Handled(Listed::make(Vec::from_slice(alloc, bytes)?), None),
    })
}

/// The journal of the pair's first person.
fn journals_of(pair: &Pair, list: &[Did]) -> Result<Vec<Journal>, Fail> {
    let mut events = Vec::new(pair.alloc);
    for did in list {
        let seen = match did {
            Did::Look(seen) | Did::Sign(seen) => *seen,
            Did::Take(_) => 0,
        };
        events.push(Event {
            seen,
            deed: deed_of(pair, *did)?,
        })?;
    }
    let journal = Journal {
        number: 1,
        key: pair.keys[0],
        events: Listed::make(events),
    };
    Ok(vec![in pair.alloc; journal]?)
}

/// An entry, and the time at entry 2.
fn history_of(alloc: Global, op: Op, reply: Reply, time: u64) -> Result<Vec<Entry>, Fail> {
    let first = Entry {
        number: 1,
        by: 9,
        op,
        reply,
    };
    let second = Entry {
        number: 2,
        by: 0,
        op: Op::Time(time),
        reply: Reply::Now(time),
    };
    Ok(vec![in alloc; first, second]?)
}

/// A challenge at time 0 with the deadline 10.
fn challenged(pair: &Pair, time: u64) -> Result<Vec<Entry>, Fail> {
    let op = pair.op(Act::Challenge(1, 1))?;
    history_of(pair.alloc, op, Reply::Until(10), time)
}

fn timely(alloc: Global, time: u64, list: &[Did]) -> Result<bool, Fail> {
    let pair = pair_of(alloc, 1);
    let history = challenged(&pair, time)?;
    let journals = journals_of(&pair, list)?;
    Ok(in_time(alloc, &history, &journals, &person_name(&pair.keys[0]))?)
}

/// The time at entry 2, what the first person did, and whether its looks are then in time: after what was signed, at
/// the challenge, and before its end. Nothing is asked of a challenge that is still open.
const TIMELY: [(u64, &[Did], bool); 6] = [
    (10, &[], true),
    (10, &[Did::Look(1), Did::Sign(0)], false),
    (10, &[Did::Sign(0), Did::Look(0)], false),
    (10, &[Did::Sign(0), Did::Look(2)], false),
    (10, &[Did::Sign(0), Did::Look(1)], true),
    (9, &[Did::Sign(0)], true),
];

#[test]
fn looks_are_in_time_between_challenge_and_end(rt: HostRuntime) -> Result<(), Fail> {
    for (time, list, wanted) in TIMELY {
        assert!(rt; timely(rt.alloc(), time, list)? == wanted, "at {time}");
    }
    Ok(())
}

/// The pair of a signer and the second person.
fn pair_with(signer: &Signer, alloc: Global) -> Pair {
    let keys = [signer.public(), SECOND];
    Pair {
        keys,
        ..pair_of(alloc, 1)
    }
}

/// A checkpoint with a state that the signer signed.
fn checkpointed(pair: &Pair, signer: &mut Signer) -> Result<Vec<Entry>, Fail> {
    let signed = pair.signed_by(signer, at(1))?;
    let mark = mark(0, signed.signature);
    let chain = Chain {
        fixed: pair.fixed()?,
        states: Listed::make(vec![in pair.alloc; signed.state]?),
        marks: Listed::make(vec![in pair.alloc; mark]?),
    };
    history_of(
        pair.alloc,
        Op::Call(Call::Checkpoint { chain }),
        Reply::Opened(1),
        1,
    )
}

/// Whether nothing is forged of the first person, who did this.
fn own(pair: &Pair, history: &[Entry], list: &[Did]) -> Result<bool, Fail> {
    let journals = journals_of(pair, list)?;
    Ok(unforged(pair.alloc, history, &journals, &person_name(&pair.keys[0]))?)
}

/// Whether the journal is the signer's or the second person's, what it has, and whether it is then without a forgery.
const OWN: [(bool, &[Did], bool); 4] = [
    (true, &[], false),
    (true, &[Did::Sign(1)], false),
    (true, &[Did::Sign(0)], true),
    (false, &[], true),
];

fn all_own(rt: &(impl AllocGlobal + Abort), pair: &Pair, history: &[Entry]) -> Result<(), Fail> {
    for (is_own, list, wanted) in OWN {
        let key = if is_own { pair.keys[0] } else { SECOND };
        let one = Pair {
            keys: [key, SECOND],
            ..*pair
        };
        assert!(rt; own(&one, history, list)? == wanted, "own {is_own}");
    }
    Ok(())
}

/// A state that was signed with one's own key outside of the journal stands in an entry.
#[test]
fn signatures_outside_of_the_journal_are_told(rt: HostRuntime) -> Result<(), Fail> {
    let mut signer = Signer::make(rt.alloc(), [1; 32], [1; 16], 5)?;
    let pair = pair_with(&signer, rt.alloc());
    let history = checkpointed(&pair, &mut signer)?;
    all_own(&rt, &pair, &history)
}

/// The bytes of a message with a state that the signer signed.
fn message_of(rt: &impl Abort, pair: &Pair, signer: &mut Signer) -> Result<Vec<u8>, Fail> {
    let signed = pair.signed_by(signer, at(1))?;
    assert!(rt; signed.signature.as_slice().len() <= 9004);
    let mut bytes = Vec::new(pair.alloc);
    write_message(&pair.channel()?, &signed, &mut bytes)?;
    Ok(bytes)
}

/// A message has such a state, and is taken after the signing or before it.
#[test]
fn messages_with_own_signatures_come_after_them(rt: HostRuntime) -> Result<(), Fail> {
    let mut signer = Signer::make(rt.alloc(), [1; 32], [1; 16], 5)?;
    let pair = pair_with(&signer, rt.alloc());
    let bytes = message_of(&rt, &pair, &mut signer)?;
    let message = Did::Take(&bytes);
    for (list, wanted) in [
        ([Did::Sign(0), message], true),
        ([message, Did::Sign(0)], false),
    ] {
        assert!(rt; own(&pair, &[], &list)? == wanted, "wanted {wanted}");
    }
    Ok(())
}

/// Whether no strings collide, and what is answered of the second person, who has no journal.
fn answers(
    alloc: Global,
    history: &[Entry],
    journals: &[Journal],
) -> Result<(bool, bool, bool), Fail> {
    let stranger = person_name(&SECOND);
    Ok((
        distinct(alloc, history, journals)?,
        unforged(alloc, history, journals, &stranger)?,
        in_time(alloc, history, journals, &stranger)?,
    ))
}

/// The strings of a small history don't collide; of a stranger nothing is answered.
#[test]
fn strings_are_distinct_and_strangers_have_no_journal(rt: HostRuntime) -> Result<(), Fail> {
    let pair = pair_of(rt.alloc(), 1);
    let history = challenged(&pair, 10)?;
    let journals = journals_of(&pair, &[Did::Sign(0)])?;
    assert_eq!(rt;
        answers(rt.alloc(), &history, &journals)?,
        (true, false, false)
    );
    Ok(())
}
