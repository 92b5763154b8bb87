//! What a node answers, worked out by hand from the rules. Whole runs of two nodes are files, in `examples`.

use crate::desk::{Desk, Said, Step, node_of};
use crate::messages::Brought;
use call_history::{NodeRefusal, Standing};
use network::{NodeFault, Party, Release};
use network_node::Node;
use std::alloc::Global;
use std::test::Fail;

/// Set-up states at turns 0 and 1, the deposits of 5 and then 3, and the states after them at turns 2 and 3.
const OPENING: [(Step, Said); 10] = [
    (Step::Open(1), Said::Quiet),
    (Step::Tick, Said::Sends(0, 5, 3)),
    (Step::Comes(1, (5, 3), 2), Said::Quiet),
    (Step::Tick, Said::Deposits(0, 5)),
    (Step::Deposit(0, 5, 5), Said::Quiet),
    (Step::Tick, Said::Quiet),
    (Step::Deposit(5, 3, 8), Said::Quiet),
    (Step::Tick, Said::Sends(2, 5, 3)),
    (Step::Comes(3, (5, 3), 2), Said::Quiet),
    (Step::Tick, Said::Quiet),
];

/// Until the second's state of turn 1 comes nobody deposits, and no other channel is opened. It isn't taken twice.
const LATE: [(Step, Said); 7] = [
    (Step::Open(1), Said::Quiet),
    (Step::Tick, Said::Sends(0, 5, 3)),
    (Step::Tick, Said::Quiet),
    (Step::Open(2), Said::No(NodeRefusal::NotWanted(0))),
    (Step::Comes(1, (5, 3), 2), Said::Quiet),
    (Step::Comes(1, (5, 3), 2), Said::No(NodeRefusal::NotNext(2))),
    (Step::Tick, Said::Deposits(0, 5)),
];

/// After the first paid 2, the second is to sign turn 5, with at least 3 for the first.
const MESSAGES: [(Step, Said); 7] = [
    (Step::Pay(2), Said::Sends(4, 3, 5)),
    (Step::Strange, Said::No(NodeRefusal::UnknownChannel)),
    (Step::Comes(3, (2, 6), 3), Said::No(NodeRefusal::NotNext(5))),
    (
        Step::Comes(5, (2, 6), 1),
        Said::No(NodeRefusal::BadSignature),
    ),
    (Step::Comes(5, (2, 6), 2), Said::No(NodeRefusal::NotAStep)),
    (Step::Comes(5, (4, 4), 2), Said::Quiet),
    (Step::Comes(5, (4, 4), 2), Said::No(NodeRefusal::NotNext(6))),
];

/// The second paid 4 back, and challenges with older states.
const CHALLENGED: [(Step, Said); 6] = [
    (Step::Pay(2), Said::Sends(4, 3, 5)),
    (Step::Comes(5, (7, 1), 2), Said::Quiet),
    (Step::Pay(0), Said::Sends(6, 7, 1)),
    (Step::Challenge, Said::Quiet),
    (Step::Pay(0), Said::NotOpen(Standing::Challenged)),
    (
        Step::Comes(3, (2, 6), 3),
        Said::NotOpen(Standing::Challenged),
    ),
];

const SETTLE: Step = Step::Release(Release::Settle);

const ABANDON: Step = Step::Release(Release::Abandon);

/// The first lets go of a channel while the second is silent, and opens another.
const ABANDONED: [(Step, Said); 14] = [
    (SETTLE, Said::No(NodeRefusal::UnknownChannel)),
    (ABANDON, Said::No(NodeRefusal::UnknownChannel)),
    (Step::Resend, Said::No(NodeRefusal::UnknownChannel)),
    (Step::Open(1), Said::Quiet),
    (SETTLE, Said::No(NodeRefusal::NotWanted(0))),
    (Step::Resend, Said::No(NodeRefusal::NotWanted(0))),
    (Step::Tick, Said::Sends(0, 5, 3)),
    (Step::Resend, Said::Sends(0, 5, 3)),
    (Step::Open(2), Said::No(NodeRefusal::NotWanted(0))),
    (ABANDON, Said::Quiet),
    (ABANDON, Said::No(NodeRefusal::NotWanted(6))),
    (
        Step::Comes(1, (5, 3), 2),
        Said::No(NodeRefusal::NotWanted(6)),
    ),
    (Step::Tick, Said::Quiet),
    (Step::Open(2), Said::Quiet),
];

/// Once it holds the first round the first may deposit, so it can't let go any more.
const TOO_LATE: [(Step, Said); 5] = [
    (Step::Open(1), Said::Quiet),
    (Step::Tick, Said::Sends(0, 5, 3)),
    (Step::Comes(1, (5, 3), 2), Said::Quiet),
    (ABANDON, Said::No(NodeRefusal::NotWanted(1))),
    (Step::Tick, Said::Deposits(0, 5)),
];

/// The second challenges with the newest state and stays away. The first lets go once the channel is final, and calls
/// for its item until it is paid.
const SETTLED: [(Step, Said); 14] = [
    (ABANDON, Said::No(NodeRefusal::NotWanted(3))),
    (Step::Pay(2), Said::Sends(4, 3, 5)),
    (Step::Challenge, Said::Quiet),
    (SETTLE, Said::No(NodeRefusal::NotWanted(3))),
    (Step::Time(2), Said::Quiet),
    (Step::Pay(0), Said::NotOpen(Standing::Final)),
    (SETTLE, Said::Quiet),
    (SETTLE, Said::No(NodeRefusal::NotWanted(6))),
    (Step::Tick, Said::Transfers(0)),
    (Step::Tick, Said::Transfers(0)),
    (Step::Paid(3), Said::Quiet),
    (Step::Tick, Said::Quiet),
    (Step::Resend, Said::Sends(4, 3, 5)),
    (Step::Open(2), Said::Quiet),
];

/// After an exit the first lets go of nothing, and still sends again.
const LEFT: [(Step, Said); 5] = [
    (Step::Pay(2), Said::Sends(4, 3, 5)),
    (Step::Exit, Said::Quiet),
    (SETTLE, Said::No(NodeRefusal::NotWanted(99))),
    (ABANDON, Said::No(NodeRefusal::NotWanted(99))),
    (Step::Resend, Said::Sends(4, 3, 5)),
];

/// The place of the first row with another answer, and that answer, if there is one.
fn first_wrong(
    desk: &Desk,
    node: &mut Node,
    rows: &[(Step, Said)],
) -> Result<Option<(usize, Said)>, Fail> {
    for (place, row) in rows.iter().enumerate() {
        let said = desk.answer(node, &row.0)?;
        if said != row.1 {
            return Ok(Some((place, said)));
        }
    }
    Ok(None)
}

/// The same of two tables, one after the other.
fn wrong_of(
    alloc: Global,
    node: &mut Node,
    before: &[(Step, Said)],
    rows: &[(Step, Said)],
) -> Result<Option<(usize, Said)>, Fail> {
    let key = *node.key();
    let desk = Desk::make(alloc, key)?;
    match first_wrong(&desk, node, before)? {
        None => first_wrong(&desk, node, rows),
        wrong => Ok(wrong),
    }
}

/// The same for a new node.
fn wrong_in(
    alloc: Global,
    before: &[(Step, Said)],
    rows: &[(Step, Said)],
) -> Result<Option<(usize, Said)>, Fail> {
    let mut node = node_of(alloc, 1)?;
    wrong_of(alloc, &mut node, before, rows)
}

#[test]
fn a_late_state_is_taken_once(rt: HostRuntime) -> Result<(), Fail> {
    assert_eq!(rt; wrong_in(rt.alloc(), &[], &LATE)?, None);
    Ok(())
}

#[test]
fn messages_are_refused_in_order(rt: HostRuntime) -> Result<(), Fail> {
    assert_eq!(rt; wrong_in(rt.alloc(), &OPENING, &MESSAGES)?, None);
    Ok(())
}

#[test]
fn a_challenged_channel_takes_nothing(rt: HostRuntime) -> Result<(), Fail> {
    assert_eq!(rt; wrong_in(rt.alloc(), &OPENING, &CHALLENGED)?, None);
    Ok(())
}

#[test]
fn a_silent_opening_is_let_go(rt: HostRuntime) -> Result<(), Fail> {
    assert_eq!(rt; wrong_in(rt.alloc(), &[], &ABANDONED)?, None);
    assert_eq!(rt; wrong_in(rt.alloc(), &[], &TOO_LATE)?, None);
    Ok(())
}

#[test]
fn a_final_channel_is_let_go(rt: HostRuntime) -> Result<(), Fail> {
    assert_eq!(rt; wrong_in(rt.alloc(), &OPENING, &SETTLED)?, None);
    assert_eq!(rt; wrong_in(rt.alloc(), &OPENING, &LEFT)?, None);
    Ok(())
}

/// A new node: what it says of no bytes, whether it does nothing, how many entries it saw, and how many lines it has
/// in its journal then.
fn new_node(alloc: Global, number: u8) -> Result<(Option<NodeFault>, bool, u32, usize), Fail> {
    let mut node = node_of(alloc, number)?;
    let fault = node.handle(&[]).err();
    let outs = node.tick()?;
    let is_quiet = outs.calls.as_slice().is_empty() && outs.spent.is_none();
    let is_numbered = node.number() == number as u32;
    let lines = node.journal().len();
    Ok((fault, is_quiet && is_numbered, node.seen(), lines))
}

#[test]
fn a_new_node_answers(rt: HostRuntime) -> Result<(), Fail> {
    let fault = Some(NodeFault::Refused(NodeRefusal::BadBytes));
    assert_eq!(rt; new_node(rt.alloc(), 7)?, (fault, true, 0, 1));
    Ok(())
}

const BROKEN: Option<NodeFault> = Some(NodeFault::Refused(NodeRefusal::BadBytes));

const FORGED: Option<NodeFault> = Some(NodeFault::Refused(NodeRefusal::BadSignature));

/// The second's state of turn 1.
const FIRST: Brought = Brought {
    turn: 1,
    amounts: (5, 3),
    number: 2,
};

/// A node that waits for that state, and the message that brings it.
fn waiting(alloc: Global) -> Result<(Node, Vec<u8>), Fail> {
    let mut node = node_of(alloc, 1)?;
    let desk = Desk::make(alloc, *node.key())?;
    first_wrong(&desk, &mut node, &LATE[..2])?;
    let message = desk.message(&FIRST)?;
    Ok((node, message))
}

/// Of a node that waits: how often its key has signed and can sign, and why it would refuse no bytes, and that message.
fn asked(alloc: Global) -> Result<(u32, u32, [Option<NodeRefusal>; 2]), Fail> {
    let (node, message) = waiting(alloc)?;
    let nothing = node.refusal_of(&[])?;
    let whole = node.refusal_of(&message)?;
    Ok((node.used(), node.limit(), [nothing, whole]))
}

#[test]
fn a_node_says_what_it_would_refuse(rt: HostRuntime) -> Result<(), Fail> {
    let wanted = (1, 32, [Some(NodeRefusal::BadBytes), None]);
    assert_eq!(rt; asked(rt.alloc())?, wanted);
    Ok(())
}

/// How many parts, kept chains and known states the node has.
fn sizes(node: &Node) -> (usize, usize, usize) {
    let parts = node.plan().parts.as_slice().len();
    (parts, node.chains().len(), node.known().len())
}

/// Whether the node refuses each prefix of these bytes as no message.
fn refuses_fronts(node: &mut Node, bytes: &[u8]) -> bool {
    for length in 0..bytes.len() {
        if node.handle(&bytes[..length]).err() != BROKEN {
            return false;
        }
    }
    true
}

/// What the node says of the message with one byte more, and of the message with another last byte.
fn broken(node: &mut Node, mut message: Vec<u8>) -> Result<[Option<NodeFault>; 2], Fail> {
    message.push(0)?;
    let longer = node.handle(&message).err();
    message.pop();
    let last = message.pop().unwrap_or(0);
    message.push(last ^ 1)?;
    let forged = node.handle(&message).err();
    Ok([longer, forged])
}

/// Whether prefixes of a message are refused, and what is said of the two broken ones. Whether the node knows what it
/// knew, whether its journal has a line more for each, and what is said of the message then.
fn broken_messages(
    alloc: Global,
) -> Result<(bool, [Option<NodeFault>; 2], bool, bool, Option<NodeFault>), Fail> {
    let (mut node, message) = waiting(alloc)?;
    let before = sizes(&node);
    let lines = node.journal().len();
    let refused = refuses_fronts(&mut node, &message);
    let length = message.len();
    let faults = broken(&mut node, message)?;
    let is_same = sizes(&node) == before;
    let is_told = node.journal().len().saturating_sub(lines) == length.saturating_add(2);
    let whole = waiting(alloc)?.1;
    Ok((refused, faults, is_same, is_told, node.handle(&whole).err()))
}

#[test]
fn a_broken_message_changes_nothing(rt: HostRuntime) -> Result<(), Fail> {
    let wanted = (true, [BROKEN, FORGED], true, true, None);
    assert_eq!(rt; broken_messages(rt.alloc())?, wanted);
    Ok(())
}
