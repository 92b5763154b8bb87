//! Lines of a node, each with what it says or the fault of it, worked out by hand from the forms.

use call_history::{Refusal, Reply};
use channel_values::{Fixed, StepFault, SupportFault};
use network::{Command, LedgerFunding, Release, Route, VirtualFunding};
use node_lines::{
    CallNumber, Invalid, LedgerEntry, Line, LineError, NodeEvent, Query, Start, read_line,
    read_start,
};
use std::alloc::{AllocError, Global};
use std::test::Fail;

/// What a line says, in short.
#[derive(Clone, Copy, Debug, PartialEq, Eq)]
enum Said {
    Entry(u32, u32, Reply),
    Message(usize),
    Tick,
    Dropped(CallNumber),
    /// The channel's nonce, and how many assets its outcome has.
    Open(u64, usize),
    OpenOn(u64, u32, (u64, u64)),
    /// The nonces of the guarantors, the joint channel and the channel.
    OpenVirtual(Route, [u64; 4], u32, (u64, u64)),
    Pay(u8, u32, u64),
    Close(u8),
    Release(Release, u8),
    Resend(u8),
    Exit,
    Query(Query),
}

fn opened(fixed: &Fixed, assets: usize) -> Said {
    Said::Open(fixed.nonce(), assets)
}

fn opened_on(funding: &LedgerFunding) -> Said {
    Said::OpenOn(funding.fixed.nonce(), funding.asset, funding.amounts)
}

fn opened_virtual(funding: &VirtualFunding) -> Said {
    let (first, second) = &funding.guarantors;
    let nonces = [
        first.nonce(),
        second.nonce(),
        funding.joint.nonce(),
        funding.channel.nonce(),
    ];
    Said::OpenVirtual(funding.route, nonces, funding.asset, funding.amounts)
}

fn commanded(command: &Command) -> Said {
    match command {
        Command::Open { fixed, outcome } => opened(fixed, outcome.assets().len()),
        Command::OpenOn(funding) => opened_on(funding),
        Command::OpenVirtual(funding) => opened_virtual(funding),
        Command::Pay {
            channel,
            asset,
            amount,
        } => Said::Pay(channel[0], *asset, *amount),
        Command::Close { channel } => Said::Close(channel[0]),
        Command::Release { how, channel } => Said::Release(*how, channel[0]),
        Command::Resend { channel } => Said::Resend(channel[0]),
        Command::Exit => Said::Exit,
    }
}

fn entered(entry: &LedgerEntry) -> Said {
    Said::Entry(entry.number, entry.by, entry.reply)
}

fn happened(event: &NodeEvent) -> Said {
    match event {
        NodeEvent::Entry(entry) => entered(entry),
        NodeEvent::Message(bytes) => Said::Message(bytes.as_slice().len()),
        NodeEvent::Command(command) => commanded(command),
        NodeEvent::Tick => Said::Tick,
        NodeEvent::Dropped(call) => Said::Dropped(*call),
    }
}

fn told(line: &Line) -> Said {
    match line {
        Line::Event(event) => happened(event),
        Line::Query(query) => Said::Query(*query),
    }
}

fn read(alloc: Global, line: &str) -> Result<Result<Said, Invalid>, AllocError> {
    match read_line(alloc, line.as_bytes()) {
        Ok(line) => Ok(Ok(told(&line))),
        Err(LineError::Invalid(fault)) => Ok(Err(fault)),
        Err(LineError::NoMemory) => Err(AllocError),
    }
}

/// The digits of a key.
const KEY: &str =
    "aaaaaaaaaaaaaaaaaaaaaaaaaaaaaaaaaaaaaaaaaaaaaaaaaaaaaaaaaaaaaaaaaaaaaaaaaaaaaaaaaaaaaaaaaaaaaaaaaaaaaaaaaaaaaaaa";

/// The digits of another key.
const OTHER: &str =
    "bbbbbbbbbbbbbbbbbbbbbbbbbbbbbbbbbbbbbbbbbbbbbbbbbbbbbbbbbbbbbbbbbbbbbbbbbbbbbbbbbbbbbbbbbbbbbbbbbbbbbbbbbbbbbbbb";

/// The digits of a name.
const NAME: &str = "eeeeeeeeeeeeeeeeeeeeeeeeeeeeeeeeeeeeeeeeeeeeeeeeeeeeeeeeeeeeeeee";

/// A channel up to its nonce.
const CHANNEL: &str =
    r#"{"people":["aaaaaaaaaaaaaaaaaaaaaaaaaaaaaaaaaaaaaaaaaaaaaaaaaaaaaaaaaaaaaaaaaaaaaaaaaaaaaaaaaaaaaaaaaaaaaaaaaaaaaaaaaaaaaaaa","bbbbbbbbbbbbbbbbbbbbbbbbbbbbbbbbbbbbbbbbbbbbbbbbbbbbbbbbbbbbbbbbbbbbbbbbbbbbbbbbbbbbbbbbbbbbbbbbbbbbbbbbbbbbbbbb"],"app":"payment","duration":10,"nonce":"#;

/// The row with a key for `K`, another for `L`, a name for `N`, and a channel up to its nonce for `C`.
fn spelled(alloc: Global, row: &str) -> Result<String, AllocError> {
    let mut line = String::new(alloc);
    for letter in row.chars() {
        match letter {
            'K' => line.push_str(KEY)?,
            'L' => line.push_str(OTHER)?,
            'N' => line.push_str(NAME)?,
            'C' => line.push_str(CHANNEL)?,
            other => line.push(other)?,
        }
    }
    Ok(line)
}

/// Each form, and what it says.
const FORMS: [(&str, Said); 24] = [
    (
        r#"{"do":"entry","number":7,"by":3,"op":"02000000000000000a","reply":"06000000000000000a"}"#,
        Said::Entry(7, 3, Reply::Now(10)),
    ),
    (
        r#"{"reply":"010000000000000005","op":"0101N0000000000000000000000000000000000000005","by":3,"number":7,"do":"entry"}"#,
        Said::Entry(7, 3, Reply::Held(5)),
    ),
    (
        r#"{"do":"entry","number":1,"by":2,"op":"020000000000000001","reply":"070203000000000000000201"}"#,
        Said::Entry(
            1,
            2,
            Reply::No(Refusal::NotSupported(SupportFault::Step(2, StepFault::Outcome))),
        ),
    ),
    (r#"{"do":"message","bytes":""}"#, Said::Message(0)),
    (r#"{"do":"message","bytes":"00ff10"}"#, Said::Message(3)),
    (r#"{"do":"tick"}"#, Said::Tick),
    (r#" { "do" : "\u0074ick" } "#, Said::Tick),
    (
        r#"{"do":"dropped","event":3,"place":1}"#,
        Said::Dropped(CallNumber { event: 3, place: 1 }),
    ),
    (
        r#"{"do":"open","channel":C1},"outcome":[]}"#,
        Said::Open(1, 0),
    ),
    (
        r#"{"do":"open","channel":C2},"outcome":[{"asset":0,"items":[["K",5],["N",3]]},{"asset":1,"items":[]}]}"#,
        Said::Open(2, 2),
    ),
    (
        r#"{"do":"open_on","ledger":"N","channel":C4},"asset":2,"amounts":[5,3]}"#,
        Said::OpenOn(4, 2, (5, 3)),
    ),
    (
        r#"{"do":"open_virtual","route":"onward","ledgers":["N","N"],"guarantors":[C1},C2}],"joint":C3},"channel":C4},"asset":2,"amounts":[5,3]}"#,
        Said::OpenVirtual(Route::Onward, [1, 2, 3, 4], 2, (5, 3)),
    ),
    (
        r#"{"do":"open_virtual","route":"ledger","ledgers":["N","N"],"guarantors":[C5},C6}],"joint":C7},"channel":C8},"asset":0,"amounts":[0,18446744073709551615]}"#,
        Said::OpenVirtual(Route::Ledger, [5, 6, 7, 8], 0, (0, u64::MAX)),
    ),
    (
        r#"{"do":"pay","channel":"N","asset":2,"amount":9}"#,
        Said::Pay(0xee, 2, 9),
    ),
    (r#"{"do":"close","channel":"N"}"#, Said::Close(0xee)),
    (
        r#"{"do":"settle","channel":"N"}"#,
        Said::Release(Release::Settle, 0xee),
    ),
    (
        r#"{"channel":"N","do":"abandon"}"#,
        Said::Release(Release::Abandon, 0xee),
    ),
    (r#"{"do":"exit"}"#, Said::Exit),
    (
        r#"{"do":"share","asset":4294967295}"#,
        Said::Query(Query::Share(u32::MAX)),
    ),
    (
        r#"{"do":"balance","channel":"N"}"#,
        Said::Query(Query::Balance([0xee; 32])),
    ),
    (r#"{"do":"report"}"#, Said::Query(Query::Report)),
    (r#"{"do":"plan"}"#, Said::Query(Query::Plan)),
    (r#"{"do":"chains"}"#, Said::Query(Query::Chains)),
    (r#"{"do":"resend"}"#, Said::Query(Query::Resend)),
];

/// Lines whose fault is `json`.
const NO_JSON: [&str; 4] = [
    r#""#,
    r#"{"do":"tick""#,
    r#" {"do":"tick"} x"#,
    r#"{"do":"tick",}"#,
];

/// Lines whose fault is `shape`.
const NO_FORM: [&str; 37] = [
    r#"1"#,
    r#"[]"#,
    r#"{}"#,
    r#"{"do":1}"#,
    r#"{"do":"nothing"}"#,
    r#"{"do":"start","seed":"N","h":10}"#,
    r#"{"do":"tick","at":1}"#,
    r#"{"do":"exit","who":"N"}"#,
    r#"{"do":"settle"}"#,
    r#"{"do":"settle","channel":"N","who":"N"}"#,
    r#"{"do":"abandon","channel":1}"#,
    r#"{"do":"resend","channel":"N"}"#,
    r#"{"do":"entry","number":"1","by":3,"op":"02000000000000000a","reply":"06000000000000000a"}"#,
    r#"{"do":"message","bytes":[]}"#,
    r#"{"do":"dropped","event":3}"#,
    r#"{"do":"pay","channel":"N","asset":0,"amount":-1}"#,
    r#"{"do":"pay","channel":"N","asset":0,"amount":1.0}"#,
    r#"{"do":"pay","channel":"N","asset":0,"count":1}"#,
    r#"{"do":"pay","channel":1,"asset":0,"amount":1}"#,
    r#"{"do":"open_on","ledger":"N","channel":C4},"asset":2,"amounts":[5]}"#,
    r#"{"do":"open_on","ledger":"N","channel":C4},"asset":2,"amounts":[5,3,1]}"#,
    r#"{"do":"open_on","ledger":"N","channel":"N","asset":2,"amounts":[5,3]}"#,
    r#"{"do":"open_virtual","route":"other","ledgers":["N","N"],"guarantors":[C1},C2}],"joint":C3},"channel":C4},"asset":0,"amounts":[5,3]}"#,
    r#"{"do":"open_virtual","route":"plain","ledgers":["N"],"guarantors":[C1},C2}],"joint":C3},"channel":C4},"asset":0,"amounts":[5,3]}"#,
    r#"{"do":"open_virtual","route":"plain","ledgers":["N","N"],"guarantors":[C1}],"joint":C3},"channel":C4},"asset":0,"amounts":[5,3]}"#,
    r#"{"do":"open","channel":{"people":"K","nonce":1,"app":"payment","duration":10},"outcome":[]}"#,
    r#"{"do":"open","channel":{"people":["K","L"],"nonce":1,"app":"other","duration":10},"outcome":[]}"#,
    r#"{"do":"open","channel":{"people":["K","L"],"nonce":1,"app":"payment"},"outcome":[]}"#,
    r#"{"do":"open","channel":{"people":["K","L"],"nonce":1,"app":"payment","duration":10,"name":"x"},"outcome":[]}"#,
    r#"{"do":"open","channel":C1},"outcome":{}}"#,
    r#"{"do":"open","channel":C1},"outcome":[{"asset":0,"items":[["N"]]}]}"#,
    r#"{"do":"open","channel":C1},"outcome":[{"asset":0,"items":[["N",5,5]]}]}"#,
    r#"{"do":"open","channel":C1},"outcome":[{"asset":0,"items":[[5,"N"]]}]}"#,
    r#"{"do":"open","channel":C1},"outcome":[{"asset":0,"target":"N","list":["N"]}]}"#,
    r#"{"do":"share"}"#,
    r#"{"do":"share","asset":4294967296,"of":1}"#,
    r#"{"do":"report","asset":0}"#,
];

/// Lines whose fault is `limit`.
const OVER_LIMIT: [&str; 14] = [
    r#"{"do":"entry","number":4294967296,"by":3,"op":"02000000000000000a","reply":"06000000000000000a"}"#,
    r#"{"do":"entry","number":1,"by":4294967296,"op":"02000000000000000a","reply":"06000000000000000a"}"#,
    r#"{"do":"dropped","event":4294967296,"place":0}"#,
    r#"{"do":"share","asset":4294967296}"#,
    r#"{"do":"open","channel":{"people":["K"],"nonce":1,"app":"fixed","duration":10},"outcome":[]}"#,
    r#"{"do":"open","channel":{"people":["K","K"],"nonce":1,"app":"fixed","duration":10},"outcome":[]}"#,
    r#"{"do":"open","channel":{"people":["K","L","0000000000000000000000000000000000000000000000000000000000000000000000000000000000000000000000000000000000000000","1111111111111111111111111111111111111111111111111111111111111111111111111111111111111111111111111111111111111111","2222222222222222222222222222222222222222222222222222222222222222222222222222222222222222222222222222222222222222"],"nonce":1,"app":"fixed","duration":10},"outcome":[]}"#,
    r#"{"do":"open","channel":{"people":["K","L","0000000000000000000000000000000000000000000000000000000000000000000000000000000000000000000000000000000000000000"],"nonce":1,"app":"payment","duration":10},"outcome":[]}"#,
    r#"{"do":"open","channel":{"people":["K","L"],"nonce":1,"app":"payment","duration":0},"outcome":[]}"#,
    r#"{"do":"open","channel":{"people":["K","L"],"nonce":1,"app":"payment","duration":4294967296},"outcome":[]}"#,
    r#"{"do":"open","channel":C1},"outcome":[{"asset":1,"items":[]},{"asset":0,"items":[]}]}"#,
    r#"{"do":"open","channel":C1},"outcome":[{"asset":0,"items":[["N",1],["N",2]]}]}"#,
    r#"{"do":"open","channel":C1},"outcome":[{"asset":0,"items":[["K",18446744073709551615],["N",1]]}]}"#,
    r#"{"do":"open","channel":C1},"outcome":[{"asset":0,"items":[]},{"asset":1,"items":[]},{"asset":2,"items":[]},{"asset":3,"items":[]},{"asset":4,"items":[]}]}"#,
];

/// Lines whose fault is `bytes`.
const BAD_BYTES: [&str; 22] = [
    r#"{"do":"close","channel":""}"#,
    r#"{"do":"close","channel":"N0"}"#,
    r#"{"do":"close","channel":"N00"}"#,
    r#"{"do":"close","channel":"EEEEEEEEEEEEEEEEEEEEEEEEEEEEEEEEEEEEEEEEEEEEEEEEEEEEEEEEEEEEEEEE"}"#,
    r#"{"do":"close","channel":"eeeeeeeeeeeeeeeeeeeeeeeeeeeeeeeeeeeeeeeeeeeeeeeeeeeeeeeeeeeeeeeg"}"#,
    r#"{"do":"message","bytes":"0"}"#,
    r#"{"do":"message","bytes":"0g"}"#,
    r#"{"do":"message","bytes":"AA"}"#,
    r#"{"do":"open","channel":{"people":["K","N"],"nonce":1,"app":"payment","duration":10},"outcome":[]}"#,
    r#"{"do":"open","channel":C1},"outcome":[{"asset":0,"items":[["K00",1]]}]}"#,
    r#"{"do":"entry","number":1,"by":3,"op":"","reply":"06000000000000000a"}"#,
    r#"{"do":"entry","number":1,"by":3,"op":"03","reply":"06000000000000000a"}"#,
    r#"{"do":"entry","number":1,"by":3,"op":"0200000000000000","reply":"06000000000000000a"}"#,
    r#"{"do":"entry","number":1,"by":3,"op":"02000000000000000a00","reply":"06000000000000000a"}"#,
    r#"{"do":"entry","number":1,"by":3,"op":"0101N000000000000000000000000000000000000000500","reply":"06000000000000000a"}"#,
    r#"{"do":"entry","number":1,"by":3,"op":"01","reply":"06000000000000000a"}"#,
    r#"{"do":"entry","number":1,"by":3,"op":"02000000000000000a","reply":""}"#,
    r#"{"do":"entry","number":1,"by":3,"op":"02000000000000000a","reply":"00"}"#,
    r#"{"do":"entry","number":1,"by":3,"op":"02000000000000000a","reply":"06"}"#,
    r#"{"do":"entry","number":1,"by":3,"op":"02000000000000000a","reply":"06000000000000000a00"}"#,
    r#"{"do":"entry","number":1,"by":3,"op":"02000000000000000a","reply":"071a"}"#,
    r#"{"do":"entry","number":1,"by":3,"op":"02000000000000000a","reply":"070201000000000000000100"}"#,
];

fn are_faults(alloc: Global, rows: &[&str], fault: Invalid) -> Result<Option<usize>, AllocError> {
    for i in 0..rows.len() {
        let line = spelled(alloc, rows[i])?;
        if read(alloc, line.as_str())? != Err(fault) {
            return Ok(Some(i));
        }
    }
    Ok(None)
}

#[test]
fn each_form_is_read(rt: HostRuntime) -> Result<(), Fail> {
    let alloc = rt.alloc();
    for (row, said) in FORMS {
        let line = spelled(alloc, row)?;
        assert_eq!(rt; read(alloc, line.as_str())?, Ok(said), "{row}");
    }
    Ok(())
}

#[test]
fn each_fault_is_found(rt: HostRuntime) -> Result<(), Fail> {
    let alloc = rt.alloc();
    assert_eq!(rt; are_faults(alloc, &NO_JSON, Invalid::Json)?, None);
    assert_eq!(rt; are_faults(alloc, &NO_FORM, Invalid::Shape)?, None);
    assert_eq!(rt; are_faults(alloc, &OVER_LIMIT, Invalid::Limit)?, None);
    assert_eq!(rt; are_faults(alloc, &BAD_BYTES, Invalid::Bytes)?, None);
    Ok(())
}

/// First lines, with the signer's height or the fault.
const STARTS: [(&str, Result<u8, Invalid>); 9] = [
    (r#"{"do":"start","seed":"N","h":5}"#, Ok(5)),
    (r#"{"h":10,"seed":"N","do":"start"}"#, Ok(10)),
    (r#"{"do":"start","seed":"N","h":15}"#, Ok(15)),
    (r#"{"do":"start","seed":"N","h":20}"#, Err(Invalid::Limit)),
    (r#"{"do":"start","seed":"N","h":261}"#, Err(Invalid::Limit)),
    (r#"{"do":"start","seed":"N0","h":5}"#, Err(Invalid::Bytes)),
    (r#"{"do":"start","seed":"N"}"#, Err(Invalid::Shape)),
    (r#"{"do":"tick","seed":"N","h":5}"#, Err(Invalid::Shape)),
    (r#"start"#, Err(Invalid::Json)),
];

fn started(alloc: Global, line: &str) -> Result<Result<Start, Invalid>, AllocError> {
    match read_start(alloc, line.as_bytes()) {
        Ok(start) => Ok(Ok(start)),
        Err(LineError::Invalid(fault)) => Ok(Err(fault)),
        Err(LineError::NoMemory) => Err(AllocError),
    }
}

#[test]
fn first_lines_are_read(rt: HostRuntime) -> Result<(), Fail> {
    let alloc = rt.alloc();
    for (row, height) in STARTS {
        let line = spelled(alloc, row)?;
        let expected = match height {
            Ok(h) => Ok(Start {
                seed: [0xee; 32],
                h,
            }),
            Err(fault) => Err(fault),
        };
        assert_eq!(rt; started(alloc, line.as_str())?, expected, "{row}");
    }
    Ok(())
}
