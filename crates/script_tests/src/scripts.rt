//! Scripts that are read, with their steps.

use channel_values::{Dest, Item, Name, Shape};
use hex::FromHex;
use script_reader::{Step, read_script};
use std::test::Fail;

/// Scripts of time steps, with the time of the last.
const TIMES: [(&str, u64); 9] = [
    (r#"{"steps":[{"do":"time","to":0}]}"#, 0),
    (r#"{"steps":[{"to":7,"do":"time"}]}"#, 7),
    (
        r#"{"steps":[{"do":"time","to":18446744073709551615}]}"#,
        18446744073709551615,
    ),
    (
        r#"{"steps":[{"do":"time","to":3},{"do":"time","to":2}]}"#,
        2,
    ),
    (r#"{"steps":[{"do":"time","to":-1,"to":4}]}"#, 4),
    (r#"{"steps":[{"do":"fly","do":"time","to":5}]}"#, 5),
    (r#"{"steps":1,"steps":[{"do":"time","to":6}]}"#, 6),
    (r#"{"steps":[{"do":"\u0074ime","to":8}]}"#, 8),
    (
        " {\n\"steps\" :\t[ {\"do\": \"time\", \"to\": 9} ]\r\n} ",
        9,
    ),
];

#[test]
fn times_are_read(rt: HostRuntime) -> Result<(), Fail> {
    for (text, time) in TIMES {
        let script = read_script(rt.alloc(), text.as_bytes(), false)?;
        match script.steps.as_slice() {
            [.., Step::Time { to }] => assert_eq!(rt; *to, time, "{text}"),
            _ => assert!(rt; false, "{text}"),
        }
    }
    Ok(())
}

/// Every digit, and the largest numbers.
const DEPOSIT: &str =
    r#"{"steps":[{"do":"deposit","channel":"0123456789abcdef0123456789abcdef0123456789abcdef0123456789abcdef","asset":4294967295,"expected":0,"amount":18446744073709551615}]}"#;

#[test]
fn a_deposit_is_read_in_a_race(rt: HostRuntime) -> Result<(), Fail> {
    let script = read_script(rt.alloc(), DEPOSIT.as_bytes(), true)?;
    match script.steps.as_slice() {
        [Step::Deposit(keys)] => {
            assert_eq!(rt;
                keys.channel.as_str(),
                "0123456789abcdef0123456789abcdef0123456789abcdef0123456789abcdef"
            );
            assert_eq!(rt; keys.asset, 4294967295);
            assert_eq!(rt; keys.expected, 0);
            assert_eq!(rt; keys.amount, 18446744073709551615);
        }
        _ => assert!(rt; false),
    }
    Ok(())
}

#[test]
fn a_script_may_have_no_step(rt: HostRuntime) -> Result<(), Fail> {
    let script = read_script(rt.alloc(), br#"{"steps":[]}"#, true)?;
    assert!(rt; script.steps.as_slice().is_empty());
    Ok(())
}

/// People with keys of both heights, channels of each application, and a step of each form.
const EVERY_FORM: &str = r#"{"steps":[
{"do":"person","name":"A","seed":"aaaaaaaaaaaaaaaaaaaaaaaaaaaaaaaaaaaaaaaaaaaaaaaaaaaaaaaaaaaaaaaa","h":5,"node":false,"watchers":0},
{"do":"person","name":"B","seed":"bbbbbbbbbbbbbbbbbbbbbbbbbbbbbbbbbbbbbbbbbbbbbbbbbbbbbbbbbbbbbbbb","h":5,"node":false,"watchers":0},
{"do":"person","name":"T","seed":"7777777777777777777777777777777777777777777777777777777777777777","h":10,"node":false,"watchers":0},
{"do":"channel","name":"C","people":["A","B"],"nonce":1,"app":"payment","duration":10},
{"do":"channel","name":"D","people":["B","T"],"nonce":18446744073709551615,"app":"fixed","duration":4294967295},
{"do":"channel","name":"E","people":["A","B","T"],"nonce":0,"app":"consensus","duration":1},
{"do":"deposit","channel":"C","asset":0,"expected":0,"amount":8},
{"do":"sign","name":"s0","channel":"E","by":"T","turn":281474976710655,"final":true,"outcome":[{"asset":0,"items":[["T",1],["A",2],["E",3],["B",4]]},{"asset":4294967295,"target":"D","list":["C","A"]}],"votes":3,"proposal":[{"asset":7,"items":[["D",18446744073709551615]]}]},
{"do":"challenge","channel":"C","chain":[],"by":"T"},
{"do":"respond","channel":"C","from":"s0","state":"s0"},
{"do":"refute","channel":"D","state":"s0"},
{"do":"checkpoint","channel":"E","chain":["s0","s0","s0","s0"]},
{"do":"conclude","channel":"C","chain":["s0"]}]}"#;

// The names of the people and channels, as a program made them that shares nothing with this one.
const A: &str = "803d1f313f10430531cf8f71c9aa33703e84747ebf0d8f3ea19893535dc56d52";

const B: &str = "710920d2a58577e9859dbd62922bb32626828b17c6fa8f16037fae81a194b0e9";

const T: &str = "d7f1fdd6ecf31db8ba58529f275e84b0fef11ec3c966ee025e5ab55503499d7f";

const C: &str = "655b47a63a11f783889a06973d3506e70a42c1acf387dbb4a1ac6addf2666955";

const D: &str = "021128f57ff33fed86cc268c1e58507204abf1c45470055dd73044543d242336";

const E: &str = "47e89b87ef2c33b578e4102980093b1584f268deb40cd730a7b068893015d534";

fn name_of(digits: &str) -> Name {
    <[u8; 32] as FromHex>::from_hex(digits).unwrap_or([0; 32])
}

fn item(to: Dest, amount: u64) -> Item {
    Item { to, amount }
}

#[test]
fn names_in_outcomes_lead_to_digests(rt: HostRuntime) -> Result<(), Fail> {
    let script = read_script(rt.alloc(), EVERY_FORM.as_bytes(), false)?;
    let steps = script.steps.as_slice();
    assert_eq!(rt; steps.len(), 13);
    let Step::Sign(keys) = &steps[7] else {
        return Ok(assert!(rt; false));
    };
    assert_eq!(rt;
        (keys.turn, keys.is_final, keys.votes),
        (281474976710655, true, 3)
    );
    let [first, second] = keys.outcome.assets() else {
        return Ok(assert!(rt; false));
    };
    let Shape::Allocation(items) = &first.shape else {
        return Ok(assert!(rt; false));
    };
    let wanted = [
        item(Dest::Person(name_of(T)), 1),
        item(Dest::Person(name_of(A)), 2),
        item(Dest::Channel(name_of(E)), 3),
        item(Dest::Person(name_of(B)), 4),
    ];
    assert_eq!(rt; items.as_slice(), wanted.as_slice());
    let Shape::Guarantee(target, list) = &second.shape else {
        return Ok(assert!(rt; false));
    };
    assert_eq!(rt; (first.asset, second.asset), (0, 4294967295));
    assert_eq!(rt; *target, name_of(D));
    let wanted = [Dest::Channel(name_of(C)), Dest::Person(name_of(A))];
    assert_eq!(rt; list.as_slice(), wanted.as_slice());
    let [last] = keys.proposal.assets() else {
        return Ok(assert!(rt; false));
    };
    let Shape::Allocation(items) = &last.shape else {
        return Ok(assert!(rt; false));
    };
    let wanted = [item(Dest::Channel(name_of(D)), 18446744073709551615)];
    assert_eq!(rt; items.as_slice(), wanted.as_slice());
    Ok(())
}
