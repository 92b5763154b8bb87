//! Scripts that come to a limit and pass it.

use crate::broken::{BEFORE, breaks};
use script_reader::{Rule, read_script};
use std::alloc::AllocError;
use std::test::Fail;

/// Appends the people of height 5 with the numbers from 10 below the end.
fn push_people(text: &mut String, end: usize) -> Result<(), AllocError> {
    let alloc = *text.allocator();
    for number in 10..end {
        let person = format!(in alloc;
            ",{{\"do\":\"person\",\"name\":\"P{number}\",\"seed\":\"{number}33333333333333333333333333333333333333333333333333333333333333\",\"h\":5,\"node\":false,\"watchers\":0}}"
        )?;
        text.push_str(person.as_str())?;
    }
    Ok(())
}

/// Two people stand before.
#[test]
fn a_script_has_at_most_16_people(rt: HostRuntime) -> Result<(), Fail> {
    let alloc = rt.alloc();
    for (end, fits) in [(24, true), (25, false)] {
        let mut text = format!(in alloc; "{{\"steps\":[{BEFORE}")?;
        push_people(&mut text, end)?;
        text.push_str("]}")?;
        if fits {
            let script = read_script(alloc, text.as_bytes(), true)?;
            assert_eq!(rt; script.steps.as_slice().len(), 19);
        } else {
            breaks(&rt, text.as_str(), true, 20, Rule::Limit)?;
        }
    }
    Ok(())
}

/// A channel has two to four people.
#[test]
fn a_channel_has_at_most_4_people(rt: HostRuntime) -> Result<(), Fail> {
    let alloc = rt.alloc();
    for (people, fits) in [
        (r#""A","B","P10","P11""#, true),
        (r#""A","B","P10","P11","P12""#, false),
        (r#""A","B","P10","P11","P12","P11""#, false),
    ] {
        let mut text = format!(in alloc; "{{\"steps\":[{BEFORE}")?;
        push_people(&mut text, 13)?;
        let channel = format!(in alloc;
            ",{{\"do\":\"channel\",\"name\":\"K\",\"people\":[{people}],\"nonce\":0,\"app\":\"fixed\",\"duration\":4294967295}}]}}"
        )?;
        text.push_str(channel.as_str())?;
        if fits {
            let script = read_script(alloc, text.as_bytes(), true)?;
            assert_eq!(rt; script.steps.as_slice().len(), 9);
        } else if people.len() > 30 {
            breaks(&rt, text.as_str(), true, 9, Rule::Name)?;
        } else {
            breaks(&rt, text.as_str(), true, 9, Rule::Limit)?;
        }
    }
    Ok(())
}

/// One channel stands before.
#[test]
fn a_script_has_at_most_64_channels(rt: HostRuntime) -> Result<(), Fail> {
    let alloc = rt.alloc();
    let mut text = format!(in alloc; "{{\"steps\":[{BEFORE}")?;
    for number in 2..65 {
        let channel = format!(in alloc;
            ",{{\"do\":\"channel\",\"name\":\"K{number}\",\"people\":[\"A\",\"B\"],\"nonce\":{number},\"app\":\"fixed\",\"duration\":2}}"
        )?;
        text.push_str(channel.as_str())?;
    }
    let all = format!(in alloc; "{text}]}}")?;
    let script = read_script(alloc, all.as_bytes(), true)?;
    assert_eq!(rt; script.steps.as_slice().len(), 68);
    text.push_str(
        r#",{"do":"channel","name":"K65","people":["A","B"],"nonce":65,"app":"fixed","duration":2}]}"#,
    )?;
    breaks(&rt, text.as_str(), true, 69, Rule::Limit)
}

/// A key of height 5 has 32 indices, of which S took one of A's. A challenge takes one too, whatever its chain.
#[test]
fn a_person_signs_at_most_32_times(rt: HostRuntime) -> Result<(), Fail> {
    let alloc = rt.alloc();
    let challenge = r#"{"do":"challenge","channel":"C","chain":[],"by":"A"}"#;
    let mut text = format!(in alloc; "{{\"steps\":[{BEFORE}")?;
    for number in 0..31 {
        let step = format!(in alloc;
            ",{{\"do\":\"sign\",\"name\":\"U{number}\",\"channel\":\"C\",\"by\":\"A\",\"turn\":0,\"final\":true,\"outcome\":[],\"votes\":3,\"proposal\":[]}}"
        )?;
        text.push(',')?;
        text.push_str(if number % 2 == 0 {
            challenge
        } else {
            &step.as_str()[1..]
        })?;
    }
    let all = format!(in alloc; "{text}]}}")?;
    let script = read_script(alloc, all.as_bytes(), true)?;
    assert_eq!(rt; script.steps.as_slice().len(), 36);
    let all = format!(in alloc; "{text},{challenge}]}}")?;
    breaks(&rt, all.as_str(), true, 37, Rule::Limit)?;
    let other = r#"{"do":"challenge","channel":"C","chain":[],"by":"B"}"#;
    let all = format!(in alloc; "{text},{other}]}}")?;
    let script = read_script(alloc, all.as_bytes(), true)?;
    assert_eq!(rt; script.steps.as_slice().len(), 37);
    Ok(())
}
