//! Scripts that break a rule, with the step and the rule worked out by hand from the grammar.

use script_reader::{Rule, ScriptFault, read_script};
use std::alloc::{AllocError, Global};
use std::process::Abort;
use std::test::Fail;

pub(super) fn breaks(
    rt: &(impl AllocGlobal + Abort),
    script: &str,
    race: bool,
    step: u32,
    rule: Rule,
) -> Result<(), Fail> {
    match read_script(rt.alloc(), script.as_bytes(), race) {
        Ok(_) => assert!(rt; false, "read: {script}"),
        Err(fault) => assert_eq!(rt; fault, ScriptFault::Broken { step, rule }, "{script}"),
    }
    Ok(())
}

/// Five steps: the people A and B, their channel C, and its states S by A and T by B.
pub(super) const BEFORE: &str =
    r#"{"do":"person","name":"A","seed":"aaaaaaaaaaaaaaaaaaaaaaaaaaaaaaaaaaaaaaaaaaaaaaaaaaaaaaaaaaaaaaaa","h":5,"node":false,"watchers":0},{"do":"person","name":"B","seed":"bbbbbbbbbbbbbbbbbbbbbbbbbbbbbbbbbbbbbbbbbbbbbbbbbbbbbbbbbbbbbbbb","h":5,"node":false,"watchers":0},{"do":"channel","name":"C","people":["A","B"],"nonce":1,"app":"payment","duration":10},{"do":"sign","name":"S","channel":"C","by":"A","turn":0,"final":false,"outcome":[{"asset":0,"items":[["A",5],["B",3]]}],"votes":0,"proposal":[]},{"do":"sign","name":"T","channel":"C","by":"B","turn":1,"final":false,"outcome":[{"asset":0,"items":[["A",5],["B",3]]}],"votes":0,"proposal":[]}"#;

/// The script of these steps after the first five.
pub(super) fn script_with(alloc: Global, steps: &str) -> Result<String, AllocError> {
    format!(in alloc; "{{\"steps\":[{BEFORE},{steps}]}}")
}

/// A script of `count` steps that are all the same text.
fn repeated(alloc: Global, step: &str, count: usize) -> Result<String, AllocError> {
    let mut text = String::from_str(alloc, "{\"steps\":[")?;
    for number in 0..count {
        if number > 0 {
            text.push(',')?;
        }
        text.push_str(step)?;
    }
    text.push_str("]}")?;
    Ok(text)
}

/// The number of steps is tried before any step.
#[test]
fn a_script_has_at_most_4096_steps(rt: HostRuntime) -> Result<(), Fail> {
    let alloc = rt.alloc();
    let text = repeated(alloc, "1", 4096)?;
    breaks(&rt, text.as_str(), false, 1, Rule::Shape)?;
    let text = repeated(alloc, "1", 4097)?;
    breaks(&rt, text.as_str(), false, 0, Rule::Limit)?;
    let text = repeated(alloc, r#"{"do":"time","to":1}"#, 4097)?;
    breaks(&rt, text.as_str(), true, 0, Rule::Limit)?;
    let text = repeated(alloc, r#"{"do":"time","to":1}"#, 4096)?;
    breaks(&rt, text.as_str(), true, 1, Rule::NotInRace)?;
    let script = read_script(alloc, text.as_bytes(), false)?;
    assert_eq!(rt; script.steps.as_slice().len(), 4096);
    Ok(())
}
