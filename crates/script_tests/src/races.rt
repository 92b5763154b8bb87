//! Steps that break a rule after two people, a channel and two states, in a race too, with the step and the rule worked
//! out by hand from the grammar.

use crate::broken::{breaks, script_with};
use script_reader::Rule;
use std::process::Abort;
use std::test::Fail;

/// The step, the rule, and the last steps of the scripts, one script a line.
const RACES: [(u32, Rule, &str); 6] = [
    (
        6,
        Rule::Shape,
        r#"{"do":"person","name":"P","seed":"3333333333333333333333333333333333333333333333333333333333333333","h":5,"node":false}
{"do":"person","name":"P","seed":"3333333333333333333333333333333333333333333333333333333333333333","h":5,"node":false,"watchers":0,"by":"A"}
{"do":"person","name":"9P","seed":"3333333333333333333333333333333333333333333333333333333333333333","h":5,"node":false,"watchers":0}
{"do":"person","name":"abcdefghijklmnopq","seed":"3333333333333333333333333333333333333333333333333333333333333333","h":5,"node":false,"watchers":0}
{"do":"person","name":"P","seed":"333333333333333333333333333333333333333333333333333333333333333","h":5,"node":false,"watchers":0}
{"do":"person","name":"P","seed":"AAAAAAAAAAAAAAAAAAAAAAAAAAAAAAAAAAAAAAAAAAAAAAAAAAAAAAAAAAAAAAAA","h":5,"node":false,"watchers":0}
{"do":"person","name":"P","seed":3,"h":5,"node":false,"watchers":0}
{"do":"person","name":"P","seed":"3333333333333333333333333333333333333333333333333333333333333333","h":"5","node":false,"watchers":0}
{"do":"person","name":"P","seed":"3333333333333333333333333333333333333333333333333333333333333333","h":5,"node":0,"watchers":0}
{"do":"person","name":"P","seed":"3333333333333333333333333333333333333333333333333333333333333333","h":5,"node":null,"watchers":0}
{"do":"person","name":"P","seed":"3333333333333333333333333333333333333333333333333333333333333333","h":5,"node":false,"watchers":-1}
{"do":"person","name":"P","seed":"3333333333333333333333333333333333333333333333333333333333333333","h":5,"node":true,"watchers":"1"}
{"do":"channel","name":"K","people":["A","B"],"nonce":2,"app":"other","duration":1}"#,
    ),
    (
        6,
        Rule::Name,
        r#"{"do":"person","name":"A","seed":"aaaaaaaaaaaaaaaaaaaaaaaaaaaaaaaaaaaaaaaaaaaaaaaaaaaaaaaaaaaaaaaa","h":7,"node":true,"watchers":5}
{"do":"person","name":"A","seed":"3333333333333333333333333333333333333333333333333333333333333333","h":5,"node":false,"watchers":0}
{"do":"person","name":"C","seed":"3333333333333333333333333333333333333333333333333333333333333333","h":5,"node":false,"watchers":0}
{"do":"person","name":"S","seed":"3333333333333333333333333333333333333333333333333333333333333333","h":5,"node":false,"watchers":0}
{"do":"person","name":"P","seed":"aaaaaaaaaaaaaaaaaaaaaaaaaaaaaaaaaaaaaaaaaaaaaaaaaaaaaaaaaaaaaaaa","h":5,"node":false,"watchers":0}
{"do":"person","name":"P","seed":"aaaaaaaaaaaaaaaaaaaaaaaaaaaaaaaaaaaaaaaaaaaaaaaaaaaaaaaaaaaaaaaa","h":10,"node":false,"watchers":0}
{"do":"person","name":"A","seed":"3333333333333333333333333333333333333333333333333333333333333333","h":7,"node":false,"watchers":0}
{"do":"channel","name":"K","people":["A","P"],"nonce":2,"app":"payment","duration":1}
{"do":"channel","name":"K","people":["A","B"],"nonce":1,"app":"payment","duration":10},{"do":"channel","name":"K","people":["A","B"],"nonce":2,"app":"payment","duration":1}"#,
    ),
    (
        6,
        Rule::Limit,
        r#"{"do":"person","name":"P","seed":"3333333333333333333333333333333333333333333333333333333333333333","h":5,"node":true,"watchers":5}
{"do":"person","name":"P","seed":"3333333333333333333333333333333333333333333333333333333333333333","h":7,"node":false,"watchers":0}
{"do":"person","name":"P","seed":"3333333333333333333333333333333333333333333333333333333333333333","h":0,"node":false,"watchers":0}
{"do":"person","name":"P","seed":"3333333333333333333333333333333333333333333333333333333333333333","h":18446744073709551615,"node":false,"watchers":0}
{"do":"person","name":"P","seed":"3333333333333333333333333333333333333333333333333333333333333333","h":5,"node":false,"watchers":1}
{"do":"channel","name":"K","people":["A"],"nonce":2,"app":"payment","duration":1}"#,
    ),
    (
        6,
        Rule::NotInRace,
        r#"{"do":"channel","name":"K","people":["A","B"],"nonce":2,"app":"payment","duration":1}
{"do":"time","to":9}"#,
    ),
    (
        7,
        Rule::Name,
        r#"{"do":"person","name":"P","seed":"3333333333333333333333333333333333333333333333333333333333333333","h":5,"node":false,"watchers":0},{"do":"person","name":"P","seed":"3333333333333333333333333333333333333333333333333333333333333333","h":5,"node":false,"watchers":0}"#,
    ),
    (
        7,
        Rule::NotInRace,
        r#"{"do":"channel","name":"K","people":["A","B"],"nonce":2,"app":"payment","duration":2},{"do":"channel","name":"L","people":["A","B"],"nonce":3,"app":"payment","duration":1}"#,
    ),
];

fn all_break(
    rt: &(impl AllocGlobal + Abort),
    step: u32,
    rule: Rule,
    rows: &str,
) -> Result<(), Fail> {
    for steps in rows.lines() {
        let text = script_with(rt.alloc(), steps)?;
        breaks(rt, text.as_str(), true, step, rule)?;
    }
    Ok(())
}

#[test]
fn a_race_has_the_rules_of_a_script_and_one_more(rt: HostRuntime) -> Result<(), Fail> {
    for (step, rule, rows) in RACES {
        all_break(&rt, step, rule, rows)?;
    }
    Ok(())
}
