//! The settle, abandon and resend steps that are read.

use channel_values::Label;
use network::Release;
use script_reader::{Step, read_script};
use std::test::Fail;

/// Two people with nodes, and their channel.
const BEFORE: &str =
    r#"{"do":"person","name":"A","seed":"aaaaaaaaaaaaaaaaaaaaaaaaaaaaaaaaaaaaaaaaaaaaaaaaaaaaaaaaaaaaaaaa","h":5,"node":true,"watchers":1},{"do":"person","name":"B","seed":"bbbbbbbbbbbbbbbbbbbbbbbbbbbbbbbbbbbbbbbbbbbbbbbbbbbbbbbbbbbbbbbb","h":5,"node":true,"watchers":1},{"do":"channel","name":"C","people":["A","B"],"nonce":1,"app":"consensus","duration":2}"#;

/// What a step is, if it is of B and A, and of C.
#[derive(Clone, Copy, Debug, PartialEq, Eq)]
enum Said {
    Release(Release),
    Resend,
    Other,
}

const WORDS: [(&str, Said); 3] = [
    ("settle", Said::Release(Release::Settle)),
    ("abandon", Said::Release(Release::Abandon)),
    ("resend", Said::Resend),
];

fn is_of(who: &[Label], channel: &Label) -> bool {
    match who {
        [a, b] => a.as_str() == "B" && b.as_str() == "A" && channel.as_str() == "C",
        _ => false,
    }
}

fn if_is(holds: bool, said: Said) -> Said {
    if holds { said } else { Said::Other }
}

fn read_as(step: &Step) -> Said {
    match step {
        Step::Release { how, who, channel } => {
            if_is(is_of(who.as_slice(), channel), Said::Release(*how))
        }
        Step::Resend { who, channel } => if_is(is_of(who.as_slice(), channel), Said::Resend),
        _ => Said::Other,
    }
}

/// In a race too.
#[test]
fn commands_of_a_stuck_channel_are_read(rt: HostRuntime) -> Result<(), Fail> {
    for (word, wanted) in WORDS {
        let text = format!(in rt.alloc();
            "{{\"steps\":[{BEFORE},{{\"do\":\"{word}\",\"who\":[\"B\",\"A\"],\"channel\":\"C\"}}]}}"
        )?;
        let script = read_script(rt.alloc(), text.as_bytes(), true)?;
        match script.steps.as_slice() {
            [.., last] => assert_eq!(rt; read_as(last), wanted, "{word}"),
            _ => assert!(rt; false),
        }
    }
    Ok(())
}
