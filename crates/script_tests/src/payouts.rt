//! The transfer and claim steps that are read.

use crate::broken::BEFORE;
use script_reader::{Step, read_script};
use std::test::Fail;

/// Both forms, at the limits of their numbers.
#[test]
fn payouts_are_read(rt: HostRuntime) -> Result<(), Fail> {
    let alloc = rt.alloc();
    let text = format!(in alloc;
        "{{\"steps\":[{BEFORE},{{\"do\":\"transfer\",\"channel\":\"C\",\"state\":\"S\",\"asset\":4294967295,\"index\":255}},{{\"do\":\"claim\",\"guarantor\":\"C\",\"state\":\"S\",\"target\":\"C\",\"target_state\":\"T\",\"asset\":1,\"position\":2}}]}}"
    )?;
    let script = read_script(alloc, text.as_bytes(), true)?;
    let [.., transfer, claim] = script.steps.as_slice() else {
        return Ok(assert!(rt; false));
    };
    match transfer {
        Step::Transfer(keys) => {
            assert_eq!(rt; (keys.channel.as_str(), keys.state.as_str()), ("C", "S"));
            assert_eq!(rt; (keys.asset, keys.index), (4294967295, 255));
        }
        _ => assert!(rt; false),
    }
    match claim {
        Step::Claim(keys) => {
            assert_eq!(rt; (keys.guarantor.as_str(), keys.state.as_str()), ("C", "S"));
            assert_eq!(rt;
                (keys.target.as_str(), keys.target_state.as_str()),
                ("C", "T")
            );
            assert_eq!(rt; (keys.asset, keys.position), (1, 2));
        }
        _ => assert!(rt; false),
    }
    Ok(())
}
