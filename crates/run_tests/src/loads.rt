//! Loads whose numbers were worked out apart, from the rules of a load.

use script_reader::Step;
use script_run::{LoadFault, load_script};
use std::process::Abort;
use std::test::Fail;

#[test]
fn payments_are_those_of_the_seed(rt: HostRuntime) -> Result<(), Fail> {
    for (seed, amounts) in [(1, (735, 384)), (u64::MAX, (51, 481))] {
        let (script, signers) = load_script(rt.alloc(), seed, 2)?;
        assert_eq!(rt; signers.len(), 2);
        match script.steps.as_slice() {
            [
                _,
                _,
                _,
                _,
                _,
                Step::Pay(first),
                _,
                Step::Pay(second),
                _,
                _,
                _,
            ] => {
                assert_eq!(rt; (first.amount, second.amount), amounts, "{seed}");
            }
            _ => assert!(rt; false, "{seed}"),
        }
    }
    Ok(())
}

#[test]
fn seeds_of_keys_end_with_the_seed_of_the_load(rt: HostRuntime) -> Result<(), Fail> {
    let (script, _) = load_script(rt.alloc(), 0x0102_0304_0506_0708, 1)?;
    match script.steps.as_slice() {
        [_, Step::Person(keys), ..] => {
            assert_eq!(rt; keys.name.as_str(), "B");
            assert_eq!(rt;
                &keys.seed,
                b"BBBBBBBBBBBBBBBBBBBBBBBB\x01\x02\x03\x04\x05\x06\x07\x08"
            );
        }
        _ => assert!(rt; false),
    }
    Ok(())
}

#[test]
fn faults_of_loads_are_told(rt: HostRuntime) -> Result<(), Fail> {
    let told = format!(in rt.alloc(); "{}", LoadFault::OneName)?;
    assert_eq!(rt; told.as_str(), "both people have one name");
    Ok(())
}
