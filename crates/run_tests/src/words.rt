//! What words ask for, with ample memory. The values that are wanted are worked out from the rules of the words.

use channel_values::{Label, NoMemory};
use command_words::{Asked, asked};
use std::alloc::{AllocError, Global};
use std::test::Fail;

/// The words of a line, which single spaces part.
fn words_of(alloc: Global, line: &str) -> Result<Vec<Label>, AllocError> {
    let mut words = Vec::new(alloc);
    for word in line.split(' ') {
        words.push(Label::make(String::from_str(alloc, word)?))?;
    }
    Ok(words)
}

/// What the words of a line ask for.
fn asks(alloc: Global, line: &str) -> Result<Option<Asked>, NoMemory> {
    let words = words_of(alloc, line)?;
    asked(alloc, &words)
}

#[test]
fn requests_are_read(rt: HostRuntime) -> Result<(), Fail> {
    let cases = [
        ("load --seed 1 --count 1", 1, 1),
        ("load --count 1000 --seed=007", 7, 1000),
        ("load --seed=12 --count=34 --", 12, 34),
        ("load --seed 18446744073709551615 --count 1", u64::MAX, 1),
        (
            "load --seed 00000000000000000000 --count 00000000000000000999",
            0,
            999,
        ),
    ];
    for (line, seed, count) in cases {
        let wanted = Some(Asked::Load { seed, count });
        assert_eq!(rt; asks(rt.alloc(), line), Ok(wanted), "{line}");
    }
    assert_eq!(rt; asks(rt.alloc(), "run"), Ok(Some(Asked::Run)));
    assert_eq!(rt; asked(rt.alloc(), &[]), Ok(None));
    Ok(())
}

/// Other words, and other values.
const NONE: [&str; 34] = [
    "",
    "Run",
    "run run",
    "load",
    "load run",
    "--help",
    "load --help",
    "load -h",
    "load --version",
    "load --seed 1",
    "load --seed 1 --seed 1",
    "load --seed 1 --count 1 --seed 1",
    "load --seed=1 --count=1 --seed=1",
    "load --seed 1 --count 1 --help",
    "load --seed 1 --count 1 -- 1",
    "load --seed 1 --count 1 1",
    "load --seed 1 -c 1",
    "load -- --seed 1 --count 1",
    "load --seed 1 --counts 1",
    "load --seed --count 1",
    "load --seed 18446744073709551616 --count 1",
    "load --seed 1 --count 0",
    "load --seed 1 --count 1001",
    "load --seed 1 --count 18446744073709551617",
    "load --seed +1 --count 1",
    "load --seed -1 --count 1",
    "load --seed=-1 --count 1",
    "load --seed  --count 1",
    "load --seed= --count 1",
    "load --seed 1.0 --count 1",
    "load --seed 000000000000000000001 --count 1",
    "load --seed 0x1 --count 1",
    "load --seed =1 --count 1",
    "load --seed 1 --count ٣",
];

#[test]
fn other_lines_ask_for_nothing(rt: HostRuntime) -> Result<(), Fail> {
    for line in NONE {
        assert_eq!(rt; asks(rt.alloc(), line), Ok(None), "{line}");
    }
    Ok(())
}
