//! Crashes at each call, and a changed byte at each place.

use crate::crashes::{Holding, are_restarted, found, left_at_foreign, run_from};
use std::test::Fail;

/// A source, and one more than the calls of a run on it. These are one for the responses that were asked for, three
/// for each record, and one for the empty line. One at a time, four lines have a record each; all at once, two have
/// one.
const SOURCES: [(Holding, u32); 2] = [(Holding::One, 15), (Holding::All, 9)];

#[test]
fn a_restart_writes_what_one_run_writes(rt: HostRuntime) -> Result<(), Fail> {
    let alloc = rt.alloc();
    for (holding, calls) in SOURCES {
        let whole = run_from(alloc, holding, b"", u32::MAX)?;
        for left in 0..calls {
            let crashed = run_from(alloc, holding, b"", left)?;
            assert!(rt; whole.text.starts_with(&crashed.text), "{left}");
            assert!(rt; are_restarted(alloc, holding, &crashed, &whole)?, "{left}");
        }
    }
    Ok(())
}

/// The lines of a batch have one record, and one line `done` after their answers: the lengths of the lines so far.
#[test]
fn lines_share_a_record(rt: HostRuntime) -> Result<(), Fail> {
    let alloc = rt.alloc();
    let whole = run_from(alloc, Holding::All, b"", u32::MAX)?;
    assert!(rt; whole.safe.starts_with(b"1 "));
    assert!(rt; whole.safe.ends_with(b" def\x1eg\n"));
    assert!(rt;
        whole
            .text
            .starts_with(b"1\n3\n{\"effect\":\"done\",\"n\":1,")
    );
    Ok(())
}

/// A line of another story ends the run: neither it nor a line that would share its record is kept.
#[test]
fn a_line_of_another_story_ends_the_run(rt: HostRuntime) -> Result<(), Fail> {
    let alloc = rt.alloc();
    for (holding, kept) in [(Holding::One, 69), (Holding::All, 0)] {
        assert_eq!(rt; left_at_foreign(alloc, holding)?, Some(kept));
    }
    Ok(())
}

/// Records of 69, 70, 71 and 69 bytes. The file is damaged if a byte is another, but for the last record and the line
/// feed before it: these count as torn.
#[test]
fn a_changed_byte_is_found(rt: HostRuntime) -> Result<(), Fail> {
    let alloc = rt.alloc();
    let mut file = run_from(alloc, Holding::One, b"", u32::MAX)?.safe;
    for i in 0..file.len() {
        file[i] ^= 1;
        let (what, kept) = found(alloc, &file)?;
        file[i] ^= 1;
        let expected = if i < 209 {
            (2, 0)
        } else if i == 209 {
            (1, 139)
        } else {
            (1, 210)
        };
        assert_eq!(rt; (what, kept), expected, "byte {i}");
    }
    Ok(())
}
