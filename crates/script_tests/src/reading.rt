//! Texts as they are printed, and what isn't one.

use run_text::{LineFault, Run, Unread, Wanted, read_run};

/// A run of a node with all kinds of lines, and a stranger's channel.
const TEXT: &[u8] = b"1 1 deposit C 0 0 5 ok held 5
2 0 deposit C 0 5 3 ok held 8
3 0 challenge C 4 ok until 2
4 1 checkpoint C 6 ok open 6
5 0 challenge C - no 2 NotSupported 3 1 1
6 0 time 2 ok now 2
7 1 transfer C 0 0 ok paid 7
8 0 claim G C 0 1 no 17 WrongOutcome C
command 6 A no 3 NotOpen C final
end entries 8 now 2
asset 0 deposited 8 held 1 paid 7
held C 0 1
paid A 0 7
premises A unforged yes distinct yes intime no
person A 0 paid 7 share 7
exit A 0 share 6
";

/// The line at which a text isn't read, or 0.
fn line_of(outcome: &Result<Run, Unread>) -> usize {
    match outcome {
        Err(Unread::Line(fault)) => fault.line,
        _ => 0,
    }
}

#[test]
fn a_text_is_read(rt: HostRuntime) -> Result<(), Unread> {
    let run = read_run(rt.alloc(), TEXT)?;
    assert_eq!(rt; run.entries.len(), 8);
    assert_eq!(rt; run.refused.len(), 1);
    assert_eq!(rt; run.persons.len(), 1);
    assert_eq!(rt; run.end.now, 2);
    Ok(())
}

#[test]
fn a_text_that_is_cut_is_refused(rt: HostRuntime) {
    let mut line = 1;
    for (length, byte) in TEXT.iter().enumerate() {
        let cut = &TEXT[..length];
        // An exit may be missing.
        if line < 16 {
            let outcome = read_run(rt.alloc(), cut);
            assert_eq!(rt; line_of(&outcome), line);
        }
        if *byte == b'\n' {
            line = line.saturating_add(1);
        }
    }
}

#[test]
fn what_was_wanted_is_told(rt: HostRuntime) {
    let rows: [(&[u8], usize, Wanted); 5] = [
        (b"script 3 2 Shape\n", 1, Wanted::AnyLine),
        (b"1 0 time 5 ok until 5\n", 1, Wanted::Word("now")),
        (b"1 0 time 05 ok now 5\n", 1, Wanted::Number),
        (b"2 0 time 5 ok now 5\n", 1, Wanted::EntryNumber),
        (
            b"end entries 0 now 0\nend entries 0 now 0\n",
            2,
            Wanted::LaterLine,
        ),
    ];
    for (text, line, wanted) in rows {
        let outcome = read_run(rt.alloc(), text);
        let found = match outcome {
            Err(Unread::Line(fault)) => fault,
            _ => LineFault {
                line: 0,
                wanted: Wanted::AnyLine,
            },
        };
        assert_eq!(rt; found, LineFault { line, wanted });
    }
}
