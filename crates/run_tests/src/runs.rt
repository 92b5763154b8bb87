//! What comes of sources and sinks that fail, and of sources that are long. Whole scripts with their texts are files,
//! in `examples`.

use byte_streams::{ListSink, ListSource};
use channel_values::Label;
use script_reader::Rule;
use script_run::{Status, run_words};
use std::alloc::AllocError;
use std::sync::Wait;
use std::test::Fail;
use std::thread::Threads;

/// The status of a run of the script that the source has, and whether there is a report.
fn ended<R: Threads + Wait + Sync + AllocGlobal>(
    rt: &R,
    source: &mut ListSource<'_>,
    sink: &mut ListSink<'_>,
) -> Result<(Status, bool), AllocError> {
    let alloc = rt.alloc();
    let words = vec![in alloc; Label::make(String::from_str(alloc, "run")?)]?;
    let ended = run_words(rt, alloc, &words, source, sink, Vec::new(alloc));
    Ok((ended.status, ended.report.is_some()))
}

/// A run: its status, whether there is a report, and how much of the text was written, if that is a front of it.
type End = (Status, bool, Option<usize>);

/// How long the bytes are, if the text begins with them.
fn front_of(text: &[u8], bytes: &[u8]) -> Option<usize> {
    if text.starts_with(bytes) {
        Some(bytes.len())
    } else {
        None
    }
}

/// A run over a source that fails at some calls.
fn read<R: Threads + Wait + Sync + AllocGlobal>(
    rt: &R,
    script: &[u8],
    failing: &[u64],
    text: &[u8],
) -> Result<End, Fail> {
    let mut source = ListSource::make(script, failing);
    let mut sink = ListSink::make(rt.alloc(), 64, 64, &[])?;
    let (status, is_played) = ended(rt, &mut source, &mut sink)?;
    Ok((status, is_played, front_of(text, sink.bytes.as_slice())))
}

/// A run over a sink that takes a byte at a time and fails at some calls.
fn put<R: Threads + Wait + Sync + AllocGlobal>(
    rt: &R,
    script: &[u8],
    failing: &[u64],
    text: &[u8],
) -> Result<End, Fail> {
    let mut source = ListSource::make(script, &[]);
    let mut sink = ListSink::make(rt.alloc(), 64, 1, failing)?;
    let (status, is_played) = ended(rt, &mut source, &mut sink)?;
    Ok((status, is_played, front_of(text, sink.bytes.as_slice())))
}

const NO_STEPS: &[u8] = br#"{"steps":[]}"#;

#[test]
fn a_source_that_fails_is_a_read_fault(rt: HostRuntime) -> Result<(), Fail> {
    let wanted = (Status::ReadFault, false, Some(11));
    for call in 0..2 {
        let end = read(&rt, NO_STEPS, &[call], b"read fault\n")?;
        assert_eq!(rt; end, wanted, "{call}");
    }
    Ok(())
}

#[test]
fn a_sink_that_fails_leaves_a_prefix(rt: HostRuntime) -> Result<(), Fail> {
    for call in 0..20u8 {
        let end = put(&rt, NO_STEPS, &[call as u64], b"end entries 0 now 0\n")?;
        assert_eq!(rt;
            end,
            (Status::WriteFault, true, Some(call as usize)),
            "{call}"
        );
    }
    Ok(())
}

/// A run over so many spaces.
fn spaces<R: Threads + Wait + Sync + AllocGlobal>(
    rt: &R,
    count: usize,
    text: &[u8],
) -> Result<End, Fail> {
    let script = vec![in rt.alloc(); b' '; count]?;
    read(rt, &script, &[], text)
}

#[test]
fn the_limit_of_bytes_is_exact(rt: HostRuntime) -> Result<(), Fail> {
    let cases = [
        (
            4_194_304,
            Status::Script(0, Rule::NotJson),
            "script 0 1 NotJson\n",
        ),
        (4_194_305, Status::TooLong, "too long\n"),
    ];
    for (count, status, text) in cases {
        let end = spaces(&rt, count, text.as_bytes())?;
        assert_eq!(rt; end, (status, false, Some(text.len())), "{count}");
    }
    Ok(())
}
