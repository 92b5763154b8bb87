//! The text of a record.

ghost use Rattle.std.specs.Prelude.{◌≡◌, ◌++◌, [], flat_map, IfOk, OnOk, string_bytes};
ghost use Rattle.report_lines.specs.Text.{entry_line};
ghost use Rattle.record_checker.specs.Shown.{head_line, record_text};

use crate::shown_endings::append_endings;
use crate::shown_sums::append_sums;
use call_history::Entry;
use report_lines::entry_line;
use run_record::Record;
use std::alloc::{AllocError, Global};

fn head_line(
    alloc: Global,
    entries: usize,
    sums: usize,
    endings: usize,
) -> Result<String, AllocError>
    ensures { IfOk result (λ text. string_bytes text ≡ head_line entries sums endings) }
{
    format!(in alloc; "record entries {entries} sums {sums} endings {endings}\n")
}

/// The entries as a run prints them, with digits for names.
fn append_entries(alloc: Global, text: &mut String, history: &[Entry]) -> Result<(), AllocError>
    ensures { OnOk result (string_bytes text.new
        ≡ string_bytes text.old ++ flat_map (entry_line []) history.now) }
{
    for entry in history {
        let line = entry_line(alloc, &[], entry)?;
        text.push_str(line.as_str())?;
    }
    Ok(())
}

/// What a record says.
pub(crate) fn record_text(alloc: Global, value: &Record) -> Result<String, AllocError>
    ensures { IfOk result (λ text. string_bytes text ≡ record_text value.now) }
{
    let history = value.history.as_slice();
    let sums = value.sums.as_slice();
    let ends = value.ends.as_slice();
    let mut text = head_line(alloc, history.len(), sums.len(), ends.len())?;
    append_entries(alloc, &mut text, history)?;
    append_sums(alloc, &mut text, sums)?;
    append_endings(alloc, &mut text, ends)?;
    Ok(text)
}
