//! What a record says, in words.

use call_history::{Entry, flow_of};
use channel_values::{Dest, Label};
use report_lines::{channel_text, entry_line, person_text};
use run_record::{Ending, Record, Sum, SumOf};
use std::alloc::{AllocError, Global};

/// The lines of a record's entries, and the names of its sums and of its endings' persons, in the order of the record.
#[derive(Drop)]
pub struct Told {
    pub(crate) lines: Vec<String>,
    pub(crate) sums: Vec<String>,
    pub(crate) persons: Vec<String>,
}

/// Who an entry pays, ` to person NAME` or ` to channel NAME`; nothing where it doesn't pay.
fn payee_text(
    alloc: Global,
    labels: &[(Dest, Label)],
    entry: &Entry,
) -> Result<String, AllocError> {
    match flow_of(&entry.op, &entry.reply) {
        Some(flow) if flow.from.is_some() => match flow.to {
            Dest::Person(name) => {
                let name = person_text(alloc, labels, &name)?;
                format!(in alloc; " to person {name}")
            }
            Dest::Channel(name) => {
                let name = channel_text(alloc, labels, &name)?;
                format!(in alloc; " to channel {name}")
            }
        },
        _ => Ok(String::new(alloc)),
    }
}

/// The line of an entry with no line feed, and who it pays.
fn line_of(alloc: Global, labels: &[(Dest, Label)], entry: &Entry) -> Result<String, AllocError> {
    let mut line = entry_line(alloc, labels, entry)?;
    let _ = line.pop();
    let payee = payee_text(alloc, labels, entry)?;
    line.push_str(payee.as_str())?;
    Ok(line)
}

fn lines_of(
    alloc: Global,
    labels: &[(Dest, Label)],
    history: &[Entry],
) -> Result<Vec<String>, AllocError> {
    let mut lines = Vec::new(alloc);
    for entry in history {
        let line = line_of(alloc, labels, entry)?;
        lines.push(line)?;
    }
    Ok(lines)
}

/// Whose a sum is: what was paid is a person's.
fn sum_name(alloc: Global, labels: &[(Dest, Label)], sum: &Sum) -> Result<String, AllocError> {
    match sum.kind {
        SumOf::Paid => person_text(alloc, labels, &sum.name),
        SumOf::Deposited | SumOf::Held => channel_text(alloc, labels, &sum.name),
    }
}

fn sum_names(
    alloc: Global,
    labels: &[(Dest, Label)],
    sums: &[Sum],
) -> Result<Vec<String>, AllocError> {
    let mut names = Vec::new(alloc);
    for sum in sums {
        let name = sum_name(alloc, labels, sum)?;
        names.push(name)?;
    }
    Ok(names)
}

fn person_names(
    alloc: Global,
    labels: &[(Dest, Label)],
    ends: &[Ending],
) -> Result<Vec<String>, AllocError> {
    let mut names = Vec::new(alloc);
    for ending in ends {
        let name = person_text(alloc, labels, &ending.person)?;
        names.push(name)?;
    }
    Ok(names)
}

/// What a record says, in words. A record has no names: people and channels are called what they were declared with,
/// or else by their digits.
pub fn told_of(
    alloc: Global,
    labels: &[(Dest, Label)],
    value: &Record,
) -> Result<Told, AllocError> {
    let lines = lines_of(alloc, labels, value.history.as_slice())?;
    let sums = sum_names(alloc, labels, value.sums.as_slice())?;
    let persons = person_names(alloc, labels, value.ends.as_slice())?;
    Ok(Told {
        lines,
        sums,
        persons,
    })
}
