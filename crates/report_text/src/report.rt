//! What a run made, and its text.

ghost use Rattle.std.specs.Prelude.{◌≡◌, IfOk};
ghost use Rattle.call_history.specs.History.{Legal, newest_first};
ghost use Rattle.support_rules.specs.Real.{real};
ghost use Rattle.report_text.specs.Report.{tail_of, text_of, record_from};

use crate::text::{append_tail, report_text};
use call_history::Entry;
use channel_values::{Dest, Label, Listed, Name, NoMemory};
use premises::Journal;
use run_record::{Ending, Record, Sum};

/// Whether each premise of a person's safety holds.
#[derive(Clone, Copy, Debug, Drop)]
pub struct Judged {
    pub person: Name,
    pub unforged: bool,
    pub distinct: bool,
    pub in_time: bool,
}

/// What a person can get of an asset.
#[derive(Clone, Copy, Debug, Drop)]
pub struct Share {
    pub person: Name,
    pub asset: u32,
    pub amount: u128,
}

/// What a load was made from: its seed, and how many payments it makes.
#[derive(Clone, Copy, Debug, Drop, PartialEq, Eq)]
pub struct Load {
    pub seed: u64,
    pub count: u32,
}

/// What a run made: its history, in the order of time, and how long that was after each round. It has the journals of
/// the people with nodes, in the order of their declaration. It has the names of the declared people and channels, in
/// the order of declaration. For each journal it says whether the premises of its person's safety hold. It has the
/// shares of those people at the end, those just after they were commanded to exit, and how each of them ended. It
/// has the sums of the flows of the history, and what a load was made from, where it is of one. No text is made of
/// the endings and the sums.
#[derive(Drop)]
pub struct Report {
    pub history: Listed<Entry>,
    pub journals: Listed<Journal>,
    pub rounds: Listed<u32>,
    pub labels: Listed<(Dest, Label)>,
    pub premises: Listed<Judged>,
    pub shares: Listed<Share>,
    pub exits: Listed<Share>,
    pub ends: Listed<Ending>,
    pub sums: Listed<Sum>,
    pub load: Option<Load>,
}

/// The printed text of a report.
pub fn text_of(report: &Report) -> Result<Vec<u8>, NoMemory>
    requires { Legal real (newest_first report.now.history) }
    ensures { IfOk result (λ text. text.items ≡ text_of report.now) }
{
    let text = report_text(report.history.allocator(), report)?;
    Ok(text.into_bytes())
}

/// The text of a report after the entries and the refused commands.
pub fn tail_of(report: &Report) -> Result<Vec<u8>, NoMemory>
    requires { Legal real (newest_first report.now.history) }
    ensures { IfOk result (λ text. text.items ≡ tail_of report.now) }
{
    let alloc = report.history.allocator();
    let mut text = String::new(alloc);
    append_tail(alloc, &mut text, report)?;
    Ok(text.into_bytes())
}

/// The record of the run, for somebody who checks it.
pub fn record_from(report: Report) -> Record
    ensures { result ≡ record_from report }
{
    Record {
        history: report.history,
        sums: report.sums,
        ends: report.ends,
    }
}
