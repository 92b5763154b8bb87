//! The recorded turns and deadlines of channels.

ghost use Rattle.std.specs.Prelude.{◌≡◌, OnOk};
ghost use Rattle.call_history.specs.Rows.{fixed_of};
ghost use Rattle.call_history.specs.Told.{told_row};
ghost use Rattle.network.specs.Rows.{told_in, rows_of};
ghost use Rattle.network.specs.Watching.{watched_row, recorded, row_with, rows_after};

use call_history::{Entry, fixed_of, told_row};
use channel_values::{Name, NoMemory, channel_name};
use indexmap::IndexMap;

/// The recorded turn of a channel, and the deadline of an open challenge.
#[derive(Clone, Copy, Debug, PartialEq, Eq)]
pub struct Watched {
    pub channel: Name,
    pub turn: u64,
    pub deadline: Option<u64>,
}

/// A turn, and the deadline of an open challenge.
pub(crate) type Told = (u64, Option<u64>);

fn told_in(rows: &IndexMap<Name, Told>, channel: &Name) -> Told
    ensures { result ≡ told_in rows.now.entries channel.now }
{
    match rows.get(channel) {
        Some(told) => *told,
        None => (0, None),
    }
}

/// What is recorded of a channel.
#[tactic(auto, using(crate::proofs::Mapped::found_row))]
pub(crate) fn watched_row(rows: &IndexMap<Name, Told>, channel: &Name) -> Watched
    ensures { result ≡ watched_row (rows_of rows.now.entries) channel.now }
{
    let (turn, deadline) = told_in(rows, channel);
    Watched {
        channel: *channel,
        turn,
        deadline,
    }
}

/// Records the row of a channel.
#[tactic(auto, using(crate::proofs::Mapped::inserted_row))]
fn record(rows: &mut IndexMap<Name, Told>, channel: Name, told: Told) -> Result<(), NoMemory>
    ensures { OnOk result (rows_of rows.new.entries
        ≡ recorded (row_with channel told) (rows_of rows.old.entries)) }
{
    rows.insert(channel, told)?;
    Ok(())
}

/// Records what an entry says. The time is that before it.
pub(crate) fn record_told(
    rows: &mut IndexMap<Name, Told>,
    now: u64,
    entry: &Entry,
) -> Result<(), NoMemory>
    ensures { OnOk result (rows_of rows.new.entries
        ≡ rows_after (fixed_of entry.now.op) (told_row now entry.now.op entry.now.reply) (rows_of rows.old.entries)) }
{
    let Some(fixed) = fixed_of(&entry.op) else {
        return Ok(());
    };
    let Some(told) = told_row(now, entry) else {
        return Ok(());
    };
    record(rows, channel_name(fixed.bytes()), told)
}
