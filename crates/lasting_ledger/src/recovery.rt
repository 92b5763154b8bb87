//! From the bytes of a state file to a ledger.

ghost use Rattle.std.specs.Prelude.{◌≡◌, ◌≤◌, ◌<◌, ℕ, unwrap_or, IfOk, Err};
ghost use Rattle.lasting_lines.specs.Endings.{FullIn};
ghost use Rattle.lasting_lines.specs.Opening.{IsPlayed, IsFound};
ghost use Rattle.lasting_lines.specs.declared.recovery.Found.TheVariants as found;
ghost use Rattle.lasting_ledger.specs.Ledgers.{line_ways, ledger_ways, unplayed};
ghost use Rattle.lasting_ledger.specs.Runs.{last_left_out, count_in};

use crate::machine::LedgerMachine;
use lasting_lines::{Fault, Found, Played, recover};
use std::alloc::Global;

/// A ledger that has taken the lines of its file, and the responses that were asked for.
#[derive(Drop)]
pub struct Begun {
    pub played: Played<LedgerMachine>,
    pub again: Vec<u8>,
}

/// Why a file isn't served.
#[derive(Clone, Copy, Debug, PartialEq, Eq)]
pub enum Stop {
    NoMemory,
    /// The file has as many records as numbers of 64 bits allow.
    Full,
    /// So many bytes are records, and a torn one follows. Cut the file there, and begin again.
    Torn(usize),
    /// A record is wrong, and a later one follows it.
    Damaged,
    /// The file has fewer records.
    Behind,
}

/// Plays the records of a file. The responses to records with numbers above `after` are to be written again.
pub fn begin(alloc: Global, file: &[u8], after: Option<u64>) -> Result<Begun, Stop>
    ensures played { IfOk result (λ begun.
        IsPlayed ledger_ways unplayed file.now (last_left_out after) begun.played begun.again.items) }
    ensures enough { IfOk result (λ _. unwrap_or after 0 ≤ count_in file.now) }
    ensures torn { (kept : ℕ) → result ≡ Err (Stop.Torn kept)
        → IsFound ledger_ways unplayed file.now (last_left_out after) (found.Torn kept) }
    ensures damaged { result ≡ Err Stop.Damaged
        → IsFound ledger_ways unplayed file.now (last_left_out after) found.Damaged }
    ensures behind { result ≡ Err Stop.Behind → count_in file.now < unwrap_or after 0 }
    ensures full { result ≡ Err Stop.Full → FullIn line_ways unplayed file.now }
{
    let from = after.unwrap_or(u64::MAX);
    match recover(alloc, LedgerMachine::unplayed(alloc), file, from) {
        Ok(Found::Whole(played, again)) => {
            if played.count < after.unwrap_or(0) {
                drop(played);
                return Err(Stop::Behind);
            }
            Ok(Begun { played, again })
        }
        Ok(Found::Torn(kept)) => Err(Stop::Torn(kept)),
        Ok(Found::Damaged) => Err(Stop::Damaged),
        Err(fault) => match fault {
            Fault::NoMemory => Err(Stop::NoMemory),
            _ => Err(Stop::Full),
        },
    }
}
