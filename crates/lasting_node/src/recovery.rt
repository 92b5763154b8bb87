//! From the bytes of a state file to a machine.

ghost use Rattle.std.specs.Prelude.{◌≡◌, ◌≤◌, ◌<◌, ℕ, unwrap_or, IfOk, Err};
ghost use Rattle.lasting_lines.specs.Endings.{FullIn, ForeignIn};
ghost use Rattle.lasting_lines.specs.Opening.{IsPlayed, IsFound};
ghost use Rattle.lasting_lines.specs.declared.recovery.Found.TheVariants as found;
ghost use Rattle.network.specs.Histories.{IsFresh};
ghost use Rattle.lasting_node.specs.Machines.{line_ways, node_ways, unplayed, Foreign};
ghost use Rattle.lasting_node.specs.Runs.{last_left_out, count_in};

use crate::machine::NodeMachine;
use lasting_lines::{Fault, Found, Played, recover};
use lms_signatures::Signer;
use std::alloc::Global;

/// A machine that has taken the lines of its file, and the responses that were asked for.
#[derive(Drop)]
pub struct Begun {
    pub played: Played<NodeMachine>,
    pub again: Vec<u8>,
}

/// Why a file isn't served.
#[derive(Clone, Copy, Debug, PartialEq, Eq)]
pub enum Stop {
    NoMemory,
    /// The file has as many records as numbers of 64 bits allow.
    Full,
    /// So many bytes are records, and a torn one follows. Cut the file there, and begin again.
    Torn(usize),
    /// A record is wrong, and a later one follows it.
    Damaged,
    /// The file has fewer records.
    Behind,
    /// The file has an entry whose reply isn't the adjudicator's.
    Entries,
}

/// Plays the records of a file. The responses to records with numbers above `after` are to be written again.
pub fn begin(alloc: Global, signer: Signer, file: &[u8], after: Option<u64>) -> Result<Begun, Stop>
    requires { IsFresh signer }
    ensures played { IfOk result (λ begun.
        IsPlayed node_ways (unplayed signer) file.now (last_left_out after) begun.played begun.again.items) }
    ensures enough { IfOk result (λ _. unwrap_or after 0 ≤ count_in signer file.now) }
    ensures torn { (kept : ℕ) → result ≡ Err (Stop.Torn kept)
        → IsFound node_ways (unplayed signer) file.now (last_left_out after) (found.Torn kept) }
    ensures damaged { result ≡ Err Stop.Damaged
        → IsFound node_ways (unplayed signer) file.now (last_left_out after) found.Damaged }
    ensures behind { result ≡ Err Stop.Behind → count_in signer file.now < unwrap_or after 0 }
    ensures full { result ≡ Err Stop.Full → FullIn line_ways (unplayed signer) file.now }
    ensures entries { result ≡ Err Stop.Entries → ForeignIn line_ways Foreign (unplayed signer) file.now }
{
    let Ok(unplayed) = NodeMachine::unplayed(alloc, signer) else {
        return Err(Stop::NoMemory);
    };
    let from = after.unwrap_or(u64::MAX);
    match recover(alloc, unplayed, file, from) {
        Ok(Found::Whole(played, again)) => {
            if played.count < after.unwrap_or(0) {
                drop(played);
                return Err(Stop::Behind);
            }
            Ok(Begun { played, again })
        }
        Ok(Found::Torn(kept)) => Err(Stop::Torn(kept)),
        Ok(Found::Damaged) => Err(Stop::Damaged),
        Err(fault) => match fault {
            Fault::NoMemory => Err(Stop::NoMemory),
            Fault::Foreign => Err(Stop::Entries),
            _ => Err(Stop::Full),
        },
    }
}
