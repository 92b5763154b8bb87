//! Laws of a ledger over a file.

ghost use Rattle.lasting_lines.specs.Lives.{OneStory};
ghost use Rattle.lasting_ledger.specs.Ledgers.{ledger_ways, FilesHoldLegalHistories, FilesConserve};

use crate::machine::LedgerMachine;
use lasting_lines::one_story;

/// Whatever bytes a file holds, the history that it stands for is legal; and of each asset, what was deposited is
/// what the channels hold and the persons were paid.
#[tactic(auto, using(crate::proofs::Files::files_hold_legal_histories, crate::proofs::Files::files_conserve))]
pub fn files_hold_legal_histories()
    ensures legal { FilesHoldLegalHistories }
    ensures conserved { FilesConserve }
{}

/// Over any crashes and restarts, what each run wrote is a prefix of the answers of one ledger without crashes. Those
/// answers are to the lines that are in the file in the end.
pub fn one_ledger_story()
    ensures { OneStory ledger_ways }
{
    one_story::<LedgerMachine>();
}
