//! A tiny machine: it answers each line with the number of bytes of all lines so far, and takes no empty line. The
//! line `!` is of another story.

ghost use Rattle.std.specs.Prelude.{◌≡◌, ◌+◌, ◌-◌, ◌^◌, ◌++◌, ◌∷◌, [], true, false, not, nat_lt};
ghost use Rattle.std.specs.Prelude.{length, min, decimal, IfOk};

use lasting_lines::{Fault, Machine};
use std::alloc::{AllocError, Global};

/// The bytes so far.
#[derive(Drop)]
pub struct Tally {
    pub total: u64,
}

impl Machine for Tally {
    ghost use Rattle.lasting_tests.specs.Tallies.{tally_ways, Says, Foreign};

    ghost ways = { tally_ways };

    ghost says = { Says };

    ghost foreign = { Foreign };

    fn refusal(&self, alloc: Global, line: &[u8]) -> Result<Option<Vec<u8>>, AllocError> {
        if line.is_empty() {
            Ok(Some(Vec::from_slice(alloc, b"no line\n")?))
        } else {
            Ok(None)
        }
    }

    fn step(&mut self, alloc: Global, line: &[u8]) -> Result<Vec<u8>, Fault> {
        if let [b'!'] = line {
            return Err(Fault::Foreign);
        }
        self.total = self.total.saturating_add(line.len() as u64);
        let total = self.total;
        Ok(format!(in alloc; "{total}\n")?.into_bytes())
    }
}
