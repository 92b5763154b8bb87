//! Where lines come from.

ghost use Rattle.std.specs.Prelude.{IfOk, IfSome};
ghost use Rattle.lasting_lines.specs.Batches.{IsPart};

use crate::outside::Fault;
use std::alloc::Global;

/// Lines, one at a time.
pub trait Source {
    /// The next line, with neither a line feed nor a separator of batches; `None` at the end.
    fn line(&mut self, alloc: Global) -> Result<Option<Vec<u8>>, Fault>
        ensures { IfOk result (λ o. IfSome o (λ line. IsPart line.items)) };

    /// Whether the next line is here already, so that `line` doesn't wait for it.
    fn is_held(&self) -> bool;
}
