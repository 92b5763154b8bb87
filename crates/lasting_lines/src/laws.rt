//! A law alone.

ghost use Rattle.lasting_lines.specs.Batches.{batched};
ghost use Rattle.lasting_lines.specs.Lives.{OneStory};

use crate::machine::Machine;

/// Over any crashes and restarts, what each run wrote is a prefix of what one machine without crashes owes for the
/// lines that are in the file in the end.
pub fn one_story<M: Machine>()
    ensures { OneStory (batched M.ways) }
{}
