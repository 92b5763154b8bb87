//! The order of the lines.

use crate::fault::Wanted;
use crate::line::Line;

/// Which lines were read last.
#[derive(Clone, Copy, PartialEq, Eq)]
pub(crate) enum Stage {
    Start,
    Entries,
    Commands,
    Made,
    End,
    Assets,
    Held,
    Paid,
    Persons,
}

impl Stage {
    fn place(self) -> u8 {
        match self {
            Stage::Start => 0,
            Stage::Entries => 1,
            Stage::Commands => 2,
            Stage::Made => 3,
            Stage::End => 4,
            Stage::Assets => 5,
            Stage::Held => 6,
            Stage::Paid => 7,
            Stage::Persons => 8,
        }
    }

    /// Whether the line `end` was read.
    pub(crate) fn is_ended(self) -> bool {
        self.place() >= Stage::End.place()
    }

    /// Whether a line of this stage may stand after one of the stage before: `load` or `hop` is the first, and `end`
    /// stands once.
    fn may_follow(self, before: Stage) -> bool {
        match self {
            Stage::Made => before == Stage::Start,
            Stage::End => before.place() < self.place(),
            _ => before.place() <= self.place(),
        }
    }

    /// What is wanted in place of a line of this stage, after one of the stage before.
    pub(crate) fn check_after(self, before: Stage) -> Result<(), Wanted> {
        if !self.may_follow(before) {
            return Err(Wanted::LaterLine);
        }
        if self.place() > Stage::End.place() && !before.is_ended() {
            return Err(Wanted::EndLine);
        }
        Ok(())
    }

    /// The stage of a line; `None` of those that stand after a line `premises`.
    pub(crate) fn of(line: &Line) -> Option<Stage> {
        match line {
            Line::Made(_) => Some(Stage::Made),
            Line::Entry(_) => Some(Stage::Entries),
            Line::Command(_) => Some(Stage::Commands),
            Line::End(_) => Some(Stage::End),
            Line::Asset(_) => Some(Stage::Assets),
            Line::Held(_) => Some(Stage::Held),
            Line::Paid(_) => Some(Stage::Paid),
            Line::Premises(_, _) => Some(Stage::Persons),
            Line::Person(_) | Line::Exit(_) => None,
        }
    }
}
