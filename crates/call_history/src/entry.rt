//! The lines of a history.

ghost use Rattle.std.specs.Prelude.{◌≡◌, IfOk};

use crate::call::Op;
use crate::refusal::Reply;
use channel_values::NoMemory;

/// One line of the history: its number, counted from 1, who entered it, what was entered and the answer.
#[derive(Drop)]
pub struct Entry {
    pub number: u32,
    pub by: u32,
    pub op: Op,
    pub reply: Reply,
}

impl Entry {
    /// A second entry that equals this one.
    pub fn copy(&self) -> Result<Entry, NoMemory>
        ensures { IfOk result (λ e. e ≡ self.now) }
    {
        let op = self.op.copy()?;
        Ok(Entry {
            number: self.number,
            by: self.by,
            op,
            reply: self.reply,
        })
    }
}
