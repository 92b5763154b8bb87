//! A machine, and the answer that the caller hasn't been given.

ghost use Rattle.std.specs.Prelude.{◌≡◌, ◌≤◌, ◌+◌, [], None, true, false, take, length, IfSome, OnOk, OnErr};
ghost use Rattle.std.specs.Result.{result_err};
ghost use Rattle.lasting_lines.specs.Batches.{IsPart};
ghost use Rattle.lasting_lines.specs.Endings.{IsForeignLine, HasNoNumber};
ghost use Rattle.nitro_library.specs.Statuses.{room_fault, line_fault, EndsBy};
ghost use Rattle.nitro_library.specs.Steps.{IsAnswer};

use crate::ends::is_part;
use crate::status::{Failure, late_of};
use lasting_lines::{Machine, Played};
use std::alloc::Global;

/// The most bytes of a line.
const LINE_LIMIT: usize = 1_048_576;

/// How many bytes a row has at most besides its line.
const ROW_ROOM: usize = 128;

/// What a slot points to.
#[derive(Drop)]
pub struct Core<M> {
    pub played: Played<M>,
    /// What the caller hasn't been given.
    pub kept: Vec<u8>,
    /// Whether a call failed. Then the file has to be recovered anew.
    pub is_over: bool,
}

/// Writes bytes to the beginning of a buffer, and their count. `Room` where they don't fit.
pub(crate) fn put(bytes: &[u8], room: &mut [u8], count: &mut usize) -> Result<(), Failure>
    ensures ends { result_err result ≡ room_fault bytes.now (length room.old) }
    ensures count { count.new ≡ length bytes.now }
    ensures bytes { OnOk result (take count.new room.new ≡ bytes.now) }
{
    let length = bytes.len();
    *count = length;
    if room.len() < length {
        return Err(Failure::Room);
    }
    room[..length].copy_from_slice(bytes);
    Ok(())
}

impl<M: Machine + Drop> Core<M> {
    // Why a line isn't looked at, if it isn't.
    fn line_fault(&self, line: &[u8], room: usize) -> Option<Failure>
        ensures { result ≡ line_fault self.now line.now room }
    {
        if self.is_over {
            return Some(Failure::Ended);
        }
        if !self.kept.is_empty() {
            return Some(Failure::Kept);
        }
        if line.len() > LINE_LIMIT || !is_part(line) {
            return Some(Failure::Line);
        }
        if room < line.len() + ROW_ROOM {
            return Some(Failure::Room);
        }
        None
    }

    // Takes a line, keeps its text, and gives its row.
    #[tactic(auto, using(crate::proofs::Fitting::row_fits, crate::proofs::Fitting::late))]
    fn answer_line(
        &mut self,
        alloc: Global,
        line: &[u8],
        row: &mut [u8],
        count: &mut usize,
    ) -> Result<(), Failure>
        requires part { IsPart line.now }
        requires room { length line.now + 128 ≤ length row.old }
        ensures answer { OnOk result (IsAnswer M.ways M.says self.old.played line.now (take count.new row.new)
            self.new.kept.items self.new.played) }
        ensures over { self.new.is_over ≡ self.old.is_over }
        ensures ends { EndsBy None (IsForeignLine M.ways M.foreign self.old.played line.now)
            (HasNoNumber M.ways self.old.played line.now) result }
    {
        let alone = match self.played.take_alone(alloc, line) {
            Ok(alone) => alone,
            Err(fault) => return Err(late_of(fault)),
        };
        put(&alone.row, row, count)?;
        self.kept = alone.text;
        Ok(())
    }

    /// Takes a line, keeps its text, and gives its row, nothing of a line that isn't taken. `row` has room for the line and
    /// 128 bytes more. A line that isn't looked at changes nothing. After one that fails later the core is over.
    #[tactic(auto, using(crate::proofs::Fitting::goes_on, crate::proofs::Fitting::has_no_end, crate::proofs::Fitting::has_room, crate::proofs::Fitting::is_empty))]
    pub(crate) fn take(
        &mut self,
        alloc: Global,
        line: &[u8],
        row: &mut [u8],
        count: &mut usize,
    ) -> Result<(), Failure>
        ensures ends { EndsBy (line_fault self.old line.now (length row.old))
            (IsForeignLine M.ways M.foreign self.old.played line.now) (HasNoNumber M.ways self.old.played line.now) result }
        ensures answer { OnOk result (IsAnswer M.ways M.says self.old.played line.now (take count.new row.new)
            self.new.kept.items self.new.played) }
        ensures empty { OnOk result (self.old.kept.items ≡ []) }
        ensures goes_on { OnOk result (self.new.is_over ≡ false) }
        ensures same { IfSome (line_fault self.old line.now (length row.old)) (λ _. self.new ≡ self.old) }
        ensures over { line_fault self.old line.now (length row.old) ≡ None → OnErr result (self.new.is_over ≡ true) }
    {
        *count = 0;
        if let Some(failure) = self.line_fault(line, row.len()) {
            return Err(failure);
        }
        match self.answer_line(alloc, line, row, count) {
            Ok(()) => Ok(()),
            Err(failure) => {
                self.is_over = true;
                Err(failure)
            }
        }
    }

    /// Gives what is kept, if there is room for it. `count` is its length.
    pub(crate) fn give(&mut self, text: &mut [u8], count: &mut usize) -> Result<(), Failure>
        ensures ends { result_err result ≡ room_fault self.old.kept.items (length text.old) }
        ensures count { count.new ≡ length self.old.kept.items }
        ensures played { self.new.played ≡ self.old.played }
        ensures over { self.new.is_over ≡ self.old.is_over }
        ensures given { OnOk result (take count.new text.new ≡ self.old.kept.items) }
        ensures empty { OnOk result (self.new.kept.items ≡ []) }
        ensures kept { OnErr result (self.new.kept.items ≡ self.old.kept.items) }
    {
        put(&self.kept, text, count)?;
        self.kept.clear();
        Ok(())
    }
}
