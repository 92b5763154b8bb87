//! What a state file is found to be when it is opened.

ghost use Rattle.std.specs.Prelude.{◌≡◌, ◌+◌, ◌-◌, ◌^◌, ◌<◌, true, false, nat_lt, if◌then◌else◌, [], ◌++◌, drop};
ghost use Rattle.std.specs.Prelude.{is_some, IfOk, IfErr, IfSome, OnOk, OnSome};
ghost use Rattle.lasting_lines.specs.Batches.{batched, parts};
ghost use Rattle.lasting_lines.specs.Endings.{FailsBy, HasForeign, IsFull, ForeignIn, FullIn};
ghost use Rattle.lasting_lines.specs.Lines.{line_in, after_row, response_to_row, is_right, head_length};
ghost use Rattle.lasting_lines.specs.Opening.{IsFound, is_damaged};
ghost use Rattle.lasting_lines.specs.declared.recovery.Found.TheVariants.{Torn, Damaged};

use crate::batches::step_all;
use crate::machine::Machine;
use crate::outside::Fault;
use crate::played::Played;
use crate::rows::{is_damaged, split_row};
use std::alloc::{AllocError, Global};

/// What the bytes of a state file are.
#[derive(Drop)]
pub enum Found<M> {
    /// Records alone. The machine has taken their lines; the bytes are the responses that were asked for.
    Whole(Played<M>, Vec<u8>),
    /// So many bytes are records, and a torn one follows. Cut the file there, and recover it anew.
    Torn(usize),
    /// A record is wrong, and a later one follows it. Nothing may be cut.
    Damaged,
}

impl<M: Machine> Played<M> {
    // Takes the lines of a row if the row is their record; else the machine is of no more use.
    fn replay(&mut self, alloc: Global, row: &[u8]) -> Result<Option<Vec<u8>>, Fault>
        ensures fits { OnOk result (self.old.count < 2 ^ 64 - 1) }
        ensures right { IfOk result (λ o. is_some o ≡ is_right (batched M.ways) self.old row.now) }
        ensures place { IfOk result (λ o. OnSome o (self.new ≡ after_row (batched M.ways) self.old row.now)) }
        ensures text { IfOk result (λ o. IfSome o (λ text.
            text.items ≡ response_to_row (batched M.ways) self.old row.now)) }
        ensures fails { IfErr result (FailsBy (HasForeign M.ways M.foreign self.old.machine
            (parts (line_in (batched M.ways) self.old row.now))) (IsFull self.old)) }
    {
        if self.count == u64::MAX {
            return Err(Fault::Full);
        }
        let batch = batch_of_row(alloc, self.count + 1, row)?;
        let Some(answer) = step_all(alloc, &mut self.machine, batch)? else {
            return Ok(None);
        };
        let given = self.seal(alloc, batch, answer)?;
        if row == given.row.as_slice() {
            Ok(Some(given.text))
        } else {
            Ok(None)
        }
    }
}

#[tactic(auto, unfolding(crate::specs::Lines::head_length))]
fn head_length(alloc: Global, number: u64) -> Result<usize, AllocError>
    ensures { IfOk result (λ n. n ≡ head_length number) }
{
    let digits = number.to_string(alloc)?;
    Ok(digits.len() + 66)
}

// What follows the number and the mark in a row.
fn batch_of_row(alloc: Global, number: u64, row: &[u8]) -> Result<&[u8], AllocError>
    ensures { IfOk result (λ batch. batch.now ≡ drop (head_length number) row.now) }
{
    let start = head_length(alloc, number)?.min(row.len());
    Ok(&row[start..])
}

// Adds the response of this number if it is above `from`.
fn add_above(texts: &mut Vec<u8>, from: u64, number: u64, text: &[u8]) -> Result<(), AllocError>
    ensures { OnOk result (texts.new.items ≡ texts.old.items ++ (if nat_lt from number then text.now else [])) }
{
    if from < number {
        texts.extend_from_slice(text)?;
    }
    Ok(())
}

/// Plays the records of a file over a new machine, and collects the responses to those with numbers above `from`.
/// `Foreign` where a line of the file is of another story, and `Full` where it has a row more than there are numbers.
pub fn recover<M: Machine + Drop>(
    alloc: Global,
    mut played: Played<M>,
    file: &[u8],
    from: u64,
) -> Result<Found<M>, Fault>
    ensures found { IfOk result (λ found. IsFound (batched M.ways) played file.now from found) }
    ensures fails { IfErr result (FailsBy (ForeignIn M.ways M.foreign played file.now) (FullIn M.ways played file.now)) }
{
    let mut again = Vec::new(alloc);
    let mut rest = file;
    while let Some(split) = split_row(rest) {
        let count = played.count;
        let Some(text) = played.replay(alloc, split.row)? else {
            return Ok(tail_found(count, file.len() - rest.len(), rest));
        };
        add_above(&mut again, from, played.count, &text)?;
        rest = split.rest;
    }
    if rest.is_empty() {
        Ok(Found::Whole(played, again))
    } else {
        Ok(Found::Torn(file.len() - rest.len()))
    }
}

// What the file is whose records end after so many bytes, the last with the number `count`.
fn tail_found<M>(count: u64, kept: usize, tail: &[u8]) -> Found<M>
    requires { count < 2 ^ 64 - 1 }
    ensures torn { is_damaged (count + 1) tail.now ≡ false → result ≡ Torn kept }
    ensures damaged { is_damaged (count + 1) tail.now ≡ true → result ≡ Damaged }
{
    if is_damaged(count + 1, tail) {
        Found::Damaged
    } else {
        Found::Torn(kept)
    }
}
