//! A machine with its place in the file.

ghost use Rattle.std.specs.Prelude.{◌≡◌, ◌≤◌, ◌+◌, length, IfOk, OnOk};
ghost use Rattle.lasting_lines.specs.Batches.{batched, Holds};
ghost use Rattle.lasting_lines.specs.Endings.{EndsBy, IsFull};
ghost use Rattle.lasting_lines.specs.Lines.{IsLine, mark_of, row_text, done_text, after, response, row_of};

use crate::machine::Machine;
use crate::outside::Fault;
use sha2::{Digest, Sha256};
use std::alloc::{AllocError, Global};

/// SHA-256 of the mark before it, the lines of a record and their answers.
pub type Mark = [u8; 32];

/// A machine, how many records its lines have, and the mark of the last one.
#[derive(Drop)]
pub struct Played<M> {
    pub machine: M,
    pub count: u64,
    pub mark: Mark,
}

/// What a batch of lines gives: the row for the file, with no line feed, and the response, whose last line is `done`.
#[derive(Drop)]
pub struct Given {
    /// `NUMBER MARK LINE`.
    pub row: Vec<u8>,
    /// The machine's answers, and a line that gives the number and the mark.
    pub text: Vec<u8>,
}

impl<M: Machine> Played<M> {
    /// Gives the lines of a batch, which were taken, their record. `Full`: the numbers of 64 bits are used up.
    pub(crate) fn seal(
        &mut self,
        alloc: Global,
        batch: &[u8],
        answer: Vec<u8>,
    ) -> Result<Given, Fault>
        ensures ends { EndsBy ⊥ (IsFull self.old) result }
        ensures place { (p : Played M) → Holds M.ways p self.old batch.now answer.items
            → OnOk result (self.new ≡ after (batched M.ways) p batch.now) }
        ensures row { (p : Played M) → Holds M.ways p self.old batch.now answer.items
            → IfOk result (λ given. given.row.items ≡ row_of (batched M.ways) p batch.now) }
        ensures text { (p : Played M) → Holds M.ways p self.old batch.now answer.items
            → IfOk result (λ given. given.text.items ≡ response (batched M.ways) p batch.now) }
        ensures one_row { IfOk result (λ given. IsLine batch.now → IsLine given.row.items) }
        ensures short { IfOk result (λ given. length given.row.items ≤ length batch.now + 86) }
    {
        if self.count == u64::MAX {
            return Err(Fault::Full);
        }
        self.count += 1;
        self.mark = mark_of(&self.mark, batch, &answer);
        let row = row_text(alloc, self.count, &self.mark, batch)?;
        let mut text = answer;
        text.extend_from_slice(&done_text(alloc, self.count, &self.mark)?)?;
        Ok(Given { row, text })
    }
}

#[tactic(auto, unfolding(crate::specs::Lines::mark_of))]
fn mark_of(before: &Mark, line: &[u8], answer: &[u8]) -> Mark
    ensures { result ≡ mark_of before.now line.now answer.now }
{
    let mut hasher = Sha256::new();
    hasher.update(before);
    hasher.update(line);
    hasher.update([10]);
    hasher.update(answer);
    hasher.finalize()
}

#[tactic(auto, unfolding(crate::specs::Lines::row_text))]
fn row_text(alloc: Global, number: u64, mark: &Mark, line: &[u8]) -> Result<Vec<u8>, AllocError>
    ensures { IfOk result (λ row. row.items ≡ row_text number mark.now line.now) }
{
    let digits = hex::encode(alloc, mark)?;
    let mut row = format!(in alloc; "{number} {digits} ")?.into_bytes();
    row.extend_from_slice(line)?;
    Ok(row)
}

#[tactic(auto, unfolding(crate::specs::Lines::done_text))]
fn done_text(alloc: Global, count: u64, mark: &Mark) -> Result<Vec<u8>, AllocError>
    ensures { IfOk result (λ text. text.items ≡ done_text count mark.now) }
{
    let digits = hex::encode(alloc, mark)?;
    let text = format!(in alloc; "{{\"effect\":\"done\",\"n\":{count},\"mark\":\"{digits}\"}}\n")?;
    Ok(text.into_bytes())
}
