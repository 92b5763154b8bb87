//! Lines that share a record.

ghost use Rattle.std.specs.Prelude.{◌≡◌, ◌∷◌, ◌++◌, ◌<◌, true, is_some, IfOk, IfErr, IfSome, OnOk, OnSome, option_map, length};
ghost use Rattle.lasting_lines.specs.Endings.{EndsBy, FailsBy, HasForeign};
ghost use Rattle.lasting_lines.specs.Lines.{after, response, row_of, IsLine};
ghost use Rattle.lasting_lines.specs.Batches.{IsPart, parts, parts_left, batched, takes_all, next_all, owes_all, Holds};

use crate::machine::Machine;
use crate::outside::Fault;
use crate::played::{Given, Played};
use crate::source::Source;
use std::alloc::Global;

/// Stands between two lines of a batch. No line of a source has it.
pub const SEPARATOR: u8 = 30;

/// The most lines of a batch.
const MOST_LINES: usize = 1000;

/// Lines of a source that a machine has taken and that have no record yet.
#[derive(Drop)]
pub(crate) struct Batch {
    /// The lines, with a separator between two of them.
    pub(crate) lines: Vec<u8>,
    /// The answers to them, one after the other.
    pub(crate) answer: Vec<u8>,
}

/// A batch, and why the line after it isn't taken, if that was tried.
#[derive(Drop)]
pub(crate) struct Gathered {
    pub(crate) batch: Batch,
    pub(crate) refused: Option<Vec<u8>>,
}

/// The first line of a batch, and what is left after its separator.
#[derive(Clone, Copy)]
struct First<'a> {
    line: &'a [u8],
    rest: Option<&'a [u8]>,
}

fn split_batch(batch: &[u8]) -> First<'_>
    ensures parts { parts batch.now ≡ result.line.now ∷ parts_left (option_map (λ r. r.now) result.rest) }
    ensures shorter { IfSome result.rest (λ r. length r.now < length batch.now) }
{
    let mut i = 0;
    while i < batch.len() {
        if batch[i] == 30 {
            return First {
                line: &batch[..i],
                rest: Some(&batch[i + 1..]),
            };
        }
        i += 1;
    }
    First {
        line: batch,
        rest: None,
    }
}

/// Takes the lines of a batch one after the other, and gives their answers; `None` where one of them isn't taken. Then,
/// and after an `Err`, which is `NoMemory` or the machine's `Foreign`, the machine is of no more use.
pub(crate) fn step_all<M: Machine>(
    alloc: Global,
    machine: &mut M,
    batch: &[u8],
) -> Result<Option<Vec<u8>>, Fault>
    ensures takes { IfOk result (λ o. is_some o ≡ takes_all M.ways machine.old (parts batch.now)) }
    ensures next { IfOk result (λ o. OnSome o (machine.new ≡ next_all M.ways machine.old (parts batch.now))) }
    ensures owes { IfOk result (λ o. IfSome o (λ text.
        text.items ≡ owes_all M.ways machine.old (parts batch.now))) }
    ensures fails { IfErr result (FailsBy (HasForeign M.ways M.foreign machine.old (parts batch.now)) ⊥) }
{
    let mut answer = Vec::new(alloc);
    let mut left = Some(batch);
    while let Some(rest) = left {
        let first = split_batch(rest);
        if let Some(message) = machine.refusal(alloc, first.line)? {
            drop(message);
            return Ok(None);
        }
        answer.extend_from_slice(&machine.step(alloc, first.line)?)?;
        left = first.rest;
    }
    Ok(Some(answer))
}

impl<M: Machine> Played<M> {
    /// Takes the first line of a batch.
    pub(crate) fn begin(&mut self, alloc: Global, line: &[u8]) -> Result<Batch, Fault>
        requires part { IsPart line.now }
        requires taken { M.ways.takes self.old.machine line.now ≡ true }
        ensures ends { EndsBy (M.foreign self.old.machine line.now) ⊥ result }
        ensures holds { IfOk result (λ b. Holds M.ways self.old self.new b.lines.items b.answer.items) }
        ensures line { IfOk result (λ b. IsLine b.lines.items) }
        ensures same { IfOk result (λ b. b.lines.items ≡ line.now) }
    {
        let answer = self.machine.step(alloc, line)?;
        let lines = Vec::from_slice(alloc, line)?;
        Ok(Batch { lines, answer })
    }

    // Takes one more line.
    fn add(&mut self, alloc: Global, batch: &mut Batch, line: &[u8]) -> Result<(), Fault>
        requires part { IsPart line.now }
        requires taken { M.ways.takes self.old.machine line.now ≡ true }
        ensures holds { OnOk result ((p : Played M)
            → Holds M.ways p self.old batch.old.lines.items batch.old.answer.items
            → Holds M.ways p self.new batch.new.lines.items batch.new.answer.items) }
        ensures line { OnOk result (IsLine batch.old.lines.items → IsLine batch.new.lines.items) }
    {
        let answer = self.machine.step(alloc, line)?;
        batch.answer.extend_from_slice(&answer)?;
        batch.lines.push(SEPARATOR)?;
        batch.lines.extend_from_slice(line)?;
        Ok(())
    }

    /// Takes a line, and with it those after it that the source holds already, up to one that isn't taken. An `Err` at one
    /// of them is that of all: none gets a record.
    pub(crate) fn gather<S: Source>(
        &mut self,
        alloc: Global,
        source: &mut S,
        line: &[u8],
    ) -> Result<Gathered, Fault>
        requires part { IsPart line.now }
        requires taken { M.ways.takes self.old.machine line.now ≡ true }
        ensures holds { IfOk result (λ g.
            Holds M.ways self.old self.new g.batch.lines.items g.batch.answer.items) }
        ensures line { IfOk result (λ g. IsLine g.batch.lines.items) }
    {
        let mut batch = self.begin(alloc, line)?;
        for _ in 1..MOST_LINES {
            if !source.is_held() {
                break;
            }
            let Some(line) = source.line(alloc)? else {
                break;
            };
            let refused = self.machine.refusal(alloc, &line)?;
            if refused.is_some() {
                return Ok(Gathered { batch, refused });
            }
            self.add(alloc, &mut batch, &line)?;
        }
        Ok(Gathered {
            batch,
            refused: None,
        })
    }
}
