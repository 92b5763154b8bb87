//! What the steps of a hop are made of.

ghost use Rattle.std.specs.Prelude.{◌≡◌, ◌∷◌, ◌++◌, [], IfOk, OnOk};
ghost use Rattle.hop_script.specs.Hop.{settled};

use channel_values::{Label, Listed, NoMemory};
use script_reader::Step;
use std::alloc::Global;

pub(crate) fn label(alloc: Global, text: &str) -> Result<Label, NoMemory>
    ensures { IfOk result (λ l. l ≡ text.now) }
{
    let text = String::from_str(alloc, text)?;
    Ok(Label::make(text))
}

/// The names of two people.
pub(crate) fn two(alloc: Global, first: &str, second: &str) -> Result<Listed<Label>, NoMemory>
    ensures { IfOk result (λ names. names ≡ first.now ∷ second.now ∷ []) }
{
    let first = label(alloc, first)?;
    let second = label(alloc, second)?;
    let names = vec![in alloc; first, second]?;
    Ok(Listed::make(names))
}

/// The names of two people, and of the one between them.
pub(crate) fn three(
    alloc: Global,
    first: &str,
    middle: &str,
    second: &str,
) -> Result<Listed<Label>, NoMemory>
    ensures { IfOk result (λ names. names ≡ first.now ∷ middle.now ∷ second.now ∷ []) }
{
    let first = label(alloc, first)?;
    let middle = label(alloc, middle)?;
    let second = label(alloc, second)?;
    let names = vec![in alloc; first, middle, second]?;
    Ok(Listed::make(names))
}

/// Appends a step, and the rounds in which what it commands is done.
pub(crate) fn push_settled(steps: &mut Listed<Step>, step: Step) -> Result<(), NoMemory>
    ensures { OnOk result (steps.new ≡ steps.old ++ settled step) }
{
    steps.push(step)?;
    steps.push(Step::Rounds { count: 64 })
}
