//! The lines of refused commands.

ghost use Rattle.std.specs.Prelude.{◌≡◌, ◌++◌, flat_map, IfOk, OnOk, string_bytes};
ghost use Rattle.report_text.specs.People.{refused_in, refused_of, all_refused, refused_steps, command_line, line_in, lines_of_step, command_lines};

use call_history::{Deed, Event, NodeRefusal};
use channel_values::{Dest, Label, Name, person_name};
use premises::Journal;
use report_lines::{node_refusal_text, person_text};
use std::alloc::{AllocError, Global};
use std::collections::BTreeSet;

/// A refused command: of the step of this number, given to this person.
#[derive(Clone, Copy, Debug, Drop)]
pub struct Refused {
    pub step: u32,
    pub who: Name,
    pub refusal: NodeRefusal,
}

fn command_line(
    alloc: Global,
    labels: &[(Dest, Label)],
    refused: &Refused,
) -> Result<String, AllocError>
    ensures { IfOk result (λ text. string_bytes text ≡ command_line labels.now refused.now) }
{
    let step = refused.step;
    let name = person_text(alloc, labels, &refused.who)?;
    let refusal = node_refusal_text(alloc, labels, &refused.refusal)?;
    format!(in alloc; "command {step} {name} no {refusal}\n")
}

/// Adds the command of an event of this person, where it was refused.
#[tactic(auto, using(premises::proofs::Adding::nothing_more))]
fn add_refused(all: &mut Vec<Refused>, who: &Name, event: &Event) -> Result<(), AllocError>
    ensures { OnOk result (all.new.items ≡ all.old.items ++ refused_in who.now event.now.deed) }
{
    if let Deed::Commanded(step, Some(refusal)) = &event.deed {
        all.push(Refused {
            step: *step,
            who: *who,
            refusal: *refusal,
        })?;
    }
    Ok(())
}

/// Adds the refused commands of a person.
#[tactic(auto, using(premises::proofs::Adding::joined_step))]
fn add_refused_of(all: &mut Vec<Refused>, journal: &Journal) -> Result<(), AllocError>
    ensures { OnOk result (all.new.items ≡ all.old.items ++ refused_of journal.now) }
{
    let who = person_name(&journal.key);
    for event in journal.events.as_slice() {
        add_refused(all, &who, event)?;
    }
    Ok(())
}

/// The refused commands of all, person after person.
#[tactic(auto, using(premises::proofs::Adding::joined_step))]
fn all_refused(alloc: Global, journals: &[Journal]) -> Result<Vec<Refused>, AllocError>
    ensures { IfOk result (λ all. all.items ≡ all_refused journals.now) }
{
    let mut all = Vec::new(alloc);
    for journal in journals {
        add_refused_of(&mut all, journal)?;
    }
    Ok(all)
}

#[tactic(auto, using(crate::proofs::Texts::steps_of_more))]
fn refused_steps(alloc: Global, all: &[Refused]) -> Result<BTreeSet<u32>, AllocError>
    ensures { IfOk result (λ steps. steps.keys ≡ refused_steps all.now) }
{
    let mut steps = BTreeSet::new(alloc);
    for refused in all {
        steps.insert(refused.step)?;
    }
    Ok(steps)
}

/// The line of a refused command, where it is of this step.
fn append_line(
    alloc: Global,
    text: &mut String,
    labels: &[(Dest, Label)],
    step: u32,
    refused: &Refused,
) -> Result<(), AllocError>
    ensures { OnOk result (string_bytes text.new
        ≡ string_bytes text.old ++ line_in labels.now step refused.now) }
{
    if refused.step == step {
        let line = command_line(alloc, labels, refused)?;
        text.push_str(line.as_str())?;
    }
    Ok(())
}

fn append_step(
    alloc: Global,
    text: &mut String,
    labels: &[(Dest, Label)],
    all: &[Refused],
    step: u32,
) -> Result<(), AllocError>
    ensures { OnOk result (string_bytes text.new
        ≡ string_bytes text.old ++ lines_of_step labels.now all.now step) }
{
    for refused in all {
        append_line(alloc, text, labels, step, refused)?;
    }
    Ok(())
}

fn append_steps(
    alloc: Global,
    text: &mut String,
    labels: &[(Dest, Label)],
    all: &[Refused],
) -> Result<(), AllocError>
    ensures { OnOk result (string_bytes text.new
        ≡ string_bytes text.old ++ command_lines labels.now all.now) }
{
    let steps = refused_steps(alloc, all)?;
    for step in steps.iter() {
        append_step(alloc, text, labels, all, *step)?;
    }
    Ok(())
}

/// The refused commands: step after step, and within a step person after person.
pub(crate) fn append_commands(
    alloc: Global,
    text: &mut String,
    labels: &[(Dest, Label)],
    journals: &[Journal],
) -> Result<(), AllocError>
    ensures { OnOk result (string_bytes text.new
        ≡ string_bytes text.old ++ command_lines labels.now (all_refused journals.now)) }
{
    let all = all_refused(alloc, journals)?;
    append_steps(alloc, text, labels, &all)
}
