//! Reads one step.

ghost use Rattle.std.specs.Prelude.{◌≡◌, IfOk};
ghost use Rattle.serde_json.specs.View.{view};
ghost use Rattle.script_steps.specs.Rules.{Gives};
ghost use Rattle.script_steps.specs.Conditions.{after, signer_of};
ghost use Rattle.script_reader.specs.Reading.{written_of, knows_names, named_of, led, limited, step_of};

use crate::forms::{is_word, written_by};
use crate::kinds::word_at;
use crate::resolve::{knows_outcome, resolved};
use crate::written::Written;
use lms_signatures::Signer;
use script_steps::{Context, Rule, Step, StepFault, enter, runs_in_race};
use serde_json::Value;
use std::alloc::Global;

/// Reads a step as it is written.
fn written_of(alloc: Global, step: &Value) -> Result<Written, StepFault>
    ensures { Gives (λ w. w) result (written_of (view step.now)) }
{
    let word = word_at(step)?;
    if !is_word(word) {
        return Err(StepFault::Broken(Rule::Shape));
    }
    written_by(alloc, word, step)
}

/// Whether all names of a step are declared as what their keys need, those of its outcomes too.
fn knows_names(context: &Context, written: &Written) -> bool
    ensures { result ≡ knows_names context.now written.now }
{
    match written {
        Written::Plain(step) => context.is_named(step),
        Written::Sign(keys) => {
            context.is_new(keys.name.as_str())
                && context.knows_sign(&keys.channel, &keys.by)
                && knows_outcome(context, keys.outcome.as_slice())
                && knows_outcome(context, keys.proposal.as_slice())
        }
        Written::Open(keys) => {
            context.knows_open(keys.who.as_slice(), &keys.channel)
                && knows_outcome(context, keys.outcome.as_slice())
        }
        Written::OpenOn(keys) => {
            context.knows_open_on(keys.who.as_slice(), &keys.ledger, &keys.channel)
        }
        Written::OpenVirtual(keys) => {
            let (ledgers, guarantors) = (keys.ledgers.as_slice(), keys.guarantors.as_slice());
            let who = keys.who.as_slice();
            context.knows_open_virtual(who, ledgers, guarantors, &keys.joint, &keys.channel)
        }
    }
}

/// Reads a step as it is written, if its names are declared.
fn named_of(alloc: Global, context: &Context, value: &Value) -> Result<Written, StepFault>
    ensures { Gives (λ w. w) result (named_of context.now (view value.now)) }
{
    let written = written_of(alloc, value)?;
    if knows_names(context, &written) {
        Ok(written)
    } else {
        // (by a call, since a drop in place is proved for each variant anew)
        drop(written);
        Err(StepFault::Broken(Rule::Name))
    }
}

/// Reads a step whose names lead somewhere.
fn led(alloc: Global, context: &Context, value: &Value) -> Result<Step, StepFault>
    ensures { Gives (λ s. s) result (led context.now (view value.now)) }
{
    let written = named_of(alloc, context, value)?;
    resolved(alloc, context, written)
}

/// Tries the rules after the names, in their order, and takes note of what the step declares.
fn limited(alloc: Global, context: &mut Context, step: &Step) -> Result<Option<Signer>, StepFault>
    ensures limited { Gives (λ _. step.now) result (limited context.old step.now) }
    ensures noted { IfOk result (λ _. context.new ≡ after context.old step.now) }
    ensures signer { IfOk result (λ s. s ≡ signer_of step.now) }
{
    if !context.fits(step) {
        return Err(StepFault::Broken(Rule::Limit));
    }
    let race = context.race;
    let signer = enter(alloc, context, step)?;
    if race && !runs_in_race(step) {
        return Err(StepFault::Broken(Rule::NotInRace));
    }
    Ok(signer)
}

/// Reads a step, tries its rules and takes note of what it declares. Beside it stands the signer of
/// the person that it declares.
pub(crate) fn step_of(
    alloc: Global,
    context: &mut Context,
    value: &Value,
) -> Result<(Step, Option<Signer>), StepFault>
    ensures read { Gives (λ r. r.0) result (step_of context.old (view value.now)) }
    ensures noted { IfOk result (λ r. context.new ≡ after context.old r.0) }
    ensures signer { IfOk result (λ r. r.1 ≡ signer_of r.0) }
{
    let step = led(alloc, context, value)?;
    match limited(alloc, context, &step) {
        Ok(signer) => Ok((step, signer)),
        Err(fault) => {
            drop(step);
            Err(fault)
        }
    }
}
