//! Reads a whole script.

ghost use Rattle.std.specs.Prelude.{◌≡◌, ◌≤◌, [], length, nat_le, IfOk, All};
ghost use Rattle.serde_json.specs.View.{view, items_view};
ghost use Rattle.script_steps.specs.Rules.{Gives};
ghost use Rattle.script_reader.specs.Listed.{few_items, listed};
ghost use Rattle.script_steps.specs.Conditions.{after, signer_of};
ghost use Rattle.script_steps.specs.Bounds.{Fits, persons_of, rounds_of, signers_of};
ghost use Rattle.script_reader.specs.Reading.{step_of};
ghost use Rattle.script_reader.specs.Script.{Ends, fault_at, at_step, start, steps_from, script_of, IsReading, IsReadingIn, AreChecked};
ghost use Rattle.script_reader.specs.declared.script.ScriptFault.TheVariants.{NoMemory as NoMemoryLeft};

use crate::kinds::{array_at, keys};
use crate::reading::step_of;
use channel_values::{Listed, NoMemory};
use lms_signatures::Signer;
use script_steps::{Context, NameList, Rule, STEP_LIMIT, Step, StepFault};
use serde_json::Value;
use std::alloc::{AllocFailed, Global};
use std::error::Error;
use std::fmt;

/// Why a script is refused: out of memory, or the rule that is broken first and its step.
/// Steps count from 1; step 0 is the whole script.
#[derive(Clone, Copy, Debug, PartialEq, Eq)]
pub enum ScriptFault {
    NoMemory,
    Broken { step: u32, rule: Rule },
}

impl fmt::Display for ScriptFault {
    ghost use Rattle.std.specs.Prelude.{Some};
    ghost use Rattle.script_reader.specs.Messages.{fault_words};

    ghost output = { λ x. Some (fault_words x) };

    fn fmt<W: fmt::Write>(&self, f: &mut fmt::Formatter<W>) -> fmt::Result {
        match self {
            ScriptFault::NoMemory => write!(f, "out of memory"),
            ScriptFault::Broken { step: 0, rule } => write!(f, "the script: {rule}"),
            ScriptFault::Broken { step, rule } => write!(f, "step {step}: {rule}"),
        }
    }
}

impl Error for ScriptFault {}

impl From<NoMemory> for ScriptFault {
    ghost from_gives = { λ _ e. e ≡ NoMemoryLeft };

    fn from(_: NoMemory) -> ScriptFault {
        ScriptFault::NoMemory
    }
}

impl<T: Drop> From<AllocFailed<T>> for ScriptFault {
    ghost from_gives = { λ _ e. e ≡ NoMemoryLeft };

    fn from(_: AllocFailed<T>) -> ScriptFault {
        ScriptFault::NoMemory
    }
}

/// The steps of a script, each of which keeps the rules.
#[derive(Drop)]
pub struct Script {
    pub steps: Listed<Step>,
}

fn fault_at(step: u32, fault: StepFault) -> ScriptFault
    ensures { result ≡ fault_at step fault }
{
    match fault {
        StepFault::NoMemory => ScriptFault::NoMemory,
        StepFault::Broken(rule) => ScriptFault::Broken { step, rule },
    }
}

/// What is declared before the first step.
pub fn start(alloc: Global, race: bool) -> Context
    ensures { result ≡ start race }
{
    Context {
        race,
        people: Listed::make(Vec::new(alloc)),
        channels: Listed::make(Vec::new(alloc)),
        states: NameList::make(alloc),
        signers: Listed::make(Vec::new(alloc)),
        rounds: 0,
    }
}

/// The step of this number, and the signer of the person that it declares.
fn numbered(
    alloc: Global,
    context: &mut Context,
    number: u32,
    value: &Value,
) -> Result<(Step, Option<Signer>), ScriptFault>
    ensures read { Ends (λ r. r.0) result (at_step number (step_of context.old (view value.now))) }
    ensures noted { IfOk result (λ r. context.new ≡ after context.old r.0) }
    ensures signer { IfOk result (λ r. r.1 ≡ signer_of r.0) }
{
    match step_of(alloc, context, value) {
        Ok(read) => Ok(read),
        Err(fault) => Err(fault_at(number, fault)),
    }
}

#[tactic(auto, using(crate::proofs::Steps::goes_on, crate::proofs::Steps::stops, crate::proofs::Steps::length_push, crate::proofs::Steps::signer_push, crate::proofs::Steps::signer_none))]
fn steps_in(
    alloc: Global,
    context: Context,
    values: &[Value],
) -> Result<(Listed<Step>, Vec<Signer>), ScriptFault>
    requires { length values.now ≤ STEP_LIMIT }
    ensures read { Ends (λ r. r.0) result (steps_from context [] (items_view values.now)) }
    ensures signers { IfOk result (λ r. r.1.items ≡ signers_of r.0) }
    ensures few { IfOk result (λ r. length r.0 ≤ STEP_LIMIT) }
{
    let mut context = context;
    let mut steps = Listed::make(Vec::new(alloc));
    let mut signers = Vec::new(alloc);
    let mut number = 0;
    for value in values {
        number += 1;
        let (step, signer) = numbered(alloc, &mut context, number, value)?;
        steps.push(step)?;
        if let Some(signer) = signer {
            signers.push(signer)?;
        }
    }
    Ok((steps, signers))
}

#[tactic(auto, using(crate::proofs::Counts::item_count_view))]
fn is_few(values: &[Value]) -> bool
    ensures few { result ≡ few_items (items_view values.now) }
    ensures count { result ≡ nat_le (length values.now) STEP_LIMIT }
{
    values.len() <= STEP_LIMIT
}

/// The items of the one key `steps`.
fn listed(value: &Value) -> Result<&[Value], StepFault>
    ensures items { Gives (λ v. items_view v.now) result (listed (view value.now)) }
    ensures few { IfOk result (λ v. length v.now ≤ STEP_LIMIT) }
{
    keys(value, 1)?;
    let values = array_at(value, "steps")?;
    if !is_few(values) {
        return Err(StepFault::Broken(Rule::Limit));
    }
    Ok(values)
}

fn script_of(
    alloc: Global,
    context: Context,
    value: &Value,
) -> Result<(Listed<Step>, Vec<Signer>), ScriptFault>
    ensures read { Ends (λ r. r.0) result (script_of context (view value.now)) }
    ensures signers { IfOk result (λ r. r.1.items ≡ signers_of r.0) }
    ensures few { IfOk result (λ r. length r.0 ≤ STEP_LIMIT) }
{
    match listed(value) {
        Ok(values) => steps_in(alloc, context, values),
        Err(fault) => Err(fault_at(0, fault)),
    }
}

/// Reads a script after what the context says is declared.
pub(crate) fn read_behind(
    alloc: Global,
    context: Context,
    bytes: &[u8],
) -> Result<(Script, Vec<Signer>), ScriptFault>
    ensures read { IsReadingIn context (λ r. r.0.steps) bytes.now result }
    ensures signers { IfOk result (λ r. r.1.items ≡ signers_of r.0.steps) }
    ensures kept { IfOk result (λ r. AreChecked context r.0.steps) }
    ensures few { IfOk result (λ r. length r.0.steps ≤ STEP_LIMIT) }
{
    let value = match Value::from_slice(alloc, bytes) {
        Ok(value) => value,
        Err(e) if e.is_memory() => return Err(ScriptFault::NoMemory),
        Err(_) => return Err(fault_at(0, StepFault::Broken(Rule::NotJson))),
    };
    let (steps, signers) = script_of(alloc, context, &value)?;
    Ok((Script { steps }, signers))
}

/// The steps that the bytes are, or the rule that they break first; beside them the signers of the
/// people that they declare, in the order of their steps, none of which has signed. With `race` no
/// step may be one that a race refuses.
#[tactic(auto, using(crate::proofs::Bounds::all_fit, crate::proofs::Bounds::few_people, crate::proofs::Bounds::few_rounds))]
pub fn read_script_with_signers(
    alloc: Global,
    bytes: &[u8],
    race: bool,
) -> Result<(Script, Vec<Signer>), ScriptFault>
    ensures read { IsReading race (λ r. r.0.steps) bytes.now result }
    ensures signers { IfOk result (λ r. r.1.items ≡ signers_of r.0.steps) }
    ensures kept { IfOk result (λ r. AreChecked (start race) r.0.steps) }
    ensures fit { IfOk result (λ r. All Fits r.0.steps) }
    ensures few { IfOk result (λ r. length r.0.steps ≤ STEP_LIMIT) }
    ensures people { IfOk result (λ r. persons_of r.0.steps ≤ 16) }
    ensures rounds { IfOk result (λ r. rounds_of r.0.steps ≤ 4096) }
{
    read_behind(alloc, start(alloc, race), bytes)
}

/// The steps that the bytes are, or the rule that they break first. With `race` no step may be
/// one that a race refuses.
pub fn read_script(alloc: Global, bytes: &[u8], race: bool) -> Result<Script, ScriptFault>
    ensures read { IsReading race (λ s. s.steps) bytes.now result }
    ensures kept { IfOk result (λ s. AreChecked (start race) s.steps) }
    ensures fit { IfOk result (λ s. All Fits s.steps) }
    ensures few { IfOk result (λ s. length s.steps ≤ STEP_LIMIT) }
    ensures people { IfOk result (λ s. persons_of s.steps ≤ 16) }
    ensures rounds { IfOk result (λ s. rounds_of s.steps ≤ 4096) }
{
    let (script, _) = read_script_with_signers(alloc, bytes, race)?;
    Ok(script)
}
