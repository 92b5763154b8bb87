//! What a step declares, after what earlier steps declared.

ghost use Rattle.std.specs.Prelude.{◌≡◌, ◌<◌, ◌==◌, ◌||◌, ◌^◌, IsTrue, IfOk, OnOk};
ghost use Rattle.std.specs.List.{list_any};
ghost use Rattle.std.specs.Str.{bytes_eq};
ghost use Rattle.script_steps.specs.Digests.{fresh};
ghost use Rattle.script_steps.specs.Rules.{Gives};
ghost use Rattle.script_steps.specs.Conditions.{fits, keys_in, distinct, signer_of, after};
ghost use Rattle.script_steps.specs.declared.step.Step.TheVariants as steps;

use crate::context::{Channel, Context, Person};
use crate::digests::{fixed_of, signer_of};
use crate::step::{ChannelStep, PersonStep, Rule, Step, StepFault};
use channel_values::{Key, Label, Name, NoMemory, channel_name, person_name};
use lms_signatures::Signer;
use std::alloc::Global;

#[tactic(auto, using(crate::proofs::Lists::keys_more))]
fn keys_in(alloc: Global, context: &Context, names: &[Label]) -> Result<Vec<Key>, NoMemory>
    ensures { IfOk result (λ keys. keys.items ≡ keys_in context.now names.now) }
{
    let mut keys = Vec::new(alloc);
    for name in names {
        if let Some(person) = context.person_by(name.as_str()) {
            keys.push(person.key)?;
        }
    }
    Ok(keys)
}

fn has_person(people: &[Person], digest: &Name) -> bool
    ensures { result ≡ list_any (λ p. bytes_eq p.digest digest.now) people.now }
{
    people.iter().any(|p| p.digest == *digest)
}

fn has_channel(channels: &[Channel], digest: &Name) -> bool
    ensures { result ≡ list_any (λ k. bytes_eq k.digest digest.now) channels.now }
{
    channels.iter().any(|k| k.digest == *digest)
}

/// Takes note of a person, unless an earlier one has its digest, and gives its signer.
#[tactic(auto, unfolding(crate::specs::Digests::key_of))]
fn enter_person(
    alloc: Global,
    context: &mut Context,
    keys: &PersonStep,
) -> Result<Signer, StepFault>
    requires { IsTrue (keys.now.h == 5 || keys.now.h == 10) }
    ensures apart { Gives (λ _. 0) result (distinct context.old (steps.Person keys.now)) }
    ensures noted { OnOk result (context.new ≡ after context.old (steps.Person keys.now)) }
    ensures signer { IfOk result (λ s. s ≡ fresh keys.now.seed keys.now.h) }
{
    let signer = signer_of(alloc, &keys.seed, keys.h)?;
    let key = signer.public();
    let digest = person_name(&key);
    if has_person(context.people.as_slice(), &digest) {
        return Err(StepFault::Broken(Rule::Name));
    }
    let name = keys.name.copy()?;
    context.people.push(Person {
        name,
        seed: keys.seed,
        h: keys.h,
        node: keys.node,
        key,
        digest,
    })?;
    Ok(signer)
}

/// Takes note of a channel, unless an earlier one has its digest.
fn enter_channel(alloc: Global, context: &mut Context, keys: &ChannelStep) -> Result<(), StepFault>
    requires { keys.now.duration < 2 ^ 32 }
    ensures apart { Gives (λ _. 0) result (distinct context.old (steps.Channel keys.now)) }
    ensures noted { OnOk result (context.new ≡ after context.old (steps.Channel keys.now)) }
{
    let people = keys_in(alloc, context, keys.people.as_slice())?;
    let fixed = fixed_of(alloc, people, keys.nonce, keys.app, keys.duration as u32)?;
    let digest = channel_name(fixed.bytes());
    if has_channel(context.channels.as_slice(), &digest) {
        return Err(StepFault::Broken(Rule::Name));
    }
    let name = keys.name.copy()?;
    context.channels.push(Channel { name, digest })?;
    Ok(())
}

/// Takes note of what a step declares and uses up, unless an earlier digest is the same, and gives
/// the signer of a person.
pub fn enter(alloc: Global, context: &mut Context, step: &Step) -> Result<Option<Signer>, StepFault>
    requires { IsTrue (fits context.old step.now) }
    ensures apart { Gives (λ _. 0) result (distinct context.old step.now) }
    ensures noted { OnOk result (context.new ≡ after context.old step.now) }
    ensures signer { IfOk result (λ s. s ≡ signer_of step.now) }
{
    match step {
        Step::Person(keys) => return Ok(Some(enter_person(alloc, context, keys)?)),
        Step::Channel(keys) => enter_channel(alloc, context, keys)?,
        Step::Sign(keys) => {
            context.states.push(keys.name.copy()?)?;
            context.signers.push(keys.by.copy()?)?;
        }
        Step::Catch(keys) => context.states.push(keys.name.copy()?)?,
        Step::Challenge(keys) => context.signers.push(keys.by.copy()?)?,
        Step::Rounds { count } => context.rounds += *count,
        _ => {}
    }
    Ok(None)
}
