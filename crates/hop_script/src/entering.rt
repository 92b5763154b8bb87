//! What the people and the channels of a hop are entered as.

ghost use Rattle.std.specs.Prelude.{◌≡◌, ◌++◌, replicate, Err, IfOk, OnOk, true, false};
ghost use Rattle.std.specs.List.{fold};
ghost use Rattle.channel_values.specs.Parts.{IsKey};
ghost use Rattle.script_reader.specs.Bounds.{signers_of};
ghost use Rattle.script_reader.specs.Conditions.{after};
ghost use Rattle.script_reader.specs.Digests.{fresh, key_of};
ghost use Rattle.script_reader.specs.Script.{start};
ghost use Rattle.hop_script.specs.Hop.{AreApart, AreFit, HaveKeys, are_apart, channels, declared, known, known_people, people};
ghost use Rattle.hop_script.specs.declared.fault.HopFault.TheVariants as faults;

use crate::declaring::{channels, people};
use crate::fault::HopFault;
use lms_signatures::Signer;
use script_reader::{Context, Step, start};
use script_steps::enter;
use std::alloc::Global;

/// What is declared, and the signers of the people.
#[derive(Drop)]
pub(crate) struct Made {
    pub context: Context,
    pub signers: Vec<Signer>,
}

/// Takes note of what steps declare, and appends the signers of their people.
fn enter_all(
    alloc: Global,
    context: &mut Context,
    signers: &mut Vec<Signer>,
    steps: &[Step],
) -> Result<(), HopFault>
    requires { AreFit context.old steps.now }
    ensures noted { OnOk result (context.new ≡ fold after context.old steps.now) }
    ensures apart { OnOk result (AreApart context.old steps.now) }
    ensures signers { OnOk result (signers.new.items ≡ signers.old.items ++ signers_of steps.now) }
    ensures one_name { result ≡ Err faults.OneName → ¬ (AreApart context.old steps.now) }
{
    let [step, rest @ ..] = steps else {
        return Ok(());
    };
    if let Some(signer) = enter(alloc, context, step)? {
        signers.push(signer)?;
    }
    enter_all(alloc, context, signers, rest)
}

/// The key of a person is one of the format.
#[tactic(auto, unfolding(script_steps::specs::Digests::key_of))]
fn has_key(signer: &Signer, letter: u8)
    requires { signer.now ≡ fresh (replicate 32 letter) 10 }
    ensures { IsKey (key_of (replicate 32 letter) 10) }
{
    let _ = letter;
    let _key = signer.public();
}

/// The keys of the people are some of the format.
fn have_keys(signers: &[Signer])
    requires { signers.now ≡ signers_of people }
    ensures { HaveKeys }
{
    let [a, near, far, b] = signers else {
        unreachable!();
    };
    has_key(a, 0x41);
    has_key(near, 0x31);
    has_key(far, 0x32);
    has_key(b, 0x42);
}

/// Takes note of the channels, after the people.
#[tactic(auto, using(crate::proofs::Kept::channels_fit, crate::proofs::Names::channels_told))]
fn enter_channels(
    alloc: Global,
    context: &mut Context,
    signers: &mut Vec<Signer>,
) -> Result<(), HopFault>
    requires people { context.old ≡ known_people }
    requires signers { signers.old.items ≡ signers_of people }
    ensures noted { OnOk result (context.new ≡ known) }
    ensures apart { OnOk result (AreApart known_people channels) }
    ensures signers { OnOk result (signers.new.items ≡ signers.old.items) }
    ensures one_name { result ≡ Err faults.OneName → are_apart ≡ false }
{
    have_keys(signers);
    let channels = channels(alloc)?;
    enter_all(alloc, context, signers, channels.as_slice())
}

/// Takes note of the people and the channels.
#[tactic(auto, using(crate::proofs::Kept::people_fit, crate::proofs::Names::all_apart, crate::proofs::Names::entered_apart, crate::proofs::Names::people_repeat))]
pub(crate) fn entered(alloc: Global) -> Result<Made, HopFault>
    ensures context { IfOk result (λ e. e.context ≡ known) }
    ensures signers { IfOk result (λ e. e.signers.items ≡ signers_of people) }
    ensures kept { OnOk result (AreApart (start false) declared) }
    ensures apart { OnOk result (are_apart ≡ true) }
    ensures one_name { result ≡ Err faults.OneName → are_apart ≡ false }
{
    let mut context = start(alloc, false);
    let mut signers = Vec::new(alloc);
    let people = people(alloc)?;
    enter_all(alloc, &mut context, &mut signers, people.as_slice())?;
    enter_channels(alloc, &mut context, &mut signers)?;
    Ok(Made { context, signers })
}
