//! The two people of a load, and the channel that they open.

ghost use Rattle.std.specs.Prelude.{◌≡◌, ℕ, true, false, IfOk};
ghost use Rattle.std.specs.Str.{bytes_eq};
ghost use Rattle.channel_values.specs.Parts.{IsKey};
ghost use Rattle.script_reader.specs.Digests.{key_of, fresh};
ghost use Rattle.script_reader.specs.step.Step.TheVariants as steps;
ghost use Rattle.script_run.specs.Load.{key_seed, digest_of, people, channel, stake, stakes, beginning};

use channel_values::{
    AssetOutcome, ByteFault, Dest, Item, Label, Listed, Name, NoMemory, Outcome, Shape, person_name,
};
use lms_signatures::Signer;
use script_steps::{ChannelStep, OpenStep, PersonStep, Step, id_of};
use std::alloc::Global;

/// The height of the tree of a person's key.
const HEIGHT: u8 = 10;

/// A person, with the digest that names it.
#[derive(Drop)]
pub(crate) struct Party {
    pub seed: [u8; 32],
    pub signer: Signer,
    pub digest: Name,
}

fn key_seed(letter: u8, seed: u64) -> [u8; 32]
    ensures { result ≡ key_seed letter seed }
{
    let mut bytes = [letter; 32];
    bytes[24..].copy_from_slice(&seed.to_be_bytes());
    bytes
}

/// The person whose name is this letter. It takes 2^10 one-time keys.
#[tactic(auto, unfolding(script_steps::specs::Digests::key_of))]
pub(crate) fn party_of(alloc: Global, letter: u8, seed: u64) -> Result<Party, NoMemory>
    ensures seed { IfOk result (λ p. p.seed ≡ key_seed letter seed) }
    ensures signer { IfOk result (λ p. p.signer ≡ fresh (key_seed letter seed) 10) }
    ensures digest { IfOk result (λ p. p.digest ≡ digest_of letter seed) }
    ensures key { IfOk result (λ p. IsKey (key_of (key_seed letter seed) 10)) }
{
    let seed = key_seed(letter, seed);
    let Ok(signer) = Signer::make(alloc, seed, id_of(&seed), HEIGHT) else {
        return Err(NoMemory);
    };
    let key = signer.public();
    let digest = person_name(&key);
    Ok(Party {
        seed,
        signer,
        digest,
    })
}

pub(crate) fn label(alloc: Global, text: &str) -> Result<Label, NoMemory>
    ensures { IfOk result (λ l. l ≡ text.now) }
{
    let text = String::from_str(alloc, text)?;
    Ok(Label::make(text))
}

/// The names of the two people.
pub(crate) fn people(alloc: Global) -> Result<Listed<Label>, NoMemory>
    ensures { IfOk result (λ names. names ≡ people) }
{
    let first = label(alloc, "A")?;
    let second = label(alloc, "B")?;
    let names = vec![in alloc; first, second]?;
    Ok(Listed::make(names))
}

/// What the channel holds at first for the people with these digests, which differ.
fn stakes(alloc: Global, a: Name, b: Name) -> Result<Outcome, NoMemory>
    requires { bytes_eq a b ≡ false }
    ensures { IfOk result (λ o. o ≡ stakes a b) }
{
    let items = vec![in alloc; stake(a), stake(b)]?;
    let asset = AssetOutcome {
        asset: 0,
        shape: Shape::Allocation(Listed::make(items)),
    };
    let assets = vec![in alloc; asset]?;
    match Outcome::make(alloc, assets) {
        Ok(outcome) => Ok(outcome),
        Err(ByteFault::NoMemory) => Err(NoMemory),
        Err(_) => unreachable!(),
    }
}

/// What the person with a digest has in the channel at first.
fn stake(digest: Name) -> Item
    ensures { result ≡ stake digest }
{
    Item {
        to: Dest::Person(digest),
        amount: 1_000_000,
    }
}

fn person(alloc: Global, name: &str, seed: [u8; 32]) -> Result<Step, NoMemory>
    ensures { IfOk result (λ s. s
        ≡ steps.Person (record { name = name.now; seed = seed; h = 10; node = true; watchers = 1 })) }
{
    Ok(Step::Person(PersonStep {
        name: label(alloc, name)?,
        seed,
        h: u64::from(HEIGHT),
        node: true,
        watchers: 1,
    }))
}

/// A channel for payments.
fn channel(alloc: Global) -> Result<Step, NoMemory>
    ensures { IfOk result (λ s. s ≡ channel) }
{
    Ok(Step::Channel(ChannelStep {
        name: label(alloc, "C")?,
        people: people(alloc)?,
        nonce: 1,
        app: 1,
        duration: 10,
    }))
}

/// The steps before the payments, of two people whose digests differ.
pub(crate) fn beginning(alloc: Global, a: &Party, b: &Party) -> Result<Listed<Step>, NoMemory>
    requires { bytes_eq a.now.digest b.now.digest ≡ false }
    ensures { IfOk result (λ s. (seed : ℕ) → a.now.seed ≡ key_seed 65 seed → b.now.seed ≡ key_seed 66 seed
        → a.now.digest ≡ digest_of 65 seed → b.now.digest ≡ digest_of 66 seed → s ≡ beginning seed) }
{
    let outcome = stakes(alloc, a.digest, b.digest)?;
    let open = Step::Open(OpenStep {
        who: people(alloc)?,
        channel: label(alloc, "C")?,
        outcome,
    });
    let first = person(alloc, "A", a.seed)?;
    let second = person(alloc, "B", b.seed)?;
    let channel = channel(alloc)?;
    let steps = vec![in alloc; first, second, channel, open, Step::Rounds { count: 8 }]?;
    Ok(Listed::make(steps))
}
