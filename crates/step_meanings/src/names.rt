//! What the names of a script stand for, and what each step means by them.

ghost use Rattle.std.specs.Prelude.{◌++◌, ◌∷◌, [], ℕ, Bool, true, false, None, ◌≡◌, ◌≤◌, ◌<◌, ◌-◌, ◌+◌, ◌^◌, ◌⊎◌, length, OnOk, IfOk, IfSome, IsTrue, nat_le, ◌==◌, ◌||◌, unwrap_or};
ghost use Rattle.std.specs.List.{position};
ghost use Rattle.std.specs.Str.{bytes_eq};
ghost use Rattle.std.specs.Option.{option_map};
ghost use Rattle.channel_values.specs.Parts.{fixed_with, state_with};
ghost use Rattle.channel_values.specs.Spelling.{state};
ghost use Rattle.channel_values.specs.Spelling as spelling;
ghost use Rattle.channel_values.specs.declared.value.Dest.TheVariants as dests;
ghost use Rattle.support_rules.specs.Ballots.{data_of};
ghost use Rattle.channel_values.specs.Digests.{digest_of_state, name_of_person};
ghost use Rattle.step_meanings.specs.Chains.{state_by, listed, chain_of};
ghost use Rattle.script_steps.specs.Bounds.{Fits};
ghost use Rattle.script_steps.specs.Digests.{key_of, fresh};
ghost use Rattle.script_steps.specs.declared.step.Step.TheVariants as steps;
ghost use Rattle.step_meanings.specs.People.{person_by, who_of};
ghost use Rattle.step_meanings.specs.Names.{fixed_by, name_of, digest_or_digits, position_of, sign_state, sign_challenge};
ghost use Rattle.step_meanings.specs.Meanings.{valid_fixed, valid_state, with_state, signing, learning, doing, meaning, nameless};

use crate::chains::{NamedState, chain_of, listed, state_by};
use crate::effect::Effect;
use crate::people::{People, Person};
use channel_values::{
    ByteFault, Chain, Dest, Fixed, Key, Label, Listed, Name, NoMemory, Outcome, Signed, State,
    challenge_message, channel_name, person_name, state_digest, state_message,
};
use hex::FromHex;
use lms_signatures::Signer;
use script_steps::{ChannelStep, PersonStep, SignStep};
use std::alloc::Global;
use support_rules::vote_bytes;

/// A declared channel.
#[derive(Drop)]
pub struct NamedChannel {
    pub name: Label,
    pub fixed: Fixed,
}

/// What the names of a script stand for.
#[derive(Drop)]
pub struct Names {
    pub people: People,
    pub channels: Listed<NamedChannel>,
    pub states: Listed<NamedState>,
    /// The declared people and channels in their order, by the digests that name them.
    pub labels: Listed<(Dest, Label)>,
}

/// The fixed part of a channel, where these parts are one.
fn valid_fixed(
    alloc: Global,
    keys: Vec<Key>,
    nonce: u64,
    app: u8,
    duration: u32,
) -> Result<Option<Fixed>, NoMemory>
    ensures { IfOk result (λ f. f ≡ valid_fixed (fixed_with keys.items nonce app duration)) }
{
    match Fixed::make(alloc, keys, nonce, app, duration) {
        Ok(fixed) => Ok(Some(fixed)),
        Err(ByteFault::NoMemory) => Err(NoMemory),
        Err(_) => Ok(None),
    }
}

/// The state of a sign step: its data are its votes and its proposal.
pub fn state_with_votes(
    alloc: Global,
    turn: u64,
    is_final: bool,
    outcome: &Outcome,
    votes: u8,
    proposal: &Outcome,
) -> Result<Option<State>, NoMemory>
    ensures { IfOk result (λ s. s ≡ valid_state
        (state_with turn is_final outcome.now
        (data_of (record { votes = votes; proposal = spelling.outcome proposal.now })))) }
{
    let app_bytes = vote_bytes(alloc, votes, proposal)?;
    let outcome = outcome.copy()?;
    valid_state(alloc, turn, is_final, outcome, app_bytes)
}

/// The state of these parts, where they are one.
fn valid_state(
    alloc: Global,
    turn: u64,
    is_final: bool,
    outcome: Outcome,
    app_bytes: Vec<u8>,
) -> Result<Option<State>, NoMemory>
    ensures { IfOk result (λ s. s ≡ valid_state (state_with turn is_final outcome app_bytes.items)) }
{
    match State::make(alloc, turn, is_final, outcome, app_bytes) {
        Ok(state) => Ok(Some(state)),
        Err(ByteFault::NoMemory) => Err(NoMemory),
        Err(_) => Ok(None),
    }
}

fn place_of(keys: &[Key], key: &Key) -> Option<usize>
    ensures place { result ≡ position (λ k. bytes_eq k key.now) keys.now }
    ensures inside { IfSome result (λ place. place < length keys.now) }
{
    keys.iter().position(|k| *k == *key)
}

/// The position of a key in a channel, or 255.
pub fn position_of(keys: &[Key], key: &Key) -> u8
    requires { length keys.now ≤ 4 }
    ensures { result ≡ position_of keys.now key.now }
{
    match place_of(keys, key) {
        Some(place) => place as u8,
        None => 255,
    }
}

/// The digest that names a state of the channel.
fn digest_of(fixed: &Fixed, made: &State) -> Name
    ensures { result ≡ digest_of_state (name_of fixed.now) (state made.now) }
{
    state_digest(&channel_name(fixed.bytes()), made.bytes())
}

/// The channel of this name.
pub fn channel_by<'a>(channels: &'a [NamedChannel], name: &str) -> Option<&'a NamedChannel>
    ensures { option_map (λ c. c.now.fixed) result ≡ fixed_by channels.now name.now }
{
    channels.iter().find(|c| c.name.as_str() == name)
}

/// The digest of a declared channel, or else the one that 64 digits spell.
pub fn digest_or_digits(channel: Option<&NamedChannel>, text: &str) -> Option<Name>
    ensures { result ≡ digest_or_digits (option_map (λ c. c.now.fixed) channel.entry) text.now }
{
    match channel {
        Some(channel) => Some(channel_name(channel.fixed.bytes())),
        None => <[u8; 32] as FromHex>::from_hex(text).ok(),
    }
}

/// The person's signature of a challenge on the last of the states. Without a state it is empty and takes no index.
pub fn sign_challenge(
    alloc: Global,
    people: &mut People,
    by: &str,
    fixed: &Fixed,
    listed: &[NamedState],
    challenger: u8,
) -> Result<Option<Listed<u8>>, NoMemory>
    ensures signed { IfOk result (λ signature.
        option_map (λ s. record { signature = s; people = people.new }) signature
        ≡ sign_challenge people.old by.now fixed.now listed.now challenger) }
    ensures unsigned { IfOk result (λ signature. signature ≡ None → people.new ≡ people.old) }
{
    let [last, ..] = listed else {
        return Ok(Some(Listed::make(Vec::new(alloc))));
    };
    let digest = digest_of(fixed, &last.signed.state);
    people.sign(by, &challenge_message(&digest, challenger))
}

impl Names {
    /// No name stands for anything yet.
    pub fn make(alloc: Global) -> Names
        ensures { result ≡ nameless }
    {
        Names {
            people: People::make(alloc),
            channels: Listed::make(Vec::new(alloc)),
            states: Listed::make(Vec::new(alloc)),
            labels: Listed::make(Vec::new(alloc)),
        }
    }

    /// The allocator of all that names stand for.
    pub fn alloc(&self) -> Global {
        self.states.allocator()
    }

    /// The digest that names the channel of this name.
    pub fn name_by(&self, channel: &Label) -> Option<Name>
        ensures { result ≡ option_map name_of (fixed_by self.now.channels channel.now) }
    {
        match channel_by(self.channels.as_slice(), channel.as_str()) {
            Some(channel) => Some(channel_name(channel.fixed.bytes())),
            None => None,
        }
    }

    /// The digest that names the person of this name.
    pub fn who_by(&self, name: &Label) -> Option<Name>
        ensures { result ≡ option_map who_of (person_by self.now.people name.now) }
    {
        match self.people.person_by(name.as_str()) {
            Some(person) => Some(person.who()),
            None => None,
        }
    }

    /// A copy of the outcome of the state of this name.
    pub fn outcome_by(&self, name: &Label) -> Result<Option<Outcome>, NoMemory>
        ensures { IfOk result (λ o. o ≡ option_map (λ x. x.signed.state.outcome) (state_by self.now.states name.now)) }
    {
        match state_by(self.states.as_slice(), name.as_str()) {
            Some(found) => {
                let outcome = found.signed.state.outcome().copy()?;
                Ok(Some(outcome))
            }
            None => Ok(None),
        }
    }

    /// A copy of the fixed part of the channel of this name.
    pub fn fixed_by(&self, channel: &Label) -> Result<Option<Fixed>, NoMemory>
        ensures { IfOk result (λ f. f ≡ fixed_by self.now.channels channel.now) }
    {
        match channel_by(self.channels.as_slice(), channel.as_str()) {
            Some(channel) => {
                let fixed = channel.fixed.copy()?;
                Ok(Some(fixed))
            }
            None => Ok(None),
        }
    }

    /// A copy of the signed state of this name.
    pub fn signed_by(&self, name: &Label) -> Result<Option<Signed>, NoMemory>
        ensures { IfOk result (λ s. s ≡ option_map (λ x. x.signed) (state_by self.now.states name.now)) }
    {
        match state_by(self.states.as_slice(), name.as_str()) {
            Some(found) => {
                let signed = found.signed.copy()?;
                Ok(Some(signed))
            }
            None => Ok(None),
        }
    }

    /// The chain of the named states of a channel.
    pub fn chain_by(&self, channel: &Label, names: &[Label]) -> Result<Option<Chain>, NoMemory>
        requires { length names.now ≤ 4 }
        ensures { IfOk result (λ chain.
            chain ≡ option_map (λ f. chain_of f (listed self.now.states names.now))
            (fixed_by self.now.channels channel.now)) }
    {
        let Some(channel) = channel_by(self.channels.as_slice(), channel.as_str()) else {
            return Ok(None);
        };
        let listed = listed(self.alloc(), self.states.as_slice(), names)?;
        let chain = chain_of(self.alloc(), &channel.fixed, &listed)?;
        Ok(Some(chain))
    }

    fn label(&mut self, to: Dest, name: &Label) -> Result<(), NoMemory>
        ensures { OnOk result (self.new ≡ record self.old { labels = self.old.labels ++ (to, name.now) ∷ [] }) }
    {
        let name = name.copy()?;
        self.labels.push((to, name))
    }

    /// One more person, whose number is the next one. Its hand has the signer where no node has it.
    fn add_person(&mut self, name: &Label, key: Key, hand: Option<Signer>) -> Result<(), NoMemory>
        requires few { length self.old.people < 16 }
        ensures { OnOk result (self.new ≡ record self.old {
          people = self.old.people ++ record { number = length self.old.people + 1; name = name.now; key = key; hand = hand } ∷ [];
          labels = self.old.labels ++ (dests.Person (name_of_person key), name.now) ∷ [];
        }) }
    {
        let number = self.people.as_slice().len() as u32 + 1;
        let copy = name.copy()?;
        self.people.push(Person {
            number,
            name: copy,
            key,
            hand,
        })?;
        self.label(Dest::Person(person_name(&key)), name)
    }

    /// Declares a person. The signer goes to its node, which has watchers, or else is its hand.
    #[tactic(auto, unfolding(script_steps::specs::Digests::key_of))]
    pub fn person(&mut self, signer: Signer, keys: &PersonStep) -> Result<Effect, NoMemory>
        requires fresh { signer ≡ fresh keys.now.seed keys.now.h }
        requires fits { Fits (steps.Person keys.now) }
        requires few { length self.old.people < 16 }
        ensures { IfOk result (λ e. doing self.new e ≡ meaning self.old (steps.Person keys.now)) }
    {
        let key = signer.public();
        if !keys.node {
            self.add_person(&keys.name, key, Some(signer))?;
            return Ok(Effect::Nothing);
        }
        let number = self.people.as_slice().len() as u32 + 1;
        self.add_person(&keys.name, key, None)?;
        Ok(Effect::Join(number, signer, keys.watchers as u32))
    }

    /// Declares a channel. Where its parts make none, nothing is declared.
    pub fn channel(&mut self, keys: &ChannelStep) -> Result<Effect, NoMemory>
        requires { Fits (steps.Channel keys.now) }
        ensures { IfOk result (λ e. doing self.new e ≡ meaning self.old (steps.Channel keys.now)) }
    {
        let people = self.people.keys_by(self.alloc(), keys.people.as_slice())?;
        let duration = keys.duration as u32;
        let made = valid_fixed(self.alloc(), people, keys.nonce, keys.app, duration)?;
        let Some(fixed) = made else {
            return Ok(Effect::Nothing);
        };
        let digest = channel_name(fixed.bytes());
        let name = keys.name.copy()?;
        self.channels.push(NamedChannel { name, fixed })?;
        self.label(Dest::Channel(digest), &keys.name)?;
        Ok(Effect::Nothing)
    }

    /// A name for a state of a channel.
    pub fn name_state(
        &mut self,
        name: Label,
        key: Key,
        channel: Name,
        signed: Signed,
    ) -> Result<(), NoMemory>
        ensures { OnOk result (self.new
            ≡ with_state self.old (record { name = name; key = key; channel = channel; signed = signed })) }
    {
        self.states.push(NamedState {
            name,
            key,
            channel,
            signed,
        })
    }

    /// Signs a state of a channel by hand.
    fn sign_state(
        &mut self,
        name: &Label,
        channel: &Label,
        by: &Label,
        made: State,
    ) -> Result<(), NoMemory>
        ensures { OnOk result (learning self.new
            ≡ unwrap_or (signing self.old name.now channel.now by.now made) (learning self.old)) }
    {
        let declared = channel_by(self.channels.as_slice(), channel.as_str());
        let Some(channel) = declared else {
            return Ok(());
        };
        let Some(key) = self.people.key_by(by.as_str()) else {
            return Ok(());
        };
        let digest = channel_name(channel.fixed.bytes());
        let message = state_message(&digest_of(&channel.fixed, &made));
        let Some(signature) = self.people.sign(by.as_str(), &message)? else {
            return Ok(());
        };
        let name = name.copy()?;
        self.name_state(
            name,
            key,
            digest,
            Signed {
                state: made,
                signature,
            },
        )
    }

    /// Signs a state of a channel by hand, where its parts make one, and gives it a name.
    pub fn sign(&mut self, keys: &SignStep) -> Result<Effect, NoMemory>
        requires { Fits (steps.Sign keys.now) }
        ensures { IfOk result (λ e. doing self.new e ≡ meaning self.old (steps.Sign keys.now)) }
    {
        let votes = keys.votes as u8;
        let (outcome, proposal) = (&keys.outcome, &keys.proposal);
        let made = state_with_votes(
            self.alloc(),
            keys.turn,
            keys.is_final,
            outcome,
            votes,
            proposal,
        )?;
        if let Some(made) = made {
            self.sign_state(&keys.name, &keys.channel, &keys.by, made)?;
        }
        Ok(Effect::Nothing)
    }
}
