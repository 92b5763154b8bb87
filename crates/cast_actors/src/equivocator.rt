//! An actor that answers one challenge in two ways.

ghost use Rattle.std.specs.Prelude.{◌≡◌, ◌⊎◌, ◌+◌, false, [], IfOk, OnOk, OnErr, find, replicate};
ghost use Rattle.std.specs.Option.{option_copied};
ghost use Rattle.channel_values.specs.Parts.{state_with};
ghost use Rattle.channel_node.specs.Refusing as refusing;
ghost use Rattle.network_rounds.specs.declared.actor.Act.TheVariants as acts;
ghost use Rattle.script_steps.specs.Digests.{fresh};
ghost use Rattle.lms_signatures.specs.Made.{made_bytes};
ghost use Rattle.cast_actors.specs.Equivocates as equivocates;

use call_history::{Call, Entry, Op, RespondCall, newest};
use channel_values::{
    AssetOutcome, Dest, Fixed, Key, Listed, NoMemory, Shape, Signed, State, channel_name, mover_at,
    state_digest, state_message,
};
use funding_plans::{amt, has};
use lms_signatures::{SignFault, Signer};
use network_rounds::{Act, Actor, Notes};
use node_decisions::{Payment, state_of};
use script_steps::id_of;
use std::alloc::Global;
use support_rules::people_of;

/// The seed of its key.
const SEED: [u8; 32] = [0x45; 32];

/// How often its key signs, which has height 5.
const MOST_SIGNATURES: u32 = 32;

/// It answers the oldest accepted challenge of a payment channel that its key is to answer. It enters two answers by
/// turns, again and again: one that repeats the outcome, and one that pays 1 to the other.
#[derive(Drop)]
pub struct Equivocator {
    alloc: Global,
    signer: Signer,
}

/// Whether the key is to move after the state.
fn moves_next(key: &Key, fixed: &Fixed, state: Option<&State>) -> bool
    ensures { result ≡ equivocates.moves_next key.now fixed.now (option_copied state.entry) }
{
    match state {
        None => false,
        Some(state) => fixed.keys()[mover_at(fixed, state.turn() + 1)] == *key,
    }
}

/// Whether it is an accepted challenge on a payment channel, which the key is to answer.
fn is_answerable(key: &Key, entry: &Entry) -> bool
    ensures { result ≡ equivocates.is_answerable key.now entry.now.reply entry.now.op }
{
    match &entry.op {
        Op::Call(Call::Challenge(challenge)) => {
            let chain = &challenge.chain;
            entry.reply.is_accepted()
                && chain.fixed.app() == 1
                && moves_next(key, &chain.fixed, newest(chain.states.as_slice()))
        }
        _ => false,
    }
}

fn oldest<'a>(key: &Key, entries: &'a [Entry]) -> Option<&'a Entry>
    ensures { option_copied result ≡ find (λ e. equivocates.is_answerable key.now e.reply e.op) entries.now }
{
    entries.iter().find(|entry| is_answerable(key, entry))
}

/// Whether both have an item, and the first has at least 1.
fn can_give(from: &Dest, to: &Dest, o: &AssetOutcome) -> bool
    ensures { result ≡ equivocates.can_give from.now to.now o.now.shape }
{
    match &o.shape {
        Shape::Allocation(items) => {
            amt(items.as_slice(), from) >= 1 && has(items.as_slice(), to)
        }
        Shape::Guarantee(_, _) => false,
    }
}

fn first_asset(from: &Dest, to: &Dest, assets: &[AssetOutcome]) -> Option<u32>
    ensures { result ≡ equivocates.first_asset from.now to.now assets.now }
{
    assets
        .iter()
        .find(|o| can_give(from, to, o))
        .map(|o| o.asset)
}

/// The person who moves to this turn.
fn giver(fixed: &Fixed, turn: u64) -> Dest
    ensures { result ≡ equivocates.giver fixed.now turn }
{
    let people = people_of(fixed);
    Dest::Person(people.as_slice()[mover_at(fixed, turn)])
}

/// The other one, of two.
fn taker(fixed: &Fixed, turn: u64) -> Dest
    ensures { result ≡ equivocates.taker fixed.now turn }
{
    let _ = fixed.keys();
    let people = people_of(fixed);
    Dest::Person(people.as_slice()[1usize.saturating_sub(mover_at(fixed, turn))])
}

fn repeated(alloc: Global, from: &State) -> Result<State, NoMemory>
    ensures { IfOk result (λ s. s ≡ state_with (from.now.turn + 1) false from.now.outcome []) }
{
    let outcome = from.outcome().copy()?;
    let Ok(state) = State::make(alloc, from.turn() + 1, false, outcome, Vec::new(alloc)) else {
        return Err(NoMemory);
    };
    Ok(state)
}

fn paid(alloc: Global, fixed: &Fixed, from: &State, asset: u32) -> Result<State, NoMemory>
    ensures { IfOk result (λ s. s ≡ state_with (from.now.turn + 1) false
        (refusing.moved (equivocates.giver fixed.now (from.now.turn + 1))
        (equivocates.taker fixed.now (from.now.turn + 1)) asset 1 from.now.outcome) []) }
{
    let turn = from.turn() + 1;
    let payment = Payment {
        from: giver(fixed, turn),
        to: taker(fixed, turn),
        asset,
        amount: 1,
    };
    let Ok(state) = state_of(alloc, turn, &payment, Some(from.outcome())) else {
        return Err(NoMemory);
    };
    Ok(state)
}

/// The state that it signs next, after so many signatures.
fn next_state(
    alloc: Global,
    used: u32,
    fixed: &Fixed,
    from: &State,
) -> Result<Option<State>, NoMemory>
    ensures { IfOk result (λ o. o ≡ equivocates.next_state used fixed.now from.now) }
{
    let turn = from.turn() + 1;
    if turn >= 1 << 48 {
        return Ok(None);
    }
    if used % 2 == 0 {
        let state = repeated(alloc, from)?;
        return Ok(Some(state));
    }
    let assets = from.outcome().assets();
    match first_asset(&giver(fixed, turn), &taker(fixed, turn), assets) {
        None => Ok(None),
        Some(asset) => {
            let state = paid(alloc, fixed, from, asset)?;
            Ok(Some(state))
        }
    }
}

impl Equivocator {
    /// With its key, which hasn't signed yet.
    pub fn make(alloc: Global) -> Result<Equivocator, NoMemory>
        ensures { IfOk result (λ e. e.signer ≡ fresh (replicate 32 0x45) 5) }
    {
        match Signer::make(alloc, SEED, id_of(&SEED), 5) {
            Ok(signer) => Ok(Equivocator { alloc, signer }),
            Err(_) => Err(NoMemory),
        }
    }

    /// The next signature.
    fn signature(&mut self, message: &[u8]) -> Result<Listed<u8>, NoMemory>
        ensures made { IfOk result (λ bytes.
            bytes ≡ made_bytes self.old.signer.seed self.old.signer.id self.old.signer.h self.old.signer.used message.now) }
        ensures signer { OnOk result (self.new.signer ≡ equivocates.used_once self.old.signer) }
        ensures kept { OnErr result (self.new.signer ≡ self.old.signer) }
    {
        match self.signer.sign(message) {
            Ok(bytes) => Ok(Listed::make(bytes)),
            Err(SignFault::KeySpent(_)) => Err(NoMemory),
            Err(SignFault::NoMemory) => Err(NoMemory),
        }
    }

    /// It signs a state, and enters it as an answer to the challenge of another.
    fn entering(&mut self, fixed: &Fixed, from: &State, state: State) -> Result<Act, NoMemory>
        ensures act { IfOk result (λ act. act ≡ equivocates.entering self.old.signer fixed.now from.now state) }
        ensures signer { IfOk result (λ act. self.new.signer ≡ equivocates.signer_after self.old.signer act) }
        ensures kept { OnErr result (self.new.signer ≡ self.old.signer) }
    {
        let message = state_message(&state_digest(&channel_name(fixed.bytes()), state.bytes()));
        let fixed = fixed.copy()?;
        let from = from.copy()?;
        let signature = self.signature(&message)?;
        let next = Signed { state, signature };
        Ok(Act::Enter(Call::Respond(RespondCall { fixed, from, next })))
    }

    /// Its answer to a challenge of a state, if there is one.
    fn responding(&mut self, fixed: &Fixed, from: Option<&State>) -> Result<Act, NoMemory>
        ensures act { IfOk result (λ act.
            act ≡ equivocates.responds self.old.signer fixed.now (option_copied from.entry)) }
        ensures signer { IfOk result (λ act. self.new.signer ≡ equivocates.signer_after self.old.signer act) }
        ensures kept { OnErr result (self.new.signer ≡ self.old.signer) }
    {
        let Some(from) = from else {
            return Ok(Act::Rest);
        };
        match next_state(self.alloc, self.signer.used(), fixed, from)? {
            Some(state) => {
                let act = self.entering(fixed, from, state)?;
                Ok(act)
            }
            None => Ok(Act::Rest),
        }
    }

    fn answer_to(&mut self, op: &Op) -> Result<Act, NoMemory>
        ensures act { IfOk result (λ act. act ≡ equivocates.answer_to self.old.signer op.now) }
        ensures signer { IfOk result (λ act. self.new.signer ≡ equivocates.signer_after self.old.signer act) }
        ensures kept { OnErr result (self.new.signer ≡ self.old.signer) }
    {
        match op {
            Op::Call(Call::Challenge(challenge)) => {
                let chain = &challenge.chain;
                let act = self.responding(&chain.fixed, newest(chain.states.as_slice()))?;
                Ok(act)
            }
            _ => Ok(Act::Rest),
        }
    }

    fn answering(&mut self, entries: &[Entry]) -> Result<Act, NoMemory>
        ensures act { IfOk result (λ act. act ≡ equivocates.equivocated self.old.signer entries.now) }
        ensures signer { IfOk result (λ act. self.new.signer ≡ equivocates.signer_after self.old.signer act) }
        ensures kept { OnErr result (self.new.signer ≡ self.old.signer) }
    {
        if self.signer.used() >= MOST_SIGNATURES {
            return Ok(Act::Done);
        }
        let key = self.signer.public();
        let Some(entry) = oldest(&key, entries) else {
            return Ok(Act::Rest);
        };
        let act = self.answer_to(&entry.op)?;
        Ok(act)
    }

    /// What it does, by its notes and by how often it has signed.
    pub fn answer(&mut self, seen: &Notes) -> Act
        ensures act { (result ≡ acts.NoMemory)
            ⊎ (result ≡ equivocates.equivocated self.old.signer seen.now.entries.items) }
        ensures signer { self.new.signer ≡ equivocates.signer_after self.old.signer result }
    {
        match self.answering(seen.entries.as_slice()) {
            Ok(act) => act,
            Err(_) => Act::NoMemory,
        }
    }
}

impl Actor for Equivocator {
    ghost tells = { λ _. false };

    ghost told = { λ _. [] };

    fn act(&mut self, seen: &Notes) -> Act {
        self.answer(seen)
    }
}
