//! What a node knows, with its signer.

ghost use Rattle.std.specs.Prelude.{◌≡◌, ◌+◌, ◌<◌, ◌^◌, true, None, OnOk, IfOk};
ghost use Rattle.std.specs.List.{flat_map};
ghost use Rattle.channel_store.specs.Keeping.{held_chain};
ghost use Rattle.channel_store.specs.Noting.{refusal_of};
ghost use Rattle.node_knowledge.specs.Owned.{AreOwned};
ghost use Rattle.call_history.specs.Reading.{message_of};
ghost use Rattle.channel_node.specs.Minds.{fresh, noted};
ghost use Rattle.channel_node.specs.Refusing.{message_refusal};
ghost use Rattle.stage_tables.specs.Stages.{stages};
ghost use Rattle.node_guarantees.specs.Ways.{made_of, key_of};
ghost use Rattle.lms_signatures.specs.Made.{made_bytes};
ghost use Rattle.lms_signatures.specs.Signing.{IsHeight};
ghost use Rattle.support_rules.specs.Real.{real};

use crate::seeing::can_see;
use call_bytes::read_message;
use call_history::{Call, Entry, HeldChain, NodeRefusal};
use channel_node::{Knowing, OwnChallenge};
use channel_values::{
    ByteFault, Listed, Name, NoMemory, Signed, State, challenge_message, state_digest,
    state_message,
};
use lms_signatures::{SignFault, Signer};
use network::Command;
use node_decisions::{command_refusal, handle, message_refusal, paying, signable};
use node_knowledge::Known;
use std::alloc::Global;
use std::marker::Model;

/// What a node knows, and its signer.
#[derive(Drop)]
pub struct Mind {
    known: Known,
    signer: Signer,
}

impl Model for Mind {
    ghost use Rattle.std.specs.Prelude.{◌≡◌};
    ghost use Rattle.network_node.specs.Minds.{MindOf};
    ghost use Rattle.node_guarantees.specs.Ways.{made_of, key_of};

    ghost Value = { MindOf };

    ghost view = { λ m. record { known = m.known; signer = m.signer } };

    ghost invariant = { λ m. m.known.key ≡ key_of (made_of m.signer) };
}

impl Mind {
    /// Nothing is known.
    pub(crate) fn make(alloc: Global, signer: Signer) -> Mind
        requires { IsHeight signer.h }
        ensures known { result.known ≡ fresh (key_of (made_of signer)) }
        ensures signer { result.signer ≡ signer }
    {
        Mind {
            known: Known::make(alloc, signer.public()),
            signer,
        }
    }

    pub(crate) fn known(&self) -> &Known
        ensures { result.now ≡ self.now.known }
    {
        &self.known
    }

    /// How often its signer can sign in all.
    pub(crate) fn limit(&self) -> u32
        ensures { result ≡ 2 ^ self.now.signer.h }
    {
        self.signer.limit()
    }

    /// Why a message of these bytes would be refused, if it would be.
    pub(crate) fn refusal_of(&self, bytes: &[u8]) -> Result<Option<NodeRefusal>, NoMemory>
        ensures { IfOk result (λ refusal.
            refusal ≡ message_refusal stages real self.now.known (message_of bytes.now)) }
    {
        let read = read_message(self.known.view().channels.allocator(), bytes);
        if let Err(ByteFault::NoMemory) = read {
            return Err(NoMemory);
        }
        Ok(message_refusal(&self.known, &read))
    }

    /// The chains that it holds.
    pub(crate) fn chains(&self) -> &[HeldChain]
        ensures { result.now ≡ flat_map held_chain self.now.known.kept }
    {
        self.known.store().chains()
    }

    /// The next signature.
    fn signature(&mut self, message: &[u8]) -> Result<Listed<u8>, NoMemory>
        requires { self.old.signer.used < 2 ^ self.old.signer.h }
        ensures made { IfOk result (λ bytes.
            bytes ≡ made_bytes self.old.signer.seed self.old.signer.id self.old.signer.h self.old.signer.used message.now) }
        ensures verifies { IfOk result (λ bytes.
            real.verifies (key_of (made_of self.old.signer)) message.now bytes ≡ true) }
        ensures used { OnOk result (self.new.signer.used ≡ self.old.signer.used + 1) }
        ensures known { self.new.known ≡ self.old.known }
        ensures signer { made_of self.new.signer ≡ made_of self.old.signer }
    {
        match self.signer.sign(message) {
            Ok(bytes) => Ok(Listed::make(bytes)),
            Err(SignFault::NoMemory) => Err(NoMemory),
            Err(SignFault::KeySpent(_)) => unreachable!(),
        }
    }

    /// Each channel is kept by its name, with the signer's key at the node's position.
    fn are_owned(&self)
        ensures { AreOwned (key_of (made_of self.now.signer)) self.now.known.kept }
    {
        self.known.are_owned();
    }

    /// Notes a state that the node signed and that follows in its channel. The signature isn't verified again.
    fn note(&mut self, channel: &Name, signed: Signed) -> Result<(), NoMemory>
        requires passes { refusal_of real channel.now signed self.old.known.kept ≡ None }
        ensures known { OnOk result (self.new.known ≡ noted real true channel.now signed self.old.known) }
        ensures signer { self.new.signer ≡ self.old.signer }
    {
        self.known.note(true, channel, signed)
    }
}

impl Knowing for Mind {
    ghost tables = { stages };

    ghost rules = { real };

    ghost mind = { λ m. m.known };

    ghost signer = { λ m. made_of m.signer };

    ghost times = { λ m. m.signer.used };

    fn count(&self) -> u32 {
        self.known.view().count
    }

    fn see(&mut self, entry: &Entry) -> Result<(), NoMemory> {
        if can_see(self.known.view(), entry) {
            self.known.see(entry)
        } else {
            Err(NoMemory)
        }
    }

    fn handle(&mut self, bytes: &[u8]) -> Result<Option<NodeRefusal>, NoMemory> {
        handle(&mut self.known, bytes)
    }

    #[tactic(auto, unfolding(channel_node::specs::Playing::signing_of))]
    fn command(&mut self, command: &Command) -> Result<Option<NodeRefusal>, NoMemory> {
        let used = self.signer.used();
        let refusal = command_refusal(&self.known, self.signer.limit(), used, command)?;
        if refusal.is_none() {
            self.known.commanded(command)?;
        }
        Ok(refusal)
    }

    fn wanted(&self, channel: &Name) -> Result<Option<State>, NoMemory> {
        signable(&self.known, channel)
    }

    fn channels(&self) -> Result<Vec<Name>, NoMemory> {
        self.known.channels()
    }

    fn messages(
        &self,
        channel: &Name,
        state: &State,
        signature: &[u8],
    ) -> Result<Vec<(Name, Listed<u8>)>, NoMemory> {
        self.known.messages(channel, state, signature)
    }

    fn challenge(&self, channel: &Name) -> Result<Option<OwnChallenge>, NoMemory> {
        match self.known.challenge(channel) {
            None => Ok(None),
            Some(own) => {
                let chain = own.chain.copy()?;
                let state = own.state.copy()?;
                Ok(Some(OwnChallenge {
                    chain,
                    state,
                    who: own.who,
                }))
            }
        }
    }

    fn calls(&self, has_exited: bool) -> Result<Vec<Call>, NoMemory> {
        let alloc = self.known.view().channels.allocator();
        let _parts = self.known.parts();
        let facts = self.known.facts();
        if self.known.left() {
            stage_tables::exit_calls_given(alloc, &facts, has_exited)
        } else {
            stage_tables::calls(alloc, &facts)
        }
    }

    fn is_over(&self) -> bool {
        self.known.left() && self.known.is_over()
    }

    #[tactic(auto, using(node_decisions::proofs::Paid::paid_so))]
    fn paying(&self, channel: &Name, asset: u32, amount: u64) -> Result<Option<State>, NoMemory> {
        paying(&self.known, channel, asset, amount)
    }

    fn used(&self) -> u32 {
        self.signer.used()
    }

    #[tactic(auto, unfolding(channel_node::specs::Playing::signing_of))]
    fn can_sign(&self) -> bool {
        self.signer.used() < self.signer.limit()
    }

    #[tactic(auto, unfolding(channel_node::specs::Playing::signing_of), using(crate::proofs::Own::passes))]
    fn sign(&mut self, channel: &Name, state: &State) -> Result<Listed<u8>, NoMemory> {
        let digest = state_digest(channel, state.bytes());
        let signature = self.signature(&state_message(&digest))?;
        let signed = Signed {
            state: state.copy()?,
            signature: signature.copy()?,
        };
        self.are_owned();
        self.note(channel, signed)?;
        Ok(signature)
    }

    #[tactic(auto, unfolding(channel_node::specs::Playing::signing_of))]
    fn sign_challenge(
        &mut self,
        channel: &Name,
        own: &OwnChallenge,
    ) -> Result<Listed<u8>, NoMemory> {
        let digest = state_digest(channel, own.state.bytes());
        self.signature(&challenge_message(&digest, own.who))
    }
}
