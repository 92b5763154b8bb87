//! What a node knows and signs, without its journal.

ghost use Rattle.std.specs.Prelude.{◌≡◌, ◌&&◌, ◌<◌, ◌≤◌, ℕ, suc, length, nat_lt, true, OnOk, IfOk, Some, None};
ghost use Rattle.channel_values.specs.Messages.{message_of_state, message_of_challenge};
ghost use Rattle.channel_values.specs.Rules.{Rules};
ghost use Rattle.call_history.specs.Reading.{message_of};
ghost use Rattle.call_history.specs.declared.event.Deed.TheVariants as deeds;
ghost use Rattle.channel_node.specs.Tables.{Tables};
ghost use Rattle.channel_node.specs.Leaving.{challenge_in, calls_of, is_over};
ghost use Rattle.channel_node.specs.Minds.{Mind, facts_of, saw, did, commanded_if, noted};
ghost use Rattle.channel_node.specs.Playing.{SignerOf, signing_of};
ghost use Rattle.channel_node.specs.Giving.{in_order, sends_of};
ghost use Rattle.channel_node.specs.Answers.{IsWanted};
ghost use Rattle.channel_node.specs.Refusing.{message_refusal, command_refusal, signs_in};
ghost use Rattle.network.specs.declared.command.Command.TheVariants.{Pay};

use call_history::{Call, Entry, NodeRefusal};
use channel_values::{Chain, Listed, Name, NoMemory, State};
use network::Command;
use std::marker::Model;

/// A chain to challenge with, its newest state, and the challenger's position.
#[derive(Drop)]
pub struct OwnChallenge {
    pub chain: Chain,
    pub state: State,
    pub who: u8,
}

impl Model for OwnChallenge {
    ghost use Rattle.channel_node.specs.Leaving as leaving;

    ghost Value = { leaving.OwnChallenge };

    ghost view = { λ c. record { chain = c.chain; state = c.state; who = c.who } };
}

/// Each method is a function of what is known, by the stages, the rules and the signer. What a method changes is lost
/// where memory fails it.
pub trait Knowing {
    ghost tables: { Tables };

    ghost rules: { Rules };

    ghost mind: { Self → Mind };

    // What its signer is made of, which no method changes.
    ghost signer: { Self → SignerOf };

    // How often its key has signed.
    ghost times: { Self → ℕ };

    /// How many entries it followed.
    fn count(&self) -> u32
        ensures { result ≡ (mind self.now).view.count };

    /// Follows the entry that comes next, and adopts a newer chain that it shows. With an entry that it can't follow,
    /// it ends as when memory runs out.
    fn see(&mut self, entry: &Entry) -> Result<(), NoMemory>
        ensures saw { OnOk result (mind self.new ≡ saw rules entry.now (mind self.old)) }
        ensures used { OnOk result (times self.new ≡ times self.old) }
        ensures signer { signer self.new ≡ signer self.old };

    /// Notes the state of a message, or says why not.
    fn handle(&mut self, bytes: &[u8]) -> Result<Option<NodeRefusal>, NoMemory>
        ensures refusal { IfOk result (λ refusal.
            refusal ≡ message_refusal tables rules (mind self.old) (message_of bytes.now)) }
        ensures noted { IfOk result (λ refusal.
            mind self.new ≡ did rules (deeds.Handled bytes.now refusal) None (mind self.old)) }
        ensures used { OnOk result (times self.new ≡ times self.old) }
        ensures signer { signer self.new ≡ signer self.old };

    /// Takes a command up, or says why not.
    fn command(&mut self, command: &Command) -> Result<Option<NodeRefusal>, NoMemory>
        ensures refusal { IfOk result (λ refusal.
            refusal ≡ command_refusal tables rules (signing_of (signer self.old)).limit (times self.old)
            (mind self.old) command.now) }
        ensures commanded { IfOk result (λ refusal.
            mind self.new ≡ commanded_if rules (Some command.now) refusal (mind self.old)) }
        ensures used { OnOk result (times self.new ≡ times self.old) }
        ensures signer { signer self.new ≡ signer self.old };

    /// The state that is wanted in a channel.
    fn wanted(&self, channel: &Name) -> Result<Option<State>, NoMemory>
        ensures { IfOk result (λ state. state ≡ signs_in tables rules None (mind self.now) channel.now) };

    /// The channels in the order of a tick, at most 192.
    fn channels(&self) -> Result<Vec<Name>, NoMemory>
        ensures order { IfOk result (λ channels. channels.items ≡ in_order (mind self.now).parts) }
        ensures few { IfOk result (λ channels. length channels.items ≤ 192) };

    /// The messages with a signed state for the channel's other people.
    fn messages(
        &self,
        channel: &Name,
        state: &State,
        signature: &[u8],
    ) -> Result<Vec<(Name, Listed<u8>)>, NoMemory>
        ensures { IfOk result (λ sends. sends.items ≡ sends_of (mind self.now) channel.now state.now signature.now) };

    /// What it challenges with in a channel: once it left, the chain that it holds of a channel that is open.
    fn challenge(&self, channel: &Name) -> Result<Option<OwnChallenge>, NoMemory>
        ensures { IfOk result (λ own. own ≡ challenge_in (mind self.now) channel.now) };

    /// The calls that the stages give, or those of its exit once it left, by whether they were given before; at most
    /// 16000.
    fn calls(&self, has_exited: bool) -> Result<Vec<Call>, NoMemory>
        ensures few { IfOk result (λ given. length given.items ≤ 16000) }
        ensures given { IfOk result (λ given. given.items ≡ calls_of tables has_exited (mind self.now)) };

    /// Whether it left, and all channels with a held chain are final.
    fn is_over(&self) -> bool
        ensures { result ≡ (mind self.now).left && is_over (facts_of (mind self.now)) };

    /// The state of a payment that isn't refused, in its channel.
    fn paying(&self, channel: &Name, asset: u32, amount: u64) -> Result<Option<State>, NoMemory>
        requires { command_refusal tables rules (signing_of (signer self.now)).limit (times self.now) (mind self.now)
            (Pay channel.now asset amount) ≡ None }
        ensures { IfOk result (λ state.
            state ≡ signs_in tables rules (Some (Pay channel.now asset amount)) (mind self.now) channel.now) };

    fn used(&self) -> u32
        ensures { result ≡ times self.now };

    /// Whether the key can sign once more.
    fn can_sign(&self) -> bool
        ensures { result ≡ nat_lt (times self.now) (signing_of (signer self.now)).limit };

    /// Signs a state that is wanted with the next index, and notes it.
    fn sign(&mut self, channel: &Name, state: &State) -> Result<Listed<u8>, NoMemory>
        requires room { times self.old < (signing_of (signer self.old)).limit }
        requires wanted { IsWanted tables rules (mind self.old) channel.now state.now }
        ensures signature { IfOk result (λ signature.
            signature ≡ (signing_of (signer self.old)).made (times self.old)
            (message_of_state (rules.digest channel.now state.now))) }
        ensures noted { IfOk result (λ signature.
            mind self.new ≡ noted rules true channel.now (record { state = state.now; signature = signature })
            (mind self.old)) }
        ensures used { OnOk result (times self.new ≡ suc (times self.old)) }
        ensures signer { signer self.new ≡ signer self.old };

    /// Signs a challenge that is wanted with the next index.
    fn sign_challenge(&mut self, channel: &Name, own: &OwnChallenge) -> Result<Listed<u8>, NoMemory>
        requires room { times self.old < (signing_of (signer self.old)).limit }
        requires wanted { challenge_in (mind self.old) channel.now ≡ Some own.now }
        ensures signature { IfOk result (λ signature.
            signature ≡ (signing_of (signer self.old)).made (times self.old)
            (message_of_challenge (rules.digest channel.now own.now.state) own.now.who)) }
        ensures known { OnOk result (mind self.new ≡ mind self.old) }
        ensures used { OnOk result (times self.new ≡ suc (times self.old)) }
        ensures signer { signer self.new ≡ signer self.old };
}
