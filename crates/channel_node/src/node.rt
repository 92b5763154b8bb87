//! A node over what it knows.

ghost use Rattle.std.specs.Prelude.{◌≡◌, ◌≤◌, ◌++◌, [], ◌∷◌, length, List, true, false, None, IfOk, IfSome, OnOk, OnErr};
ghost use Rattle.std.specs.List.{All};
ghost use Rattle.std.specs.Option.{option_or};
ghost use Rattle.channel_node.specs.Giving.{sent_if, spent_if, sent, spent, challenge_call, challenge_calls, spent_challenging, command_sends, signed_here, last_signed, resent, after_challenging, tick_gives, after_tick};
ghost use Rattle.channel_node.specs.Leaving.{challenge_in, MayCall};
ghost use Rattle.call_history.specs.History.{Legal};
ghost use Rattle.call_history.specs.Calls.{make_challenge};
ghost use Rattle.call_history.specs.declared.entry.Entry.{Entry as AnEntry};
ghost use Rattle.call_history.specs.Reading.{message_of};
ghost use Rattle.channel_node.specs.Minds.{fresh};
ghost use Rattle.channel_node.specs.Playing.{signing_of};
ghost use Rattle.channel_node.specs.Refusing.{message_refusal, command_refusal, signs_in};
ghost use Rattle.network.specs.declared.command.Command.TheVariants.{Pay, Resend};
ghost use Rattle.channel_node.specs.Nodes.{NodeOf, new_node, handled, asked, paid_if, signed_if, ticked, challenged_if, challenged_all, gave_one, gave, told_to, saw_one, watched, wrote_at};
ghost use Rattle.channel_node.specs.Standing.{Stands, ComesNext, Looks};
ghost use Rattle.channel_node.specs.Answers.{IsWanted, CommandAnswers, HandleAnswers, IsPartly, SameJournal, StandsPartly, StaysFor, StaysForAll};

use crate::mind::{Knowing, OwnChallenge};
use call_history::{Call, ChallengeCall, Deed, Entry, Event, NodeRefusal};
use channel_values::{Chain, Listed, Name, NoMemory, State};
use network::{Command, NodeFault, Outs};
use std::alloc::Global;
use std::marker::Model;

/// Messages that go out, and how often the key had signed where it was to sign once more and couldn't.
#[derive(Drop)]
struct Sent {
    sends: Vec<(Name, Listed<u8>)>,
    spent: Option<u32>,
}

/// Challenges that go out, and the same.
#[derive(Drop)]
struct Challenged {
    calls: Vec<Call>,
    spent: Option<u32>,
}

/// Why a command is refused, if it is, and the messages that it sends.
#[derive(Drop)]
struct Answered {
    refusal: Option<NodeRefusal>,
    sends: Vec<(Name, Listed<u8>)>,
}

fn add_sent(all: &mut Sent, more: Sent) -> Result<(), NoMemory>
    ensures sends { OnOk result (all.new.sends.items ≡ all.old.sends.items ++ more.sends.items) }
    ensures spent { OnOk result (all.new.spent ≡ option_or all.old.spent more.spent) }
{
    let Sent { mut sends, spent } = more;
    all.sends.append(&mut sends)?;
    all.spent = all.spent.or(spent);
    Ok(())
}

fn add_challenged(all: &mut Challenged, more: Challenged) -> Result<(), NoMemory>
    ensures calls { OnOk result (all.new.calls.items ≡ all.old.calls.items ++ more.calls.items) }
    ensures spent { OnOk result (all.new.spent ≡ option_or all.old.spent more.spent) }
{
    let Challenged { mut calls, spent } = more;
    all.calls.append(&mut calls)?;
    all.spent = all.spent.or(spent);
    Ok(())
}

/// A state that the node signed, with its signature. Contracts see the values.
#[derive(Drop)]
struct OwnState<'a> {
    state: &'a State,
    signature: &'a Listed<u8>,
}

impl<'a> Model for OwnState<'a> {
    ghost use Rattle.channel_values.specs.declared.chain.Signed.{Signed};

    ghost Value = { Signed };

    ghost view = { λ s. record { state = s.state.now; signature = s.signature.now } };
}

/// What an event signed in a channel.
fn signed_here<'a>(channel: &Name, event: &'a Event) -> Option<OwnState<'a>>
    ensures { result ≡ signed_here channel.now event.now.deed }
{
    match &event.deed {
        Deed::Signed(own, state, signature) if own == channel => Some(OwnState {
            state,
            signature,
        }),
        _ => None,
    }
}

/// The last state that a journal signed in a channel.
fn last_signed<'a>(channel: &Name, events: &'a [Event]) -> Option<OwnState<'a>>
    ensures { result ≡ last_signed channel.now events.now }
{
    let mut last = None;
    for event in events {
        last = signed_here(channel, event).or(last);
    }
    last
}

/// A node. Once it answered that memory ran out, it answers nothing else.
#[derive(Drop)]
pub struct Node<M: Knowing + Drop> {
    mind: M,
    journal: Vec<Event>,
    commands: Vec<Command>,
    has_exited: bool,
    is_lost: bool,
}

impl<M: Knowing + Drop> Model for Node<M> {
    ghost use Rattle.channel_node.specs.Nodes.{NodeOf};

    ghost Value = { NodeOf };

    ghost view = { λ n. record { mind = M.mind n.mind; signer = M.signer n.mind; used = M.times n.mind; journal = n.journal.items; commands = n.commands.items; has_exited = n.has_exited; is_lost = n.is_lost } };
}

impl<M: Knowing + Drop> Node<M> {
    /// A node that followed nothing: it stands for the beginning of every history.
    pub fn make(alloc: Global, mind: M) -> Node<M>
        requires knows { M.mind mind ≡ fresh (signing_of (M.signer mind)).key }
        requires unused { M.times mind ≡ 0 }
        ensures fresh { result ≡ new_node (M.signer mind) }
        ensures stands { (h : List AnEntry) → Stands M.tables M.rules (signing_of (M.signer mind)) h result }
    {
        Node {
            mind,
            journal: Vec::new(alloc),
            commands: Vec::new(alloc),
            has_exited: false,
            is_lost: false,
        }
    }

    fn write(&mut self, deed: Deed) -> Result<(), NoMemory>
        ensures ok { OnOk result (self.new ≡ wrote_at self.old.mind.view.count deed self.old.mind self.old) }
        ensures err { OnErr result (self.new ≡ self.old) }
        ensures signer { self.new.signer ≡ self.old.signer }
    {
        let seen = self.mind.count();
        self.journal.push(Event { seen, deed })?;
        Ok(())
    }

    fn handle_now(&mut self, bytes: Listed<u8>) -> Result<Option<NodeRefusal>, NoMemory>
        ensures ok { IfOk result (λ refusal.
            (refusal ≡ message_refusal M.tables M.rules self.old.mind (message_of bytes))
            × (self.new ≡ handled M.tables M.rules bytes self.old)) }
        ensures err { OnErr result (SameJournal self.old self.new) }
        ensures signer { self.new.signer ≡ self.old.signer }
    {
        let refusal = self.mind.handle(bytes.as_slice())?;
        self.write(Deed::Handled(bytes, refusal))?;
        Ok(refusal)
    }

    /// Notes the state of a message, or says why not.
    pub fn handle(&mut self, bytes: Listed<u8>) -> Result<(), NodeFault>
        ensures answer { HandleAnswers M.tables M.rules bytes self.old self.new result }

        // Its journal stays one that the rules give, over every history that it stood for.
        ensures keeps { StaysForAll M.tables M.rules self.old self.new }
        ensures signer { self.new.signer ≡ self.old.signer }
        ensures still { self.old.is_lost ≡ true → self.new ≡ self.old }
    {
        if self.is_lost {
            return Err(NodeFault::NoMemory);
        }
        match self.handle_now(bytes) {
            Err(NoMemory) => {
                self.is_lost = true;
                Err(NodeFault::NoMemory)
            }
            Ok(None) => Ok(()),
            Ok(Some(refusal)) => Err(NodeFault::Refused(refusal)),
        }
    }

    /// Adds a command's event to the journal, and the command to the commands.
    fn take_up(&mut self, step: u32, command: Command) -> Result<Option<NodeRefusal>, NoMemory>
        ensures refusal { IfOk result (λ refusal.
            refusal ≡ command_refusal M.tables M.rules
            (signing_of self.old.signer).limit self.old.used self.old.mind command) }
        ensures ok { IfOk result (λ refusal.
            self.new ≡ asked M.rules (signing_of self.old.signer) step command refusal self.old) }
        ensures err { OnErr result (SameJournal self.old self.new) }
        ensures signer { self.new.signer ≡ self.old.signer }
    {
        let refusal = self.mind.command(&command)?;
        let seen = self.mind.count();
        // The journal and the commands grow together or not at all.
        self.commands.reserve(1)?;
        self.journal.push(Event {
            seen,
            deed: Deed::Commanded(step, refusal),
        })?;
        self.commands.push_reserved(command);
        Ok(refusal)
    }

    /// Signs the state of a payment that isn't refused.
    #[tactic(auto, using(crate::proofs::Wanting::wanted_so))]
    fn pay(&mut self, channel: &Name, asset: u32, amount: u64) -> Result<Sent, NoMemory>
        requires { command_refusal M.tables M.rules (signing_of self.old.signer).limit self.old.used self.old.mind
            (Pay channel.now asset amount) ≡ None }
        ensures sends { IfOk result (λ sent.
            sent.sends.items ≡ command_sends M.tables M.rules (signing_of self.old.signer)
            (Pay channel.now asset amount) self.old) }
        ensures ok { OnOk result (self.new
            ≡ paid_if M.tables M.rules (signing_of self.old.signer) None (Pay channel.now asset amount) self.old) }
        ensures err { OnErr result (SameJournal self.old self.new) }
        ensures signer { self.new.signer ≡ self.old.signer }
    {
        let state = self.mind.paying(channel, asset, amount)?;
        self.sign_state(channel, state)
    }

    fn pay_now(
        &mut self,
        step: u32,
        channel: Name,
        asset: u32,
        amount: u64,
    ) -> Result<Answered, NoMemory>
        ensures refusal { IfOk result (λ told.
            told.refusal ≡ command_refusal M.tables M.rules
            (signing_of self.old.signer).limit self.old.used self.old.mind (Pay channel asset amount)) }
        ensures sends { IfOk result (λ told.
            told.refusal ≡ None → told.sends.items
            ≡ command_sends M.tables M.rules (signing_of self.old.signer) (Pay channel asset amount)
            (asked M.rules (signing_of self.old.signer) step (Pay channel asset amount) None self.old)) }
        ensures ok { IfOk result (λ told.
            self.new ≡ paid_if M.tables M.rules (signing_of self.old.signer) told.refusal (Pay channel asset amount)
            (asked M.rules (signing_of self.old.signer) step (Pay channel asset amount) told.refusal self.old)) }
        ensures err { OnErr result (IsPartly M.tables M.rules (signing_of self.old.signer) step
            (Pay channel asset amount) self.old self.new) }
        ensures signer { self.new.signer ≡ self.old.signer }
    {
        let refusal = self.take_up(
            step,
            Command::Pay {
                channel,
                asset,
                amount,
            },
        )?;
        match refusal {
            Some(_) => Ok(self.quiet(refusal)),
            None => {
                let sent = self.pay(&channel, asset, amount)?;
                Ok(Answered {
                    refusal: None,
                    sends: sent.sends,
                })
            }
        }
    }

    /// A command that sends nothing.
    fn quiet(&self, refusal: Option<NodeRefusal>) -> Answered
        ensures refusal { result.refusal ≡ refusal }
        ensures sends { result.sends.items ≡ [] }
    {
        Answered {
            refusal,
            sends: Vec::new(*self.journal.allocator()),
        }
    }

    /// The messages of the last state that the node signed in a channel.
    fn resent(&self, channel: &Name) -> Result<Vec<(Name, Listed<u8>)>, NoMemory>
        ensures { IfOk result (λ sends. sends.items ≡ resent channel.now self.now) }
    {
        match last_signed(channel, self.journal.as_slice()) {
            None => Ok(Vec::new(*self.journal.allocator())),
            Some(signed) => {
                self.mind
                    .messages(channel, signed.state, signed.signature.as_slice())
            }
        }
    }

    fn resend_now(&mut self, step: u32, channel: Name) -> Result<Answered, NoMemory>
        ensures refusal { IfOk result (λ told.
            told.refusal ≡ command_refusal M.tables M.rules
            (signing_of self.old.signer).limit self.old.used self.old.mind (Resend channel)) }
        ensures sends { IfOk result (λ told.
            told.refusal ≡ None → told.sends.items
            ≡ command_sends M.tables M.rules (signing_of self.old.signer) (Resend channel)
            (asked M.rules (signing_of self.old.signer) step (Resend channel) None self.old)) }
        ensures ok { IfOk result (λ told.
            self.new ≡ asked M.rules (signing_of self.old.signer) step (Resend channel) told.refusal self.old) }
        ensures err { OnErr result (IsPartly M.tables M.rules (signing_of self.old.signer) step
            (Resend channel) self.old self.new) }
        ensures signer { self.new.signer ≡ self.old.signer }
    {
        let refusal = self.take_up(step, Command::Resend { channel })?;
        if refusal.is_some() {
            return Ok(self.quiet(refusal));
        }
        let sends = self.resent(&channel)?;
        Ok(Answered {
            refusal: None,
            sends,
        })
    }

    fn take_up_quietly(&mut self, step: u32, command: Command) -> Result<Answered, NoMemory>
        ensures refusal { IfOk result (λ told.
            told.refusal ≡ command_refusal M.tables M.rules
            (signing_of self.old.signer).limit self.old.used self.old.mind command) }
        ensures sends { IfOk result (λ told. told.sends.items ≡ []) }
        ensures ok { IfOk result (λ told.
            self.new ≡ asked M.rules (signing_of self.old.signer) step command told.refusal self.old) }
        ensures err { OnErr result (SameJournal self.old self.new) }
        ensures signer { self.new.signer ≡ self.old.signer }
    {
        let refusal = self.take_up(step, command)?;
        Ok(self.quiet(refusal))
    }

    fn command_now(&mut self, step: u32, command: Command) -> Result<Answered, NoMemory>
        ensures refusal { IfOk result (λ told.
            told.refusal ≡ command_refusal M.tables M.rules
            (signing_of self.old.signer).limit self.old.used self.old.mind command) }
        ensures sends { IfOk result (λ told.
            told.refusal ≡ None → told.sends.items
            ≡ command_sends M.tables M.rules (signing_of self.old.signer) command
            (asked M.rules (signing_of self.old.signer) step command None self.old)) }
        ensures ok { IfOk result (λ told.
            self.new ≡ told_to M.tables M.rules (signing_of self.old.signer) step command self.old) }
        ensures err { OnErr result (IsPartly M.tables M.rules
            (signing_of self.old.signer) step command self.old self.new) }
        ensures signer { self.new.signer ≡ self.old.signer }
    {
        match command {
            Command::Pay {
                channel,
                asset,
                amount,
            } => self.pay_now(step, channel, asset, amount),
            Command::Open { fixed, outcome } => {
                self.take_up_quietly(step, Command::Open { fixed, outcome })
            }
            Command::OpenOn(funding) => self.take_up_quietly(step, Command::OpenOn(funding)),
            Command::OpenVirtual(funding) => {
                self.take_up_quietly(step, Command::OpenVirtual(funding))
            }
            Command::Close { channel } => self.take_up_quietly(step, Command::Close { channel }),
            Command::Release { how, channel } => {
                self.take_up_quietly(step, Command::Release { how, channel })
            }
            Command::Resend { channel } => self.resend_now(step, channel),
            Command::Exit => self.take_up_quietly(step, Command::Exit),
        }
    }

    /// Takes a command up, or says why not. It signs a payment.
    pub fn command(&mut self, step: u32, command: Command) -> Result<Outs, NodeFault>
        ensures answer { CommandAnswers M.tables M.rules
            (signing_of self.old.signer) step command self.old self.new result }
        ensures keeps { StaysForAll M.tables M.rules self.old self.new }
        ensures signer { self.new.signer ≡ self.old.signer }
        ensures still { self.old.is_lost ≡ true → self.new ≡ self.old }
    {
        if self.is_lost {
            return Err(NodeFault::NoMemory);
        }
        match self.command_now(step, command) {
            Err(NoMemory) => {
                self.is_lost = true;
                Err(NodeFault::NoMemory)
            }
            Ok(told) => match told.refusal {
                Some(refusal) => Err(NodeFault::Refused(refusal)),
                None => Ok(Outs {
                    sends: Listed::make(told.sends),
                    calls: Listed::make(Vec::new(*self.journal.allocator())),
                    spent: None,
                }),
            },
        }
    }

    /// How often its key has signed.
    pub fn used(&self) -> u32
        ensures { result ≡ self.now.used }
    {
        self.mind.used()
    }

    fn see_now(&mut self, entry: &Entry) -> Result<(), NoMemory>
        ensures ok { OnOk result (self.new ≡ saw_one M.rules self.old entry.now) }
        ensures err { OnErr result (SameJournal self.old self.new) }
        ensures signer { self.new.signer ≡ self.old.signer }
    {
        self.mind.see(entry)
    }

    /// Follows the entry that comes next. It doesn't follow one that can't come next, and is lost then too.
    pub fn see(&mut self, entry: &Entry) -> Result<(), NoMemory>
        ensures ok { OnOk result ((self.old.is_lost ≡ false) × (self.new ≡ saw_one M.rules self.old entry.now)) }
        ensures err { OnErr result ((self.new.is_lost ≡ true) × SameJournal self.old self.new) }
        ensures keeps { (h : List AnEntry) → Legal M.rules h → ComesNext h entry.now self.old
            → StaysFor M.tables M.rules h self.old self.new }
        ensures signer { self.new.signer ≡ self.old.signer }
        ensures still { self.old.is_lost ≡ true → self.new ≡ self.old }
    {
        if self.is_lost {
            return Err(NoMemory);
        }
        match self.see_now(entry) {
            Err(NoMemory) => {
                self.is_lost = true;
                Err(NoMemory)
            }
            Ok(()) => Ok(()),
        }
    }

    /// Signs a state, if it is given one and the key isn't spent.
    fn sign_state(&mut self, channel: &Name, state: Option<State>) -> Result<Sent, NoMemory>
        requires { IfSome state (λ s. IsWanted M.tables M.rules self.old.mind channel.now s) }
        ensures sends { IfOk result (λ sent.
            sent.sends.items ≡ sent_if M.rules (signing_of self.old.signer) channel.now state self.old) }
        ensures spent { IfOk result (λ sent. sent.spent ≡ spent_if (signing_of self.old.signer) state self.old) }
        ensures ok { OnOk result (self.new
            ≡ signed_if M.rules (signing_of self.old.signer) channel.now state self.old) }
        ensures err { OnErr result (SameJournal self.old self.new) }
        ensures signer { self.new.signer ≡ self.old.signer }
    {
        let Some(state) = state else {
            return Ok(self.nothing(None));
        };
        if !self.mind.can_sign() {
            return Ok(self.nothing(Some(self.mind.used())));
        }
        let signature = self.mind.sign(channel, &state)?;
        let sends = self.mind.messages(channel, &state, signature.as_slice())?;
        self.write(Deed::Signed(*channel, state, signature))?;
        Ok(Sent { sends, spent: None })
    }

    fn nothing(&self, spent: Option<u32>) -> Sent
        ensures sends { result.sends.items ≡ [] }
        ensures spent { result.spent ≡ spent }
    {
        Sent {
            sends: Vec::new(*self.journal.allocator()),
            spent,
        }
    }

    #[tactic(auto, using(crate::proofs::Wanting::wanted_so))]
    fn sign_one(&mut self, channel: &Name) -> Result<Sent, NoMemory>
        ensures sends { IfOk result (λ sent.
            sent.sends.items ≡ sent_if M.rules (signing_of self.old.signer) channel.now
            (signs_in M.tables M.rules None self.old.mind channel.now) self.old) }
        ensures spent { IfOk result (λ sent.
            sent.spent ≡ spent_if (signing_of self.old.signer)
            (signs_in M.tables M.rules None self.old.mind channel.now) self.old) }
        ensures ok { OnOk result (self.new
            ≡ signed_if M.rules (signing_of self.old.signer) channel.now
            (signs_in M.tables M.rules None self.old.mind channel.now) self.old) }
        ensures err { OnErr result (SameJournal self.old self.new) }
        ensures signer { self.new.signer ≡ self.old.signer }
    {
        let state = self.mind.wanted(channel)?;
        self.sign_state(channel, state)
    }

    fn sign_all(&mut self, all: &mut Sent, channels: &[Name]) -> Result<(), NoMemory>
        requires { self.old.is_lost ≡ false }
        ensures kept { OnOk result (self.new.is_lost ≡ false) }
        ensures sends { OnOk result (all.new.sends.items ≡ all.old.sends.items
            ++ sent M.tables M.rules (signing_of self.old.signer) channels.now self.old) }
        ensures spent { OnOk result (all.new.spent
            ≡ option_or all.old.spent (spent M.tables M.rules (signing_of self.old.signer) channels.now self.old)) }
        ensures stands { OnOk result (StaysForAll M.tables M.rules self.old self.new) }
        ensures ok { OnOk result (self.new
            ≡ ticked M.tables M.rules (signing_of self.old.signer) channels.now self.old) }
        ensures err { OnErr result (StandsPartly M.tables M.rules (signing_of self.old.signer) self.old self.new) }
        ensures signer { self.new.signer ≡ self.old.signer }
    {
        for channel in channels {
            let more = self.sign_one(channel)?;
            add_sent(all, more)?;
        }
        Ok(())
    }

    fn no_challenges(&self, spent: Option<u32>) -> Challenged
        ensures calls { result.calls.items ≡ [] }
        ensures spent { result.spent ≡ spent }
    {
        Challenged {
            calls: Vec::new(*self.journal.allocator()),
            spent,
        }
    }

    /// The one call of a challenge with this signature.
    fn calls_of(&self, chain: Chain, who: u8, signature: &Listed<u8>) -> Result<Vec<Call>, NoMemory>
        ensures { IfOk result (λ given. given.items ≡ make_challenge chain who signature.now ∷ []) }
    {
        let Ok(signature) = signature.copy() else {
            drop(chain);
            return Err(NoMemory);
        };
        let call = Call::Challenge(ChallengeCall {
            chain,
            challenger: who,
            signature,
        });
        let calls = vec![in *self.journal.allocator(); call]?;
        Ok(calls)
    }

    /// Signs a challenge, if it is given one and the key isn't spent.
    fn sign_challenge(
        &mut self,
        channel: &Name,
        own: Option<OwnChallenge>,
    ) -> Result<Challenged, NoMemory>
        requires { IfSome own (λ c. challenge_in self.old.mind channel.now ≡ Some c) }
        ensures calls { IfOk result (λ given.
            given.calls.items ≡ challenge_call M.rules (signing_of self.old.signer) channel.now own self.old) }
        ensures spent { IfOk result (λ given. given.spent ≡ spent_if (signing_of self.old.signer) own self.old) }
        ensures ok { OnOk result (self.new
            ≡ challenged_if M.rules (signing_of self.old.signer) channel.now own self.old) }
        ensures err { OnErr result (SameJournal self.old self.new) }
        ensures signer { self.new.signer ≡ self.old.signer }
    {
        let Some(own) = own else {
            return Ok(self.no_challenges(None));
        };
        if !self.mind.can_sign() {
            return Ok(self.no_challenges(Some(self.mind.used())));
        }
        let Ok(signature) = self.mind.sign_challenge(channel, &own) else {
            drop(own);
            return Err(NoMemory);
        };
        let OwnChallenge { chain, state, who } = own;
        let Ok(calls) = self.calls_of(chain, who, &signature) else {
            drop(state);
            return Err(NoMemory);
        };
        self.write(Deed::SignedChallenge(*channel, state, who, signature))?;
        Ok(Challenged { calls, spent: None })
    }

    #[tactic(auto, using(crate::proofs::Wanting::own_so))]
    fn challenge_one(&mut self, channel: &Name) -> Result<Challenged, NoMemory>
        ensures calls { IfOk result (λ given.
            given.calls.items ≡ challenge_call M.rules (signing_of self.old.signer) channel.now
            (challenge_in self.old.mind channel.now) self.old) }
        ensures spent { IfOk result (λ given.
            given.spent ≡ spent_if (signing_of self.old.signer) (challenge_in self.old.mind channel.now) self.old) }
        ensures ok { OnOk result (self.new
            ≡ challenged_if M.rules (signing_of self.old.signer) channel.now
            (challenge_in self.old.mind channel.now) self.old) }
        ensures err { OnErr result (SameJournal self.old self.new) }
        ensures signer { self.new.signer ≡ self.old.signer }
    {
        let own = self.mind.challenge(channel)?;
        self.sign_challenge(channel, own)
    }

    fn challenge_all(&mut self, all: &mut Challenged, channels: &[Name]) -> Result<(), NoMemory>
        requires { self.old.is_lost ≡ false }
        ensures kept { OnOk result (self.new.is_lost ≡ false) }
        ensures calls { OnOk result (all.new.calls.items ≡ all.old.calls.items
            ++ challenge_calls M.rules (signing_of self.old.signer) channels.now self.old) }
        ensures spent { OnOk result (all.new.spent
            ≡ option_or all.old.spent (spent_challenging M.rules (signing_of self.old.signer) channels.now self.old)) }
        ensures stands { OnOk result (StaysForAll M.tables M.rules self.old self.new) }
        ensures ok { OnOk result (self.new
            ≡ challenged_all M.rules (signing_of self.old.signer) channels.now self.old) }
        ensures err { OnErr result (StandsPartly M.tables M.rules (signing_of self.old.signer) self.old self.new) }
        ensures signer { self.new.signer ≡ self.old.signer }
    {
        for channel in channels {
            let more = self.challenge_one(channel)?;
            add_challenged(all, more)?;
        }
        Ok(())
    }

    /// Adds a call to the journal.
    fn give(&mut self, call: &Call) -> Result<(), NoMemory>
        ensures ok { OnOk result (self.new ≡ gave_one self.old call.now) }
        ensures err { OnErr result (SameJournal self.old self.new) }
        ensures signer { self.new.signer ≡ self.old.signer }
    {
        let copy = call.copy()?;
        self.write(Deed::Called(copy))
    }

    fn give_all(&mut self, given: &[Call]) -> Result<(), NoMemory>
        requires kept { self.old.is_lost ≡ false }
        requires may { All (MayCall M.tables self.old.mind) given.now }
        ensures ok { OnOk result (self.new ≡ gave given.now self.old) }
        ensures err { OnErr result (StandsPartly M.tables M.rules (signing_of self.old.signer) self.old self.new) }
        ensures signer { self.new.signer ≡ self.old.signer }
    {
        for call in given {
            self.give(call)?;
        }
        Ok(())
    }

    /// Signs its states and then its challenges, and says all that it gives.
    fn signed_outs(&mut self) -> Result<Outs, NoMemory>
        requires { self.old.is_lost ≡ false }
        ensures gives { IfOk result (λ outs. outs ≡ tick_gives M.tables M.rules (signing_of self.old.signer) self.old) }
        ensures few { IfOk result (λ outs. length outs.calls ≤ 16384) }
        ensures kept { OnOk result (self.new.is_lost ≡ false) }
        ensures stands { OnOk result (StaysForAll M.tables M.rules self.old self.new) }
        ensures ok { OnOk result (self.new ≡ after_challenging M.tables M.rules (signing_of self.old.signer) self.old) }
        ensures err { OnErr result (StandsPartly M.tables M.rules (signing_of self.old.signer) self.old self.new) }
        ensures signer { self.new.signer ≡ self.old.signer }
    {
        let channels = self.mind.channels()?;
        let mut all = self.nothing(None);
        self.sign_all(&mut all, channels.as_slice())?;
        let mut given = self.no_challenges(all.spent);
        self.challenge_all(&mut given, channels.as_slice())?;
        let Challenged { mut calls, spent } = given;
        let mut more = self.mind.calls(self.has_exited)?;
        calls.append(&mut more)?;
        Ok(Outs {
            sends: Listed::make(all.sends),
            calls: Listed::make(calls),
            spent,
        })
    }

    #[tactic(auto, using(crate::proofs::Given::tick_calls_may))]
    fn tick_now(&mut self) -> Result<Outs, NoMemory>
        requires { self.old.is_lost ≡ false }
        ensures gives { IfOk result (λ outs. outs ≡ tick_gives M.tables M.rules (signing_of self.old.signer) self.old) }
        ensures few { IfOk result (λ outs. length outs.calls ≤ 16384) }
        ensures ok { OnOk result (self.new ≡ after_tick M.tables M.rules (signing_of self.old.signer) self.old) }
        ensures err { OnErr result (StandsPartly M.tables M.rules (signing_of self.old.signer) self.old self.new) }
        ensures signer { self.new.signer ≡ self.old.signer }
    {
        let outs = self.signed_outs()?;
        self.give_all(outs.calls.as_slice())?;
        self.has_exited = self.has_exited || self.mind.is_over();
        Ok(outs)
    }

    /// Signs at most one state in each channel, in order, which it wants there; once it left, at most one challenge.
    /// It gives these and the calls of its stages or of its exit, at most 16384.
    pub fn tick(&mut self) -> Result<Outs, NoMemory>
        ensures gives { IfOk result (λ outs. outs ≡ tick_gives M.tables M.rules (signing_of self.old.signer) self.old) }
        ensures few { IfOk result (λ outs. length outs.calls ≤ 16384) }
        ensures ok { OnOk result ((self.old.is_lost ≡ false)
            × (self.new ≡ after_tick M.tables M.rules (signing_of self.old.signer) self.old)) }
        ensures err { OnErr result (self.new.is_lost ≡ true) }
        ensures keeps { StaysForAll M.tables M.rules self.old self.new }
        ensures signer { self.new.signer ≡ self.old.signer }
        ensures still { self.old.is_lost ≡ true → self.new ≡ self.old }
    {
        if self.is_lost {
            return Err(NoMemory);
        }
        match self.tick_now() {
            Err(NoMemory) => {
                self.is_lost = true;
                Err(NoMemory)
            }
            Ok(outs) => Ok(outs),
        }
    }

    fn watch_now(&mut self, seen: u32, place: u32, calls: Listed<Call>) -> Result<(), NoMemory>
        ensures ok { OnOk result (self.new ≡ watched seen place calls self.old) }
        ensures err { OnErr result (self.new ≡ self.old) }
        ensures signer { self.new.signer ≡ self.old.signer }
    {
        self.journal.push(Event {
            seen,
            deed: Deed::Watched(place, calls),
        })?;
        Ok(())
    }

    /// Adds a look of its watcher, which had followed `seen` entries, to the journal.
    pub fn watch(&mut self, seen: u32, place: u32, calls: Listed<Call>) -> Result<(), NoMemory>
        ensures ok { OnOk result ((self.old.is_lost ≡ false) × (self.new ≡ watched seen place calls self.old)) }
        ensures err { OnErr result ((self.new.is_lost ≡ true) × SameJournal self.old self.new) }

        // Where these are the calls of a look by the chains that it holds.
        ensures keeps { (h : List AnEntry) → Legal M.rules h → Looks M.rules h seen calls self.old
            → StaysFor M.tables M.rules h self.old self.new }
        ensures signer { self.new.signer ≡ self.old.signer }
        ensures still { self.old.is_lost ≡ true → self.new ≡ self.old }
    {
        if self.is_lost {
            return Err(NoMemory);
        }
        match self.watch_now(seen, place, calls) {
            Err(NoMemory) => {
                self.is_lost = true;
                Err(NoMemory)
            }
            Ok(()) => Ok(()),
        }
    }

    /// Memory failed it: it answers nothing else from now on.
    pub fn lose(&mut self)
        ensures { self.new ≡ record self.old { is_lost = true } }
    {
        self.is_lost = true;
    }

    /// What it knows, with its signer.
    pub fn mind(&self) -> &M
        ensures mind { M.mind result.now ≡ self.now.mind }
        ensures signer { M.signer result.now ≡ self.now.signer }
    {
        &self.mind
    }

    /// Whether memory failed it.
    pub fn is_lost(&self) -> bool
        ensures { result ≡ self.now.is_lost }
    {
        self.is_lost
    }

    /// Its events, in the order of time.
    pub fn journal(&self) -> &[Event]
        ensures { result.now ≡ self.now.journal }
    {
        self.journal.as_slice()
    }

    /// The commands that it was given, one for each of their events, in order.
    pub fn commands(&self) -> &[Command]
        ensures { result.now ≡ self.now.commands }
    {
        self.commands.as_slice()
    }
}
