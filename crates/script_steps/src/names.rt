//! The names that steps declare and use.

ghost use Rattle.std.specs.Prelude.{◌≡◌, option_map};
ghost use Rattle.script_steps.specs.Conditions.{declares, sign_uses, open_uses, open_on_uses, open_virtual_uses, uses, uses_of_nodes, is_free, are_known, is_single, is_named};

use crate::context::{Context, Kind, repeats};
use crate::step::Step;
use channel_values::Label;

/// The name that the step declares.
fn declares(step: &Step) -> Option<&Label>
    ensures { option_map (λ l. l.now) result ≡ declares step.now }
{
    match step {
        Step::Person(keys) => Some(&keys.name),
        Step::Channel(keys) => Some(&keys.name),
        Step::Sign(keys) => Some(&keys.name),
        Step::Catch(keys) => Some(&keys.name),
        _ => None,
    }
}

impl Context {
    fn is_free(&self, step: &Step) -> bool
        ensures { result ≡ is_free self.now (declares step.now) }
    {
        match declares(step) {
            Some(name) => self.is_new(name.as_str()),
            None => true,
        }
    }

    pub fn knows_sign(&self, channel: &Label, by: &Label) -> bool
        ensures { result ≡ are_known self.now (sign_uses channel.now by.now) }
    {
        self.knows(Kind::Channel, channel) && self.knows(Kind::Hand, by)
    }

    pub fn knows_open(&self, who: &[Label], channel: &Label) -> bool
        ensures { result ≡ are_known self.now (open_uses who.now channel.now) }
    {
        self.knows_all(Kind::Node, who) && self.knows(Kind::Channel, channel)
    }

    pub fn knows_open_on(&self, who: &[Label], ledger: &Label, channel: &Label) -> bool
        ensures { result ≡ are_known self.now (open_on_uses who.now ledger.now channel.now) }
    {
        self.knows_all(Kind::Node, who)
            && self.knows(Kind::Channel, ledger)
            && self.knows(Kind::Channel, channel)
    }

    pub fn knows_open_virtual(
        &self,
        who: &[Label],
        ledgers: &[Label],
        guarantors: &[Label],
        joint: &Label,
        channel: &Label,
    ) -> bool
        ensures { result ≡ are_known self.now
            (open_virtual_uses who.now ledgers.now guarantors.now joint.now channel.now) }
    {
        self.knows_all(Kind::Node, who)
            && self.knows_all(Kind::Channel, ledgers)
            && self.knows_all(Kind::Channel, guarantors)
            && self.knows(Kind::Channel, joint)
            && self.knows(Kind::Channel, channel)
    }

    /// Whether the names that a step for nodes uses are declared as what their keys need.
    fn knows_names_of_nodes(&self, step: &Step) -> bool
        ensures { result ≡ are_known self.now (uses_of_nodes step.now) }
    {
        match step {
            Step::Catch(keys) => {
                self.knows(Kind::Node, &keys.from) && self.knows(Kind::Channel, &keys.channel)
            }
            Step::Send { to, state } => {
                self.knows(Kind::Node, to) && self.knows(Kind::State, state)
            }
            Step::Drop { to } => self.knows(Kind::Node, to),
            Step::Open(keys) => self.knows_open(keys.who.as_slice(), &keys.channel),
            Step::Close { who, channel }
            | Step::Release { who, channel, .. }
            | Step::Resend { who, channel } => self.knows_open(who.as_slice(), channel),
            Step::OpenOn(keys) => {
                self.knows_open_on(keys.who.as_slice(), &keys.ledger, &keys.channel)
            }
            Step::OpenVirtual(keys) => self.knows_open_virtual(
                keys.who.as_slice(),
                keys.ledgers.as_slice(),
                keys.guarantors.as_slice(),
                &keys.joint,
                &keys.channel,
            ),
            Step::Pay(keys) => {
                self.knows(Kind::Node, &keys.who) && self.knows(Kind::Channel, &keys.channel)
            }
            Step::Exit { who } => self.knows_all(Kind::Node, who.as_slice()),
            _ => true,
        }
    }

    /// Whether the names that a step uses are declared as what their keys need.
    fn knows_names(&self, step: &Step) -> bool
        ensures { result ≡ are_known self.now (uses step.now) }
    {
        match step {
            Step::Deposit(keys) => self.knows(Kind::Place, &keys.channel),
            Step::Channel(keys) => self.knows_all(Kind::Person, keys.people.as_slice()),
            Step::Sign(keys) => self.knows_sign(&keys.channel, &keys.by),
            Step::Challenge(keys) => {
                self.knows(Kind::Channel, &keys.channel)
                    && self.knows_all(Kind::State, keys.chain.as_slice())
                    && self.knows(Kind::Hand, &keys.by)
            }
            Step::Respond(keys) => {
                self.knows(Kind::Channel, &keys.channel)
                    && self.knows(Kind::State, &keys.from)
                    && self.knows(Kind::State, &keys.state)
            }
            Step::Refute { channel, state } => {
                self.knows(Kind::Channel, channel) && self.knows(Kind::State, state)
            }
            Step::Transfer(keys) => {
                self.knows(Kind::Channel, &keys.channel) && self.knows(Kind::State, &keys.state)
            }
            Step::Checkpoint { channel, chain } | Step::Conclude { channel, chain } => {
                self.knows(Kind::Channel, channel) && self.knows_all(Kind::State, chain.as_slice())
            }
            Step::Claim(keys) => {
                self.knows(Kind::Channel, &keys.guarantor)
                    && self.knows(Kind::State, &keys.state)
                    && self.knows(Kind::Channel, &keys.target)
                    && self.knows(Kind::State, &keys.target_state)
            }
            _ => self.knows_names_of_nodes(step),
        }
    }

    fn is_single(&self, step: &Step) -> bool
        ensures { result ≡ is_single self.now step.now }
    {
        match step {
            Step::Person(keys) => !self.has_seed(&keys.seed),
            Step::Channel(keys) => !repeats(keys.people.as_slice()),
            _ => true,
        }
    }

    /// Whether what the step declares is new, and earlier steps declared each of its names as what
    /// its key needs.
    pub fn is_named(&self, step: &Step) -> bool
        ensures { result ≡ is_named self.now step.now }
    {
        self.is_free(step) && self.knows_names(step) && self.is_single(step)
    }
}
