//! A node with its number.

ghost use Rattle.std.specs.Prelude.{◌≡◌, ◌+◌, ◌<◌, ◌^◌, true, false, length, OnOk, OnErr, IfOk};
ghost use Rattle.support_rules.specs.Real.{real};
ghost use Rattle.network.specs.Ways.{followed, looked};
ghost use Rattle.channel_node.specs.Minds.{facts_of};
ghost use Rattle.channel_node.specs.Nodes.{NodeOf, new_node, saw_all};
ghost use Rattle.channel_node.specs.Answers.{SameJournal};
ghost use Rattle.fairness_laws.proofs.Owning.{nodes_stand};
ghost use Rattle.fairness_laws.specs.Owning.{StandsOwning};
ghost use Rattle.channel_node.specs.Exiting.{leaves};
ghost use Rattle.node_guarantees.specs.Gains.{shares_known};
ghost use Rattle.node_guarantees.specs.Ways.{ways};
ghost use Rattle.network_node.specs.Notes.{note_if};
ghost use Rattle.network_node.specs.Shares.{is_lost};
ghost use Rattle.std.specs.Option.{option_map};

use crate::mind::Mind;
use crate::sharing::shares_known;
use call_history::{Call, Entry, Event, HeldChain, Known, NodeRefusal, WorldView};
use channel_node::Knowing;
use channel_values::{Key, Listed, NoMemory};
use funding_plans::Plan;
use lms_signatures::Signer;
use network::{Command, Lookout, NodeFault, Outs, Party};
use std::alloc::Global;
use std::marker::Model;

/// A node of the network, with its number and its key.
#[derive(Drop)]
pub struct Node {
    alloc: Global,
    number: u32,
    key: Key,
    node: channel_node::Node<Mind>,
    exits: Option<Listed<(u32, u128)>>,
}

impl Model for Node {
    ghost use Rattle.node_guarantees.specs.Ways.{Numbered};
    ghost use Rattle.network_node.specs.Few.{IsNode};

    ghost Value = { Numbered };

    ghost view = { λ n. record { number = n.number; node = n.node; exits = n.exits } };

    ghost invariant = { λ n. IsNode n.key n.node };
}

/// Follows the entries, one after the other.
fn see_all(node: &mut channel_node::Node<Mind>, entries: &[Entry]) -> Result<(), NoMemory>
    ensures saw { OnOk result (node.new ≡ saw_all real entries.now node.old) }
    ensures lost { OnErr result (node.new.is_lost ≡ true) }
    ensures same { OnErr result (SameJournal node.old node.new) }
    ensures signer { node.new.signer ≡ node.old.signer }
{
    for entry in entries {
        node.see(entry)?;
    }
    Ok(())
}

fn is_exit(command: &Command) -> bool
    ensures { result ≡ leaves command.now }
{
    match command {
        Command::Exit => true,
        _ => false,
    }
}

fn copied_bytes(alloc: Global, bytes: &[u8]) -> Result<Listed<u8>, NoMemory>
    ensures { IfOk result (λ copy. copy ≡ bytes.now) }
{
    let copy = Vec::from_slice(alloc, bytes)?;
    Ok(Listed::make(copy))
}

fn copied_calls(alloc: Global, calls: &[Call]) -> Result<Listed<Call>, NoMemory>
    ensures { IfOk result (λ copies. copies ≡ calls.now) }
{
    let mut copies = Vec::new(alloc);
    for call in calls {
        let copy = call.copy()?;
        copies.push(copy)?;
    }
    Ok(Listed::make(copies))
}

/// The checkpoints of a look after these entries, once to be entered and once for the journal.
fn looked_twice(
    alloc: Global,
    lookout: &mut Lookout,
    entries: &[Entry],
    chains: &[HeldChain],
) -> Result<(Vec<Call>, Listed<Call>), NoMemory>
    requires { lookout.old.seen + length entries.now < 2 ^ 32 }
    ensures followed { OnOk result (lookout.new ≡ followed entries.now lookout.old) }
    ensures calls { IfOk result (λ twice. twice.0.items ≡ looked chains.now lookout.new) }
    ensures given { IfOk result (λ twice. twice.1 ≡ looked chains.now lookout.new) }
{
    let calls = lookout.look(entries, chains)?;
    let given = copied_calls(alloc, calls.as_slice())?;
    Ok((calls, given))
}

impl Node {
    /// The commands that it was given, in their order, one for each of their events.
    pub fn commands(&self) -> &[Command]
        ensures { result.now ≡ self.now.node.commands }
    {
        self.node.commands()
    }

    /// What it knows of the entries that it followed.
    pub fn view(&self) -> &WorldView
        ensures { result.now ≡ (facts_of self.now.node.mind).view }
    {
        self.mind().view()
    }

    /// Its person, and the parts in the order in which they were opened.
    pub fn plan(&self) -> &Plan
        ensures { result.now ≡ (facts_of self.now.node.mind).plan }
    {
        self.mind().plan()
    }

    /// The chains that it holds, in the order in which their channels were added.
    pub fn chains(&self) -> &[HeldChain]
        ensures { result.now ≡ (facts_of self.now.node.mind).chains }
    {
        self.node.mind().chains()
    }

    /// The last state that it signed in each channel of which it holds a chain, in the same order.
    pub fn known(&self) -> &[Known]
        ensures { result.now ≡ (facts_of self.now.node.mind).known }
    {
        self.mind().store().known()
    }

    /// Why it would refuse a message of these bytes, if it would. The message isn't taken.
    pub fn refusal_of(&self, bytes: &[u8]) -> Result<Option<NodeRefusal>, NoMemory>
        ensures { IfOk result (λ refusal. refusal ≡ ways.refuses bytes.now self.now) }
    {
        self.node.mind().refusal_of(bytes)
    }

    /// How many indices of its key are used.
    pub fn used(&self) -> u32
        ensures { result ≡ self.now.node.used }
    {
        self.node.used()
    }

    /// How many indices its key has.
    pub fn limit(&self) -> u32
        ensures { result ≡ 2 ^ self.now.node.signer.h }
    {
        self.node.mind().limit()
    }

    pub(crate) fn alloc(&self) -> Global {
        self.alloc
    }

    /// All that it knows.
    pub(crate) fn mind(&self) -> &node_knowledge::Known
        ensures { result.now ≡ self.now.node.mind }
    {
        self.node.mind().known()
    }

    /// What its person could get when it was commanded to exit, if it was.
    pub(crate) fn exits(&self) -> Option<&[(u32, u128)]>
        ensures { option_map (λ s. s.now) result ≡ self.now.exits }
    {
        match &self.exits {
            None => None,
            Some(amounts) => Some(amounts.as_slice()),
        }
    }

    /// What is to be noted of a command to exit, where that wasn't noted before: what its person can get. The command
    /// itself doesn't change that, and after it the note can't run out of memory.
    fn noted_for(&self, command: &Command) -> Result<Option<Listed<(u32, u128)>>, NoMemory>
        ensures { IfOk result (λ noted.
            noted ≡ note_if (leaves command.now) self.now.exits (shares_known self.now.node.mind)) }
    {
        if is_exit(command) {
            if self.exits.is_none() {
                let amounts = shares_known(self.alloc, self.node.mind().known())?;
                return Ok(Some(amounts));
            }
        }
        Ok(None)
    }
}

impl Party for Node {
    ghost ways = { ways };

    ghost stands = { StandsOwning };

    ghost lost = { is_lost };

    ghost grows = { nodes_stand.grows };

    ghost honest = { nodes_stand.honest };

    ghost within = { nodes_stand.within };

    #[tactic(auto, unfolding(channel_node::specs::Playing::signing_of))]
    fn make(alloc: Global, number: u32, signer: Signer) -> Result<Node, NoMemory> {
        let key = signer.public();
        let mind = Mind::make(alloc, signer);
        Ok(Node {
            alloc,
            number,
            key,
            node: channel_node::Node::make(alloc, mind),
            exits: None,
        })
    }

    fn number(&self) -> u32 {
        self.number
    }

    fn key(&self) -> &Key {
        &self.key
    }

    fn journal(&self) -> &[Event] {
        self.node.journal()
    }

    fn seen(&self) -> u32 {
        if self.node.is_lost() {
            0
        } else {
            self.node.mind().count()
        }
    }

    fn is_lost(&self) -> bool {
        self.node.is_lost()
    }

    fn see(&mut self, entries: &[Entry]) -> Result<(), NoMemory> {
        if self.node.is_lost() {
            return Err(NoMemory);
        }
        see_all(&mut self.node, entries)
    }

    fn command(&mut self, step: u32, command: Command) -> Result<Outs, NodeFault> {
        if self.node.is_lost() {
            return Err(NodeFault::NoMemory);
        }
        let Ok(noted) = self.noted_for(&command) else {
            self.node.lose();
            return Err(NodeFault::NoMemory);
        };
        let outs = self.node.command(step, command)?;
        if noted.is_some() {
            self.exits = noted;
        }
        Ok(outs)
    }

    fn handle(&mut self, bytes: &[u8]) -> Result<(), NodeFault> {
        if self.node.is_lost() {
            return Err(NodeFault::NoMemory);
        }
        let Ok(bytes) = copied_bytes(self.alloc, bytes) else {
            self.node.lose();
            return Err(NodeFault::NoMemory);
        };
        self.node.handle(bytes)
    }

    fn tick(&mut self) -> Result<Outs, NoMemory> {
        self.node.tick()
    }

    fn watch(
        &mut self,
        lookout: &mut Lookout,
        place: u32,
        entries: &[Entry],
    ) -> Result<Vec<Call>, NoMemory> {
        if self.node.is_lost() {
            return Err(NoMemory);
        }
        let Ok(twice) = looked_twice(self.alloc, lookout, entries, self.node.mind().chains()) else {
            self.node.lose();
            return Err(NoMemory);
        };
        let (calls, given) = twice;
        self.node.watch(lookout.seen, place, given)?;
        Ok(calls)
    }
}
