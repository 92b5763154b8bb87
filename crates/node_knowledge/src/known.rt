//! What a node knows.

ghost use Rattle.std.specs.Prelude.{◌≡◌, ◌<◌, ◌≤◌, ◌∷◌, ℕ, [], List, length, cond, true, None, OnOk, OnErr, IfOk};
ghost use Rattle.std.specs.Option.{option_map};
ghost use Rattle.channel_values.specs.Spelling.{fixed as spelled};
ghost use Rattle.channel_values.specs.Digests.{name_of_channel};
ghost use Rattle.call_history.specs.History.{is_accepted};
ghost use Rattle.call_history.specs.Marked.{marked_of};
ghost use Rattle.call_history.specs.Rows.{fixed_of};
ghost use Rattle.channel_store.specs.Keeping.{noting};
ghost use Rattle.channel_store.specs.Noting.{refusal_of};
ghost use Rattle.channel_store.specs.Storing.{kept_with};
ghost use Rattle.channel_store.specs.declared.kept.Kept.{Kept as AKept};
ghost use Rattle.history_view.specs.Views.{view_of};
ghost use Rattle.network.specs.declared.command.Command.TheVariants as commands;
ghost use Rattle.channel_node.specs.Giving.{in_order, sends_of};
ghost use Rattle.channel_node.specs.Leaving.{challenge_in, is_over};
ghost use Rattle.channel_node.specs.Minds.{fresh, facts_of, shown_by, kept_seeing, saw, noted, with_opened, commanded};
ghost use Rattle.channel_node.specs.Openings.{goal_with};
ghost use Rattle.node_knowledge.specs.Owned.{AreOwned};
ghost use Rattle.node_knowledge.specs.Shown.{kept_shown, FewUnder, FewIn, CanSee};
ghost use Rattle.node_knowledge.specs.Taking.{with_part, CanOpen, CanShare, CanTake};
ghost use Rattle.support_rules.specs.Real.{real};

use crate::closing::{close, place_with};
use crate::giving::{in_order, sends_to};
use crate::leaving::{Challenger, challenge_of, is_over};
use crate::opening::{join, join_virtual, name_of, part_of_virtual, shared};
use crate::showing::shown_by;
use call_history::{Entry, Op, WorldView, fixed_of};
use channel_store::Store;
use channel_values::{
    Chain, Fixed, Key, Listed, Name, NoMemory, Outcome, Signed, State, channel_name, person_name,
};
use funding_plans::{Facts, Goal, Part, Plan};
use history_view::{follow, unseen, view_of};
use network::{Command, LedgerFunding, Release, VirtualFunding};
use std::alloc::Global;
use std::marker::Model;

/// A node's key, what it opened and what was commanded of that, its view of the history, and its store; and whether
/// it left.
#[derive(Drop)]
pub struct Known {
    key: Key,
    plan: Plan,
    goals: Vec<Goal>,
    view: WorldView,
    store: Store,
    left: bool,
}

impl Model for Known {
    ghost use Rattle.std.specs.Prelude.{◌≡◌, ◌≤◌, length};
    ghost use Rattle.channel_values.specs.Digests.{name_of_person};
    ghost use Rattle.node_knowledge.specs.Owned.{AreOwned};
    ghost use Rattle.channel_node.specs.Minds.{Mind};

    ghost Value = { Mind };

    ghost view = { λ m. record { key = m.key; parts = m.plan.parts; goals = m.goals.items; view = m.view; kept = m.store; left = m.left } };

    ghost invariant = { λ m. (m.plan.me ≡ name_of_person m.key) × (length m.plan.parts ≤ 64) × AreOwned m.key m.store };
}

/// The newest chain of the channel that was shown.
fn shown_before<'a>(view: &'a WorldView, name: &Name) -> Option<&'a Chain>
    ensures { option_map (λ m. m.now) result ≡ (view_of view.entry.now.channels name.now).shown }
{
    match view_of(view, name) {
        None => None,
        Some(known) => known.shown.as_ref(),
    }
}

fn shown_of(view: &WorldView, fixed: &Fixed, op: &Op) -> Result<(Name, Chain), NoMemory>
    requires { FewUnder op.now (view_of view.now.channels (name_of_channel (spelled fixed.now))).shown }
    ensures name { IfOk result (λ shown. shown.0 ≡ name_of_channel (spelled fixed.now)) }
    ensures chain { IfOk result (λ shown.
        marked_of shown.1 ≡ shown_by op.now
        (view_of view.entry.now.channels (name_of_channel (spelled fixed.now))).shown) }
{
    let name = channel_name(fixed.bytes());
    let before = shown_before(view, &name);
    let chain = shown_by(view.channels.allocator(), fixed, op, before)?;
    Ok((name, chain))
}

/// What an accepted entry shows: the channel's name and the chain, which may have no state.
fn shown_in(view: &WorldView, entry: &Entry) -> Result<Option<(Name, Chain)>, NoMemory>
    requires { is_accepted entry.now.reply ≡ true → FewIn view.now entry.now.op (fixed_of entry.now.op) }
    ensures { IfOk result (λ shown.
        (kept : List AKept) → kept_shown shown kept
        ≡ cond (is_accepted entry.now.reply)
        (kept_seeing real view.entry.now entry.now.op (fixed_of entry.now.op) kept) kept) }
{
    if !entry.reply.is_accepted() {
        return Ok(None);
    }
    let Some(fixed) = fixed_of(&entry.op) else {
        return Ok(None);
    };
    let shown = shown_of(view, fixed, &entry.op)?;
    Ok(Some(shown))
}

fn adopt_shown(store: &mut Store, shown: Option<(Name, Chain)>) -> Result<(), NoMemory>
    ensures ok { OnOk result (store.new ≡ kept_shown shown store.old) }
    ensures err { OnErr result (store.new ≡ store.old) }
{
    match shown {
        None => Ok(()),
        Some(shown) => {
            let name = shown.0;
            let _ = store.adopt(&name, shown.1)?;
            Ok(())
        }
    }
}

/// Adopts the chain that was shown, if one was; each channel stays the participant's own.
fn adopt_own(store: &mut Store, shown: Option<(Name, Chain)>) -> Result<(), NoMemory>
    ensures ok { OnOk result (store.new ≡ kept_shown shown store.old) }
    ensures owned { (key : List ℕ) → AreOwned key store.old → AreOwned key store.new }
{
    adopt_shown(store, shown)
}

/// Notes a state that passes the tests; each channel stays the participant's own.
fn note_own(store: &mut Store, own: bool, channel: &Name, signed: Signed) -> Result<(), NoMemory>
    requires { refusal_of real channel.now signed store.old ≡ None }
    ensures ok { OnOk result (store.new ≡ kept_with (noting real own signed) channel.now store.old) }
    ensures owned { (key : List ℕ) → AreOwned key store.old → AreOwned key store.new }
{
    store.note_checked(channel, signed, own)
}

impl Known {
    /// Nothing is known.
    pub fn make(alloc: Global, key: Key) -> Known
        ensures { result ≡ fresh key }
    {
        Known {
            key,
            plan: Plan {
                me: person_name(&key),
                parts: Listed::make(Vec::new(alloc)),
            },
            goals: Vec::new(alloc),
            view: unseen(alloc),
            store: Store::make(alloc),
            left: false,
        }
    }

    pub fn key(&self) -> &Key
        ensures { result.now ≡ self.now.key }
    {
        &self.key
    }

    /// The person of the key, and the parts in the order in which they were opened.
    pub fn plan(&self) -> &Plan
        ensures { result.now ≡ (facts_of self.now).plan }
    {
        &self.plan
    }

    /// A plan has at most 64 parts.
    pub fn parts(&self) -> &[Part]
        ensures value { result.now ≡ self.now.parts }
        ensures few { length result.now ≤ 64 }
    {
        self.plan.parts.as_slice()
    }

    pub fn goals(&self) -> &[Goal]
        ensures { result.now ≡ self.now.goals }
    {
        self.goals.as_slice()
    }

    pub fn view(&self) -> &WorldView
        ensures { result.now ≡ self.now.view }
    {
        &self.view
    }

    /// Each channel is kept by its name, with the key at the participant's position.
    pub fn are_owned(&self)
        ensures { AreOwned self.now.key self.now.kept }
    {
        let _ = &self.store;
    }

    pub fn store(&self) -> &Store
        ensures { result.now ≡ self.now.kept }
    {
        &self.store
    }

    /// Whether it left every channel.
    pub fn left(&self) -> bool
        ensures { result ≡ self.now.left }
    {
        self.left
    }

    /// What the rules read.
    pub fn facts(&self) -> Facts<'_>
        ensures { result ≡ facts_of self.now }
    {
        Facts {
            me: self.plan.me,
            plan: &self.plan,
            view: &self.view,
            places: self.store.places(),
            chains: self.store.chains(),
            known: self.store.known(),
            goals: self.goals.as_slice(),
        }
    }

    /// Follows an entry, and adopts a newer chain that it shows of a channel that is kept.
    pub fn see(&mut self, entry: &Entry) -> Result<(), NoMemory>
        requires { CanSee entry.now self.old.view }
        ensures saw { OnOk result (self.new ≡ saw real entry.now self.old) }
        ensures key { self.new.key ≡ self.old.key }
    {
        let shown = shown_in(&self.view, entry)?;
        follow(&mut self.view, entry)?;
        adopt_own(&mut self.store, shown)
    }

    /// Notes a state of a channel, which passes the tests; `own` says that the participant signed it.
    pub fn note(&mut self, own: bool, channel: &Name, signed: Signed) -> Result<(), NoMemory>
        requires { refusal_of real channel.now signed self.old.kept ≡ None }
        ensures noted { OnOk result (self.new ≡ noted real own channel.now signed self.old) }
        ensures key { self.new.key ≡ self.old.key }
    {
        note_own(&mut self.store, own, channel, signed)
    }

    /// Adds a part with what is commanded of it.
    fn add_part(
        &mut self,
        part: Part,
        opening: Outcome,
        amounts: &(u64, u64),
    ) -> Result<(), NoMemory>
        requires { length self.old.parts < 64 }
        ensures opened { OnOk result (self.new
            ≡ with_part part (goal_with (length self.old.parts) opening amounts.now) self.old) }
        ensures key { self.new.key ≡ self.old.key }
    {
        let place = self.plan.parts.as_slice().len() as u8;
        self.plan.parts.push(part)?;
        self.goals.push(Goal {
            part: place,
            opening,
            amounts: *amounts,
            closing: false,
            over: false,
        })?;
        Ok(())
    }

    fn open(&mut self, fixed: &Fixed, outcome: &Outcome) -> Result<(), NoMemory>
        requires { CanOpen self.old (fixed.now ∷ []) }
        ensures opened { OnOk result (self.new ≡ with_opened real (commands.Open fixed.now outcome.now) self.old) }
        ensures key { self.new.key ≡ self.old.key }
    {
        let opening = outcome.copy()?;
        join(&mut self.store, &self.key, fixed)?;
        self.add_part(Part::Root(name_of(fixed)), opening, &(0, 0))
    }

    fn open_on(&mut self, funding: &LedgerFunding) -> Result<(), NoMemory>
        requires { CanTake (commands.OpenOn funding.now) self.old }
        ensures opened { OnOk result (self.new ≡ with_opened real (commands.OpenOn funding.now) self.old) }
        ensures key { self.new.key ≡ self.old.key }
    {
        let (fixed, amounts) = (&funding.fixed, &funding.amounts);
        let opening = shared(*self.goals.allocator(), fixed, funding.asset, amounts)?;
        join(&mut self.store, &self.key, fixed)?;
        self.add_part(
            Part::OnLedger(funding.ledger, name_of(fixed)),
            opening,
            amounts,
        )
    }

    /// By each route the same is known.
    fn open_virtual(&mut self, funding: &VirtualFunding) -> Result<(), NoMemory>
        requires { CanTake (commands.OpenVirtual funding.now) self.old }
        ensures opened { OnOk result (self.new ≡ with_opened real (commands.OpenVirtual funding.now) self.old) }
        ensures key { self.new.key ≡ self.old.key }
    {
        let amounts = &funding.amounts;
        let alloc = *self.goals.allocator();
        let opening = shared(alloc, &funding.channel, funding.asset, amounts)?;
        let part = part_of_virtual(&self.key, funding);
        join_virtual(&mut self.store, &self.key, funding)?;
        self.add_part(part, opening, amounts)
    }

    fn close(&mut self, channel: &Name)
        ensures { self.new ≡ commanded real (commands.Close channel.now) self.old }
    {
        let place = place_with(channel, self.plan.parts.as_slice());
        close(&mut self.goals, place, false);
    }

    fn release(&mut self, how: Release, channel: &Name)
        ensures { self.new ≡ commanded real (commands.Release how channel.now) self.old }
    {
        let place = place_with(channel, self.plan.parts.as_slice());
        close(&mut self.goals, place, true);
    }

    /// Takes up a command that isn't refused.
    pub fn commanded(&mut self, command: &Command) -> Result<(), NoMemory>
        requires { CanTake command.now self.old }
        ensures commanded { OnOk result (self.new ≡ commanded real command.now self.old) }
        ensures key { self.new.key ≡ self.old.key }
    {
        match command {
            Command::Open { fixed, outcome } => self.open(fixed, outcome),
            Command::OpenOn(funding) => self.open_on(funding),
            Command::OpenVirtual(funding) => self.open_virtual(funding),
            Command::Close { channel } => {
                self.close(channel);
                Ok(())
            }
            Command::Release { how, channel } => {
                self.release(*how, channel);
                Ok(())
            }
            Command::Pay { .. } => Ok(()),
            Command::Resend { .. } => Ok(()),
            Command::Exit => {
                self.left = true;
                Ok(())
            }
        }
    }

    /// Whether all channels with a held chain are final.
    pub fn is_over(&self) -> bool
        ensures { result ≡ is_over (facts_of self.now) }
    {
        is_over(&self.facts())
    }

    /// What it challenges with in a channel: once it left, the chain that it holds of a channel that is open.
    pub fn challenge(&self, channel: &Name) -> Option<Challenger<'_>>
        ensures { result ≡ challenge_in self.now channel.now }
    {
        if self.left {
            challenge_of(&self.facts(), channel, self.store.kept(channel))
        } else {
            None
        }
    }

    /// The channels in the order of a tick, at most three of each part.
    #[tactic(auto, using(crate::proofs::Order::few_in_order))]
    pub fn channels(&self) -> Result<Vec<Name>, NoMemory>
        ensures order { IfOk result (λ channels. channels.items ≡ in_order self.now.parts) }
        ensures few { IfOk result (λ channels. length channels.items ≤ 192) }
    {
        let names = in_order(*self.goals.allocator(), self.plan.parts.as_slice())?;
        Ok(names)
    }

    /// The messages with a signed state for the channel's other people.
    pub fn messages(
        &self,
        channel: &Name,
        state: &State,
        signature: &[u8],
    ) -> Result<Vec<(Name, Listed<u8>)>, NoMemory>
        ensures { IfOk result (λ sends. sends.items ≡ sends_of self.now channel.now state.now signature.now) }
    {
        sends_to(
            *self.goals.allocator(),
            channel,
            state,
            signature,
            self.store.kept(channel),
        )
    }
}
