//! Whether a plan is funded: its ledgers and guarantors reach as far as the items that they are for.

ghost use Rattle.std.specs.Prelude.{◌≡◌, ◌+◌, ◌&&◌, ◌↔◌, nat_le, IfOk, IsTrue};
ghost use Rattle.std.specs.List.{list_all};
ghost use Rattle.channel_values.specs.Amounts.{amt, has};
ghost use Rattle.channel_values.specs.declared.value.Dest.TheVariants.{Person, Channel};
ghost use Rattle.funding_plans.specs.Parts.{own_ledger, own_guarantor};
ghost use Rattle.funding_plans.specs.declared.plan.Part.TheVariants as parts;
ghost use Rattle.share_laws.specs.Funded as funded;
ghost use Rattle.plan_share.specs.Pages.{books_of, reaches, left_of, funded_among};
ghost use Rattle.plan_share.specs.Whole.{AreFunded, funded_in, passes_each, passes_both};

use crate::amounts::sum_up_to;
use crate::endings::{Ending, read_endings};
use crate::page::Page;
use crate::reach::reach_in;
use crate::worth::with_taken;
use call_history::{Known, WorldView};
use channel_values::{AssetOutcome, Dest, Name, NoMemory, total};
use funding_plans::{Part, Plan, Virtual, has};
use std::alloc::Global;

impl<'a> Page<'a> {
    /// The ledger reaches as far as all of its items.
    fn is_covered(&self, rows: &[(Name, u128)], ledger: &Name) -> bool
        ensures { result ≡ funded.is_covered (books_of self.now) (reaches rows.now) ledger.now }
    {
        total(self.items(ledger)) as u128 <= reach_in(rows, ledger)
    }

    fn has_channel(&self, from: &Name, channel: &Name) -> bool
        ensures { result ≡ has ((books_of self.now).items from.now) (Channel channel.now) }
    {
        has(self.items(from), &Dest::Channel(*channel))
    }

    /// The channel reaches so far as the person's item of it, where it counts and `from` has an item for it.
    fn reaches_person(&self, person: &Name, from: &Name, channel: &Name, reach: u128) -> bool
        ensures { result ≡ funded.reaches_me (books_of self.now) person.now from.now channel.now reach }
    {
        if self.counts(channel) && self.has_channel(from, channel) {
            sum_up_to(self.items(channel), &Dest::Person(*person)) as u128 <= reach
        } else {
            true
        }
    }

    fn is_child_funded(
        &self,
        person: &Name,
        rows: &[(Name, u128)],
        ledger: &Name,
        channel: &Name,
    ) -> bool
        ensures { result ≡ funded.is_part_funded (books_of self.now) person.now (reaches rows.now)
            (parts.OnLedger ledger.now channel.now) }
    {
        self.is_covered(rows, ledger)
            && self.reaches_person(person, ledger, channel, self.child(rows, ledger, channel))
    }

    /// An end's guarantor reaches as far as the joint channel's items for the channel and the person, where its
    /// ledger has an item for it.
    fn is_claim_funded(&self, person: &Name, v: &Virtual, reach: u64) -> bool
        ensures { result ≡ funded.if_so
            (has ((books_of self.now).items (own_ledger v.now)) (Channel (own_guarantor v.now)))
            (nat_le (amt ((books_of self.now).items v.now.joint) (Channel v.now.channel)
            + amt ((books_of self.now).items v.now.joint) (Person person.now)) reach) }
    {
        if self.has_channel(&v.own_ledger(), &v.own_guarantor()) {
            let channel = self.amount(&v.joint, &Dest::Channel(v.channel)) as u128;
            let own = self.amount(&v.joint, &Dest::Person(*person)) as u128;
            channel + own <= reach as u128
        } else {
            true
        }
    }

    fn is_end_funded(&self, person: &Name, rows: &[(Name, u128)], v: &Virtual) -> bool
        ensures { result ≡ funded.is_part_funded (books_of self.now) person.now (reaches rows.now) (parts.End v.now) }
    {
        let reach = self.end_reach(rows, v);
        self.is_covered(rows, &v.own_ledger())
            && self.reaches_person(person, &v.joint, &v.channel, self.virtual_reach(v, reach))
            && self.is_claim_funded(person, v, reach)
    }

    /// What the joint channel leaves reaches as far as the person's item, where both ledgers have an item for their
    /// guarantor.
    fn is_rest_funded(&self, person: &Name, rows: &[(Name, u128)], v: &Virtual) -> bool
        ensures { result ≡ funded.if_so (has ((books_of self.now).items v.now.ledger_a) (Channel v.now.guarantor_a)
            && has ((books_of self.now).items v.now.ledger_b) (Channel v.now.guarantor_b))
            (nat_le (amt ((books_of self.now).items v.now.joint) (Person person.now))
            (left_of (books_of self.now) (reaches rows.now) v.now)) }
    {
        if self.has_channel(&v.ledger_a, &v.guarantor_a)
            && self.has_channel(&v.ledger_b, &v.guarantor_b)
        {
            self.amount(&v.joint, &Dest::Person(*person)) as u128 <= self.left_of(rows, v)
        } else {
            true
        }
    }

    fn is_middle_funded(&self, person: &Name, rows: &[(Name, u128)], v: &Virtual) -> bool
        ensures { result ≡ funded.is_part_funded (books_of self.now) person.now (reaches rows.now)
            (parts.Middle v.now) }
    {
        self.is_covered(rows, &v.ledger_a)
            && self.is_covered(rows, &v.ledger_b)
            && self.is_rest_funded(person, rows, v)
    }

    fn is_part_funded(&self, person: &Name, rows: &[(Name, u128)], part: &Part) -> bool
        ensures { result ≡ funded.is_part_funded (books_of self.now) person.now (reaches rows.now) part.now }
    {
        match part {
            Part::Root(_) => true,
            Part::OnLedger(ledger, channel) => self.is_child_funded(person, rows, ledger, channel),
            Part::End(v) => self.is_end_funded(person, rows, v),
            Part::Middle(v) => self.is_middle_funded(person, rows, v),
        }
    }

    /// Whether parts are funded, where those before have these reaches.
    fn are_funded(
        &self,
        person: &Name,
        parts: &[Part],
        rows: &mut Vec<(Name, u128)>,
    ) -> Result<bool, NoMemory>
        ensures { IfOk result (λ b. b ≡ funded.are_funded (books_of self.now) person.now parts.now
            (reaches rows.old.items)) }
    {
        match parts {
            [] => Ok(true),
            [part, others @ ..] => {
                if !self.is_part_funded(person, rows, part) {
                    return Ok(false);
                }
                self.follow(rows, part)?;
                self.are_funded(person, others, rows)
            }
        }
    }
}

/// Whether a plan is funded at each of the choices of these channels, of which one whose proposal has nothing else for
/// the asset needs none.
fn is_funded_at_each(
    alloc: Global,
    own: &Plan,
    page: &Page,
    left: &[Ending],
) -> Result<bool, NoMemory>
    ensures { IfOk result (λ b. b ≡ funded_among own.now page.now left.now) }
{
    match left {
        [] => page.are_funded(&own.me, own.parts.as_slice(), &mut Vec::new(alloc)),
        [ending, others @ ..] => {
            let without = is_funded_at_each(alloc, own, page, others)?;
            if !ending.differs(page.asset()) {
                return Ok(without);
            }
            let more = with_taken(alloc, ending.channel(), page.taken())?;
            let along = is_funded_at_each(alloc, own, &page.taking(&more), others)?;
            Ok(without && along)
        }
    }
}

/// Whether the plan is funded in the asset, whichever outcomes its channels end with.
#[tactic(auto, using(crate::proofs::Skips::funded_is))]
fn is_funded_in(
    alloc: Global,
    plan: &Plan,
    view: &WorldView,
    endings: &[Ending],
    asset: u32,
) -> Result<bool, NoMemory>
    ensures { IfOk result (λ b. b ≡ funded_in view.entry.now plan.now endings.now asset) }
{
    let page = Page {
        view,
        endings,
        asset,
        taken: &[],
    };
    is_funded_at_each(alloc, plan, &page, endings)
}

/// Whether the plan is funded in each asset of an outcome.
fn is_funded_through(
    alloc: Global,
    plan: &Plan,
    view: &WorldView,
    endings: &[Ending],
    outcome: &[AssetOutcome],
) -> Result<bool, NoMemory>
    ensures { IfOk result (λ b. b ≡ passes_each (funded_in view.entry.now plan.now endings.now) outcome.now) }
{
    match outcome {
        [] => Ok(true),
        [o, others @ ..] => {
            if !is_funded_in(alloc, plan, view, endings, o.asset)? {
                return Ok(false);
            }
            is_funded_through(alloc, plan, view, endings, others)
        }
    }
}

/// Whether the plan is funded in each asset of both outcomes of a channel.
fn is_funded_with(
    alloc: Global,
    plan: &Plan,
    view: &WorldView,
    endings: &[Ending],
    ending: &Ending,
) -> Result<bool, NoMemory>
    ensures { IfOk result (λ b. b ≡ passes_both (funded_in view.entry.now plan.now endings.now) ending.now) }
{
    if !is_funded_through(alloc, plan, view, endings, ending.outcome())? {
        return Ok(false);
    }
    is_funded_through(alloc, plan, view, endings, ending.proposal())
}

/// And in each asset of each of these channels.
fn is_funded_among(
    alloc: Global,
    plan: &Plan,
    view: &WorldView,
    endings: &[Ending],
    left: &[Ending],
) -> Result<bool, NoMemory>
    ensures { IfOk result (λ b. b ≡ list_all (passes_both (funded_in view.entry.now plan.now endings.now)) left.now) }
{
    match left {
        [] => Ok(true),
        [ending, others @ ..] => {
            if !is_funded_with(alloc, plan, view, endings, ending)? {
                return Ok(false);
            }
            is_funded_among(alloc, plan, view, endings, others)
        }
    }
}

/// Whether the plan is funded in every asset, whichever outcomes its channels end with.
#[tactic(auto, using(crate::proofs::Unnamed::funded_everywhere))]
pub fn is_funded(
    alloc: Global,
    plan: &Plan,
    view: &WorldView,
    known: &[Known],
) -> Result<bool, NoMemory>
    ensures { IfOk result (λ b. IsTrue b ↔ AreFunded view.entry.now plan.now known.now) }
{
    let endings = read_endings(alloc, view, known)?;
    is_funded_among(alloc, plan, view, &endings, &endings)
}
