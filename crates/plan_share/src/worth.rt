//! What a participant can get of an asset.

ghost use Rattle.std.specs.Prelude.{◌≡◌, ◌≤◌, ◌<◌, ◌*◌, ◌^◌, ◌∷◌, length, IfOk};
ghost use Rattle.funding_plans.specs.declared.plan.Part.TheVariants as parts;
ghost use Rattle.share_laws.specs.Worth as worth;
ghost use Rattle.plan_share.specs.Pages.{books_of, reaches, least_among};
ghost use Rattle.plan_share.specs.Seen.{share_seen};

use crate::endings::{Ending, read_endings};
use crate::page::Page;
use call_history::{Known, WorldView};
use channel_values::{Dest, Name, NoMemory};
use funding_plans::{Part, Plan, Virtual};
use history_view::paid_amount;
use std::alloc::Global;

impl<'a> Page<'a> {
    fn end_worth(&self, person: &Name, rows: &[(Name, u128)], v: &Virtual) -> u128
        ensures value { result ≡ worth.part_worth (books_of self.now) person.now (reaches rows.now) (parts.End v.now) }
        ensures bound { result < 2 ^ 65 }
    {
        let reach = self.end_reach(rows, v);
        let paid = self.affords(
            &v.channel,
            self.virtual_reach(v, reach),
            &Dest::Person(*person),
        );
        paid as u128 + self.own_claim(person, v, reach) as u128
    }

    fn middle_worth(&self, person: &Name, rows: &[(Name, u128)], v: &Virtual) -> u64
        ensures { result ≡ worth.part_worth (books_of self.now) person.now (reaches rows.now) (parts.Middle v.now) }
    {
        let own = self.amount(&v.joint, &Dest::Person(*person));
        self.left_of(rows, v).min(own as u128) as u64
    }

    /// What a part is worth to a person.
    fn part_worth(&self, person: &Name, rows: &[(Name, u128)], part: &Part) -> u128
        ensures value { result ≡ worth.part_worth (books_of self.now) person.now (reaches rows.now) part.now }
        ensures bound { result < 2 ^ 65 }
    {
        let to = Dest::Person(*person);
        match part {
            Part::Root(channel) => self.affords(channel, self.held(channel) as u128, &to) as u128,
            Part::OnLedger(ledger, channel) => {
                let reach = self.child(rows, ledger, channel);
                self.affords(channel, reach, &to) as u128
            }
            Part::End(v) => self.end_worth(person, rows, v),
            Part::Middle(v) => self.middle_worth(person, rows, v) as u128,
        }
    }

    /// What parts are worth to a person, where those before have these reaches.
    fn worth(
        &self,
        person: &Name,
        parts: &[Part],
        rows: &mut Vec<(Name, u128)>,
    ) -> Result<u128, NoMemory>
        requires { length parts.now < 2 ^ 62 }
        ensures value { IfOk result (λ n.
            n ≡ worth.worth (books_of self.now) person.now parts.now (reaches rows.old.items)) }
        ensures bound { IfOk result (λ n. n ≤ length parts.now * 2 ^ 65) }
    {
        match parts {
            [] => Ok(0),
            [part, others @ ..] => {
                let own = self.part_worth(person, rows, part);
                self.follow(rows, part)?;
                let rest = self.worth(person, others, rows)?;
                Ok(own + rest)
            }
        }
    }
}

/// The channel's name and then these.
pub(crate) fn with_taken(
    alloc: Global,
    channel: Name,
    taken: &[Name],
) -> Result<Vec<Name>, NoMemory>
    ensures { IfOk result (λ v. v.items ≡ channel ∷ taken.now) }
{
    let mut more = Vec::new(alloc);
    more.push(channel)?;
    more.extend_from_slice(taken)?;
    Ok(more)
}

/// The parts of a plan, as many as memory has room for.
fn parts_of(plan: &Plan) -> &[Part]
    ensures value { result.now ≡ plan.now.parts }
    ensures few { length result.now < 2 ^ 62 }
{
    let parts = plan.parts.as_slice();
    let _count = parts.len();
    parts
}

/// The least that a plan is worth over the choices of these channels, of which one whose proposal has nothing else for
/// the asset needs none.
fn least(alloc: Global, own: &Plan, page: &Page, left: &[Ending]) -> Result<u128, NoMemory>
    ensures value { IfOk result (λ n. n ≡ least_among own.now page.now left.now) }
    ensures bound { IfOk result (λ n. n < 2 ^ 127) }
{
    match left {
        [] => page.worth(&own.me, parts_of(own), &mut Vec::new(alloc)),
        [ending, others @ ..] => {
            let without = least(alloc, own, page, others)?;
            if !ending.differs(page.asset()) {
                return Ok(without);
            }
            let more = with_taken(alloc, ending.channel(), page.taken())?;
            let along = least(alloc, own, &page.taking(&more), others)?;
            Ok(without.min(along))
        }
    }
}

/// What the plan's person was paid of the asset, and the least that its parts are worth to it, whichever outcomes its
/// channels end with.
#[tactic(auto, using(crate::proofs::Skips::least_is))]
pub fn share(
    alloc: Global,
    plan: &Plan,
    view: &WorldView,
    known: &[Known],
    asset: u32,
) -> Result<u128, NoMemory>
    ensures { IfOk result (λ n. n ≡ share_seen view.entry.now plan.now known.now asset) }
{
    let endings = read_endings(alloc, view, known)?;
    let page = Page {
        view,
        endings: &endings,
        asset,
        taken: &[],
    };
    let least = least(alloc, plan, &page, &endings)?;
    Ok(paid_amount(view, &plan.me, asset) as u128 + least)
}
