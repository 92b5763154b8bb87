//! What each channel of a plan can reach.

ghost use Rattle.std.specs.Prelude.{◌≡◌, ◌<◌, ◌^◌, true, OnOk};
ghost use Rattle.funding_plans.specs.Parts.{own_guarantor};
ghost use Rattle.share_laws.specs.Worth as worth;
ghost use Rattle.plan_share.specs.Pages.{books_of, reaches, left_of};

use crate::amounts::second_amount;
use crate::page::Page;
use channel_values::{Dest, Name, NoMemory};
use funding_plans::{Part, Virtual, has};

/// The reach of a channel by these rows, of which the newest comes first.
pub(crate) fn reach_in(rows: &[(Name, u128)], channel: &Name) -> u128
    ensures { result ≡ reaches rows.now channel.now }
{
    match rows {
        [] => 0,
        [row, others @ ..] => {
            if *channel == row.0 {
                row.1
            } else {
                reach_in(others, channel)
            }
        }
    }
}

fn put_reach(rows: &mut Vec<(Name, u128)>, channel: &Name, reach: u128) -> Result<(), NoMemory>
    ensures { OnOk result (reaches rows.new.items ≡ worth.with_reach (reaches rows.old.items) channel.now reach) }
{
    rows.insert(0, (*channel, reach))?;
    Ok(())
}

/// What a joint channel has for its channel and its two ends, and what their guarantors reach.
#[derive(Clone, Copy, Debug)]
struct Joint {
    channel: u64,
    first: u64,
    second: u64,
    reach_a: u64,
    reach_b: u64,
}

impl Joint {
    /// What is left to the intermediary: of both reaches together, or of each after its claim for the channel.
    fn left(&self) -> u128
        ensures { result ≡ worth.left_between true true true self.now.channel self.now.first self.now.second self.now.reach_a self.now.reach_b }
    {
        let channel = self.channel as u128;
        let first = channel + self.first as u128;
        let second = channel + self.second as u128;
        let a = self.reach_a as u128;
        let b = self.reach_b as u128;
        let together = (a + b).saturating_sub(first + self.second as u128);
        let apart = a.saturating_sub(first) + b.saturating_sub(second);
        together.max(apart)
    }
}

impl<'a> Page<'a> {
    /// The reach of a channel on a ledger: what it holds, and what the ledger affords it.
    pub(crate) fn child(&self, rows: &[(Name, u128)], ledger: &Name, channel: &Name) -> u128
        ensures value { result ≡ worth.child (books_of self.now) (reaches rows.now) ledger.now channel.now }
        ensures bound { result < 2 ^ 65 }
    {
        let to = Dest::Channel(*channel);
        if has(self.items(ledger), &to) {
            let reach = reach_in(rows, ledger);
            self.held(channel) as u128 + self.affords(ledger, reach, &to) as u128
        } else {
            0
        }
    }

    /// The reach of a guarantor on a ledger: at most the total.
    fn guarantor(&self, rows: &[(Name, u128)], ledger: &Name, guarantor: &Name, total: u64) -> u64
        ensures { result ≡ worth.guarantor (books_of self.now) (reaches rows.now) ledger.now guarantor.now total }
    {
        if self.counts(guarantor) {
            self.child(rows, ledger, guarantor).min(total as u128) as u64
        } else {
            0
        }
    }

    /// The reach of an end's guarantor.
    pub(crate) fn end_reach(&self, rows: &[(Name, u128)], v: &Virtual) -> u64
        ensures { result ≡ worth.end_reach (books_of self.now) (reaches rows.now) v.now }
    {
        self.guarantor(rows, &v.own_ledger(), &v.own_guarantor(), v.total)
    }

    /// What a guarantor that reaches so far affords the joint channel's item for the channel.
    fn claim(&self, v: &Virtual, reach: u64) -> u64
        ensures { result ≡ worth.claim (books_of self.now) (own_guarantor v.now) v.now.joint v.now.channel reach }
    {
        self.amount(&v.joint, &Dest::Channel(v.channel)).min(reach)
    }

    /// And after that the item for a person.
    pub(crate) fn own_claim(&self, person: &Name, v: &Virtual, reach: u64) -> u64
        ensures { result ≡ worth.own_claim (books_of self.now) person.now
            (own_guarantor v.now) v.now.joint v.now.channel reach }
    {
        let left = reach.saturating_sub(self.amount(&v.joint, &Dest::Channel(v.channel)));
        self.amount(&v.joint, &Dest::Person(*person)).min(left)
    }

    /// The reach of an end's channel, of which the guarantor reaches so far.
    pub(crate) fn virtual_reach(&self, v: &Virtual, reach: u64) -> u128
        ensures value { result ≡ worth.virtual (books_of self.now)
            (own_guarantor v.now) v.now.joint v.now.channel reach }
        ensures bound { result < 2 ^ 65 }
    {
        if has(self.items(&v.joint), &Dest::Channel(v.channel)) {
            self.held(&v.channel) as u128 + self.claim(v, reach) as u128
        } else {
            0
        }
    }

    fn second_of(&self, v: &Virtual, guarantor: &Name) -> u64
        ensures { result ≡ worth.second_amt ((books_of self.now).items v.now.joint)
            ((books_of self.now).list guarantor.now) }
    {
        second_amount(self.items(&v.joint), self.list(guarantor))
    }

    /// What a joint channel leaves its intermediary.
    pub(crate) fn left_of(&self, rows: &[(Name, u128)], v: &Virtual) -> u128
        ensures { result ≡ left_of (books_of self.now) (reaches rows.now) v.now }
    {
        let joint = Joint {
            channel: self.amount(&v.joint, &Dest::Channel(v.channel)),
            first: self.second_of(v, &v.guarantor_a),
            second: self.second_of(v, &v.guarantor_b),
            reach_a: self.guarantor(rows, &v.ledger_a, &v.guarantor_a, v.total),
            reach_b: self.guarantor(rows, &v.ledger_b, &v.guarantor_b, v.total),
        };
        joint.left()
    }

    /// Places the reach of a part's channel before the reaches so far, where a later part may stand on it.
    pub(crate) fn follow(&self, rows: &mut Vec<(Name, u128)>, part: &Part) -> Result<(), NoMemory>
        ensures { OnOk result (reaches rows.new.items
            ≡ worth.reach_after (books_of self.now) (reaches rows.old.items) part.now) }
    {
        match part {
            Part::Root(channel) => put_reach(rows, channel, self.held(channel) as u128),
            Part::OnLedger(ledger, channel) => {
                let reach = self.child(rows, ledger, channel);
                put_reach(rows, channel, reach)
            }
            Part::End(v) => {
                let reach = self.virtual_reach(v, self.end_reach(rows, v));
                put_reach(rows, &v.channel, reach)
            }
            Part::Middle(_) => Ok(()),
        }
    }
}
