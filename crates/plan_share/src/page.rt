//! The books of an asset under a choice.

ghost use Rattle.std.specs.Prelude.{◌≡◌, ◌<◌, ◌^◌};
ghost use Rattle.channel_values.specs.Amounts.{amt};
ghost use Rattle.channel_values.specs.Outcomes.{total};
ghost use Rattle.share_laws.specs.Worth as worth;
ghost use Rattle.plan_share.specs.Pages.{taking, books_of};

use crate::amounts::afforded;
use crate::endings::{Ending, counts_in, outcome_in};
use call_history::WorldView;
use channel_values::{Dest, Item, Name};
use funding_plans::{amt, items_in, list_in};
use history_view::held_amount;
use std::marker::Model;

/// The books of an asset: what the view says is held, and what the channels that count end with. The proposals of
/// these channels are taken.
#[derive(Drop)]
pub(crate) struct Page<'a> {
    pub(crate) view: &'a WorldView,
    pub(crate) endings: &'a [Ending<'a>],
    pub(crate) asset: u32,
    pub(crate) taken: &'a [Name],
}

impl<'a> Model for Page<'a> {
    ghost use Rattle.plan_share.specs.Pages.{Pages};

    ghost Value = { Pages };

    ghost view = { λ p. record { view = p.view.now; counting = p.endings.now; asset = p.asset; taken = p.taken.now } };
}

impl<'a> Page<'a> {
    /// The same books where these proposals are taken.
    pub(crate) fn taking<'b>(&self, taken: &'b [Name]) -> Page<'b>
    where
        'a: 'b,
        ensures { result ≡ taking taken.now self.now }
    {
        Page {
            view: self.view,
            endings: self.endings,
            asset: self.asset,
            taken,
        }
    }

    pub(crate) fn asset(&self) -> u32
        ensures { result ≡ self.now.asset }
    {
        self.asset
    }

    pub(crate) fn taken(&self) -> &[Name]
        ensures { result.now ≡ self.now.taken }
    {
        self.taken
    }

    pub(crate) fn held(&self, channel: &Name) -> u64
        ensures { result ≡ (books_of self.now).held channel.now }
    {
        held_amount(self.view, channel, self.asset)
    }

    pub(crate) fn items(&self, channel: &Name) -> &[Item]
        ensures value { result.now ≡ (books_of self.now).items channel.now }
        ensures within { total result.now < 2 ^ 64 }
    {
        match outcome_in(self.endings, self.taken, channel) {
            None => &[],
            Some(outcome) => items_in(outcome, self.asset),
        }
    }

    pub(crate) fn list(&self, channel: &Name) -> &[Dest]
        ensures { result.now ≡ (books_of self.now).list channel.now }
    {
        match outcome_in(self.endings, self.taken, channel) {
            None => &[],
            Some(outcome) => list_in(outcome, self.asset),
        }
    }

    pub(crate) fn counts(&self, channel: &Name) -> bool
        ensures { result ≡ (books_of self.now).counts channel.now }
    {
        counts_in(self.endings, channel)
    }

    /// The amount of a channel's item for a destination, or 0.
    pub(crate) fn amount(&self, channel: &Name, to: &Dest) -> u64
        ensures { result ≡ amt ((books_of self.now).items channel.now) to.now }
    {
        amt(self.items(channel), to)
    }

    /// What a channel affords a destination at a reach.
    pub(crate) fn affords(&self, channel: &Name, reach: u128, to: &Dest) -> u64
        ensures { result ≡ worth.affords (books_of self.now) channel.now reach to.now }
    {
        afforded(self.items(channel), reach, to)
    }
}
