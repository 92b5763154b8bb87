//! What a legal history says of a channel and of a person, each by a look-up.

ghost use Rattle.std.specs.Prelude.{◌≡◌, option_copied};
ghost use Rattle.call_history.specs.Mode.{is_final};
ghost use Rattle.call_history.specs.History.{newest_first, now_of, row, mode, held_of, paid_to, rest_of_channel};
ghost use Rattle.record_checker.specs.Past.{IsPast};
ghost use Rattle.support_rules.specs.Real.{real};

use crate::rests::rest_in;
use adjudicator::Adjudicator;
use call_history::{Entry, Standing, mode, row_or_blank};
use channel_values::{Name, Outcome};
use indexmap::IndexMap;
use std::marker::Model;

/// A history in the order of time, with the adjudicator after it and what is left of each channel's outcome. Contracts
/// see the history, the newest entry first.
#[derive(Drop)]
pub(crate) struct Past<'a> {
    history: &'a [Entry],
    adjudicator: Adjudicator,
    rests: IndexMap<Name, Option<Outcome>>,
}

impl<'a> Model for Past<'a> {
    ghost use Rattle.std.specs.Prelude.{List};
    ghost use Rattle.call_history.specs.History.{newest_first};
    ghost use Rattle.call_history.specs.declared.entry.Entry.{Entry};
    ghost use Rattle.record_checker.specs.Past.{IsPast};

    ghost Value = { List Entry };

    ghost view = { λ p. newest_first p.history.now };

    ghost invariant = { λ p. IsPast (newest_first p.history.now) p.adjudicator p.rests.entries };
}

impl<'a> Past<'a> {
    pub(crate) fn make(
        history: &'a [Entry],
        adjudicator: Adjudicator,
        rests: IndexMap<Name, Option<Outcome>>,
    ) -> Past<'a>
        requires { IsPast (newest_first history.now) adjudicator rests.entries }
        ensures { result ≡ newest_first history.now }
    {
        Past {
            history,
            adjudicator,
            rests,
        }
    }

    pub(crate) fn time(&self) -> u64
        ensures { result ≡ now_of self.now }
    {
        self.adjudicator.now()
    }

    /// The deadline of an open challenge, or of the last, or the time of a conclude.
    pub(crate) fn deadline(&self, channel: &Name) -> Option<u64>
        ensures { result ≡ (row real channel.now self.now).deadline }
    {
        row_or_blank(self.adjudicator.row(channel)).deadline
    }

    pub(crate) fn is_final(&self, channel: &Name) -> bool
        ensures { result ≡ is_final (mode real channel.now self.now) }
    {
        mode(self.deadline(channel), self.time()) == Standing::Final
    }

    /// What is left of the outcome that the channel settled on, if it did.
    pub(crate) fn rest(&self, channel: &Name) -> Option<&Outcome>
        ensures { option_copied result ≡ rest_of_channel real channel.now self.now }
    {
        rest_in(&self.rests, channel)
    }

    /// What the channel holds.
    pub(crate) fn held(&self, channel: &Name, asset: u32) -> u64
        ensures { result ≡ held_of self.now channel.now asset }
    {
        self.adjudicator.holdings().held(channel, asset)
    }

    /// What the person was paid.
    pub(crate) fn paid(&self, person: &Name, asset: u32) -> u64
        ensures { result ≡ paid_to self.now person.now asset }
    {
        self.adjudicator.holdings().paid(person, asset)
    }
}
