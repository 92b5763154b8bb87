//! The channels that count, and the outcomes that they can end with.

ghost use Rattle.std.specs.Prelude.{◌≡◌, ◌++◌, ◌∷◌, [], IfOk, OnOk};
ghost use Rattle.std.specs.Option.{option_copied};
ghost use Rattle.std.specs.Result.{result_ok};
ghost use Rattle.std.specs.Str.{bytes_eq};
ghost use Rattle.channel_values.specs.Reading.{outcome_of};
ghost use Rattle.call_history.specs.Mode.{mode_at, is_final};
ghost use Rattle.call_history.specs.Flows.{is_among};
ghost use Rattle.history_view.specs.Views.{view_of};
ghost use Rattle.share_laws.specs.Books.{one_of, outcome_in, counts_in};
ghost use Rattle.share_laws.specs.Places.{proposed, listed, outcomes_of, counting_of};
ghost use Rattle.plan_share.specs.Pages.{or_empty, is_same_in, differs};
ghost use Rattle.plan_share.specs.Seen.{possible_seen, counting_seen};

use crate::amounts::{are_same_dests, are_same_items};
use call_history::{Known, Standing, WorldView, mode};
use channel_values::{AssetOutcome, ByteFault, Name, NoMemory, Outcome, read_outcome};
use funding_plans::{items_in, list_in};
use history_view::view_of;
use std::alloc::Global;
use std::marker::Model;

/// A channel that counts: the outcome that it can end with, and the one that is proposed in place of it, if there is
/// one.
#[derive(Drop)]
pub(crate) struct Ending<'a> {
    channel: Name,
    outcome: &'a Outcome,
    proposal: Option<Outcome>,
}

impl<'a> Model for Ending<'a> {
    ghost use Rattle.share_laws.specs.Books.{Counting};

    ghost Value = { Counting };

    ghost view = { λ e. record { channel = e.channel; outcome = e.outcome.now; proposal = e.proposal } };
}

fn is_among(name: &Name, names: &[Name]) -> bool
    ensures { result ≡ is_among name.now names.now }
{
    names.iter().any(|other| *name == *other)
}

/// Whether two outcomes have the same for an asset.
fn is_same_in(asset: u32, one: &Outcome, other: &Outcome) -> bool
    ensures { result ≡ is_same_in asset one.now other.now }
{
    are_same_items(items_in(one, asset), items_in(other, asset))
        && are_same_dests(list_in(one, asset), list_in(other, asset))
}

impl<'a> Ending<'a> {
    pub(crate) fn channel(&self) -> Name
        ensures { result ≡ self.now.channel }
    {
        self.channel
    }

    pub(crate) fn outcome(&self) -> &[AssetOutcome]
        ensures { result.now ≡ self.now.outcome }
    {
        self.outcome.assets()
    }

    /// What is proposed, or nothing.
    pub(crate) fn proposal(&self) -> &[AssetOutcome]
        ensures { result.now ≡ or_empty self.now.proposal }
    {
        match &self.proposal {
            None => &[],
            Some(proposal) => proposal.assets(),
        }
    }

    fn is_of(&self, channel: &Name) -> bool
        ensures { result ≡ bytes_eq self.now.channel channel.now }
    {
        self.channel == *channel
    }

    /// The proposal where there is one and it is taken, else the outcome.
    fn chosen(&self, taken: &[Name]) -> &Outcome
        ensures { result.now ≡ one_of self.now.proposal (is_among self.now.channel taken.now) self.now.outcome }
    {
        match &self.proposal {
            None => self.outcome,
            Some(proposal) => {
                if is_among(&self.channel, taken) {
                    proposal
                } else {
                    self.outcome
                }
            }
        }
    }

    /// Whether there is a proposal that has something else for an asset.
    pub(crate) fn differs(&self, asset: u32) -> bool
        ensures { result ≡ differs asset self.now.outcome self.now.proposal }
    {
        match &self.proposal {
            None => false,
            Some(proposal) => !is_same_in(asset, self.outcome, proposal),
        }
    }
}

/// The outcome of a channel where these proposals are taken, if the channel counts.
pub(crate) fn outcome_in<'b>(
    endings: &'b [Ending],
    taken: &[Name],
    channel: &Name,
) -> Option<&'b Outcome>
    ensures { or_empty (option_copied result) ≡ outcome_in endings.now taken.now channel.now }
{
    match endings {
        [] => None,
        [ending, others @ ..] => {
            if ending.is_of(channel) {
                Some(ending.chosen(taken))
            } else {
                outcome_in(others, taken, channel)
            }
        }
    }
}

pub(crate) fn counts_in(endings: &[Ending], channel: &Name) -> bool
    ensures { result ≡ counts_in endings.now channel.now }
{
    match endings {
        [] => false,
        [ending, others @ ..] => ending.is_of(channel) || counts_in(others, channel),
    }
}

/// The outcome that the bytes spell, if they spell one.
fn spelled(alloc: Global, bytes: &[u8]) -> Result<Option<Outcome>, NoMemory>
    ensures { IfOk result (λ o. o ≡ result_ok (outcome_of bytes.now)) }
{
    match read_outcome(alloc, bytes) {
        Ok(outcome) => Ok(Some(outcome)),
        Err(ByteFault::NoMemory) => Err(NoMemory),
        Err(_) => Ok(None),
    }
}

/// The outcome that the votes of a state's data are for, if there are votes.
fn proposed(alloc: Global, app_bytes: &[u8]) -> Result<Option<Outcome>, NoMemory>
    ensures { IfOk result (λ o. o ≡ proposed app_bytes.now) }
{
    match app_bytes {
        [] => Ok(None),
        [votes, bytes @ ..] => {
            if 1 <= *votes && *votes <= 3 {
                spelled(alloc, bytes)
            } else {
                Ok(None)
            }
        }
    }
}

fn is_final(deadline: Option<u64>, now: u64) -> bool
    ensures { result ≡ is_final (mode_at deadline now) }
{
    mode(deadline, now) == Standing::Final
}

fn is_final_in(view: &WorldView, channel: &Name) -> bool
    ensures { result ≡ is_final (mode_at (view_of view.entry.now.channels channel.now).deadline view.entry.now.now) }
{
    match view_of(view, channel) {
        None => false,
        Some(seen) => is_final(seen.deadline, view.now),
    }
}

/// What is left of the outcome of the last challenge or conclude.
fn rest_in<'a>(view: &'a WorldView, channel: &Name) -> Option<&'a Outcome>
    ensures { option_copied result ≡ (view_of view.entry.now.channels channel.now).rest }
{
    match view_of(view, channel) {
        None => None,
        Some(seen) => seen.rest.as_ref(),
    }
}

/// The one outcome of a final channel, if there is one.
fn final_ending<'a>(channel: &Name, rest: Option<&'a Outcome>) -> Option<Ending<'a>>
    ensures { listed result ≡ counting_of channel.now (listed (option_copied rest.entry)) }
{
    match rest {
        None => None,
        Some(outcome) => Some(Ending {
            channel: *channel,
            outcome,
            proposal: None,
        }),
    }
}

/// The outcomes of a state that was signed last.
#[tactic(auto, using(crate::proofs::Countings::counting_of_both))]
fn open_ending<'a>(alloc: Global, known: &'a Known) -> Result<Ending<'a>, NoMemory>
    ensures { IfOk result (λ e. e ∷ [] ≡ counting_of known.now.channel (outcomes_of known.now.last)) }
{
    let proposal = proposed(alloc, known.last.app_bytes())?;
    Ok(Ending {
        channel: known.channel,
        outcome: known.last.outcome(),
        proposal,
    })
}

/// What a channel can end with, if it counts.
fn read_ending<'a>(
    alloc: Global,
    view: &'a WorldView,
    known: &'a Known,
) -> Result<Option<Ending<'a>>, NoMemory>
    ensures { IfOk result (λ e. listed e
        ≡ counting_of known.now.channel
        (possible_seen view.entry.now.now (view_of view.entry.now.channels known.now.channel) known.now.last)) }
{
    if is_final_in(view, &known.channel) {
        let rest = rest_in(view, &known.channel);
        return Ok(final_ending(&known.channel, rest));
    }
    let ending = open_ending(alloc, known)?;
    Ok(Some(ending))
}

fn put_ending<'a>(endings: &mut Vec<Ending<'a>>, ending: Option<Ending<'a>>) -> Result<(), NoMemory>
    ensures { OnOk result (endings.new.items ≡ endings.old.items ++ listed ending.entry) }
{
    if let Some(ending) = ending {
        endings.push(ending)?;
    }
    Ok(())
}

/// The channels that count, of which these states were signed last.
pub(crate) fn read_endings<'a>(
    alloc: Global,
    view: &'a WorldView,
    known: &'a [Known],
) -> Result<Vec<Ending<'a>>, NoMemory>
    ensures { IfOk result (λ v. v.items ≡ counting_seen view.entry.now known.now) }
{
    let mut endings = Vec::new(alloc);
    for state in known {
        let ending = read_ending(alloc, view, state)?;
        put_ending(&mut endings, ending)?;
    }
    Ok(endings)
}
