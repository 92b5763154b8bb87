//! The limits on the values of steps.

ghost use Rattle.std.specs.Prelude.{◌≡◌, ◌==◌, ◌&&◌, ◌||◌, ◌^◌, not, length, nat_lt, nat_le};
ghost use Rattle.script_steps.specs.Context.{has_index};
ghost use Rattle.script_steps.specs.Conditions.{within, is_able, fits, fits_nodes, runs_in_race};

use crate::context::Context;
use crate::step::Step;
use channel_values::{AssetOutcome, Label};

/// A script has at most so many steps.
pub const STEP_LIMIT: usize = 4096;

fn within(n: u64, low: u64, high: u64) -> bool
    ensures { result ≡ within n low high }
{
    low <= n && n <= high
}

/// Whether a person may have such a key, and so many watchers.
fn is_able(h: u64, node: bool, watchers: u64) -> bool
    ensures { result ≡ is_able h node watchers }
{
    let watched = if node {
        within(watchers, 1, 4)
    } else {
        watchers == 0
    };
    (h == 5 || h == 10) && watched
}

impl Context {
    fn fits_channel(&self, people: &[Label], app: u8, duration: u64) -> bool
        ensures { result ≡ (within (length people.now) 2 4 && (not (app == 1) || length people.now == 2)
            && within duration 1 4294967295 && nat_lt (length self.now.channels) 64) }
    {
        let count = people.len();
        within(count as u64, 2, 4)
            && (app != 1 || count == 2)
            && within(duration, 1, 4294967295)
            && self.channels.as_slice().len() < 64
    }

    fn fits_state(&self, by: &Label, turn: u64, votes: u64, proposal: &[AssetOutcome]) -> bool
        ensures { result ≡ (nat_lt turn (2 ^ 48) && nat_le votes 3 && (not (votes == 0) || length proposal.now == 0)
            && has_index self.now by.now) }
    {
        turn < 1 << 48
            && votes <= 3
            && (votes != 0 || proposal.is_empty())
            && self.has_index(by.as_str())
    }

    fn fits_nodes(&self, step: &Step) -> bool
        ensures { result ≡ fits_nodes self.now step.now }
    {
        match step {
            Step::Catch(keys) => keys.turn < 1 << 48,
            Step::OpenOn(keys) => keys.asset < 1 << 32,
            Step::Pay(keys) => keys.asset < 1 << 32,
            Step::OpenVirtual(keys) => {
                keys.ledgers.as_slice().len() == 2
                    && keys.guarantors.as_slice().len() == 2
                    && keys.asset < 1 << 32
            }
            Step::Rounds { count } => { within(*count, 1, 64) && self.rounds <= 4096 - *count }
            _ => true,
        }
    }

    /// Whether the step is within its limits.
    pub fn fits(&self, step: &Step) -> bool
        ensures { result ≡ fits self.now step.now }
    {
        match step {
            Step::Deposit(keys) => keys.asset < 1 << 32,
            Step::Person(keys) => {
                is_able(keys.h, keys.node, keys.watchers) && self.people.as_slice().len() < 16
            }
            Step::Channel(keys) => {
                self.fits_channel(keys.people.as_slice(), keys.app, keys.duration)
            }
            Step::Sign(keys) => {
                self.fits_state(&keys.by, keys.turn, keys.votes, keys.proposal.assets())
            }
            Step::Challenge(keys) => {
                keys.chain.as_slice().len() <= 4 && self.has_index(keys.by.as_str())
            }
            Step::Checkpoint { chain, .. } | Step::Conclude { chain, .. } => {
                chain.as_slice().len() <= 4
            }
            Step::Transfer(keys) => keys.asset < 1 << 32 && keys.index < 1 << 8,
            Step::Claim(keys) => keys.asset < 1 << 32 && keys.position < 1 << 8,
            _ => self.fits_nodes(step),
        }
    }
}

/// Whether the step may stand in a race.
pub fn runs_in_race(step: &Step) -> bool
    ensures { result ≡ runs_in_race step.now }
{
    match step {
        Step::Time { .. } => false,
        Step::Channel(keys) => keys.duration != 1,
        _ => true,
    }
}
