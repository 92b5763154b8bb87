//! What a node gives once it left.

ghost use Rattle.std.specs.Prelude.{◌≡◌, ◌&&◌, None, if◌then◌else◌};
ghost use Rattle.std.specs.Option.{option_map};
ghost use Rattle.channel_values.specs.Rules.{newest};
ghost use Rattle.channel_store.specs.Keeping.{is_held};
ghost use Rattle.call_history.specs.Mode.{is_final};
ghost use Rattle.node_knowledge.specs.Left.{challenge_on};
ghost use Rattle.channel_node.specs.Leaving.{challenge_with};
ghost use Rattle.channel_node.specs.Leaving as leaving;
ghost use Rattle.channel_node.specs.Refusing as refusing;

use call_history::{Standing, mode};
use channel_store::Kept;
use channel_values::{Chain, Name, State};
use funding_plans::Facts;
use history_view::view_of;
use std::marker::Model;

/// A chain to challenge with, its newest state, and the challenger's position.
#[derive(Drop)]
pub struct Challenger<'a> {
    pub chain: &'a Chain,
    pub state: &'a State,
    pub who: u8,
}

impl<'a> Model for Challenger<'a> {
    ghost use Rattle.channel_node.specs.Leaving.{OwnChallenge};

    ghost Value = { OwnChallenge };

    ghost view = { λ c. record { chain = c.chain.now; state = c.state.now; who = c.who } };
}

/// How a channel stands.
#[tactic(auto, using(crate::proofs::Standings::stands_unknown, crate::proofs::Standings::stands_known))]
pub fn stands_in(facts: &Facts, channel: &Name) -> Standing
    ensures { result ≡ refusing.stands_in facts.now channel.now }
{
    match view_of(facts.view, channel) {
        None => Standing::Open,
        Some(view) => mode(view.deadline, facts.view.now),
    }
}

pub fn is_open(standing: Standing) -> bool
    ensures { result ≡ refusing.is_open standing }
{
    match standing {
        Standing::Open => true,
        _ => false,
    }
}

/// Whether a chain is held: each participant has a mark.
fn is_held(k: &Kept) -> bool
    ensures { result ≡ is_held k.now }
{
    k.chain.fixed.keys().len() <= k.chain.marks.as_slice().len()
}

fn challenge_with(k: &Kept) -> Option<Challenger<'_>>
    ensures { result ≡ challenge_with k.now (newest k.now.chain.states) }
{
    match k.latest() {
        None => None,
        Some(state) => Some(Challenger {
            chain: &k.chain,
            state,
            who: k.me,
        }),
    }
}

/// What is challenged with in a channel that is kept, and nothing in others.
pub(crate) fn challenge_of<'a>(
    facts: &Facts,
    channel: &Name,
    kept: Option<&'a Kept>,
) -> Option<Challenger<'a>>
    ensures { result ≡ challenge_on facts.now channel.now (option_map (λ m. m.now) kept.entry) }
{
    match kept {
        None => None,
        Some(k) => {
            if is_held(k) && is_open(stands_in(facts, channel)) {
                challenge_with(k)
            } else {
                None
            }
        }
    }
}

fn is_final(standing: Standing) -> bool
    ensures { result ≡ is_final standing }
{
    match standing {
        Standing::Final => true,
        _ => false,
    }
}

/// Whether all channels with a held chain are final.
pub(crate) fn is_over(facts: &Facts) -> bool
    ensures { result ≡ leaving.is_over facts.now }
{
    facts
        .chains
        .iter()
        .all(|held| is_final(stands_in(facts, &held.channel)))
}
