//! The amounts that an outcome of the joint channel has for the ends.

ghost use Rattle.std.specs.Prelude.{◌≡◌};
ghost use Rattle.funding_plans.specs.Targets as targets;

use crate::aim::{Aim, AimKind};
use crate::terms::Terms;
use channel_values::{Item, is_outcome, item_in};

/// Whether the bytes spell the outcome that has these amounts for the ends, and they make up the total.
fn is_apart(terms: &Terms, bytes: &[u8], a: u64, b: u64) -> bool
    ensures { result ≡ targets.is_apart terms.now bytes.now (a, b) }
{
    a as u128 + b as u128 == terms.total as u128
        && Aim::make(AimKind::Apart(*terms, a, b)).is_spelled(bytes)
}

fn apart_if(terms: &Terms, bytes: &[u8], a: u64, b: u64) -> Option<(u64, u64)>
    ensures { result ≡ targets.amounts_if (targets.is_apart terms.now bytes.now (a, b)) (a, b) }
{
    if is_apart(terms, bytes, a, b) {
        Some((a, b))
    } else {
        None
    }
}

fn apart_with(
    terms: &Terms,
    bytes: &[u8],
    first: Option<Item>,
    second: Option<Item>,
) -> Option<(u64, u64)>
    ensures { result ≡ targets.apart_with terms.now bytes.now first second }
{
    match (first, second) {
        (Some(first), Some(second)) => apart_if(terms, bytes, first.amount, second.amount),
        _ => None,
    }
}

/// The amounts for the ends, where the bytes spell an outcome that has such and they make up the total.
#[tactic(auto, using(crate::proofs::Aparts::apart_of_bytes, crate::proofs::Aparts::no_outcome))]
pub fn apart_spelled(terms: &Terms, bytes: &[u8]) -> Option<(u64, u64)>
    ensures { result ≡ targets.apart_spelled terms.now bytes.now }
{
    if !is_outcome(bytes) {
        return None;
    }
    let first = item_in(bytes, terms.asset, 0);
    let second = item_in(bytes, terms.asset, 1);
    apart_with(terms, bytes, first, second)
}
