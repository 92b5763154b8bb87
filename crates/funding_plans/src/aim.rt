//! An outcome that is described and not yet built.

ghost use Rattle.std.specs.Prelude.{◌≡◌, IfOk};
ghost use Rattle.std.specs.Str.{bytes_eq};
ghost use Rattle.channel_values.specs.declared.value.Shape.TheVariants.{Allocation};
ghost use Rattle.channel_values.specs.Spelling.{outcome};
ghost use Rattle.funding_plans.specs.Aims as aims;
ghost use Rattle.funding_plans.specs.Targets as targets;
ghost use Rattle.funding_plans.specs.Limits.{if_valid};

use crate::changed::Changed;
use crate::pieces::{is_guarantee, is_plain};
use crate::terms::Terms;
use crate::valid::{outcome_of, valid_copy};
use channel_values::{AssetOutcome, Dest, Item, Listed, Name, NoMemory, Outcome, Shape};
use std::alloc::Global;
use std::marker::Model;

#[derive(Drop)]
pub enum AimKind<'a> {
    Given(&'a Outcome),
    Moved(Changed<'a>),
    Apart(Terms, u64, u64),
    Together(Terms),
    Guaranteed(Terms, Name, Name),
}

/// An outcome that is compared before it is built. Contracts see the outcome.
#[derive(Drop)]
pub struct Aim<'a> {
    kind: AimKind<'a>,
}

impl<'a> Model for Aim<'a> {
    ghost use Rattle.std.specs.Prelude.{List};
    ghost use Rattle.channel_values.specs.declared.value.AssetOutcome.{AssetOutcome};
    ghost use Rattle.funding_plans.specs.Aims.{outcome_of_kind};

    ghost Value = { List AssetOutcome };

    ghost view = { λ a. outcome_of_kind a.kind };
}

impl<'a> Aim<'a> {
    pub fn make(kind: AimKind<'a>) -> Aim<'a>
        ensures { result ≡ aims.outcome_of_kind kind.entry }
    {
        Aim { kind }
    }

    /// Whether the bytes spell it.
    pub fn is_spelled(&self, bytes: &[u8]) -> bool
        ensures { result ≡ bytes_eq bytes.now (outcome self.now) }
    {
        is_kind_spelled(&self.kind, bytes)
    }

    /// The outcome, where it is valid.
    pub fn build(&self, alloc: Global) -> Result<Option<Outcome>, NoMemory>
        ensures { IfOk result (λ o. o ≡ if_valid self.now) }
    {
        build_kind(&self.kind, alloc)
    }
}

fn is_kind_spelled(kind: &AimKind, bytes: &[u8]) -> bool
    ensures { result ≡ bytes_eq bytes.now (outcome (aims.outcome_of_kind kind.now)) }
{
    match kind {
        AimKind::Given(ends) => bytes == ends.bytes(),
        AimKind::Moved(changed) => changed.is_spelled(bytes),
        AimKind::Apart(terms, a, b) => is_plain(bytes, terms.asset, &terms.apart(*a, *b)),
        AimKind::Together(terms) => is_plain(bytes, terms.asset, &terms.together()),
        AimKind::Guaranteed(terms, joint, end) => {
            is_guarantee(bytes, terms.asset, joint, &terms.listed(end))
        }
    }
}

fn build_kind(kind: &AimKind, alloc: Global) -> Result<Option<Outcome>, NoMemory>
    ensures { IfOk result (λ o. o ≡ if_valid (aims.outcome_of_kind kind.now)) }
{
    match kind {
        AimKind::Given(ends) => valid_copy(ends),
        AimKind::Moved(changed) => changed.make(alloc),
        AimKind::Apart(terms, a, b) => plain(alloc, terms.asset, &terms.apart(*a, *b)),
        AimKind::Together(terms) => plain(alloc, terms.asset, &terms.together()),
        AimKind::Guaranteed(terms, joint, end) => {
            let dests = Vec::from_slice(alloc, &terms.listed(end))?;
            only(
                alloc,
                terms.asset,
                Shape::Guarantee(*joint, Listed::make(dests)),
            )
        }
    }
}

fn plain(alloc: Global, asset: u32, items: &[Item]) -> Result<Option<Outcome>, NoMemory>
    ensures { IfOk result (λ o. o ≡ if_valid (targets.only asset (Allocation items.now))) }
{
    let items = Vec::from_slice(alloc, items)?;
    only(alloc, asset, Shape::Allocation(Listed::make(items)))
}

fn only(alloc: Global, asset: u32, shape: Shape) -> Result<Option<Outcome>, NoMemory>
    ensures { IfOk result (λ o. o ≡ if_valid (targets.only asset shape)) }
{
    let mut assets = Vec::new(alloc);
    assets.push(AssetOutcome { asset, shape })?;
    outcome_of(alloc, assets)
}
