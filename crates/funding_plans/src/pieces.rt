//! Comparing bytes with a spelling that is never built.

ghost use Rattle.std.specs.Prelude.{◌≡◌, ◌∷◌};
ghost use Rattle.std.specs.Option.{option_copied};
ghost use Rattle.std.specs.Str.{bytes_eq};
ghost use Rattle.channel_values.specs.declared.value.Shape.TheVariants.{Allocation, Guarantee};
ghost use Rattle.channel_values.specs.Spelling.{dest, count, outcome};
ghost use Rattle.funding_plans.specs.Targets.{only};
ghost use Rattle.funding_plans.specs.Behind as spells;

use channel_values::{AssetOutcome, Dest, Item, Shape};

/// What is left after a piece, where the bytes begin with it.
pub(crate) fn behind<'a>(bytes: &'a [u8], piece: &[u8]) -> Option<&'a [u8]>
    ensures { option_copied result ≡ spells.behind piece.now bytes.now }
{
    match piece {
        [] => Some(bytes),
        [first, others @ ..] => match bytes {
            [byte, rest @ ..] if byte == first => behind(rest, others),
            _ => None,
        },
    }
}

pub(crate) fn behind_dest<'a>(bytes: &'a [u8], to: &Dest) -> Option<&'a [u8]>
    ensures { option_copied result ≡ spells.behind (dest to.now) bytes.now }
{
    match to {
        Dest::Person(name) => match bytes {
            [1, rest @ ..] => behind(rest, name),
            _ => None,
        },
        Dest::Channel(name) => match bytes {
            [2, rest @ ..] => behind(rest, name),
            _ => None,
        },
    }
}

pub(crate) fn behind_item<'a>(bytes: &'a [u8], item: &Item) -> Option<&'a [u8]>
    ensures { option_copied result ≡ spells.behind_item item.now bytes.now }
{
    let rest = behind_dest(bytes, &item.to)?;
    behind(rest, &item.amount.to_be_bytes())
}

fn behind_items<'a>(bytes: &'a [u8], items: &[Item]) -> Option<&'a [u8]>
    ensures { option_copied result ≡ spells.behind_items items.now bytes.now }
{
    match items {
        [] => Some(bytes),
        [item, others @ ..] => {
            let rest = behind_item(bytes, item)?;
            behind_items(rest, others)
        }
    }
}

fn behind_dests<'a>(bytes: &'a [u8], dests: &[Dest]) -> Option<&'a [u8]>
    ensures { option_copied result ≡ spells.behind_dests dests.now bytes.now }
{
    match dests {
        [] => Some(bytes),
        [to, others @ ..] => {
            let rest = behind_dest(bytes, to)?;
            behind_dests(rest, others)
        }
    }
}

pub(crate) fn byte_of(length: usize) -> u8
    ensures { result ≡ count length }
{
    length.min(255) as u8
}

fn behind_shape<'a>(bytes: &'a [u8], shape: &Shape) -> Option<&'a [u8]>
    ensures { option_copied result ≡ spells.behind_shape shape.now bytes.now }
{
    match shape {
        Shape::Allocation(items) => {
            let items = items.as_slice();
            let rest = behind(bytes, &[1, byte_of(items.len())])?;
            behind_items(rest, items)
        }
        Shape::Guarantee(target, dests) => {
            let dests = dests.as_slice();
            let rest = behind_tagged(bytes, target)?;
            let rest = behind(rest, &[byte_of(dests.len())])?;
            behind_dests(rest, dests)
        }
    }
}

fn behind_tagged<'a>(bytes: &'a [u8], target: &[u8; 32]) -> Option<&'a [u8]>
    ensures { option_copied result ≡ spells.behind (2 ∷ target.now) bytes.now }
{
    match bytes {
        [2, rest @ ..] => behind(rest, target),
        _ => None,
    }
}

#[tactic(auto, unfolding(crate::specs::Behind::behind_asset))]
pub(crate) fn behind_asset<'a>(bytes: &'a [u8], o: &AssetOutcome) -> Option<&'a [u8]>
    ensures { option_copied result ≡ spells.behind_asset o.now bytes.now }
{
    let rest = behind(bytes, &o.asset.to_be_bytes())?;
    behind_shape(rest, &o.shape)
}

pub(crate) fn is_end(rest: Option<&[u8]>) -> bool
    ensures { result ≡ spells.is_end (option_copied rest.entry) }
{
    match rest {
        Some([]) => true,
        _ => false,
    }
}

#[tactic(auto, unfolding(crate::specs::Behind::behind_asset))]
fn behind_plain<'a>(bytes: &'a [u8], asset: u32, items: &[Item]) -> Option<&'a [u8]>
    ensures { option_copied result ≡ spells.behind_outcome (only asset (Allocation items.now)) bytes.now }
{
    let rest = behind(bytes, &[1])?;
    let rest = behind(rest, &asset.to_be_bytes())?;
    let rest = behind(rest, &[1, byte_of(items.len())])?;
    behind_items(rest, items)
}

#[tactic(auto, using(crate::proofs::Spells::outcome_ends))]
/// Whether the bytes spell an outcome of one asset and these items.
pub fn is_plain(bytes: &[u8], asset: u32, items: &[Item]) -> bool
    ensures { result ≡ bytes_eq bytes.now (outcome (only asset (Allocation items.now))) }
{
    is_end(behind_plain(bytes, asset, items))
}

#[tactic(auto, unfolding(crate::specs::Behind::behind_asset))]
fn behind_guarantee<'a>(
    bytes: &'a [u8],
    asset: u32,
    target: &[u8; 32],
    dests: &[Dest],
) -> Option<&'a [u8]>
    ensures { option_copied result ≡ spells.behind_outcome (only asset (Guarantee target.now dests.now)) bytes.now }
{
    let rest = behind(bytes, &[1])?;
    let rest = behind(rest, &asset.to_be_bytes())?;
    let rest = behind_tagged(rest, target)?;
    let rest = behind(rest, &[byte_of(dests.len())])?;
    behind_dests(rest, dests)
}

/// Whether the bytes spell an outcome of one asset and this guarantee.
pub fn is_guarantee(bytes: &[u8], asset: u32, target: &[u8; 32], dests: &[Dest]) -> bool
    ensures { result ≡ bytes_eq bytes.now (outcome (only asset (Guarantee target.now dests.now))) }
{
    is_end(behind_guarantee(bytes, asset, target, dests))
}
