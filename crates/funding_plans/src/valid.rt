//! Outcomes that keep their limits.

ghost use Rattle.std.specs.Prelude.{◌≡◌, IfOk};
ghost use Rattle.funding_plans.specs.Limits.{if_valid};

use channel_values::{AssetOutcome, ByteFault, NoMemory, Outcome};
use std::alloc::Global;

/// The outcome of these assets, where they keep the limits.
pub(crate) fn outcome_of(
    alloc: Global,
    assets: Vec<AssetOutcome>,
) -> Result<Option<Outcome>, NoMemory>
    ensures { IfOk result (λ o. o ≡ if_valid assets.items) }
{
    match Outcome::make(alloc, assets) {
        Ok(made) => Ok(Some(made)),
        Err(ByteFault::NoMemory) => Err(NoMemory),
        Err(_) => Ok(None),
    }
}

/// A copy of an outcome, which is valid by its type.
#[tactic(auto, using(crate::proofs::Valids::outcomes_are_valid))]
pub(crate) fn valid_copy(outcome: &Outcome) -> Result<Option<Outcome>, NoMemory>
    ensures { IfOk result (λ o. o ≡ if_valid outcome.now) }
{
    let copy = outcome.copy()?;
    let _assets = copy.assets();
    Ok(Some(copy))
}
