//! What persons were paid, by person and asset.

ghost use Rattle.std.specs.Prelude.{◌≡◌, [], OnOk, unwrap_or};
ghost use Rattle.std.specs.Map.{lookup};
ghost use Rattle.call_history.specs.Viewed.{paid_amount, paid_with, same_key};

use channel_values::{Name, NoMemory};
use indexmap::IndexMap;
use std::alloc::Global;
use std::marker::Model;

/// What each person was paid of each asset, in the order in which they were first paid. Contracts see the list of persons,
/// assets and amounts.
#[derive(Drop)]
pub struct PaidAmounts {
    amounts: IndexMap<(Name, u32), u64>,
}

impl Model for PaidAmounts {
    ghost use Rattle.std.specs.Prelude.{ℕ, List};
    ghost use Rattle.call_history.specs.Viewed.{paid_rows};

    ghost Value = { List (List ℕ × ℕ × ℕ) };

    ghost view = { λ s. paid_rows s.amounts.entries };
}

/// The amount of the person and the asset, 0 where there is none.
fn amount_in(amounts: &IndexMap<(Name, u32), u64>, person: &Name, asset: u32) -> u64
    ensures { result ≡ unwrap_or (lookup (same_key (person.now, asset)) amounts.now.entries) 0 }
{
    match amounts.get(&(*person, asset)) {
        Some(amount) => *amount,
        None => 0,
    }
}

impl PaidAmounts {
    /// Nobody was paid.
    pub fn new(alloc: Global) -> PaidAmounts
        ensures { result ≡ [] }
    {
        PaidAmounts {
            amounts: IndexMap::new(alloc),
        }
    }

    /// What the person was paid of the asset.
    pub fn amount(&self, person: &Name, asset: u32) -> u64
        ensures { result ≡ paid_amount self.now person.now asset }
    {
        amount_in(&self.amounts, person, asset)
    }

    /// The person was paid this much of the asset.
    pub fn set(&mut self, person: &Name, asset: u32, amount: u64) -> Result<(), NoMemory>
        ensures { OnOk result (self.new ≡ paid_with (λ before. amount) person.now asset self.old) }
    {
        self.amounts.insert((*person, asset), amount)?;
        Ok(())
    }
}
