//! Sums by key.

ghost use Rattle.std.specs.Prelude.{◌≡◌, ◌+◌, ◌<◌, ◌^◌, OnOk};
ghost use Rattle.asset_holder.specs.Amounts.{amount_in};
ghost use Rattle.asset_holder.specs.Sums.{AddsTo};

use call_history::Flow;
use channel_values::NoMemory;
use indexmap::IndexMap;
use std::hash::Hash;

pub(crate) fn amount_of(flow: &Flow) -> u64
    ensures { result ≡ flow.now.amount }
{
    flow.amount
}

/// The sum of a key, 0 where it has none.
pub(crate) fn sum<K: Eq + Hash>(sums: &IndexMap<K, u128>, key: &K) -> u128
    ensures { result ≡ amount_in K.eq sums.now.entries key.now }
{
    match sums.get(key) {
        Some(sum) => *sum,
        None => 0,
    }
}

/// Adds to the sum of a key. Funds may pass through a channel again and again, so a sum may be above any `u64`.
pub(crate) fn add<K: Eq + Hash + Drop>(
    sums: &mut IndexMap<K, u128>,
    key: K,
    more: u64,
) -> Result<(), NoMemory>
    requires { amount_in K.eq sums.old.entries key + more < 2 ^ 128 }
    ensures { OnOk result (AddsTo K.eq sums.old.entries key more sums.new.entries) }
{
    let sum = sum(sums, &key) + u128::from(more);
    sums.insert(key, sum)?;
    Ok(())
}
