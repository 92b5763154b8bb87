//! Amounts by key: maps that keep a running amount for each key, in the order in which the keys first had one.

ghost use Rattle.std.specs.Prelude.{◌≡◌, ◌+◌, ◌≤◌, Bool, if◌then◌else◌};
ghost use Rattle.indexmap.specs.IndexMap.{spare};
ghost use Rattle.asset_holder.specs.Amounts.{amount_in, total, Respects};

use indexmap::IndexMap;
use std::hash::Hash;

/// The amount of a key, 0 where it has none.
pub fn amount<K: Eq + Hash>(amounts: &IndexMap<K, u64>, key: &K) -> u64
    ensures { result ≡ amount_in K.eq amounts.now.entries key.now }
{
    match amounts.get(key) {
        Some(amount) => *amount,
        None => 0,
    }
}

/// The key has this amount, and the others keep theirs.
pub fn set_amount<K: Eq + Hash + Drop>(amounts: &mut IndexMap<K, u64>, key: K, amount: u64)
    requires { 1 ≤ spare amounts.old }
    ensures amounts { (k : K) → amount_in K.eq amounts.new.entries k
        ≡ (if K.eq key k then amount else amount_in K.eq amounts.old.entries k) }
    ensures totals { (test : K → Bool) → Respects K.eq test
        → total test amounts.new.entries + (if test key then amount_in K.eq amounts.old.entries key else 0)
        ≡ total test amounts.old.entries + (if test key then amount else 0) }
    ensures room { spare amounts.old ≤ spare amounts.new + 1 }
{
    amounts.insert(key, amount).unwrap();
}
