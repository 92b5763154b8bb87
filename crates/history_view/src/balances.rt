//! What a channel holds by asset, and what persons were paid.

ghost use Rattle.std.specs.Prelude.{◌≡◌, ◌<◌, ◌+◌, ◌-◌, ◌^◌, ◌==◌, OnOk};
ghost use Rattle.std.specs.List.{position_or_len};
ghost use Rattle.history_view.specs.Views.{is_in, held_amount, held_with, paid_amount, paid_with};

use call_history::PaidAmounts;
use channel_values::{Listed, Name, NoMemory};

fn is_in(balance: &(u32, u64), asset: u32) -> bool
    ensures { result ≡ is_in asset balance.now }
{
    balance.0 == asset
}

/// The place of the asset, or the length where nothing was ever held of it.
fn place_in(held: &[(u32, u64)], asset: u32) -> usize
    ensures { result ≡ position_or_len (is_in asset) held.now }
{
    for (place, balance) in held.iter().enumerate() {
        if is_in(balance, asset) {
            return place;
        }
    }
    held.len()
}

/// What is held of the asset.
#[tactic(auto, using(crate::proofs::Amounts::held_at, crate::proofs::Amounts::held_past))]
pub(crate) fn amount_held(held: &[(u32, u64)], asset: u32) -> u64
    ensures { result ≡ held_amount held.now asset }
{
    let place = place_in(held, asset);
    if place < held.len() { held[place].1 } else { 0 }
}

/// Sets what is held of the asset.
#[tactic(auto, using(crate::proofs::Amounts::held_set_at, crate::proofs::Amounts::held_set_past))]
fn set_held(held: &mut Listed<(u32, u64)>, asset: u32, amount: u64) -> Result<(), NoMemory>
    ensures { OnOk result (held.new ≡ held_with (λ before. amount) asset held.old) }
{
    let place = place_in(held.as_slice(), asset);
    if place < held.as_slice().len() {
        held.set(place, (asset, amount));
        Ok(())
    } else {
        held.push((asset, amount))
    }
}

/// Takes an amount from what is held of the asset.
pub(crate) fn lower_held(
    held: &mut Listed<(u32, u64)>,
    asset: u32,
    amount: u64,
) -> Result<(), NoMemory>
    ensures { OnOk result (held.new ≡ held_with (λ n. n - amount) asset held.old) }
{
    let left = amount_held(held.as_slice(), asset).saturating_sub(amount);
    set_held(held, asset, left)
}

/// Adds an amount to what is held of the asset.
pub(crate) fn raise_held(
    held: &mut Listed<(u32, u64)>,
    asset: u32,
    amount: u64,
) -> Result<(), NoMemory>
    requires { held_amount held.old asset + amount < 2 ^ 64 }
    ensures { OnOk result (held.new ≡ held_with (λ n. n + amount) asset held.old) }
{
    let more = amount_held(held.as_slice(), asset) + amount;
    set_held(held, asset, more)
}

/// Adds an amount to what the person was paid of the asset.
pub(crate) fn raise_paid(
    paid: &mut PaidAmounts,
    person: &Name,
    asset: u32,
    amount: u64,
) -> Result<(), NoMemory>
    requires { paid_amount paid.old person.now asset + amount < 2 ^ 64 }
    ensures { OnOk result (paid.new ≡ paid_with (λ n. n + amount) person.now asset paid.old) }
{
    let more = paid.amount(person, asset) + amount;
    paid.set(person, asset, more)
}
