//! The lines of a history's end and of its balances.

ghost use Rattle.std.specs.Prelude.{◌≡◌, length, IfOk, List, ℕ, string_bytes};
ghost use Rattle.call_history.specs.Flows.{AreWithinAmounts};
ghost use Rattle.call_history.specs.History.{newest_first, now_of};
ghost use Rattle.call_history.specs.declared.entry.Entry.{Entry};
ghost use Rattle.report_lines.specs.Text.{end_line, asset_line, balance_line, held_line, paid_line};

use crate::names::{channel_text, person_text};
use asset_holder::Balances;
use channel_values::{Dest, Label};
use std::alloc::{AllocError, Global};

/// How many entries a history has, and the time after it.
pub fn end_line(alloc: Global, count: usize, now: u64) -> Result<String, AllocError>
    ensures { (h : List Entry) → length h ≡ count → now_of (newest_first h) ≡ now
        → IfOk result (λ text. string_bytes text ≡ end_line h) }
{
    format!(in alloc; "end entries {count} now {now}\n")
}

/// What was deposited of an asset, what is held and what was paid.
pub fn asset_line(alloc: Global, balances: &Balances, asset: u32) -> Result<String, AllocError>
    requires { AreWithinAmounts balances.now }
    ensures { IfOk result (λ text. string_bytes text ≡ asset_line balances.now asset) }
{
    let deposited = balances.deposited(asset);
    let held = balances.held_by_all(asset);
    let paid = balances.paid_to_all(asset);
    format!(in alloc; "asset {asset} deposited {deposited} held {held} paid {paid}\n")
}

/// A line where the balance isn't 0.
#[tactic(auto, unfolding(crate::specs::Text::balance_line))]
fn balance_line(
    alloc: Global,
    word: &str,
    name: &str,
    asset: u32,
    amount: u64,
) -> Result<String, AllocError>
    ensures { IfOk result (λ text. string_bytes text ≡ balance_line word.now name.now asset amount) }
{
    if amount == 0 {
        return Ok(String::new(alloc));
    }
    format!(in alloc; "{word} {name} {asset} {amount}\n")
}

/// What a channel holds; nothing of a person.
pub fn held_line(
    alloc: Global,
    labels: &[(Dest, Label)],
    balances: &Balances,
    pair: &(Dest, u32),
) -> Result<String, AllocError>
    requires { AreWithinAmounts balances.now }
    ensures { IfOk result (λ text. string_bytes text ≡ held_line labels.now balances.now pair.now) }
{
    let (to, asset) = pair;
    match to {
        Dest::Person(_) => Ok(String::new(alloc)),
        Dest::Channel(channel) => {
            let name = channel_text(alloc, labels, channel)?;
            let held = balances.held(channel, *asset);
            balance_line(alloc, "held", name.as_str(), *asset, held)
        }
    }
}

/// What a person was paid; nothing of a channel.
pub fn paid_line(
    alloc: Global,
    labels: &[(Dest, Label)],
    balances: &Balances,
    pair: &(Dest, u32),
) -> Result<String, AllocError>
    requires { AreWithinAmounts balances.now }
    ensures { IfOk result (λ text. string_bytes text ≡ paid_line labels.now balances.now pair.now) }
{
    let (to, asset) = pair;
    match to {
        Dest::Channel(_) => Ok(String::new(alloc)),
        Dest::Person(person) => {
            let name = person_text(alloc, labels, person)?;
            let paid = balances.paid(person, *asset);
            balance_line(alloc, "paid", name.as_str(), *asset, paid)
        }
    }
}
