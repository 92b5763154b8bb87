//! The claims of an exit.

ghost use Rattle.std.specs.Prelude.{◌≡◌, ◌≤◌, ◌+◌, ◌++◌, ◌&&◌, length, OnOk, Some};
ghost use Rattle.channel_values.specs.Amounts.{has};
ghost use Rattle.funding_plans.specs.Shapes.{is_listed, items_in, list_in};
ghost use Rattle.channel_exits.specs.Calls as spelled;
ghost use Rattle.channel_exits.specs.Exits.{ended_in};

use crate::views::ended_in;
use call_history::{Call, ClaimCall, WorldView};
use channel_values::{Dest, Name, NoMemory, Outcome};
use funding_plans::{has, is_listed, items_in, list_in, position_of};

fn is_claimable(promise: &Outcome, ended: &Outcome, to: &Dest, asset: u32) -> bool
    ensures { result ≡ is_listed (list_in asset promise.now) to.now && has (items_in asset ended.now) to.now }
{
    is_listed(list_in(promise, asset), to) && has(items_in(ended, asset), to)
}

fn put_claim_of(
    calls: &mut Vec<Call>,
    guarantor: &Name,
    promise: &Outcome,
    target: &Name,
    ended: &Outcome,
    to: &Dest,
    asset: u32,
) -> Result<(), NoMemory>
    ensures value { OnOk result (calls.new.items ≡ calls.old.items
        ++ spelled.claim_if guarantor.now (Some promise.now) target.now (Some ended.now) to.now asset) }
    ensures few { OnOk result (length calls.new.items ≤ length calls.old.items + 1) }
{
    if is_claimable(promise, ended, to, asset) {
        let guarantor_outcome = promise.copy()?;
        let target_outcome = ended.copy()?;
        calls.push(Call::Claim(ClaimCall {
            guarantor: *guarantor,
            guarantor_outcome,
            target: *target,
            target_outcome,
            asset,
            position: position_of(list_in(promise, asset), to),
        }))?;
    }
    Ok(())
}

/// A claim from a guarantor of a destination's item of the target, where it is listed and has one.
pub(crate) fn put_claim(
    calls: &mut Vec<Call>,
    world: &WorldView,
    guarantor: &Name,
    target: &Name,
    to: &Dest,
    asset: u32,
) -> Result<(), NoMemory>
    ensures value { OnOk result (calls.new.items ≡ calls.old.items
        ++ spelled.claim_for (ended_in world.entry.now) guarantor.now target.now to.now asset) }
    ensures few { OnOk result (length calls.new.items ≤ length calls.old.items + 1) }
{
    match (ended_in(world, guarantor), ended_in(world, target)) {
        (Some(promise), Some(ended)) => {
            put_claim_of(calls, guarantor, promise, target, ended, to, asset)
        }
        _ => Ok(()),
    }
}
