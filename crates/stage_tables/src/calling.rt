//! The calls of all parts of a plan.

ghost use Rattle.std.specs.Prelude.{◌≡◌, ◌≤◌, ◌+◌, ◌*◌, ◌++◌, length, IfOk, OnOk};
ghost use Rattle.std.specs.List.{flat_map};
ghost use Rattle.ledger_channel.specs.Stages.{called_of};
ghost use Rattle.stage_tables.specs.Stages.{stages};

use call_history::Call;
use channel_values::NoMemory;
use funding_plans::{Facts, Part};
use std::alloc::Global;

fn put_calls(all: &mut Vec<Call>, alloc: Global, part: &Part, facts: &Facts) -> Result<(), NoMemory>
    ensures value { OnOk result (all.new.items ≡ all.old.items ++ called_of facts.now part.now) }
    ensures few { OnOk result (length all.new.items ≤ length all.old.items + 4) }
{
    let mut calls = ledger_channel::calls(alloc, part, facts)?;
    all.append(&mut calls)?;
    Ok(())
}

fn all_calls(alloc: Global, facts: &Facts, parts: &[Part]) -> Result<Vec<Call>, NoMemory>
    ensures value { IfOk result (λ v. v.items ≡ flat_map (called_of facts.now) parts.now) }
    ensures few { IfOk result (λ v. length v.items ≤ 4 * length parts.now) }
{
    let mut all = Vec::new(alloc);
    for part in parts {
        put_calls(&mut all, alloc, part, facts)?;
    }
    Ok(all)
}

/// The calls of all parts in the order of the plan: at most four of each.
pub fn calls(alloc: Global, facts: &Facts) -> Result<Vec<Call>, NoMemory>
    ensures value { IfOk result (λ v. v.items ≡ stages.calls facts.now) }
    ensures few { IfOk result (λ v. length v.items ≤ 4 * length facts.now.plan.parts) }
{
    all_calls(alloc, facts, facts.plan.parts.as_slice())
}
