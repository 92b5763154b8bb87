//! The calls of an exit, and when they are given.

ghost use Rattle.std.specs.Prelude.{◌≡◌, ◌≤◌, ◌*◌, length, IfOk};
ghost use Rattle.channel_node.specs.Leaving.{exits_given};
ghost use Rattle.stage_tables.specs.Stages.{stages};

use call_history::Call;
use channel_exits::{ExitFault, exit_calls};
use channel_values::NoMemory;
use funding_plans::Facts;
use std::alloc::Global;

/// The calls of an exit, at most 220 of each part: none while a channel with a held chain isn't final.
pub fn exits(alloc: Global, facts: &Facts) -> Result<Vec<Call>, NoMemory>
    ensures value { IfOk result (λ v. v.items ≡ stages.exits facts.now) }
    ensures few { IfOk result (λ v. length v.items ≤ 220 * length facts.now.plan.parts) }
{
    match exit_calls(alloc, facts.plan, facts.view, facts.chains) {
        Ok(calls) => Ok(calls),
        Err(ExitFault::NotFinal(_)) => Ok(Vec::new(alloc)),
        Err(ExitFault::NoMemory) => Err(NoMemory),
    }
}

/// Whether the participant can still get more of an asset than it was paid.
pub fn is_owed(alloc: Global, facts: &Facts) -> Result<bool, NoMemory>
    ensures { IfOk result (λ b. b ≡ stages.is_owed facts.now) }
{
    plan_share::is_owed(alloc, facts.plan, facts.view, facts.known)
}

/// The calls of an exit where none were given before, and later where it is still owed.
pub fn exit_calls_given(alloc: Global, facts: &Facts, gave: bool) -> Result<Vec<Call>, NoMemory>
    ensures value { IfOk result (λ v. v.items ≡ exits_given stages gave facts.now) }
    ensures few { IfOk result (λ v. length v.items ≤ 220 * length facts.now.plan.parts) }
{
    if !gave || is_owed(alloc, facts)? {
        exits(alloc, facts)
    } else {
        Ok(Vec::new(alloc))
    }
}
