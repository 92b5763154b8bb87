//! Ops whose signatures were checked.

ghost use Rattle.std.specs.Prelude.{◌≡◌, [], ◌∷◌, IfOk};
ghost use Rattle.support_rules.specs.Real.{real};
ghost use Rattle.adjudicator.specs.Checked.{values_of};

use crate::top::is_challenge_signed;
use call_history::{Call, Op};
use channel_values::NoMemory;
use std::alloc::Global;
use std::marker::Model;
use std::thread::Threads;
use support_rules::{check_signatures, is_signed_well};

/// An op, and whether each signature in it verifies. Contracts see the op.
#[derive(Drop)]
pub struct CheckedOp {
    op: Op,
    verified: Vec<bool>,
}

impl Model for CheckedOp {
    ghost use Rattle.std.specs.Prelude.{◌≡◌};
    ghost use Rattle.call_history.specs.declared.call.Op.{Op};
    ghost use Rattle.support_rules.specs.Real.{real};
    ghost use Rattle.adjudicator.specs.Checked.{values_of};

    ghost Value = { Op };

    ghost view = { λ c. c.op };

    ghost invariant = { λ c. c.verified.items ≡ values_of real c.op };
}

fn one(alloc: Global, value: bool) -> Result<Vec<bool>, NoMemory>
    ensures { IfOk result (λ v. v.items ≡ value ∷ []) }
{
    let mut values = Vec::new(alloc);
    values.push(value)?;
    Ok(values)
}

/// Whether each signature in an op verifies. The marks of a chain are checked side by side.
fn check<R: Threads + Sync>(rt: &R, alloc: Global, op: &Op) -> Result<Vec<bool>, NoMemory>
    ensures { IfOk result (λ v. v.items ≡ values_of real op.now) }
{
    match op {
        Op::Call(Call::Challenge(challenge)) => {
            let mut verified = check_signatures(rt, alloc, &challenge.chain)?;
            let signed = is_challenge_signed(
                &challenge.chain,
                challenge.challenger,
                challenge.signature.as_slice(),
            );
            verified.push(signed)?;
            Ok(verified)
        }
        Op::Call(Call::Respond(respond)) => {
            one(alloc, is_signed_well(&respond.fixed, &respond.next))
        }
        Op::Call(Call::Refute { fixed, next }) => one(alloc, is_signed_well(fixed, next)),
        Op::Call(Call::Checkpoint { chain }) => check_signatures(rt, alloc, chain),
        Op::Call(Call::Conclude { chain }) => check_signatures(rt, alloc, chain),
        Op::Call(Call::Deposit(_)) => Ok(Vec::new(alloc)),
        Op::Call(Call::Transfer(_)) => Ok(Vec::new(alloc)),
        Op::Call(Call::Claim(_)) => Ok(Vec::new(alloc)),
        Op::Time(_) => Ok(Vec::new(alloc)),
    }
}

impl CheckedOp {
    /// Checks the signatures of an op.
    pub fn make<R: Threads + Sync>(rt: &R, alloc: Global, op: Op) -> Result<CheckedOp, NoMemory>
        ensures { IfOk result (λ c. c ≡ op) }
    {
        let verified = check(rt, alloc, &op)?;
        Ok(CheckedOp { op, verified })
    }

    pub fn op(&self) -> &Op
        ensures { result.now ≡ self.now }
    {
        &self.op
    }

    /// The op without what was checked.
    pub fn into_op(self) -> Op
        ensures { result ≡ self }
    {
        let CheckedOp { op, .. } = self;
        op
    }

    /// Whether each signature in the op verifies.
    pub(crate) fn verified(&self) -> &[bool]
        ensures { result.now ≡ values_of real self.now }
    {
        self.verified.as_slice()
    }
}
