//! The flows of accepted calls.

ghost use Rattle.std.specs.Prelude.{◌≡◌, ℕ};
ghost use Rattle.std.specs.Option.{option_to_list};
ghost use Rattle.call_history.specs.History.{flow_to, flow_of};
ghost use Rattle.call_history.specs.declared.call.Op.TheVariants as ops;
ghost use Rattle.call_history.specs.declared.refusal.Reply.TheVariants.{Held, Paid};

use crate::call::{Call, Op};
use crate::funds::Flow;
use crate::items::{item_dest, listed_dest, shape_in};
use crate::refusal::Reply;
use channel_values::{Dest, Name};

fn flow_to(from: Option<Name>, to: Option<Dest>, asset: u32, amount: u64) -> Option<Flow>
    ensures { option_to_list result ≡ flow_to from to asset amount }
{
    match to {
        Some(to) => Some(Flow {
            from,
            to,
            asset,
            amount,
        }),
        None => None,
    }
}

/// The flow of an accepted deposit.
fn deposit_flow(call: &Call) -> Option<Flow>
    ensures { (n : ℕ) → option_to_list result ≡ flow_of (ops.Call call.now) (Held n) }
{
    match call {
        Call::Deposit(deposit) => {
            let to = Dest::Channel(deposit.channel);
            flow_to(None, Some(to), deposit.asset, deposit.amount)
        }
        _ => None,
    }
}

/// The flow of a transfer or a claim that paid this much.
fn payout_flow(call: &Call, amount: u64) -> Option<Flow>
    ensures { option_to_list result ≡ flow_of (ops.Call call.now) (Paid amount) }
{
    match call {
        Call::Transfer(transfer) => {
            let shape = shape_in(&transfer.outcome, transfer.asset);
            let to = item_dest(shape, transfer.index);
            flow_to(Some(transfer.channel), to, transfer.asset, amount)
        }
        Call::Claim(claim) => {
            let shape = shape_in(&claim.guarantor_outcome, claim.asset);
            let to = listed_dest(shape, claim.position);
            flow_to(Some(claim.guarantor), to, claim.asset, amount)
        }
        _ => None,
    }
}

/// The flow of an accepted call: what a transfer and a claim pay, their replies say.
pub fn flow_of(op: &Op, reply: &Reply) -> Option<Flow>
    ensures { option_to_list result ≡ flow_of op.now reply.now }
{
    match (op, reply) {
        (Op::Call(call), Reply::Held(_)) => deposit_flow(call),
        (Op::Call(call), Reply::Paid(amount)) => payout_flow(call, *amount),
        _ => None,
    }
}
