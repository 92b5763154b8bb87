//! The adjudicator that serves one op after another.

ghost use Rattle.std.specs.Prelude.{unwrap_or, ◌≡◌, ◌≤◌, ◌+◌, ◌<◌, ◌^◌, [], List, OnOk, OnErr, IfOk};
ghost use Rattle.std.specs.Option.{option_map};
ghost use Rattle.asset_holder.specs.Balances.{amount_held};
ghost use Rattle.asset_holder.specs.Payments.{amount_of_item};
ghost use Rattle.call_history.specs.History.{row_given};
ghost use Rattle.call_history.specs.Refusing.{told};
ghost use Rattle.call_history.specs.declared.entry.Entry.{Entry};
ghost use Rattle.support_rules.specs.Real.{real};
ghost use Rattle.channel_values.specs.Support.{verified_marks};
ghost use Rattle.adjudicator.specs.Values.{challenge_values, answer_values};
ghost use Rattle.adjudicator.specs.Checked.{values_of, AreKnown};
ghost use Rattle.adjudicator.specs.Standing.{StandsFor, AreBalancesOf, AreFinals, HasRoom, HasTurned, HasPaid, Serves, transfer_answer, claim_answer};

use crate::answers::{to_challenge, to_checkpoint, to_conclude, to_refute, to_respond};
use crate::checked::CheckedOp;
use crate::ending::{ends_otherwise, is_unfinished};
use crate::rows::Rows;
use asset_holder::{Holdings, PaidItems, claim_due, transfer_due};
use call_history::{
    Call, ChallengeCall, ClaimCall, DepositCall, Due, Op, Refusal, Reply, RespondCall, Row,
    TransferCall,
};
use channel_values::{Chain, Fixed, Name, NoMemory, Signed, channel_name};
use std::alloc::Global;
use std::marker::Model;

/// No time is later.
pub const LAST_TIME: u64 = 1 << 62;

/// A time, the rows of channels, the balances, and what was paid of items. Contracts say which histories it stands for.
#[derive(Drop)]
pub struct Adjudicator {
    time: u64,
    rows: Rows,
    funds: Holdings,
    items: PaidItems,
}

impl Model for Adjudicator {
    ghost use Rattle.std.specs.Prelude.{◌≤◌, ◌^◌};
    ghost use Rattle.adjudicator.specs.Standing.{Standing};

    ghost Value = { Standing };

    ghost view = { λ a. record { now = a.time; rows = a.rows.rows; room = a.rows.room; funds = a.funds; items = a.items } };

    ghost invariant = { λ a. a.time ≤ 2 ^ 62 };
}

/// The reply that a challenge is open until the row's deadline, unless the call is refused.
fn until(answer: Result<Row, Refusal>) -> Reply
    ensures { result ≡ told (λ new. Reply.Until (unwrap_or new.deadline 0)) answer }
{
    match answer {
        Ok(row) => Reply::Until(row.deadline.unwrap_or(0)),
        Err(refusal) => Reply::No(refusal),
    }
}

/// The reply that the channel ends at the row's turn, unless the call is refused.
fn concluded(answer: Result<Row, Refusal>) -> Reply
    ensures { result ≡ told (λ new. Reply.Concluded new.turn) answer }
{
    match answer {
        Ok(row) => Reply::Concluded(row.turn),
        Err(refusal) => Reply::No(refusal),
    }
}

/// The reply that no challenge is open at the row's turn, unless the call is refused.
fn opened(answer: Result<Row, Refusal>) -> Reply
    ensures { result ≡ told (λ new. Reply.Opened new.turn) answer }
{
    match answer {
        Ok(row) => Reply::Opened(row.turn),
        Err(refusal) => Reply::No(refusal),
    }
}

/// The reply of what a channel then holds, unless the call is refused.
fn held(answer: Result<u64, Refusal>) -> Reply
    ensures { result ≡ told Reply.Held answer }
{
    match answer {
        Ok(held) => Reply::Held(held),
        Err(refusal) => Reply::No(refusal),
    }
}

/// The reply of what is paid, unless the call is refused.
fn paid(answer: Result<Due, Refusal>) -> Reply
    ensures { result ≡ told (λ due. Reply.Paid due.amount) answer }
{
    match answer {
        Ok(due) => Reply::Paid(due.amount),
        Err(refusal) => Reply::No(refusal),
    }
}

impl Adjudicator {
    /// The time is 0, no channel has a row, and nothing is held.
    pub fn make(alloc: Global) -> Adjudicator
        ensures { StandsFor real [] result }
    {
        Adjudicator {
            time: 0,
            rows: Rows::make(alloc),
            funds: Holdings::make(alloc),
            items: PaidItems::make(alloc),
        }
    }

    /// Takes the memory that one op may need.
    #[tactic(auto, using(crate::proofs::Stands::stands_reserved))]
    pub fn reserve(&mut self) -> Result<(), NoMemory>
        ensures room { OnOk result (HasRoom self.new) }
        ensures stands { (h : List Entry) → StandsFor real h self.old → StandsFor real h self.new }
    {
        self.rows.reserve()?;
        self.funds.reserve()?;
        self.items.reserve()?;
        Ok(())
    }

    pub fn now(&self) -> u64
        ensures { result ≡ self.now.now }
    {
        self.time
    }

    /// What is recorded of a channel, if a call on it was accepted.
    pub fn row(&self, channel: &Name) -> Option<&Row>
        ensures { (h : List Entry) → StandsFor real h self.now
            → option_map (λ m. m.now) result ≡ row_given real channel.now h }
    {
        self.rows.get(channel)
    }

    /// The channels that are final, with their deadlines, by deadline and then by name.
    pub fn finals(&self) -> &[(u64, Name)]
        ensures { (h : List Entry) → StandsFor real h self.now → AreFinals real h result.now }
    {
        self.rows.due(self.time)
    }

    /// The balances of channels and persons.
    pub fn holdings(&self) -> &Holdings
        ensures { (h : List Entry) → StandsFor real h self.now → AreBalancesOf h result.now }
    {
        &self.funds
    }

    /// The reply to an op, which is part of the history from then on. A refused op changes nothing.
    pub fn apply(&mut self, op: &Op) -> Reply
        requires { HasRoom self.old }
        ensures { Serves real self.old op.now result self.new }
    {
        self.serve(op, None)
    }

    /// As `apply`, for an op whose signatures were checked: it verifies none.
    pub fn apply_checked(&mut self, op: &CheckedOp) -> Reply
        requires { HasRoom self.old }
        ensures { Serves real self.old op.now result self.new }
    {
        self.serve(op.op(), Some(op.verified()))
    }

    /// Serves an op. Its signatures are verified, unless that was done.
    fn serve(&mut self, op: &Op, verified: Option<&[bool]>) -> Reply
        requires room { HasRoom self.old }
        requires known { AreKnown (values_of real op.now) (option_map (λ m. m.now) verified) }
        ensures { Serves real self.old op.now result self.new }
    {
        match op {
            Op::Call(call) => self.call(call, verified),
            Op::Time(to) => self.set_time(*to),
        }
    }

    fn call(&mut self, call: &Call, verified: Option<&[bool]>) -> Reply
        requires room { HasRoom self.old }
        requires known { AreKnown (values_of real (Op.Call call.now)) (option_map (λ m. m.now) verified) }
        ensures { Serves real self.old (Op.Call call.now) result self.new }
    {
        match call {
            Call::Deposit(deposit) => self.deposit(deposit),
            Call::Challenge(challenge) => self.challenge(challenge, verified),
            Call::Respond(respond) => self.respond(respond, verified),
            Call::Refute { fixed, next } => self.refute(fixed, next, verified),
            Call::Checkpoint { chain } => self.checkpoint(chain, verified),
            Call::Conclude { chain } => self.conclude(chain, verified),
            Call::Transfer(transfer) => self.transfer(transfer),
            Call::Claim(claim) => self.claim(claim),
        }
    }

    fn deposit(&mut self, call: &DepositCall) -> Reply
        requires { HasRoom self.old }
        ensures { Serves real self.old (Op.Call (Call.Deposit call.now)) result self.new }
    {
        let answer = self
            .funds
            .deposit(call.channel, call.asset, call.expected, call.amount);
        held(answer)
    }

    fn challenge(&mut self, call: &ChallengeCall, verified: Option<&[bool]>) -> Reply
        requires room { HasRoom self.old }
        requires known { AreKnown (challenge_values real call.now.chain call.now.challenger call.now.signature)
            (option_map (λ m. m.now) verified) }
        ensures { Serves real self.old (Op.Call (Call.Challenge call.now)) result self.new }
    {
        let channel = channel_name(call.chain.fixed.bytes());
        let row = self.rows.get(&channel);
        let answer = to_challenge(row, self.time, call, verified);
        self.record(channel, answer);
        until(answer)
    }

    fn respond(&mut self, call: &RespondCall, verified: Option<&[bool]>) -> Reply
        requires room { HasRoom self.old }
        requires known { AreKnown (answer_values real call.now.fixed call.now.next)
            (option_map (λ m. m.now) verified) }
        ensures { Serves real self.old (Op.Call (Call.Respond call.now)) result self.new }
    {
        let channel = channel_name(call.fixed.bytes());
        let row = self.rows.get(&channel);
        let answer = to_respond(row, self.time, call, verified);
        self.record(channel, answer);
        opened(answer)
    }

    fn refute(&mut self, fixed: &Fixed, next: &Signed, verified: Option<&[bool]>) -> Reply
        requires room { HasRoom self.old }
        requires known { AreKnown (answer_values real fixed.now next.now) (option_map (λ m. m.now) verified) }
        ensures { Serves real self.old (Op.Call (Call.Refute fixed.now next.now)) result self.new }
    {
        let channel = channel_name(fixed.bytes());
        let row = self.rows.get(&channel);
        let answer = to_refute(row, self.time, fixed, next, verified);
        self.record(channel, answer);
        opened(answer)
    }

    fn checkpoint(&mut self, chain: &Chain, verified: Option<&[bool]>) -> Reply
        requires room { HasRoom self.old }
        requires known { AreKnown (verified_marks real chain.now) (option_map (λ m. m.now) verified) }
        ensures { Serves real self.old (Op.Call (Call.Checkpoint chain.now)) result self.new }
    {
        let channel = channel_name(chain.fixed.bytes());
        let row = self.rows.get(&channel);
        let answer = to_checkpoint(row, self.time, chain, verified);
        self.record(channel, answer);
        opened(answer)
    }

    fn conclude(&mut self, chain: &Chain, verified: Option<&[bool]>) -> Reply
        requires room { HasRoom self.old }
        requires known { AreKnown (verified_marks real chain.now) (option_map (λ m. m.now) verified) }
        ensures { Serves real self.old (Op.Call (Call.Conclude chain.now)) result self.new }
    {
        let channel = channel_name(chain.fixed.bytes());
        let row = self.rows.get(&channel);
        let answer = to_conclude(row, self.time, chain, verified);
        self.record(channel, answer);
        concluded(answer)
    }

    /// The channel's row is the one that a call answers, unless the call is refused.
    fn record(&mut self, channel: Name, answer: Result<Row, Refusal>)
        requires room { HasRoom self.old }
        requires small { IfOk answer (λ row. row.turn < 2 ^ 48) }
        ensures { HasTurned self.old channel answer self.new }
    {
        if let Ok(row) = answer {
            self.rows.set(channel, row);
        }
    }

    fn transfer(&mut self, call: &TransferCall) -> Reply
        requires { HasRoom self.old }
        ensures { Serves real self.old (Op.Call (Call.Transfer call.now)) result self.new }
    {
        let answer = self.transfer_due(call);
        self.pay(call.channel, call.channel, call.asset, answer);
        paid(answer)
    }

    fn claim(&mut self, call: &ClaimCall) -> Reply
        requires { HasRoom self.old }
        ensures { Serves real self.old (Op.Call (Call.Claim call.now)) result self.new }
    {
        let answer = self.claim_due(call);
        self.pay(call.guarantor, call.target, call.asset, answer);
        paid(answer)
    }

    /// What a transfer pays, or the first refusal.
    fn transfer_due(&self, call: &TransferCall) -> Result<Due, Refusal>
        ensures answer { result ≡ transfer_answer real self.now call.now }
        ensures held { IfOk result (λ due. due.amount ≤ amount_held self.now.funds call.now.channel call.now.asset) }
        ensures fits { IfOk result
            (λ due. amount_of_item self.now.items call.now.channel call.now.asset due.place + due.amount < 2 ^ 64) }
    {
        let row = self.rows.get(&call.channel);
        if is_unfinished(row, self.time) {
            return Err(Refusal::NotFinal(call.channel));
        }
        if ends_otherwise(row, &call.outcome) {
            return Err(Refusal::WrongOutcome(call.channel));
        }
        let held = self.funds.held(&call.channel, call.asset);
        transfer_due(
            &self.items,
            held,
            &call.channel,
            &call.outcome,
            call.asset,
            call.index,
        )
    }

    /// What a claim pays, or the first refusal.
    fn claim_due(&self, call: &ClaimCall) -> Result<Due, Refusal>
        ensures answer { result ≡ claim_answer real self.now call.now }
        ensures held { IfOk result (λ due. due.amount ≤ amount_held self.now.funds call.now.guarantor call.now.asset) }
        ensures fits { IfOk result
            (λ due. amount_of_item self.now.items call.now.target call.now.asset due.place + due.amount < 2 ^ 64) }
    {
        let row = self.rows.get(&call.guarantor);
        let target_row = self.rows.get(&call.target);
        if is_unfinished(row, self.time) {
            return Err(Refusal::NotFinal(call.guarantor));
        }
        if is_unfinished(target_row, self.time) {
            return Err(Refusal::NotFinal(call.target));
        }
        if ends_otherwise(row, &call.guarantor_outcome) {
            return Err(Refusal::WrongOutcome(call.guarantor));
        }
        if ends_otherwise(target_row, &call.target_outcome) {
            return Err(Refusal::WrongOutcome(call.target));
        }
        let held = self.funds.held(&call.guarantor, call.asset);
        claim_due(
            &self.items,
            held,
            &call.guarantor_outcome,
            &call.target,
            &call.target_outcome,
            call.asset,
            call.position,
        )
    }

    /// What is due is paid by one channel, and noted of the owner's item, unless the call is refused.
    fn pay(&mut self, payer: Name, owner: Name, asset: u32, answer: Result<Due, Refusal>)
        requires room { HasRoom self.old }
        requires held { IfOk answer (λ due. due.amount ≤ amount_held self.old.funds payer asset) }
        requires fits { IfOk answer (λ due. amount_of_item self.old.items owner asset due.place + due.amount < 2 ^ 64) }
        ensures paid { IfOk answer (λ due. HasPaid self.old payer owner asset due self.new) }
        ensures same { OnErr answer (self.new ≡ self.old) }
    {
        if let Ok(due) = answer {
            self.funds.move_funds(payer, due.to, asset, due.amount);
            self.items.add(owner, asset, due.place, due.amount);
        }
    }

    fn set_time(&mut self, to: u64) -> Reply
        ensures { Serves real self.old (Op.Time to) result self.new }
    {
        if to < self.time {
            return Reply::No(Refusal::Backwards(self.time));
        }
        if to > LAST_TIME {
            return Reply::No(Refusal::TooLate);
        }
        self.time = to;
        Reply::Now(to)
    }
}
