//! The stages of a channel that holds its own funds.

ghost use Rattle.std.specs.Prelude.{◌≡◌, ◌≤◌, ◌<◌, ◌-◌, ◌*◌, ◌^◌, ◌&&◌, ◌||◌, not, IfOk, None, length, [], ◌==◌, nat_le, if◌then◌else◌};
ghost use Rattle.std.specs.List.{filter_map, list_any};
ghost use Rattle.std.specs.Str.{bytes_eq};
ghost use Rattle.call_history.specs.Mode.{is_final};
ghost use Rattle.channel_values.specs.Amounts.{amt};
ghost use Rattle.channel_values.specs.Outcomes.{total};
ghost use Rattle.channel_values.specs.declared.value.Dest.TheVariants.{Person};
ghost use Rattle.funding_plans.specs.Rows as rows;
ghost use Rattle.funding_plans.specs.Seats as seats;
ghost use Rattle.ledger_channel.specs.Roots as roots;

use crate::money::{afforded, ahead_of, held_of};
use call_history::{Call, DepositCall, Standing, TransferCall, place_of};
use channel_values::{AssetOutcome, Chain, Dest, Item, Name, NoMemory, Outcome, State, total};
use funding_plans::{SeatView, amt, items_in};
use std::alloc::Global;
use std::marker::Model;

/// What is known of a channel that holds its own funds. Contracts see the values.
#[derive(Drop)]
pub(crate) struct DirectView<'a> {
    pub(crate) channel: SeatView<'a>,
    pub(crate) opening: &'a Outcome,
    pub(crate) who: Name,
    pub(crate) closing: bool,
    pub(crate) over: bool,
    pub(crate) pays: bool,
    pub(crate) standing: Standing,
    pub(crate) held: &'a [(u32, u64)],
    pub(crate) settled: Option<&'a Outcome>,
    pub(crate) rest: Option<&'a Outcome>,
    pub(crate) chain: Option<&'a Chain>,
}

impl<'a> Model for DirectView<'a> {
    ghost use Rattle.std.specs.Prelude.{◌≡◌};
    ghost use Rattle.std.specs.Option.{option_copied};
    ghost use Rattle.ledger_channel.specs.Roots.{Direct};

    ghost Value = { Direct };

    ghost view = { λ d. record { channel = d.channel; who = d.who; closing = d.closing; over = d.over; pays = d.pays; standing = d.standing; held = d.held.now; settled = option_copied d.settled; rest = option_copied d.rest; chain = option_copied d.chain } };

    ghost invariant = { λ d. d.channel.opening ≡ d.opening.now };
}

// ---- deposits

impl<'a> DirectView<'a> {
    /// The deposit of an asset, where the participant's item has its turn.
    #[tactic(auto, using(crate::proofs::Items::ahead_amount_within))]
    fn deposit(&self, asset: u32, items: &[Item]) -> Option<Call>
        requires { total items.now < 2 ^ 64 }
        ensures { result ≡ roots.deposit self.now asset items.now }
    {
        let to = Dest::Person(self.who);
        let before = ahead_of(items, &to);
        let own = amt(items, &to);
        let held = held_of(self.held, asset);
        if before <= held && held < before + own {
            Some(Call::Deposit(DepositCall {
                channel: self.channel.name(),
                asset,
                expected: held,
                amount: before + own - held,
            }))
        } else {
            None
        }
    }

    fn deposit_in(&self, o: &AssetOutcome) -> Option<Call>
        ensures { result ≡ roots.deposit_in self.now o.now }
    {
        self.deposit(o.asset, items_in(self.opening, o.asset))
    }

    fn deposits(&self, alloc: Global) -> Result<Vec<Call>, NoMemory>
        ensures { IfOk result (λ v. v.items ≡ roots.deposits self.now) }
    {
        let mut calls = Vec::new(alloc);
        if self.standing != Standing::Open {
            return Ok(calls);
        }
        for o in self.opening.assets() {
            if let Some(call) = self.deposit_in(o) {
                calls.push(call)?;
            }
        }
        Ok(calls)
    }

    fn is_paid_in(&self, o: &AssetOutcome) -> bool
        ensures { result ≡ roots.is_paid_in self.now o.now }
    {
        total(items_in(self.opening, o.asset)) <= held_of(self.held, o.asset)
    }

    fn is_funded(&self) -> bool
        ensures { result ≡ roots.is_funded self.now }
    {
        self.opening.assets().iter().all(|o| self.is_paid_in(o))
    }
}

// ---- the end

impl<'a> DirectView<'a> {
    fn is_due(&self, asset: u32, items: &[Item]) -> bool
        ensures { result ≡ roots.is_due self.now asset items.now }
    {
        afforded(items, held_of(self.held, asset), &Dest::Person(self.who)) != 0
    }

    /// A transfer of the participant's own item of an asset, where something is due.
    fn transfer(
        &self,
        settled: &Outcome,
        asset: u32,
        items: &[Item],
    ) -> Result<Option<Call>, NoMemory>
        requires { length items.now ≤ 16 }
        ensures { IfOk result (λ c. c ≡ roots.transfer self.now settled.now asset items.now) }
    {
        if !self.is_due(asset, items) {
            return Ok(None);
        }
        let outcome = settled.copy()?;
        Ok(Some(Call::Transfer(TransferCall {
            channel: self.channel.name(),
            outcome,
            asset,
            index: place_of(items, &Dest::Person(self.who)) as u8,
        })))
    }

    fn transfer_in(
        &self,
        settled: &Outcome,
        rest: &Outcome,
        o: &AssetOutcome,
    ) -> Result<Option<Call>, NoMemory>
        ensures { IfOk result (λ c. c ≡ roots.transfer_in self.now settled.now rest.now o.now) }
    {
        self.transfer(settled, o.asset, items_in(rest, o.asset))
    }

    fn transfers_of(
        &self,
        alloc: Global,
        settled: &Outcome,
        rest: &Outcome,
    ) -> Result<Vec<Call>, NoMemory>
        ensures { IfOk result (λ v. v.items ≡ filter_map (roots.transfer_in self.now settled.now rest.now) rest.now) }
    {
        let mut calls = Vec::new(alloc);
        for o in rest.assets() {
            if let Some(call) = self.transfer_in(settled, rest, o)? {
                calls.push(call)?;
            }
        }
        Ok(calls)
    }

    fn transfers(&self, alloc: Global) -> Result<Vec<Call>, NoMemory>
        ensures { IfOk result (λ v. v.items ≡ roots.transfers self.now) }
    {
        match (self.settled, self.rest) {
            (Some(settled), Some(rest)) => self.transfers_of(alloc, settled, rest),
            _ => Ok(Vec::new(alloc)),
        }
    }

    fn is_due_in(&self, rest: &Outcome, o: &AssetOutcome) -> bool
        ensures { result ≡ roots.is_due_in self.now rest.now o.now }
    {
        self.is_due(o.asset, items_in(rest, o.asset))
    }

    fn is_any_due_of(&self, rest: &Outcome) -> bool
        ensures { result ≡ list_any (roots.is_due_in self.now rest.now) rest.now }
    {
        rest.assets().iter().any(|o| self.is_due_in(rest, o))
    }

    fn is_any_due(&self) -> bool
        ensures { result ≡ roots.is_any_due self.now }
    {
        match self.rest {
            None => false,
            Some(rest) => self.is_any_due_of(rest),
        }
    }

    fn conclude(&self, alloc: Global) -> Result<Vec<Call>, NoMemory>
        ensures { IfOk result (λ v. v.items ≡ roots.conclude self.now.chain) }
    {
        let mut calls = Vec::new(alloc);
        if let Some(chain) = self.chain {
            let chain = chain.copy()?;
            calls.push(Call::Conclude { chain })?;
        }
        Ok(calls)
    }

    fn concluding(&self, alloc: Global) -> Result<Vec<Call>, NoMemory>
        ensures { IfOk result (λ v. v.items ≡ roots.concluding self.now self.now.standing) }
    {
        match self.standing {
            Standing::Open => self.conclude(alloc),
            Standing::Challenged => Ok(Vec::new(alloc)),
            Standing::Final => self.transfers(alloc),
        }
    }
}

// ---- the table

impl<'a> DirectView<'a> {
    fn people(&self) -> u64
        ensures value { result ≡ roots.people self.now }
        ensures several { 2 ≤ result }
        ensures few { result ≤ 4 }
    {
        self.channel.people().len() as u64
    }

    fn is_set_up(&self) -> bool
        ensures { result ≡ seats.is_set_up self.now.channel }
    {
        self.channel.is_set_up()
    }

    fn is_begun(&self) -> bool
        ensures { result ≡ seats.holds (roots.people self.now) self.now.channel }
    {
        self.channel.holds(self.people())
    }

    fn is_posted(&self) -> bool
        ensures { result ≡ seats.holds (2 * roots.people self.now - 1) self.now.channel }
    {
        self.channel.holds(2 * self.people() - 1)
    }

    fn has_finals(&self) -> bool
        ensures { result ≡ self.now.channel.all_final }
    {
        self.channel.has_finals()
    }

    /// Nothing more is signed in it.
    fn is_done(&self) -> bool
        ensures { result ≡ self.now.over || self.now.channel.all_final }
    {
        self.over || self.has_finals()
    }

    fn is_paid_out(&self) -> bool
        ensures { result ≡ self.now.over || (is_final self.now.standing && not (roots.is_any_due self.now)) }
    {
        self.over || (self.standing == Standing::Final && !self.is_any_due())
    }

    /// What is due once it is final, where the participant let go of it.
    fn rest_taken(&self, alloc: Global) -> Result<Vec<Call>, NoMemory>
        ensures { IfOk result (λ v. v.items
            ≡ (if self.now.over && is_final self.now.standing then roots.transfers self.now else [])) }
    {
        if self.over && self.standing == Standing::Final {
            self.transfers(alloc)
        } else {
            Ok(Vec::new(alloc))
        }
    }

    /// The stage, by the table of its rows.
    pub(crate) fn stage(&self) -> u8
        ensures { result ≡ rows.stage_in (roots.root_rows self.now) }
    {
        if !(self.closing || self.is_set_up()) {
            0
        } else if !(self.closing || self.is_funded() || self.is_begun()) {
            1
        } else if !(self.closing || self.is_posted()) {
            2
        } else if !self.closing {
            3
        } else if !self.is_done() {
            4
        } else if !self.is_paid_out() {
            5
        } else {
            6
        }
    }

    fn setup(&self, alloc: Global) -> Result<Option<State>, NoMemory>
        ensures { IfOk result (λ o. o ≡ seats.repeats 0 (roots.people self.now) self.now.channel) }
    {
        self.channel.repeats(alloc, 0, self.people())
    }

    fn post(&self, alloc: Global) -> Result<Option<State>, NoMemory>
        ensures { IfOk result (λ o. o ≡ seats.repeats (roots.people self.now)
            (2 * roots.people self.now) self.now.channel) }
    {
        let people = self.people();
        self.channel.repeats(alloc, people, 2 * people)
    }

    fn finish(&self, alloc: Global) -> Result<Option<State>, NoMemory>
        ensures { IfOk result (λ o. o ≡ seats.final_state self.now.channel) }
    {
        self.channel.final_state(alloc)
    }

    fn is_here(&self, name: &Name) -> bool
        ensures { result ≡ bytes_eq self.now.channel.name name.now }
    {
        self.channel.is_named(name)
    }

    fn wanted_at(&self, alloc: Global, stage: u8, name: &Name) -> Result<Option<State>, NoMemory>
        ensures { IfOk result (λ o. o ≡ rows.wish_in name.now (rows.signs_of stage (roots.root_rows self.now))) }
    {
        match stage {
            0 => if self.is_here(name) {
                self.setup(alloc)
            } else {
                Ok(None)
            },
            2 => if self.is_here(name) {
                self.post(alloc)
            } else {
                Ok(None)
            },
            4 => if self.is_here(name) {
                self.finish(alloc)
            } else {
                Ok(None)
            },
            _ => Ok(None),
        }
    }

    /// The state that the stage wants in a channel.
    pub(crate) fn wanted(&self, alloc: Global, name: &Name) -> Result<Option<State>, NoMemory>
        ensures { IfOk result (λ o. o ≡ rows.wanted_in name.now (roots.root_rows self.now)) }
    {
        self.wanted_at(alloc, self.stage(), name)
    }

    fn calls_at(&self, alloc: Global, stage: u8) -> Result<Vec<Call>, NoMemory>
        ensures { IfOk result (λ v. v.items ≡ rows.calls_of stage (roots.root_rows self.now)) }
    {
        match stage {
            1 => self.deposits(alloc),
            5 => self.concluding(alloc),
            6 => self.rest_taken(alloc),
            _ => Ok(Vec::new(alloc)),
        }
    }

    #[tactic(auto, using(crate::proofs::Fewer::outcome_is_few))]
    fn opening_assets(&self) -> &[AssetOutcome]
        ensures value { result.now ≡ self.now.channel.opening }
        ensures few { length self.now.channel.opening ≤ 4 }
    {
        self.opening.assets()
    }

    #[tactic(auto, using(crate::proofs::Fewer::outcome_is_few))]
    fn left(&self) -> &[AssetOutcome]
        ensures { length (roots.left_of self.now.rest) ≤ 4 }
    {
        match self.rest {
            None => &[],
            Some(rest) => rest.assets(),
        }
    }

    /// What the stage calls: of each asset at most once.
    pub(crate) fn calls(&self, alloc: Global) -> Result<Vec<Call>, NoMemory>
        ensures value { IfOk result (λ v. v.items ≡ rows.called_in (roots.root_rows self.now)) }
        ensures few { IfOk result (λ v. length v.items ≤ 4) }
    {
        let _opening = self.opening_assets();
        let _left = self.left();
        self.calls_at(alloc, self.stage())
    }

    fn takes_vote(&self, state: &State) -> bool
        ensures { result ≡ seats.takes_vote (seats.is_spelled None) self.now.channel state.now }
    {
        self.channel.takes_vote(&None, state)
    }

    /// Whether a state of the channel is taken from another.
    pub(crate) fn takes(&self, state: &State) -> bool
        ensures { result ≡ roots.root_takes self.now state.now }
    {
        if self.over {
            false
        } else if self.pays {
            self.channel.takes_payment(state)
        } else {
            self.takes_vote(state)
        }
    }

    pub(crate) fn takes_in(&self, name: &Name, state: &State) -> bool
        ensures { result ≡ bytes_eq self.now.channel.name name.now && roots.root_takes self.now state.now }
    {
        self.is_here(name) && self.takes(state)
    }
}

// ---- letting go of it

impl<'a> DirectView<'a> {
    /// It is final.
    pub(crate) fn settles(&self) -> bool
        ensures { result ≡ roots.root_settles self.now }
    {
        self.standing == Standing::Final && !self.over
    }

    fn has_turn_with(&self, asset: u32, items: &[Item]) -> bool
        requires { total items.now < 2 ^ 64 }
        ensures { result ≡ not (amt items.now (Person self.now.who) == 0)
            && nat_le (roots.ahead_of items.now (Person self.now.who)) (roots.held_of asset self.now.held) }
    {
        let to = Dest::Person(self.who);
        amt(items, &to) != 0 && ahead_of(items, &to) <= held_of(self.held, asset)
    }

    /// The participant's item of an asset has or had its turn.
    fn has_turn(&self, o: &AssetOutcome) -> bool
        ensures { result ≡ roots.has_turn self.now o.now }
    {
        self.has_turn_with(o.asset, items_in(self.opening, o.asset))
    }

    fn has_any_turn(&self) -> bool
        ensures { result ≡ list_any (roots.has_turn self.now) self.now.channel.opening }
    {
        self.opening.assets().iter().any(|o| self.has_turn(o))
    }

    fn has_put_nothing(&self) -> bool
        ensures { result ≡ roots.has_put_nothing self.now }
    {
        !self.is_set_up() || !self.has_any_turn()
    }

    /// It opens, isn't final, and the participant deposited nothing.
    pub(crate) fn abandons(&self) -> bool
        ensures { result ≡ roots.root_abandons self.now }
    {
        !self.closing
            && self.standing != Standing::Final
            && !self.is_posted()
            && self.has_put_nothing()
    }
}
