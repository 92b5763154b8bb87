//! What the rules of a participant read.

use crate::plan::{Goal, Plan};
use call_history::{HeldChain, Known, Place, WorldView};
use channel_values::Name;
use std::marker::Model;

/// The person, its plan, its view of the history, its places and held chains, the states that it signed last, and what
/// was commanded.
#[derive(Drop)]
pub struct Facts<'a> {
    pub me: Name,
    pub plan: &'a Plan,
    pub view: &'a WorldView,
    pub places: &'a [Place],
    pub chains: &'a [HeldChain],
    pub known: &'a [Known],
    pub goals: &'a [Goal],
}

impl<'a> Model for Facts<'a> {
    ghost use Rattle.funding_plans.specs.Known.{FactsOf};

    ghost Value = { FactsOf };

    ghost view = { λ f. record { me = f.me; plan = f.plan.now; view = f.view.now; places = f.places.now; chains = f.chains.now; known = f.known.now; goals = f.goals.now } };
}
