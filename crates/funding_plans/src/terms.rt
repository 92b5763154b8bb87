//! What a virtual channel is about.

ghost use Rattle.std.specs.Prelude.{◌≡◌, ◌∷◌, []};
ghost use Rattle.channel_values.specs.declared.value.Dest.TheVariants.{Person, Channel};
ghost use Rattle.funding_plans.specs.Targets as targets;

use channel_values::{Dest, Item, Name};

/// The payment channel, its two ends, the intermediary, and the total of what the ends have.
#[derive(Clone, Copy, Debug, PartialEq, Eq)]
pub struct Terms {
    pub asset: u32,
    pub channel: Name,
    pub first: Name,
    pub middle: Name,
    pub second: Name,
    pub total: u64,
}

impl Terms {
    /// The total for the payment channel, and the same for the intermediary.
    pub fn together(&self) -> [Item; 2]
        ensures { result ≡ targets.pays (Channel self.now.channel) self.now.total
            ∷ targets.pays (Person self.now.middle) self.now.total ∷ [] }
    {
        [
            Item {
                to: Dest::Channel(self.channel),
                amount: self.total,
            },
            Item {
                to: Dest::Person(self.middle),
                amount: self.total,
            },
        ]
    }

    /// Two amounts for the ends, and the total for the intermediary.
    pub fn apart(&self, a: u64, b: u64) -> [Item; 3]
        ensures { result ≡ targets.pays (Person self.now.first) a ∷ targets.pays (Person self.now.second) b
            ∷ targets.pays (Person self.now.middle) self.now.total ∷ [] }
    {
        [
            Item {
                to: Dest::Person(self.first),
                amount: a,
            },
            Item {
                to: Dest::Person(self.second),
                amount: b,
            },
            Item {
                to: Dest::Person(self.middle),
                amount: self.total,
            },
        ]
    }

    /// What the joint channel's guarantor for an end lists.
    pub fn listed(&self, end: &Name) -> [Dest; 3]
        ensures { result ≡ Channel self.now.channel ∷ Person end.now ∷ Person self.now.middle ∷ [] }
    {
        [
            Dest::Channel(self.channel),
            Dest::Person(*end),
            Dest::Person(self.middle),
        ]
    }
}
