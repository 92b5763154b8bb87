//! What outcomes are made of.

ghost use Rattle.std.specs.Prelude.{◌≡◌, ◌<◌, ◌^◌, ◌↔◌, IsTrue, IfOk};
ghost use Rattle.channel_values.specs.Outcomes.{is_same, total};

use crate::fault::NoMemory;
use crate::listed::Listed;

/// The SHA-256 digest that names a person, a channel, a state or an outcome.
pub type Name = [u8; 32];

/// The LMS public key of a person (RFC 8554, section 5.3).
pub type Key = [u8; 56];

/// Who is paid.
#[derive(Clone, Copy, Debug, PartialEq, Eq)]
pub enum Dest {
    Person(Name),
    Channel(Name),
}

impl Dest {
    /// Whether both are the same destination: of the same kind, with the same name.
    pub fn is(&self, other: &Dest) -> bool
        ensures value { result ≡ is_same self.now other.now }
        ensures exact { IsTrue result ↔ (self.now ≡ other.now) }
    {
        self == other
    }
}

impl Default for Dest {
    /// The person of name 0.
    fn default() -> Dest {
        Dest::Person([0; 32])
    }
}

/// An amount for a destination.
#[derive(Clone, Copy, Debug, Default, PartialEq, Eq)]
pub struct Item {
    pub to: Dest,
    pub amount: u64,
}

/// The sum of the amounts.
pub fn total(items: &[Item]) -> u64
    requires { total items.now < 2 ^ 64 }
    ensures { result ≡ total items.now }
{
    items.iter().map(|item| item.amount).sum()
}

/// How one asset is paid out.
#[derive(Drop)]
pub enum Shape {
    /// Items are paid in their order.
    Allocation(Listed<Item>),
    /// What the target's allocation has for these destinations is paid, in this order.
    Guarantee(Name, Listed<Dest>),
}

impl Shape {
    /// A second shape that equals this one.
    pub fn copy(&self) -> Result<Shape, NoMemory>
        ensures { IfOk result (λ s. s ≡ self.now) }
    {
        match self {
            Shape::Allocation(items) => {
                let items = items.copy()?;
                Ok(Shape::Allocation(items))
            }
            Shape::Guarantee(target, dests) => {
                let dests = dests.copy()?;
                Ok(Shape::Guarantee(*target, dests))
            }
        }
    }
}

/// What becomes of one asset.
#[derive(Drop)]
pub struct AssetOutcome {
    pub asset: u32,
    pub shape: Shape,
}

impl AssetOutcome {
    /// A second one that equals this one.
    pub fn copy(&self) -> Result<AssetOutcome, NoMemory>
        ensures { IfOk result (λ o. o ≡ self.now) }
    {
        let shape = self.shape.copy()?;
        Ok(AssetOutcome {
            asset: self.asset,
            shape,
        })
    }
}
