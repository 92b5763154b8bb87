//! The openings of a hop.

ghost use Rattle.std.specs.Prelude.{◌≡◌, ◌∷◌, ◌++◌, [], true, false, IfOk, OnOk};
ghost use Rattle.std.specs.Str.{bytes_eq};
ghost use Rattle.hop_script.specs.Hop.{are_apart, declared_people, opened, opened_ledgers, opened_onward, opened_virtual, opened_virtuals, openings, settled, side, sides};

use crate::parts::{label, push_settled, three, two};
use channel_values::{AssetOutcome, ByteFault, Dest, Item, Listed, Name, NoMemory, Outcome, Shape};
use network::Route;
use script_steps::{OpenStep, OpenVirtualStep, Person, Step};
use std::alloc::Global;

/// What a person has in a ledger at first.
fn side(digest: Name) -> Item
    ensures { result ≡ side digest }
{
    Item {
        to: Dest::Person(digest),
        amount: 100,
    }
}

/// What the ledger of two people holds at first.
fn sides(alloc: Global, first: Name, second: Name) -> Result<Outcome, NoMemory>
    requires { bytes_eq first second ≡ false }
    ensures { IfOk result (λ o. o ≡ sides first second) }
{
    let items = vec![in alloc; side(first), side(second)]?;
    let asset = AssetOutcome {
        asset: 0,
        shape: Shape::Allocation(Listed::make(items)),
    };
    let assets = vec![in alloc; asset]?;
    match Outcome::make(alloc, assets) {
        Ok(outcome) => Ok(outcome),
        Err(ByteFault::NoMemory) => Err(NoMemory),
        Err(_) => unreachable!(),
    }
}

fn opened(alloc: Global, ledger: &str, first: &Person, second: &Person) -> Result<Step, NoMemory>
    requires { bytes_eq first.now.digest second.now.digest ≡ false }
    ensures { IfOk result (λ s. s ≡ opened ledger.now first.now second.now) }
{
    Ok(Step::Open(OpenStep {
        who: two(alloc, first.name.as_str(), second.name.as_str())?,
        channel: label(alloc, ledger)?,
        outcome: sides(alloc, first.digest, second.digest)?,
    }))
}

/// The virtual ledger of A and I2, through I1.
fn opened_virtual(alloc: Global) -> Result<Step, NoMemory>
    ensures { IfOk result (λ s. s ≡ opened_virtual) }
{
    Ok(Step::OpenVirtual(OpenVirtualStep {
        who: three(alloc, "A", "I1", "I2")?,
        route: Route::Ledger,
        ledgers: two(alloc, "LA", "LI")?,
        guarantors: two(alloc, "GA1", "GB1")?,
        joint: label(alloc, "J1")?,
        channel: label(alloc, "VL")?,
        asset: 0,
        amounts: (60, 20),
    }))
}

/// The channel of A and B, through I2.
fn opened_onward(alloc: Global) -> Result<Step, NoMemory>
    ensures { IfOk result (λ s. s ≡ opened_onward) }
{
    Ok(Step::OpenVirtual(OpenVirtualStep {
        who: three(alloc, "A", "I2", "B")?,
        route: Route::Onward,
        ledgers: two(alloc, "VL", "LB")?,
        guarantors: two(alloc, "GA2", "GB2")?,
        joint: label(alloc, "J2")?,
        channel: label(alloc, "X2")?,
        asset: 0,
        amounts: (40, 10),
    }))
}

fn push_opened(
    alloc: Global,
    ledger: &str,
    first: &Person,
    second: &Person,
    steps: &mut Listed<Step>,
) -> Result<(), NoMemory>
    requires { bytes_eq first.now.digest second.now.digest ≡ false }
    ensures { OnOk result (steps.new ≡ steps.old ++ settled (opened ledger.now first.now second.now)) }
{
    let step = opened(alloc, ledger, first, second)?;
    push_settled(steps, step)
}

fn push_opened_ledgers(
    alloc: Global,
    a: &Person,
    near: &Person,
    far: &Person,
    b: &Person,
    steps: &mut Listed<Step>,
) -> Result<(), NoMemory>
    requires la { bytes_eq a.now.digest near.now.digest ≡ false }
    requires li { bytes_eq near.now.digest far.now.digest ≡ false }
    requires lb { bytes_eq far.now.digest b.now.digest ≡ false }
    ensures { OnOk result (steps.new ≡ steps.old ++ opened_ledgers (a.now ∷ near.now ∷ far.now ∷ b.now ∷ [])) }
{
    push_opened(alloc, "LA", a, near, steps)?;
    push_opened(alloc, "LI", near, far, steps)?;
    push_opened(alloc, "LB", far, b, steps)
}

fn push_opened_virtuals(alloc: Global, steps: &mut Listed<Step>) -> Result<(), NoMemory>
    ensures { OnOk result (steps.new ≡ steps.old ++ opened_virtuals) }
{
    push_settled(steps, opened_virtual(alloc)?)?;
    push_settled(steps, opened_onward(alloc)?)
}

/// Appends what opens the three ledgers of these people, the virtual one and the channel on it.
#[tactic(auto, using(crate::proofs::Names::are_opened))]
pub(crate) fn push_openings(
    alloc: Global,
    people: &[Person],
    steps: &mut Listed<Step>,
) -> Result<(), NoMemory>
    requires are { people.now ≡ declared_people }
    requires apart { are_apart ≡ true }
    ensures { OnOk result (steps.new ≡ steps.old ++ openings) }
{
    let [a, near, far, b] = people else {
        unreachable!();
    };
    push_opened_ledgers(alloc, a, near, far, b, steps)?;
    push_opened_virtuals(alloc, steps)
}
