//! What a command that opens adds: channels to a store, and a part with its opening outcome.

ghost use Rattle.std.specs.Prelude.{◌≡◌, ◌==◌, ◌&&◌, ◌<◌, ◌^◌, ◌+◌, ◌++◌, ◌∷◌, [], true, None, OnOk, OnErr, IfOk, slice_index_or};
ghost use Rattle.std.specs.Str.{bytes_eq};
ghost use Rattle.channel_values.specs.Outcomes.{IsItem};
ghost use Rattle.channel_values.specs.declared.value.Dest.TheVariants.{Person};
ghost use Rattle.call_history.specs.Naming.{name_of};
ghost use Rattle.channel_store.specs.Storing.{kept_of};
ghost use Rattle.network.specs.declared.command.Command.TheVariants.{OpenVirtual};
ghost use Rattle.channel_node.specs.Openings as openings;
ghost use Rattle.node_knowledge.specs.Owned.{AreOwned};
ghost use Rattle.node_knowledge.specs.Taking.{joined, CanJoin, CanShare};
ghost use Rattle.support_rules.specs.Real.{real};
ghost use Rattle.support_rules.specs.Steps.{persons};

use channel_store::Store;
use channel_values::{
    AssetOutcome, Dest, Fixed, Item, Key, Listed, Name, NoMemory, Outcome, Shape, channel_name,
    person_name,
};
use funding_plans::{Part, Virtual};
use history_view::outcome_of;
use network::VirtualFunding;
use std::alloc::Global;

fn same_key(a: &Key, b: &Key) -> bool
    ensures { result ≡ bytes_eq a.now b.now }
{
    a == b
}

/// The position of a key among a channel's, or how many keys it has.
pub fn place_among(key: &Key, fixed: &Fixed) -> usize
    ensures { result ≡ openings.place_among key.now fixed.now }
{
    let keys = fixed.keys();
    for (place, k) in keys.iter().enumerate() {
        if same_key(key, k) {
            return place;
        }
    }
    keys.len()
}

/// Whether the key is one of the channel's.
pub fn takes_part(key: &Key, fixed: &Fixed) -> bool
    ensures { result ≡ openings.takes_part key.now fixed.now }
{
    place_among(key, fixed) < fixed.keys().len()
}

/// The channel's name.
pub fn name_of(fixed: &Fixed) -> Name
    ensures { result ≡ name_of fixed.now }
{
    channel_name(fixed.bytes())
}

fn join_store(store: &mut Store, key: &Key, fixed: &Fixed) -> Result<(), NoMemory>
    requires { openings.takes_part key.now fixed.now ≡ true → kept_of (name_of fixed.now) store.old ≡ None }
    ensures ok { OnOk result (store.new ≡ store.old ++ joined key.now (fixed.now ∷ [])) }
    ensures err { OnErr result (store.new ≡ store.old) }
{
    let place = place_among(key, fixed);
    if place >= fixed.keys().len() {
        return Ok(());
    }
    let fixed = fixed.copy()?;
    store.add_channel(fixed, place as u8)
}

/// Adds the channel, if the key is one of its; each channel stays the participant's own.
pub(crate) fn join(store: &mut Store, key: &Key, fixed: &Fixed) -> Result<(), NoMemory>
    requires { openings.takes_part key.now fixed.now ≡ true → kept_of (name_of fixed.now) store.old ≡ None }
    ensures joined { OnOk result (store.new ≡ store.old ++ joined key.now (fixed.now ∷ [])) }
    ensures owned { AreOwned key.now store.old → AreOwned key.now store.new }
{
    join_store(store, key, fixed)
}

/// Adds those of the four channels that have the key.
pub(crate) fn join_virtual(
    store: &mut Store,
    key: &Key,
    funding: &VirtualFunding,
) -> Result<(), NoMemory>
    requires { CanJoin key.now (openings.opened_by (OpenVirtual funding.now)) store.old }
    ensures joined { OnOk result (store.new ≡ store.old
        ++ joined key.now (openings.opened_by (OpenVirtual funding.now))) }
    ensures owned { AreOwned key.now store.old → AreOwned key.now store.new }
{
    let (first, second) = &funding.guarantors;
    join(store, key, first)?;
    join(store, key, second)?;
    join(store, key, &funding.joint)?;
    join(store, key, &funding.channel)
}

fn person_at(fixed: &Fixed, place: usize) -> Name
    requires { place < 2 }
    ensures { result ≡ slice_index_or (persons fixed.now) place [] }
{
    let keys = fixed.keys();
    person_name(&keys[place])
}

/// An amount for one of the channel's first two people.
fn share_of(fixed: &Fixed, place: usize, amount: u64) -> Item
    requires { place < 2 }
    ensures value { result ≡ record { to = Person (slice_index_or (persons fixed.now) place []); amount = amount } }
    ensures valid { IsItem result }
{
    Item {
        to: Dest::Person(person_at(fixed, place)),
        amount,
    }
}

/// The outcome with which a payment channel opens.
pub(crate) fn shared(
    alloc: Global,
    fixed: &Fixed,
    asset: u32,
    amounts: &(u64, u64),
) -> Result<Outcome, NoMemory>
    requires { CanShare fixed.now amounts.now }
    ensures { IfOk result (λ outcome. outcome ≡ openings.shared fixed.now asset amounts.now) }
{
    let first = share_of(fixed, 0, amounts.0);
    let second = share_of(fixed, 1, amounts.1);
    let items = vec![in alloc; first, second]?;
    let assets = vec![in alloc;
        AssetOutcome {
            asset,
            shape: Shape::Allocation(Listed::make(items)),
        },
    ]?;
    outcome_of(alloc, assets)
}

/// Whether the key is the second of the payment channel's people.
fn is_side_b(key: &Key, channel: &Fixed) -> bool
    ensures { result ≡ openings.takes_part key.now channel.now && (openings.place_among key.now channel.now == 1) }
{
    takes_part(key, channel) && place_among(key, channel) == 1
}

fn virtual_of(key: &Key, funding: &VirtualFunding) -> Virtual
    requires { funding.now.amounts.0 + funding.now.amounts.1 < 2 ^ 64 }
    ensures { result ≡ openings.virtual real key.now funding.now.ledgers funding.now.guarantors funding.now.joint
        funding.now.channel funding.now.asset funding.now.amounts }
{
    Virtual {
        ledger_a: funding.ledgers.0,
        ledger_b: funding.ledgers.1,
        guarantor_a: name_of(&funding.guarantors.0),
        guarantor_b: name_of(&funding.guarantors.1),
        joint: name_of(&funding.joint),
        channel: name_of(&funding.channel),
        asset: funding.asset,
        total: funding.amounts.0 + funding.amounts.1,
        side_b: is_side_b(key, &funding.channel),
    }
}

/// The part of a virtual channel: an end where the key is one of the payment channel's, else the intermediary's. It
/// is the same by each route.
pub(crate) fn part_of_virtual(key: &Key, funding: &VirtualFunding) -> Part
    requires { funding.now.amounts.0 + funding.now.amounts.1 < 2 ^ 64 }
    ensures { openings.parts_of real key.now (OpenVirtual funding.now) ≡ result ∷ [] }
{
    let v = virtual_of(key, funding);
    if takes_part(key, &funding.channel) {
        Part::End(v)
    } else {
        Part::Middle(v)
    }
}
