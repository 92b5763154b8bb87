//! Spellings of parts, valid or not.

ghost use Rattle.std.specs.Prelude.{◌≡◌, ◌++◌, ◌∷◌, [], length, OnOk};
ghost use Rattle.std.specs.Int.{w32, w64, to_be_bytes};
ghost use Rattle.std.specs.List.{flat_map, AllByRecursion};
ghost use Rattle.channel_values.specs.Parts.{IsKey, fixed_with, state_with};
ghost use Rattle.channel_values.specs.Outcomes.{AreBytes, IsOutcome, IsName, IsDest, IsItem, FitsShape, FitsAsset};
ghost use Rattle.channel_values.specs.Spelling.{dest, item, count, shape, asset_outcome, outcome, flag, sized, state, fixed};

use crate::fault::NoMemory;
use crate::outcome::Outcome;
use crate::value::{AssetOutcome, Dest, Item, Key, Name, Shape};

/// Appends a count of one byte. One that doesn't fit is written as 255, which is over every limit.
pub fn put_count(out: &mut Vec<u8>, length: usize) -> Result<(), NoMemory>
    ensures { OnOk result (out.new.items ≡ out.old.items ++ count length ∷ []) }
{
    out.push(length.min(255) as u8)?;
    Ok(())
}

/// Appends a name, which has 32 bytes.
pub fn put_name(out: &mut Vec<u8>, name: &Name) -> Result<(), NoMemory>
    ensures put { OnOk result (out.new.items ≡ out.old.items ++ name.now) }
    ensures fits { OnOk result (IsName name.now) }
{
    out.extend_from_slice(name)?;
    Ok(())
}

fn put_dest(out: &mut Vec<u8>, to: &Dest) -> Result<(), NoMemory>
    ensures put { OnOk result (out.new.items ≡ out.old.items ++ dest to.now) }
    ensures fits { OnOk result (IsDest to.now) }
{
    match to {
        Dest::Person(name) => {
            out.push(1)?;
            put_name(out, name)
        }
        Dest::Channel(name) => {
            out.push(2)?;
            put_name(out, name)
        }
    }
}

fn put_item(out: &mut Vec<u8>, i: &Item) -> Result<(), NoMemory>
    ensures put { OnOk result (out.new.items ≡ out.old.items ++ item i.now) }
    ensures fits { OnOk result (IsItem i.now) }
{
    put_dest(out, &i.to)?;
    out.extend_from_slice(&i.amount.to_be_bytes())?;
    Ok(())
}

fn put_items(out: &mut Vec<u8>, items: &[Item]) -> Result<(), NoMemory>
    ensures put { OnOk result (out.new.items ≡ out.old.items ++ flat_map item items.now) }
    ensures fits { OnOk result (AllByRecursion IsItem items.now) }
{
    for i in items {
        put_item(out, i)?;
    }
    Ok(())
}

fn put_dests(out: &mut Vec<u8>, dests: &[Dest]) -> Result<(), NoMemory>
    ensures put { OnOk result (out.new.items ≡ out.old.items ++ flat_map dest dests.now) }
    ensures fits { OnOk result (AllByRecursion IsDest dests.now) }
{
    for to in dests {
        put_dest(out, to)?;
    }
    Ok(())
}

fn put_shape(out: &mut Vec<u8>, s: &Shape) -> Result<(), NoMemory>
    ensures put { OnOk result (out.new.items ≡ out.old.items ++ shape s.now) }
    ensures fits { OnOk result (FitsShape s.now) }
{
    match s {
        Shape::Allocation(items) => {
            let items = items.as_slice();
            out.push(1)?;
            put_count(out, items.len())?;
            put_items(out, items)
        }
        Shape::Guarantee(target, dests) => {
            let dests = dests.as_slice();
            out.push(2)?;
            put_name(out, target)?;
            put_count(out, dests.len())?;
            put_dests(out, dests)
        }
    }
}

fn put_asset(out: &mut Vec<u8>, o: &AssetOutcome) -> Result<(), NoMemory>
    ensures put { OnOk result (out.new.items ≡ out.old.items ++ asset_outcome o.now) }
    ensures fits { OnOk result (FitsAsset o.now) }
{
    out.extend_from_slice(&o.asset.to_be_bytes())?;
    put_shape(out, &o.shape)
}

/// What a list of assets is spelled as, valid or not.
#[tactic(auto, unfolding(crate::specs::Spelling::outcome))]
pub(crate) fn put_assets(out: &mut Vec<u8>, assets: &[AssetOutcome]) -> Result<(), NoMemory>
    ensures put { OnOk result (out.new.items ≡ out.old.items ++ outcome assets.now) }
    ensures fits { OnOk result (AllByRecursion FitsAsset assets.now) }
{
    put_count(out, assets.len())?;
    for o in assets {
        put_asset(out, o)?;
    }
    Ok(())
}

/// Appends bytes after their length, which has two bytes.
pub fn put_sized(out: &mut Vec<u8>, bytes: &[u8]) -> Result<(), NoMemory>
    ensures put { OnOk result (out.new.items ≡ out.old.items ++ sized bytes.now) }
    ensures fits { OnOk result (AreBytes bytes.now) }
{
    let len = bytes.len().min(65535) as u16;
    out.extend_from_slice(&len.to_be_bytes())?;
    out.extend_from_slice(bytes)?;
    Ok(())
}

/// Appends a flag, which is one byte: 0 or 1.
pub fn put_flag(out: &mut Vec<u8>, holds: bool) -> Result<(), NoMemory>
    ensures { OnOk result (out.new.items ≡ out.old.items ++ flag holds) }
{
    out.push(if holds { 1 } else { 0 })?;
    Ok(())
}

/// What these parts of a state are spelled as, valid or not.
#[tactic(auto, unfolding(crate::specs::Spelling::state))]
pub(crate) fn put_state(
    out: &mut Vec<u8>,
    turn: u64,
    is_final: bool,
    ends: &Outcome,
    app_bytes: &[u8],
) -> Result<(), NoMemory>
    ensures put { OnOk result (out.new.items
        ≡ out.old.items ++ state (state_with turn is_final ends.now app_bytes.now)) }
    ensures outcome_fits { OnOk result (IsOutcome ends.now) }
    ensures data_fit { OnOk result (AreBytes app_bytes.now) }
{
    out.extend_from_slice(&turn.to_be_bytes())?;
    put_flag(out, is_final)?;
    out.extend_from_slice(ends.bytes())?;
    put_sized(out, app_bytes)
}

fn put_key(out: &mut Vec<u8>, key: &Key) -> Result<(), NoMemory>
    ensures put { OnOk result (out.new.items ≡ out.old.items ++ key.now) }
    ensures fits { OnOk result (IsKey key.now) }
{
    out.extend_from_slice(key)?;
    Ok(())
}

fn put_keys(out: &mut Vec<u8>, keys: &[Key]) -> Result<(), NoMemory>
    ensures put { OnOk result (out.new.items ≡ out.old.items ++ flat_map (λ key. key) keys.now) }
    ensures fits { OnOk result (AllByRecursion IsKey keys.now) }
{
    for key in keys {
        put_key(out, key)?;
    }
    Ok(())
}

fn put_terms(out: &mut Vec<u8>, nonce: u64, app: u8, duration: u32) -> Result<(), NoMemory>
    ensures { OnOk result (out.new.items
        ≡ out.old.items ++ (to_be_bytes w64 nonce ++ (app ∷ to_be_bytes w32 duration))) }
{
    out.extend_from_slice(&nonce.to_be_bytes())?;
    out.push(app)?;
    out.extend_from_slice(&duration.to_be_bytes())?;
    Ok(())
}

/// What these parts of a fixed part are spelled as, valid or not.
#[tactic(auto, unfolding(crate::specs::Spelling::fixed))]
pub(crate) fn put_fixed(
    out: &mut Vec<u8>,
    keys: &[Key],
    nonce: u64,
    app: u8,
    duration: u32,
) -> Result<(), NoMemory>
    ensures put { OnOk result (out.new.items ≡ out.old.items ++ fixed (fixed_with keys.now nonce app duration)) }
    ensures fits { OnOk result (AllByRecursion IsKey keys.now) }
{
    put_count(out, keys.len())?;
    put_keys(out, keys)?;
    put_terms(out, nonce, app, duration)
}
