//! The answers to queries.

ghost use Rattle.std.specs.Prelude.{◌≡◌, ◌++◌, IfOk, OnOk, string_bytes};
ghost use Rattle.std.specs.Option.{option_map};
ghost use Rattle.node_lines.specs.Texts.{digits_text, truth_text, mine_text, exit_text, balance_front, share_text, balance_text, report_text, plan_text, chains_text};

use crate::lists::{JsonItem, put_items};
use channel_values::{Listed, Name, NoMemory};
use std::alloc::Global;

/// What a channel has of an asset: for the node's person, and for all others.
#[derive(Clone, Copy, Debug, PartialEq, Eq)]
pub struct AssetBalance {
    pub asset: u32,
    pub mine: u128,
    pub others: u128,
}

// The digits of bytes, between quotation marks.
#[tactic(auto, unfolding(crate::specs::Texts::digits_text))]
fn put_digits(out: &mut Vec<u8>, bytes: &[u8]) -> Result<(), NoMemory>
    ensures { OnOk result (out.new.items ≡ out.old.items ++ digits_text bytes.now) }
{
    let digits = hex::encode(*out.allocator(), bytes)?;
    out.extend_from_slice(b"\"")?;
    out.extend_from_slice(digits.as_bytes())?;
    out.extend_from_slice(b"\"")?;
    Ok(())
}

impl JsonItem for Name {
    ghost use Rattle.node_lines.specs.Texts.{digits_text};

    ghost json = { digits_text };

    fn put(&self, out: &mut Vec<u8>) -> Result<(), NoMemory> {
        put_digits(out, self)
    }
}

impl JsonItem for Listed<u8> {
    ghost use Rattle.node_lines.specs.Texts.{digits_text};

    ghost json = { digits_text };

    fn put(&self, out: &mut Vec<u8>) -> Result<(), NoMemory> {
        put_digits(out, self.as_slice())
    }
}

impl JsonItem for AssetBalance {
    ghost use Rattle.node_lines.specs.Texts.{asset_balance_text};

    ghost json = { asset_balance_text };

    #[tactic(auto, unfolding(crate::specs::Texts::asset_balance_text))]
    fn put(&self, out: &mut Vec<u8>) -> Result<(), NoMemory> {
        let (asset, mine, others) = (self.asset, self.mine, self.others);
        let text = format!(in *out.allocator(); "[{asset},{mine},{others}]")?;
        out.extend_from_slice(text.as_bytes())?;
        Ok(())
    }
}

impl JsonItem for (u32, u128) {
    ghost use Rattle.node_lines.specs.Texts.{amount_text};

    ghost json = { amount_text };

    #[tactic(auto, unfolding(crate::specs::Texts::amount_text))]
    fn put(&self, out: &mut Vec<u8>) -> Result<(), NoMemory> {
        let (asset, amount) = *self;
        let text = format!(in *out.allocator(); "[{asset},{amount}]")?;
        out.extend_from_slice(text.as_bytes())?;
        Ok(())
    }
}

fn truth_text(is_true: bool) -> &'static str
    ensures { result.now ≡ truth_text is_true }
{
    if is_true { "true" } else { "false" }
}

/// What the node's person is worth of an asset.
#[tactic(auto, unfolding(crate::specs::Texts::share_text))]
pub fn share_text(alloc: Global, asset: u32, amount: u128) -> Result<Vec<u8>, NoMemory>
    ensures { IfOk result (λ text. text.items ≡ share_text asset amount) }
{
    let text = format!(in alloc;
        "{{\"effect\":\"share\",\"asset\":{asset},\"amount\":{amount}}}\n"
    )?;
    Ok(text.into_bytes())
}

// The end of a balance.
#[tactic(auto, unfolding(crate::specs::Texts::mine_text))]
fn put_mine(out: &mut Vec<u8>, is_mine: bool) -> Result<(), NoMemory>
    ensures { OnOk result (out.new.items ≡ out.old.items ++ mine_text is_mine) }
{
    out.extend_from_slice(b"],\"mine\":")?;
    out.extend_from_slice(truth_text(is_mine).as_bytes())?;
    out.extend_from_slice(b"}\n")?;
    Ok(())
}

#[tactic(auto, unfolding(crate::specs::Texts::balance_front))]
fn balance_front(alloc: Global, channel: &Name, turn: u64) -> Result<String, NoMemory>
    ensures { IfOk result (λ text. string_bytes text ≡ balance_front channel.now turn) }
{
    let channel = hex::encode(alloc, channel)?;
    Ok(format!(in alloc;
        "{{\"effect\":\"balance\",\"channel\":\"{channel}\",\"turn\":{turn},\"items\":["
    )?)
}

/// What a channel has at its newest supported turn, and whether the next turn is the node's.
pub fn balance_text(
    alloc: Global,
    channel: &Name,
    turn: u64,
    items: &[AssetBalance],
    is_mine: bool,
) -> Result<Vec<u8>, NoMemory>
    ensures { IfOk result (λ text. text.items ≡ balance_text channel.now turn items.now is_mine) }
{
    let front = balance_front(alloc, channel, turn)?;
    let mut text = front.into_bytes();
    put_items(&mut text, items)?;
    put_mine(&mut text, is_mine)?;
    Ok(text)
}

fn put_exit(out: &mut Vec<u8>, exit: Option<&[(u32, u128)]>) -> Result<(), NoMemory>
    ensures { OnOk result (out.new.items ≡ out.old.items ++ exit_text (option_map (λ rows. rows.now) exit.entry)) }
{
    match exit {
        None => out.extend_from_slice(b"null")?,
        Some(rows) => {
            out.extend_from_slice(b"[")?;
            put_items(out, rows)?;
            out.extend_from_slice(b"]")?;
        }
    }
    Ok(())
}

/// Which premises hold, and what an exit takes of each asset where the node was told to leave.
#[tactic(auto, unfolding(crate::specs::Texts::report_text))]
pub fn report_text(
    alloc: Global,
    unforged: bool,
    distinct: bool,
    in_time: bool,
    exit: Option<&[(u32, u128)]>,
) -> Result<Vec<u8>, NoMemory>
    ensures { IfOk result (λ text. text.items
        ≡ report_text unforged distinct in_time (option_map (λ rows. rows.now) exit.entry)) }
{
    let unforged = truth_text(unforged);
    let distinct = truth_text(distinct);
    let in_time = truth_text(in_time);
    let head = format!(in alloc;
        "{{\"effect\":\"report\",\"unforged\":{unforged},\"distinct\":{distinct},\"in_time\":{in_time},\"exit\":"
    )?;
    let mut text = head.into_bytes();
    put_exit(&mut text, exit)?;
    text.extend_from_slice(b"}\n")?;
    Ok(text)
}

/// The channels of the node's plan.
#[tactic(auto, unfolding(crate::specs::Texts::plan_text))]
pub fn plan_text(alloc: Global, channels: &[Name]) -> Result<Vec<u8>, NoMemory>
    ensures { IfOk result (λ text. text.items ≡ plan_text channels.now) }
{
    let mut text = Vec::from_slice(alloc, b"{\"effect\":\"plan\",\"channels\":[")?;
    put_items(&mut text, channels)?;
    text.extend_from_slice(b"]}\n")?;
    Ok(text)
}

/// The canonical bytes of the chains that a watchtower takes.
#[tactic(auto, unfolding(crate::specs::Texts::chains_text))]
pub fn chains_text(alloc: Global, chains: &[Listed<u8>]) -> Result<Vec<u8>, NoMemory>
    ensures { IfOk result (λ text. text.items ≡ chains_text chains.now) }
{
    let mut text = Vec::from_slice(alloc, b"{\"effect\":\"chains\",\"chains\":[")?;
    put_items(&mut text, chains)?;
    text.extend_from_slice(b"]}\n")?;
    Ok(text)
}
