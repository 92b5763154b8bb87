//! Commands.

ghost use Rattle.std.specs.Prelude.{◌≡◌};
ghost use Rattle.serde_json.specs.View.{view};
ghost use Rattle.node_lines.specs.Faults.{Gives};
ghost use Rattle.node_lines.specs.Commands.{open_of, open_on_of, route_in, route_at, open_virtual_of, pay_of, close_of, release_of, exit_of, command_in};

use crate::channels::{channel_at, channels_at};
use crate::faults::{Invalid, LineError};
use crate::outcomes::outcome_at;
use crate::values::{amounts_at, keys, name_at, names_at, number_at, small_at, text_at};
use network::{Command, LedgerFunding, Release, Route, VirtualFunding};
use serde_json::Value;
use std::alloc::Global;

fn open_of(alloc: Global, value: &Value) -> Result<Command, LineError>
    ensures { Gives (λ c. c) result (open_of (view value.now)) }
{
    keys(value, 3)?;
    let fixed = channel_at(alloc, value, "channel")?;
    let outcome = outcome_at(alloc, value, "outcome")?;
    Ok(Command::Open { fixed, outcome })
}

fn open_on_of(alloc: Global, value: &Value) -> Result<Command, LineError>
    ensures { Gives (λ c. c) result (open_on_of (view value.now)) }
{
    keys(value, 5)?;
    let ledger = name_at(value, "ledger")?;
    let asset = small_at(value, "asset")?;
    let amounts = amounts_at(value, "amounts")?;
    let fixed = channel_at(alloc, value, "channel")?;
    Ok(Command::OpenOn(LedgerFunding {
        ledger,
        fixed,
        asset,
        amounts,
    }))
}

fn route_in(word: &str) -> Result<Route, LineError>
    ensures { Gives (λ r. r) result (route_in word.now) }
{
    match word {
        "plain" => Ok(Route::Plain),
        "ledger" => Ok(Route::Ledger),
        "onward" => Ok(Route::Onward),
        _ => Err(LineError::Invalid(Invalid::Shape)),
    }
}

fn route_at(value: &Value, key: &str) -> Result<Route, LineError>
    ensures { Gives (λ r. r) result (route_at key.now (view value.now)) }
{
    let word = text_at(value, key)?;
    route_in(word)
}

fn open_virtual_of(alloc: Global, value: &Value) -> Result<Command, LineError>
    ensures { Gives (λ c. c) result (open_virtual_of (view value.now)) }
{
    keys(value, 8)?;
    let route = route_at(value, "route")?;
    let ledgers = names_at(value, "ledgers")?;
    let asset = small_at(value, "asset")?;
    let amounts = amounts_at(value, "amounts")?;
    let guarantors = channels_at(alloc, value, "guarantors")?;
    let joint = channel_at(alloc, value, "joint")?;
    let channel = channel_at(alloc, value, "channel")?;
    Ok(Command::OpenVirtual(VirtualFunding {
        route,
        ledgers,
        guarantors,
        joint,
        channel,
        asset,
        amounts,
    }))
}

fn pay_of(value: &Value) -> Result<Command, LineError>
    ensures { Gives (λ c. c) result (pay_of (view value.now)) }
{
    keys(value, 4)?;
    let channel = name_at(value, "channel")?;
    let asset = small_at(value, "asset")?;
    let amount = number_at(value, "amount")?;
    Ok(Command::Pay {
        channel,
        asset,
        amount,
    })
}

fn close_of(value: &Value) -> Result<Command, LineError>
    ensures { Gives (λ c. c) result (close_of (view value.now)) }
{
    keys(value, 2)?;
    let channel = name_at(value, "channel")?;
    Ok(Command::Close { channel })
}

fn release_of(how: Release, value: &Value) -> Result<Command, LineError>
    ensures { Gives (λ c. c) result (release_of how (view value.now)) }
{
    keys(value, 2)?;
    let channel = name_at(value, "channel")?;
    Ok(Command::Release { how, channel })
}

fn exit_of(value: &Value) -> Result<Command, LineError>
    ensures { Gives (λ c. c) result (exit_of (view value.now)) }
{
    keys(value, 1)?;
    Ok(Command::Exit)
}

/// The command that the value is, by its word.
pub(crate) fn command_in(alloc: Global, word: &str, value: &Value) -> Result<Command, LineError>
    ensures { Gives (λ c. c) result (command_in word.now (view value.now)) }
{
    match word {
        "open" => open_of(alloc, value),
        "open_on" => open_on_of(alloc, value),
        "open_virtual" => open_virtual_of(alloc, value),
        "pay" => pay_of(value),
        "close" => close_of(value),
        "settle" => release_of(Release::Settle, value),
        "abandon" => release_of(Release::Abandon, value),
        "exit" => exit_of(value),
        _ => Err(LineError::Invalid(Invalid::Shape)),
    }
}
