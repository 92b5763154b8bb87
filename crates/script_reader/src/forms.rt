//! The forms of steps, each in a file of its own, and the words that tell them apart.

mod catch;
mod challenge;
mod channel;
mod checkpoint;
mod claim;
mod close;
mod conclude;
mod deposit;
mod drop;
mod exit;
mod open;
mod open_on;
mod open_virtual;
mod pay;
mod person;
mod refute;
mod release;
mod resend;
mod respond;
mod rounds;
mod send;
mod sign;
mod time;
mod transfer;

ghost use Rattle.std.specs.Prelude.{◌≡◌};
ghost use Rattle.std.specs.List.{list_any};
ghost use Rattle.std.specs.Str.{bytes_eq};
ghost use Rattle.serde_json.specs.View.{view};
ghost use Rattle.script_steps.specs.Rules.{Gives};
ghost use Rattle.script_reader.specs.Forms.{is_word, plain_by, is_indirect, indirect_by, plain_written, written_by};

use crate::written::Written;
use network::Release;
use script_steps::{Rule, Step, StepFault};
use serde_json::Value;
use std::alloc::Global;

/// The words of all forms.
const WORDS: [&str; 25] = [
    "deposit",
    "time",
    "person",
    "channel",
    "sign",
    "catch",
    "send",
    "drop",
    "challenge",
    "respond",
    "refute",
    "checkpoint",
    "conclude",
    "transfer",
    "claim",
    "open",
    "open_on",
    "open_virtual",
    "pay",
    "close",
    "settle",
    "abandon",
    "resend",
    "exit",
    "rounds",
];

fn is_among(word: &str, words: &[&str]) -> bool
    ensures { result ≡ list_any (λ w. bytes_eq word.now w.now) words.now }
{
    words.iter().any(|w| word == *w)
}

/// Whether a step can begin with this word.
pub fn is_word(word: &str) -> bool
    ensures { result ≡ is_word word.now }
{
    is_among(word, &WORDS)
}

/// Reads a step that has neither outcomes nor amounts by the form of its word.
fn plain_by(alloc: Global, word: &str, step: &Value) -> Result<Step, StepFault>
    ensures { Gives (λ s. s) result (plain_by word.now (view step.now)) }
{
    match word {
        "deposit" => deposit::deposit_of(alloc, step),
        "time" => time::time_of(step),
        "person" => person::person_of(alloc, step),
        "channel" => channel::channel_of(alloc, step),
        "catch" => catch::catch_of(alloc, step),
        "send" => send::send_of(alloc, step),
        "drop" => drop::drop_of(alloc, step),
        "challenge" => challenge::challenge_of(alloc, step),
        "respond" => respond::respond_of(alloc, step),
        "refute" => refute::refute_of(alloc, step),
        "checkpoint" => checkpoint::checkpoint_of(alloc, step),
        "conclude" => conclude::conclude_of(alloc, step),
        "transfer" => transfer::transfer_of(alloc, step),
        "claim" => claim::claim_of(alloc, step),
        "pay" => pay::pay_of(alloc, step),
        "close" => close::close_of(alloc, step),
        "settle" => release::release_of(alloc, Release::Settle, step),
        "abandon" => release::release_of(alloc, Release::Abandon, step),
        "resend" => resend::resend_of(alloc, step),
        "exit" => exit::exit_of(alloc, step),
        "rounds" => rounds::rounds_of(step),
        _ => Err(StepFault::Broken(Rule::Shape)),
    }
}

/// Whether outcomes or amounts of the form are written otherwise than they stand in its step.
fn is_indirect(word: &str) -> bool
    ensures { result ≡ is_indirect word.now }
{
    matches!(word, "sign" | "open" | "open_on" | "open_virtual")
}

fn indirect_by(alloc: Global, word: &str, step: &Value) -> Result<Written, StepFault>
    ensures { Gives (λ w. w) result (indirect_by word.now (view step.now)) }
{
    match word {
        "sign" => sign::sign_of(alloc, step),
        "open" => open::open_of(alloc, step),
        "open_on" => open_on::open_on_of(alloc, step),
        "open_virtual" => open_virtual::open_virtual_of(alloc, step),
        _ => Err(StepFault::Broken(Rule::Shape)),
    }
}

fn plain_written(alloc: Global, word: &str, step: &Value) -> Result<Written, StepFault>
    ensures { Gives (λ w. w) result (plain_written word.now (view step.now)) }
{
    let step = plain_by(alloc, word, step)?;
    Ok(Written::Plain(step))
}

/// Reads a step as it is written, by the form of its word.
pub fn written_by(alloc: Global, word: &str, step: &Value) -> Result<Written, StepFault>
    ensures { Gives (λ w. w) result (written_by word.now (view step.now)) }
{
    if is_indirect(word) {
        indirect_by(alloc, word, step)
    } else {
        plain_written(alloc, word, step)
    }
}
