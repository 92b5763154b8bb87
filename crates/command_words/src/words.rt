//! The request that the words make.

ghost use Rattle.std.specs.Prelude.{◌≡◌, IfOk, map, flat_map, option_and_then};
ghost use Rattle.clap.specs.Simple.{app_of};
ghost use Rattle.clap.specs.Matches.{first_value, found_of};
ghost use Rattle.command_words.specs.Words.{asked, load_in, load_of, number_of, parts_of, play_of};
ghost use Rattle.command_words.specs.Command.{load_app};

use crate::asking::Asked;
use crate::number::number;
use channel_values::{Label, NoMemory};
use clap::error::ErrorKind;
use clap::{Arg, ArgMatches, Command};
use std::alloc::{AllocError, Global};

/// A load with this seed and this count.
fn load(seed: Option<u64>, count: Option<u64>) -> Option<Asked>
    ensures { result ≡ load_of seed count }
{
    match (seed, count) {
        (Some(seed), Some(count)) if (1..=1000).contains(&count) => Some(Asked::Load {
            seed,
            count: count as u32,
        }),
        _ => None,
    }
}

/// The command whose options follow `load`.
fn load_command<'a>(alloc: Global) -> Result<Command<'a>, AllocError>
    ensures { IfOk result (λ command. app_of command ≡ load_app) }
{
    let seed = Arg::new(alloc, "seed").long("seed").required(true);
    let count = Arg::new(alloc, "count").long("count").required(true);
    Command::new(alloc, "load")
        .no_binary_name(true)
        .disable_help_flag(true)
        .arg(seed)?
        .arg(count)
}

/// The number that is the value of an option.
fn number_in(matches: &ArgMatches, option: &str) -> Option<u64>
    ensures { result ≡ option_and_then number_of (first_value (found_of matches.now) option.now) }
{
    number(matches.get_str(option)?)
}

/// What the words after `load` ask for.
fn read_load(alloc: Global, words: &[&str]) -> Result<Option<Asked>, NoMemory>
    ensures { IfOk result (λ a. a ≡ load_in (flat_map parts_of (map (λ word. word.now) words.now))) }
{
    let command = load_command(alloc)?;
    match command.try_get_matches_from(words) {
        Ok(matches) => Ok(load(number_in(&matches, "seed"), number_in(&matches, "count"))),
        Err(error) if error.kind() == ErrorKind::OutOfMemory => Err(NoMemory),
        Err(_) => Ok(None),
    }
}

/// The texts of the words.
fn texts_of<'a>(alloc: Global, words: &'a [Label]) -> Result<Vec<&'a str>, AllocError>
    ensures { IfOk result (λ texts. map (λ text. text.now) texts.items ≡ words.now) }
{
    let mut texts = Vec::new(alloc);
    for word in words {
        texts.push(word.as_str())?;
    }
    Ok(texts)
}

/// What a word that stands alone asks for.
fn play_of(word: &str) -> Option<Asked>
    ensures { result ≡ play_of word.now }
{
    match word {
        "run" => Some(Asked::Run),
        "race" => Some(Asked::Race),
        _ => None,
    }
}

/// What the words after the program's name ask for, if anything. A call for help or for the version asks for nothing.
pub fn asked(alloc: Global, words: &[Label]) -> Result<Option<Asked>, NoMemory>
    ensures { IfOk result (λ a. a ≡ asked words.now) }
{
    match words {
        [word] => Ok(play_of(word.as_str())),
        [word, rest @ ..] if word.as_str() == "load" => {
            let texts = texts_of(alloc, rest)?;
            read_load(alloc, &texts)
        }
        _ => Ok(None),
    }
}
