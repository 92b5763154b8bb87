//! The commands and the options of the program, in one table. Help, errors, completions and the manual page are made
//! from it.

use clap::{Arg, ArgAction, Command, value_parser};
use std::alloc::{AllocError, Global};

pub(crate) const VERSION: &str = "0.1.0";

const ABOUT: &str = "A state channel network on one machine: an exact simulator, with proved rules";

const AFTER_HELP: &str = "\
Exit status: 0 done; 1 out of memory; 2 wrong arguments; 3 the script, the text or the record is refused;
4 the input can't be read; 5 the output can't be written; 6 the input has more than 4 MiB; 7 the record
would be past the limits of its format. Of `ledger` and `node` also: 8 the state file is in use; 9 it is damaged;
10 it is another program's, version's or key's, or was moved; 11 it has fewer records than --after says. Of `node`
also: 12 the reply of an entry isn't the adjudicator's. Of a race also: 12 its history has no room for another entry.";

const SCRIPT: &str = "A script, one JSON text; without it, or with -, standard input is read";

const RECORD: &str = "A record; without it, or with -, standard input is read";

const TEXT: &str =
    "What run, load or route printed, or a record; without it, or with -, standard input is read";

const LEDGER: &str =
    "Serve a ledger that survives crashes: one JSON event a line in, one JSON effect a line out";

const NODE: &str =
    "Serve a node that survives crashes: one JSON event a line in, one JSON effect a line out";

const LEDGER_LINES: &str = "Events: enter, time. docs/USING.md has their keys.";

const NODE_LINES: &str = "\
First line: start. Events: entry, message, tick, dropped; the commands open, open_on, open_virtual, pay, close,
settle, abandon, exit. Queries: share, balance, report, plan, chains, resend. docs/USING.md has their keys.";

const JSON: &str = "\
Print each line as a JSON object with a version. What is proved of the text isn't proved of the JSON, beyond \
which object each line becomes";

static PAGES: [&str; 4] = ["man", "bash", "zsh", "fish"];

static PLAYS: [&str; 2] = ["run", "race"];

static ENDINGS: [&str; 2] = ["close", "exit"];

/// The file that a command reads.
fn file<'a>(alloc: Global, help: &'a str) -> Arg<'a> {
    Arg::new(alloc, "file").value_name("FILE").help(help)
}

/// Whether each line is printed as JSON.
fn json<'a>(alloc: Global) -> Arg<'a> {
    Arg::new(alloc, "json")
        .long("json")
        .action(ArgAction::SetTrue)
        .help(JSON)
}

/// A command that reads a file, and prints lines that can be JSON.
fn line_reader<'a>(
    alloc: Global,
    name: &'a str,
    about: &'a str,
    help: &'a str,
) -> Result<Command<'a>, AllocError> {
    Command::new(alloc, name)
        .about(about)
        .arg(json(alloc))?
        .arg(file(alloc, help))
}

/// A command that reads a file.
fn reader<'a>(
    alloc: Global,
    name: &'a str,
    about: &'a str,
    help: &'a str,
) -> Result<Command<'a>, AllocError> {
    Command::new(alloc, name)
        .about(about)
        .arg(file(alloc, help))
}

/// `load`, with its seed and its count.
fn load<'a>(alloc: Global) -> Result<Command<'a>, AllocError> {
    let seed = Arg::new(alloc, "seed")
        .long("seed")
        .value_name("SEED")
        .required(true)
        .value_parser(value_parser!(u64))
        .help("A number of 64 bits, from which keys and amounts are made");
    let count = Arg::new(alloc, "count")
        .long("count")
        .value_name("COUNT")
        .required(true)
        .value_parser(value_parser!(u32).range(1..=1000))
        .help("How many payments, 1 to 1000");
    Command::new(alloc, "load")
        .about("Play so many payments of two people, made from a seed")
        .arg(seed)?
        .arg(count)
}

/// `route`, with how it ends and its count.
fn route<'a>(alloc: Global) -> Result<Command<'a>, AllocError> {
    let ending = Arg::new(alloc, "ending")
        .value_name("ENDING")
        .required(true)
        .value_parser(ENDINGS.as_slice())
        .help("How it ends: all channels are closed together, or everybody leaves");
    let count = Arg::new(alloc, "count")
        .value_name("COUNT")
        .required(true)
        .value_parser(value_parser!(u32).range(0..=40))
        .help("How many payments, 0 to 40");
    Command::new(alloc, "route")
        .about("Play so many payments of two people over two intermediaries")
        .visible_alias("hop")?
        .arg(ending)?
        .arg(count)
}

/// `record`, with how the script is played.
fn record<'a>(alloc: Global) -> Result<Command<'a>, AllocError> {
    let play = Arg::new(alloc, "play")
        .value_name("PLAY")
        .required(true)
        .value_parser(PLAYS.as_slice())
        .help("How the script is played");
    Command::new(alloc, "record")
        .about("Play a script, and write the record of what was played")
        .arg(play)?
        .arg(file(alloc, SCRIPT))
}

/// `picture`, with the script that has the names of a record.
fn drawing<'a>(alloc: Global) -> Result<Command<'a>, AllocError> {
    let names = Arg::new(alloc, "names")
        .long("names")
        .value_name("SCRIPT")
        .help("The script that was recorded: its names are drawn in place of digits");
    Command::new(alloc, "picture")
        .about("Draw the text or the record of a run, as SVG")
        .arg(names)?
        .arg(file(alloc, TEXT))
}

/// `lint`, by the rules of a run or of a race.
fn lint<'a>(alloc: Global) -> Result<Command<'a>, AllocError> {
    let race = Arg::new(alloc, "race")
        .long("race")
        .action(ArgAction::SetTrue)
        .help("By the rules of a race");
    Command::new(alloc, "lint")
        .about("Read a script and check its rules, without playing it")
        .arg(race)?
        .arg(file(alloc, SCRIPT))
}

/// The lines that a service reads, in words.
pub(crate) fn lines_of(service: &str) -> Option<&'static str> {
    match service {
        "ledger" => Some(LEDGER_LINES),
        "node" => Some(NODE_LINES),
        _ => None,
    }
}

/// A service, with its state file.
fn service<'a>(
    alloc: Global,
    name: &'a str,
    about: &'a str,
    lines: &'a str,
) -> Result<Command<'a>, AllocError> {
    let state = Arg::new(alloc, "state")
        .long("state")
        .value_name("FILE")
        .required(true)
        .help("The file that keeps the events; it is made where there is none");
    let after = Arg::new(alloc, "after")
        .long("after")
        .value_name("N")
        .value_parser(value_parser!(u64))
        .help("Write the answers to the events after record N again");
    let moved = Arg::new(alloc, "moved")
        .long("moved")
        .action(ArgAction::SetTrue)
        .help("Take a file that was moved: no other copy of it may be in use");
    Command::new(alloc, name)
        .about(about)
        .after_help(lines)
        .arg(state)?
        .arg(after)?
        .arg(moved)
}

/// `page`, by which `install` makes the manual page and the completions.
fn page<'a>(alloc: Global) -> Result<Command<'a>, AllocError> {
    let page = Arg::new(alloc, "page")
        .value_name("PAGE")
        .required(true)
        .value_parser(PAGES.as_slice());
    Command::new(alloc, "page")
        .about("Print the manual page, or completions for a shell")
        .hide(true)
        .arg(page)
}

/// The program's command.
pub(crate) fn program<'a>(alloc: Global) -> Result<Command<'a>, AllocError> {
    let run = "Run a script, and print its history and what each person has";
    let race = "Play a script by rounds in threads, beside three actors that misbehave";
    let check = "Check a record: say that it is sound, or its first fault";
    let tower = "Print what a watchtower answers after each entry of a record";
    let show = "Print the entries, the sums and the endings of a record, sound or not";
    Command::new(alloc, "nitro")
        .about(ABOUT)
        .version(VERSION)
        .after_help(AFTER_HELP)
        .no_binary_name(true)
        .subcommand_required(true)
        .arg_required_else_help(true)
        .subcommand(line_reader(alloc, "run", run, SCRIPT)?)?
        .subcommand(line_reader(alloc, "race", race, SCRIPT)?)?
        .subcommand(load(alloc)?)?
        .subcommand(route(alloc)?)?
        .subcommand(record(alloc)?)?
        .subcommand(line_reader(alloc, "check", check, RECORD)?)?
        .subcommand(line_reader(alloc, "tower", tower, RECORD)?)?
        .subcommand(reader(alloc, "show", show, RECORD)?)?
        .subcommand(drawing(alloc)?)?
        .subcommand(lint(alloc)?)?
        .subcommand(service(alloc, "ledger", LEDGER, LEDGER_LINES)?)?
        .subcommand(service(alloc, "node", NODE, NODE_LINES)?)?
        .subcommand(page(alloc)?)?
        .subcommand(Command::new(alloc, "version").about("Print the version"))
}
