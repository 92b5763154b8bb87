//! What the arguments of the program ask for.

use crate::pages::Page;
use crate::table::program;
use channel_values::{Label, NoMemory};
use clap::error::ErrorKind;
use clap::{ArgMatches, Error};
use std::alloc::Global;

/// Which library call does what is asked for.
#[derive(Clone, Copy, Debug, PartialEq, Eq)]
pub enum Task {
    /// `run`, `race`, `load`.
    Play,
    Route,
    Record,
    Check,
    Tower,
    Show,
    Picture,
    Lint,
}

/// What is asked for: a task, whether its text is written as JSON, and the arguments that its call takes. Also the
/// script that has the names of a record, if one is given, and the file that is read, if not standard input.
#[derive(Drop)]
pub struct Request<'a> {
    pub task: Task,
    pub as_json: bool,
    pub words: Vec<Label>,
    pub names: Option<&'a str>,
    pub file: Option<&'a str>,
}

/// The state file of a service, the number of the last record whose effects aren't printed again, and whether the file
/// was moved.
#[derive(Clone, Copy, Drop)]
pub struct StateRequest<'a> {
    pub state: &'a str,
    pub after: Option<u64>,
    pub is_moved: bool,
}

/// The meaning of the arguments. Ledgers and nodes are served by `main`, since their files take the runtime of the
/// system.
#[derive(Drop)]
pub enum Wanted<'a> {
    Ledger(StateRequest<'a>),
    Node(StateRequest<'a>),
    Other(Asked<'a>),
}

/// The meaning of arguments that ask for no service.
#[derive(Drop)]
pub enum Asked<'a> {
    Task(Request<'a>),
    Version,
    /// The manual page, or completions for a shell.
    Page(Page),
    /// The arguments are wrong, or ask for help: the text says it.
    Told(Error),
}

/// Adds an argument.
fn push(alloc: Global, words: &mut Vec<Label>, word: &str) -> Result<(), NoMemory> {
    let text = String::from_str(alloc, word)?;
    words.push(Label::make(text))?;
    Ok(())
}

/// Adds an option, where it is given.
fn push_option(
    alloc: Global,
    words: &mut Vec<Label>,
    matches: &ArgMatches,
    name: &str,
    flag: &str,
) -> Result<(), NoMemory> {
    if let Some(value) = matches.get_str(name) {
        push(alloc, words, flag)?;
        push(alloc, words, value)?;
    }
    Ok(())
}

/// Adds the value of an argument, where it is given.
fn push_value(
    alloc: Global,
    words: &mut Vec<Label>,
    matches: &ArgMatches,
    name: &str,
) -> Result<(), NoMemory> {
    match matches.get_str(name) {
        Some(value) => push(alloc, words, value),
        None => Ok(()),
    }
}

fn task_of(name: &str) -> Option<Task> {
    match name {
        "run" | "race" | "load" => Some(Task::Play),
        "route" => Some(Task::Route),
        "record" => Some(Task::Record),
        "check" => Some(Task::Check),
        "tower" => Some(Task::Tower),
        "show" => Some(Task::Show),
        "picture" => Some(Task::Picture),
        "lint" => Some(Task::Lint),
        _ => None,
    }
}

/// The arguments that the call of a task takes.
fn words_of(alloc: Global, name: &str, matches: &ArgMatches) -> Result<Vec<Label>, NoMemory> {
    let mut words = Vec::new(alloc);
    if name != "route" && name != "lint" {
        push(alloc, &mut words, name)?;
    }
    match name {
        "load" => {
            push_option(alloc, &mut words, matches, "seed", "--seed")?;
            push_option(alloc, &mut words, matches, "count", "--count")?;
        }
        "route" => {
            push_value(alloc, &mut words, matches, "ending")?;
            push_value(alloc, &mut words, matches, "count")?;
        }
        "record" => push_value(alloc, &mut words, matches, "play")?,
        "lint" if matches.get_flag("race") => push(alloc, &mut words, "race")?,
        "lint" => push(alloc, &mut words, "run")?,
        _ => {}
    }
    Ok(words)
}

/// The file that is read, if not standard input.
fn file_of<'a>(matches: &ArgMatches<'a>) -> Option<&'a str> {
    let file = matches.get_str("file")?;
    if file == "-" { None } else { Some(file) }
}

/// What the program is asked for by the arguments after its name.
pub(crate) fn read_words<'a>(alloc: Global, words: &'a [&'a str]) -> Result<Wanted<'a>, NoMemory> {
    let matches = match program(alloc)?.try_get_matches_from(words) {
        Ok(matches) => matches,
        Err(error) if error.kind() == ErrorKind::OutOfMemory => return Err(NoMemory),
        Err(error) => return Ok(Wanted::Other(Asked::Told(error))),
    };
    let Some((name, own)) = matches.subcommand() else {
        return Ok(Wanted::Other(Asked::Version));
    };
    if let Some(word) = own.get_str("page") {
        return Ok(Wanted::Other(Asked::Page(Page::by_word(word))));
    }
    if let Some(state) = own.get_str("state") {
        let request = StateRequest {
            state,
            after: own.get_one::<u64>("after"),
            is_moved: own.get_flag("moved"),
        };
        return Ok(match name {
            "node" => Wanted::Node(request),
            _ => Wanted::Ledger(request),
        });
    }
    let Some(task) = task_of(name) else {
        return Ok(Wanted::Other(Asked::Version));
    };
    let request = Request {
        task,
        as_json: own.get_flag("json"),
        words: words_of(alloc, name, own)?,
        names: own.get_str("names"),
        file: file_of(own),
    };
    Ok(Wanted::Other(Asked::Task(request)))
}
