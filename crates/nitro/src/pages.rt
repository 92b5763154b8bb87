//! The manual page, and completions for three shells, made from the table of commands.

use crate::table::lines_of;
use channel_values::NoMemory;
use clap::{Arg, Command};
use std::alloc::Global;

/// What is made of the table.
#[derive(Clone, Copy, Debug, PartialEq, Eq)]
pub enum Page {
    Manual,
    Bash,
    Zsh,
    Fish,
}

impl Page {
    /// The page by its word.
    pub(crate) fn by_word(word: &str) -> Page {
        match word {
            "bash" => Page::Bash,
            "zsh" => Page::Zsh,
            "fish" => Page::Fish,
            _ => Page::Manual,
        }
    }
}

/// A text between single quotes of a shell.
fn push_quoted(out: &mut String, text: &str) -> Result<(), NoMemory> {
    out.push_str("'")?;
    let mut is_first = true;
    for part in text.split('\'') {
        if !is_first {
            out.push_str("'\\''")?;
        }
        is_first = false;
        out.push_str(part)?;
    }
    out.push_str("'")?;
    Ok(())
}

/// Texts one after the other.
fn push_all(out: &mut String, texts: &[&str]) -> Result<(), NoMemory> {
    for text in texts {
        out.push_str(text)?;
    }
    Ok(())
}

fn about_of<'a>(command: &Command<'a>) -> &'a str {
    match command.get_about() {
        Some(about) => about,
        None => "",
    }
}

fn help_of<'a>(arg: &Arg<'a>) -> &'a str {
    match arg.get_help() {
        Some(help) => help,
        None => "",
    }
}

/// An argument as the manual's synopsis has it.
fn push_argument(out: &mut String, arg: &Arg) -> Result<(), NoMemory> {
    match arg.get_long() {
        Some(long) => push_all(out, &["--", long])?,
        None => push_all(out, &["<", arg.get_id(), ">"])?,
    }
    Ok(())
}

/// The part of the manual on a command.
fn push_manual_command(out: &mut String, command: &Command) -> Result<(), NoMemory> {
    push_all(
        out,
        &[".SS ", command.get_name(), "\n", about_of(command), ".\n"],
    )?;
    if let Some(lines) = lines_of(command.get_name()) {
        push_all(out, &[".PP\n", lines, "\n"])?;
    }
    for arg in command.get_arguments() {
        out.push_str(".TP\n.B ")?;
        push_argument(out, arg)?;
        push_all(out, &["\n", help_of(arg), ".\n"])?;
    }
    Ok(())
}

fn push_manual(out: &mut String, program: &Command) -> Result<(), NoMemory> {
    out.push_str(".TH NITRO 1\n.SH NAME\nnitro \\- ")?;
    out.push_str(about_of(program))?;
    out.push_str("\n.SH SYNOPSIS\n.B nitro\n.I COMMAND\n[arguments]\n.SH COMMANDS\n")?;
    for command in program.get_subcommands() {
        if command.get_name() != "page" {
            push_manual_command(out, command)?;
        }
    }
    Ok(())
}

/// The names of the commands, one after the other.
fn push_names(out: &mut String, program: &Command) -> Result<(), NoMemory> {
    for command in program.get_subcommands() {
        if command.get_name() != "page" {
            push_all(out, &[command.get_name(), " "])?;
        }
    }
    out.push_str("help")?;
    Ok(())
}

/// The options of a command, one after the other.
fn push_options(out: &mut String, command: &Command) -> Result<(), NoMemory> {
    for arg in command.get_arguments() {
        if let Some(long) = arg.get_long() {
            push_all(out, &["--", long, " "])?;
        }
    }
    out.push_str("--help")?;
    Ok(())
}

fn push_bash(out: &mut String, program: &Command) -> Result<(), NoMemory> {
    out.push_str("_nitro() {\n    local word=${COMP_WORDS[COMP_CWORD]} words=--help\n")?;
    out.push_str("    case $COMP_CWORD:${COMP_WORDS[1]-} in\n        1:*) words='")?;
    push_names(out, program)?;
    out.push_str("' ;;\n")?;
    for command in program.get_subcommands() {
        push_all(out, &["        *:", command.get_name(), ") words='"])?;
        push_options(out, command)?;
        out.push_str("' ;;\n")?;
    }
    out.push_str("    esac\n    COMPREPLY=($(compgen -W \"$words\" -- \"$word\"))\n}\n")?;
    out.push_str("complete -o default -F _nitro nitro\n")?;
    Ok(())
}

fn push_zsh(out: &mut String, program: &Command) -> Result<(), NoMemory> {
    out.push_str("#compdef nitro\nlocal -a commands\ncommands=(\n")?;
    for command in program.get_subcommands() {
        if command.get_name() != "page" {
            push_all(out, &["    ", command.get_name(), ":"])?;
            push_quoted(out, about_of(command))?;
            out.push_str("\n")?;
        }
    }
    out.push_str(
        ")\nif ((CURRENT == 2)); then\n    _describe command commands\nelse\n    case $words[2] in\n",
    )?;
    for command in program.get_subcommands() {
        push_all(out, &["        ", command.get_name(), ") compadd -- "])?;
        push_options(out, command)?;
        out.push_str(" ;;\n")?;
    }
    out.push_str("    esac\n    _files\nfi\n")?;
    Ok(())
}

/// What fish completes after a command.
fn push_fish_command(out: &mut String, command: &Command) -> Result<(), NoMemory> {
    let name = command.get_name();
    push_all(
        out,
        &[
            "complete -c nitro -n __fish_use_subcommand -f -a ",
            name,
            " -d ",
        ],
    )?;
    push_quoted(out, about_of(command))?;
    out.push_str("\n")?;
    for arg in command.get_arguments() {
        if let Some(long) = arg.get_long() {
            push_all(
                out,
                &[
                    "complete -c nitro -n '__fish_seen_subcommand_from ",
                    name,
                    "' -l ",
                    long,
                    " -d ",
                ],
            )?;
            push_quoted(out, help_of(arg))?;
            out.push_str("\n")?;
        }
    }
    Ok(())
}

fn push_fish(out: &mut String, program: &Command) -> Result<(), NoMemory> {
    for command in program.get_subcommands() {
        if command.get_name() != "page" {
            push_fish_command(out, command)?;
        }
    }
    Ok(())
}

/// The page that is asked for.
pub(crate) fn page_of(alloc: Global, program: &Command, page: Page) -> Result<String, NoMemory> {
    let mut out = String::new(alloc);
    match page {
        Page::Manual => push_manual(&mut out, program)?,
        Page::Bash => push_bash(&mut out, program)?,
        Page::Zsh => push_zsh(&mut out, program)?,
        Page::Fish => push_fish(&mut out, program)?,
    }
    Ok(out)
}
