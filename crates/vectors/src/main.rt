//! Vectors of other writers: signatures and keys (RFC 8554), calls and messages.
//!
//! For each line of the first file `NAME accept` or `NAME reject` is printed. Then `key NAME HEX` is printed for the
//! three names whose keys a signer can make. For each line of that name in the second file, `NAME same` follows where
//! the signer's next signature of the message is that of the line, else `NAME other`. Last is what `calls` says of
//! the lines of the third file. The notes in data/ say how the files were made.
#![tactic(auto)]

mod calls;
mod signatures;

use anyhow::{Context, Result};
use signatures::make_again;
use std::{env, fs};

/// The text of the file that the next argument names.
fn text_of(rt: &HostRuntime, argument: Option<String>) -> Result<String> {
    let file = argument.context("the name of a file is wanted")?;
    Ok(fs::read_to_string(rt, file.as_str())?)
}

fn main(rt: HostRuntime) -> Result<()> {
    let mut arguments = env::args(&rt)?;
    let _program = arguments.next();
    let judged = text_of(&rt, arguments.next())?;
    let made = text_of(&rt, arguments.next())?;
    let spelled = text_of(&rt, arguments.next())?;
    for line in judged.lines() {
        signatures::judge(&rt, line)?;
    }
    make_again(&rt, "h5w4", 5, made.as_str())?;
    make_again(&rt, "h10w4", 10, made.as_str())?;
    make_again(&rt, "h15w4", 15, made.as_str())?;
    for line in spelled.lines() {
        calls::judge(&rt, line)?;
    }
    Ok(())
}
