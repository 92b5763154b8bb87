//! Measures signatures and the adjudicator's tables: `meters WORK COUNT`, where WORK is `step`, `key`, `key15`, `sign`,
//! `verify`, `deposits` or `transfers`.
//!
//! The work is done COUNT times, and `WORK COUNT` is printed. The time that it took, without the preparation, is
//! printed on standard error.
#![tactic(auto)]

mod signatures;
mod spelled;
mod tables;

use anyhow::{Context, Result, bail};
use std::env;
use std::time::Instant;

/// Prints how long the work has taken.
pub(crate) fn print_time(rt: &HostRuntime, start: &Instant) -> Result<()> {
    let micros = start.elapsed(rt)?.as_micros();
    eprintln!(rt; "{micros} microseconds")?;
    Ok(())
}

fn main(rt: HostRuntime) -> Result<()> {
    let mut arguments = env::args(&rt)?;
    let _program = arguments.next();
    let work = arguments.next().context("the work is wanted")?;
    let count = arguments
        .next()
        .context("a count is wanted")?
        .parse::<u32>()?;
    if !signatures::measure(&rt, &work, count)? && !tables::measure(&rt, &work, count)? {
        bail!("the work is step, key, key15, sign, verify, deposits or transfers");
    }
    println!(rt; "{work} {count}")?;
    Ok(())
}
