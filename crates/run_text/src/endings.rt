//! The lines that are no entries.

use crate::fault::Wanted;
use crate::line::{ExitLine, Line, PersonLine};
use crate::model::{AssetEnd, Balance, End, Made, Premises, Refused};
use crate::refusals::read_node_refusal;
use crate::words::Words;

/// `seed S count N`.
fn read_load<'a>(words: &mut Words<'a>) -> Result<Line<'a>, Wanted> {
    let seed = words.number_after("seed")?;
    let count = words.number_after("count")?;
    Ok(Line::Made(Made::Load { seed, count }))
}

/// `close N` or `exit N`.
fn read_hop<'a>(words: &mut Words<'a>) -> Result<Line<'a>, Wanted> {
    let leaves = match words.keyword() {
        "close" => false,
        "exit" => true,
        _ => return Err(Wanted::CloseOrExit),
    };
    let count = words.number()?;
    Ok(Line::Made(Made::Hop { leaves, count }))
}

/// `STEP WHO no NUMBER NAME` and the refusal's values.
fn read_command<'a>(line: &'a [u8], words: &mut Words<'a>) -> Result<Line<'a>, Wanted> {
    let step = words.number()?;
    let who = words.name()?;
    words.word("no")?;
    let said = read_node_refusal(words)?;
    Ok(Line::Command(Refused {
        line,
        step,
        who,
        said,
    }))
}

/// `entries N now T`.
fn read_end<'a>(words: &mut Words<'a>) -> Result<Line<'a>, Wanted> {
    let entries = words.number_after("entries")?;
    let now = words.number_after("now")?;
    Ok(Line::End(End { entries, now }))
}

/// `K deposited D held H paid P`.
fn read_asset<'a>(words: &mut Words<'a>) -> Result<Line<'a>, Wanted> {
    let asset = words.number()?;
    let deposited = words.number_after("deposited")?;
    let held = words.number_after("held")?;
    let paid = words.number_after("paid")?;
    Ok(Line::Asset(AssetEnd {
        asset,
        deposited,
        held,
        paid,
    }))
}

/// `NAME K N`.
fn read_balance<'a>(words: &mut Words<'a>) -> Result<Balance<'a>, Wanted> {
    let name = words.name()?;
    let asset = words.number()?;
    let amount = words.number()?;
    Ok(Balance {
        name,
        asset,
        amount,
    })
}

fn read_held<'a>(words: &mut Words<'a>) -> Result<Line<'a>, Wanted> {
    let held = read_balance(words)?;
    Ok(Line::Held(held))
}

fn read_paid<'a>(words: &mut Words<'a>) -> Result<Line<'a>, Wanted> {
    let paid = read_balance(words)?;
    Ok(Line::Paid(paid))
}

/// `P unforged W distinct W intime W`.
fn read_premises<'a>(words: &mut Words<'a>) -> Result<Line<'a>, Wanted> {
    let name = words.name()?;
    let unforged = words.yes_or_no_after("unforged")?;
    let distinct = words.yes_or_no_after("distinct")?;
    let in_time = words.yes_or_no_after("intime")?;
    Ok(Line::Premises(
        name,
        Premises {
            unforged,
            distinct,
            in_time,
        },
    ))
}

/// `P K paid N share S`.
fn read_person<'a>(words: &mut Words<'a>) -> Result<Line<'a>, Wanted> {
    let name = words.name()?;
    let asset = words.number()?;
    let paid = words.number_after("paid")?;
    let share = words.share_after("share")?;
    Ok(Line::Person(PersonLine {
        name,
        asset,
        paid,
        share,
    }))
}

/// `P K share S`.
fn read_exit<'a>(words: &mut Words<'a>) -> Result<Line<'a>, Wanted> {
    let name = words.name()?;
    let asset = words.number()?;
    let share = words.share_after("share")?;
    Ok(Line::Exit(ExitLine { name, asset, share }))
}

/// What a line that is no entry says: its first word, and the words after it.
pub(crate) fn read_ending<'a>(line: &'a [u8], words: &mut Words<'a>) -> Result<Line<'a>, Wanted> {
    match words.keyword() {
        "load" => read_load(words),
        "hop" => read_hop(words),
        "command" => read_command(line, words),
        "end" => read_end(words),
        "asset" => read_asset(words),
        "held" => read_held(words),
        "paid" => read_paid(words),
        "premises" => read_premises(words),
        "person" => read_person(words),
        "exit" => read_exit(words),
        _ => Err(Wanted::AnyLine),
    }
}
