//! The lines of entries.

use crate::fault::Wanted;
use crate::line::Line;
use crate::model::{Call, Entry, Payee, Reply, TurnCall};
use crate::refusals::read_refusal;
use crate::words::Words;

fn read_deposit<'a>(words: &mut Words<'a>) -> Result<Call<'a>, Wanted> {
    let channel = words.name()?;
    let asset = words.number()?;
    let expected = words.number()?;
    let amount = words.number()?;
    Ok(Call::Deposit {
        channel,
        asset,
        expected,
        amount,
    })
}

fn read_turn<'a>(words: &mut Words<'a>, call: TurnCall) -> Result<Call<'a>, Wanted> {
    let channel = words.name()?;
    let turn = words.number_or_dash()?;
    Ok(Call::Turn {
        call,
        channel,
        turn,
    })
}

fn read_transfer<'a>(words: &mut Words<'a>) -> Result<Call<'a>, Wanted> {
    let channel = words.name()?;
    let asset = words.number()?;
    let index = words.number()?;
    Ok(Call::Transfer {
        channel,
        asset,
        index,
    })
}

fn read_claim<'a>(words: &mut Words<'a>) -> Result<Call<'a>, Wanted> {
    let guarantor = words.name()?;
    let target = words.name()?;
    let asset = words.number()?;
    let position = words.number()?;
    Ok(Call::Claim {
        guarantor,
        target,
        asset,
        position,
    })
}

fn read_time<'a>(words: &mut Words<'a>) -> Result<Call<'a>, Wanted> {
    let time = words.number()?;
    Ok(Call::Time(time))
}

fn read_call<'a>(words: &mut Words<'a>) -> Result<Call<'a>, Wanted> {
    match words.keyword() {
        "deposit" => read_deposit(words),
        "time" => read_time(words),
        "challenge" => read_turn(words, TurnCall::Challenge),
        "respond" => read_turn(words, TurnCall::Respond),
        "refute" => read_turn(words, TurnCall::Refute),
        "checkpoint" => read_turn(words, TurnCall::Checkpoint),
        "conclude" => read_turn(words, TurnCall::Conclude),
        "transfer" => read_transfer(words),
        "claim" => read_claim(words),
        _ => Err(Wanted::Call),
    }
}

/// The word of a reply to a call that was accepted.
fn ok_word(call: &Call) -> &'static str {
    match call {
        Call::Deposit { .. } => "held",
        Call::Time(_) => "now",
        Call::Turn { call, .. } => match call {
            TurnCall::Challenge => "until",
            TurnCall::Respond | TurnCall::Refute | TurnCall::Checkpoint => "open",
            TurnCall::Conclude => "final",
        },
        Call::Transfer { .. } | Call::Claim { .. } => "paid",
    }
}

/// The reply with a word and a number.
fn ok_reply<'a>(word: &str, value: u64) -> Option<Reply<'a>> {
    match word {
        "held" => Some(Reply::Held(value)),
        "now" => Some(Reply::Now(value)),
        "until" => Some(Reply::Until(value)),
        "open" => Some(Reply::Open(value)),
        "final" => Some(Reply::Final(value)),
        "paid" => Some(Reply::Paid(value)),
        _ => None,
    }
}

/// The reply to a call that was accepted: one that fits such a call, or any.
fn read_accepted<'a>(words: &mut Words<'a>, call: &Call, fits: bool) -> Result<Reply<'a>, Wanted> {
    let wanted = ok_word(call);
    let word = words.keyword();
    if fits && word != wanted {
        return Err(Wanted::Word(wanted));
    }
    let value = words.number()?;
    ok_reply(word, value).ok_or(Wanted::Word(wanted))
}

fn read_refused<'a>(words: &mut Words<'a>) -> Result<Reply<'a>, Wanted> {
    let said = read_refusal(words)?;
    Ok(Reply::No(said))
}

fn read_reply<'a>(words: &mut Words<'a>, call: &Call, fits: bool) -> Result<Reply<'a>, Wanted> {
    match words.keyword() {
        "ok" => read_accepted(words, call, fits),
        "no" => read_refused(words),
        _ => Err(Wanted::OkOrNo),
    }
}

fn read_words<'a>(line: &'a [u8], words: &mut Words<'a>, fits: bool) -> Result<Entry<'a>, Wanted> {
    let number = words.number()?;
    let by = words.number()?;
    let call = read_call(words)?;
    let reply = read_reply(words, &call, fits)?;
    Ok(Entry {
        line,
        number,
        by,
        call,
        reply,
        payee: None,
    })
}

/// `NUMBER BY CALL REPLY`.
pub(crate) fn read_entry<'a>(line: &'a [u8], words: &mut Words<'a>) -> Result<Line<'a>, Wanted> {
    let entry = read_words(line, words, true)?;
    Ok(Line::Entry(entry))
}

/// `to person NAME` or `to channel NAME`, or nothing.
fn read_payee<'a>(words: &mut Words<'a>) -> Result<Option<Payee<'a>>, Wanted> {
    if words.keyword() != "to" {
        return Ok(None);
    }
    let is_person = words.keyword() == "person";
    let name = words.name()?;
    if is_person {
        Ok(Some(Payee::Person(name)))
    } else {
        Ok(Some(Payee::Channel(name)))
    }
}

/// The entry of a line `NUMBER BY CALL REPLY`, whose reply may be one to another call, and which may end with
/// ` to person NAME` or ` to channel NAME`: whom the entry pays.
pub fn read_paying_entry(line: &[u8]) -> Result<Entry<'_>, Wanted> {
    let mut words = Words::of(line);
    let mut entry = read_words(line, &mut words, false)?;
    entry.payee = read_payee(&mut words)?;
    Ok(entry)
}
