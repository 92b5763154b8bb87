//! Refusals: their numbers, names and values.

use crate::fault::Wanted;
use crate::model::Said;
use crate::words::Words;

/// What stands after the name of a refusal.
#[derive(Clone, Copy, PartialEq, Eq)]
enum Values {
    Nothing,
    Number,
    Name,
    NameAndMode,
    StepFault,
    SupportFault,
}

/// The name of the refusal of a call, and what stands after it.
fn of_call(number: u64) -> Option<(&'static str, Values)> {
    Some(match number {
        1 => ("IsFinal", Values::Nothing),
        2 => ("NotSupported", Values::SupportFault),
        3 => ("Stale", Values::Number),
        4 => ("BadChallenger", Values::Nothing),
        5 => ("NoChallenge", Values::Nothing),
        6 => ("WrongState", Values::Nothing),
        7 => ("WrongTurn", Values::Number),
        8 => ("BadSignature", Values::Nothing),
        9 => ("BadStep", Values::StepFault),
        10 => ("NotNewer", Values::Number),
        11 => ("NotChallengers", Values::Nothing),
        12 => ("NotFinalState", Values::Number),
        13 => ("Zero", Values::Nothing),
        14 => ("Underheld", Values::Number),
        15 => ("AssetFull", Values::Number),
        16 => ("NotFinal", Values::Name),
        17 => ("WrongOutcome", Values::Name),
        18 => ("NoAsset", Values::Nothing),
        19 => ("WrongKind", Values::Nothing),
        20 => ("WrongTarget", Values::Nothing),
        21 => ("NotListed", Values::Nothing),
        22 => ("NoItem", Values::Nothing),
        23 => ("NothingDue", Values::Number),
        24 => ("Backwards", Values::Number),
        25 => ("TooLate", Values::Nothing),
        _ => return None,
    })
}

/// The name of a node's refusal, and what stands after it.
fn of_node(number: u64) -> Option<(&'static str, Values)> {
    Some(match number {
        1 => ("BadBytes", Values::Nothing),
        2 => ("UnknownChannel", Values::Nothing),
        3 => ("NotOpen", Values::NameAndMode),
        4 => ("NotNext", Values::Number),
        5 => ("BadSignature", Values::Nothing),
        6 => ("NotAStep", Values::Nothing),
        7 => ("NotWanted", Values::Number),
        8 => ("KeySpent", Values::Number),
        9 => ("TooMany", Values::Number),
        _ => return None,
    })
}

fn read_number(words: &mut Words) -> Result<(), Wanted> {
    words.number()?;
    Ok(())
}

fn read_name(words: &mut Words) -> Result<(), Wanted> {
    words.name()?;
    Ok(())
}

fn read_mode(words: &mut Words) -> Result<(), Wanted> {
    match words.keyword() {
        "challenged" | "final" => Ok(()),
        _ => Err(Wanted::Mode),
    }
}

fn read_name_and_mode(words: &mut Words) -> Result<(), Wanted> {
    words.name()?;
    read_mode(words)
}

fn read_step_fault(words: &mut Words) -> Result<(), Wanted> {
    match words.number()? {
        1..=8 => Ok(()),
        _ => Err(Wanted::FaultNumber),
    }
}

fn read_number_and_step_fault(words: &mut Words) -> Result<(), Wanted> {
    words.number()?;
    read_step_fault(words)
}

fn read_support_fault(words: &mut Words) -> Result<(), Wanted> {
    match words.number()? {
        1 => Ok(()),
        2 | 4 => read_number(words),
        3 => read_number_and_step_fault(words),
        _ => Err(Wanted::FaultNumber),
    }
}

fn read_values(words: &mut Words, values: Values) -> Result<(), Wanted> {
    match values {
        Values::Nothing => Ok(()),
        Values::Number => read_number(words),
        Values::Name => read_name(words),
        Values::NameAndMode => read_name_and_mode(words),
        Values::StepFault => read_step_fault(words),
        Values::SupportFault => read_support_fault(words),
    }
}

fn read_named<'a>(
    words: &mut Words<'a>,
    number: u64,
    named: Option<(&'static str, Values)>,
) -> Result<Said<'a>, Wanted> {
    let Some((name, values)) = named else {
        return Err(Wanted::RefusalNumber);
    };
    let word = words.take();
    if word != name.as_bytes() {
        return Err(Wanted::RefusalOfThisNumber);
    }
    read_values(words, values)?;
    Ok(Said { number, name: word })
}

/// `NUMBER NAME` of a call's refusal, and its values.
pub(crate) fn read_refusal<'a>(words: &mut Words<'a>) -> Result<Said<'a>, Wanted> {
    let number = words.number()?;
    read_named(words, number, of_call(number))
}

/// `NUMBER NAME` of a node's refusal, and its values.
pub(crate) fn read_node_refusal<'a>(words: &mut Words<'a>) -> Result<Said<'a>, Wanted> {
    let number = words.number()?;
    read_named(words, number, of_node(number))
}
