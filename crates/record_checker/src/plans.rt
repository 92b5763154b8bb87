//! Whether the share of a plan can be determined.

ghost use Rattle.std.specs.Prelude.{◌≡◌, ◌++◌, ◌∷◌, [], IfOk, OnOk, count_by, option_copied};
ghost use Rattle.std.specs.Result.{result_ok};
ghost use Rattle.std.specs.List.{list_all};
ghost use Rattle.call_history.specs.Flows.{is_among};
ghost use Rattle.funding_plans.specs.Parts as parts;
ghost use Rattle.run_record.specs.Plans as plans;
ghost use Rattle.record_checker.specs.Seen as seen;
ghost use Rattle.record_checker.specs.Faults.{Lacks};
ghost use Rattle.channel_values.specs.Reading.{outcome_of};
ghost use Rattle.share_laws.specs.Places.{proposed};

use crate::past::Past;
use call_history::Known;
use channel_values::{ByteFault, Name, NoMemory, Outcome, read_outcome};
use funding_plans::{Part, Plan, Virtual};
use run_record::Ending;
use std::alloc::Global;

fn is_among(name: &Name, names: &[Name]) -> bool
    ensures { result ≡ is_among name.now names.now }
{
    names.iter().any(|other| *name == *other)
}

fn are_distinct(names: &[Name]) -> bool
    ensures { result ≡ plans.are_distinct names.now }
{
    match names {
        [] => true,
        [name, others @ ..] => !is_among(name, others) && are_distinct(others),
    }
}

// ---- the channels of a plan

fn put_virtual(names: &mut Vec<Name>, v: &Virtual) -> Result<(), NoMemory>
    ensures { OnOk result (names.new.items ≡ names.old.items ++ parts.channels_of_virtual v.now) }
{
    names.push(v.guarantor_a)?;
    names.push(v.guarantor_b)?;
    names.push(v.joint)?;
    names.push(v.channel)?;
    Ok(())
}

fn put_name(names: &mut Vec<Name>, name: Name) -> Result<(), NoMemory>
    ensures { OnOk result (names.new.items ≡ names.old.items ++ name ∷ []) }
{
    names.push(name)?;
    Ok(())
}

fn put_channels(names: &mut Vec<Name>, part: &Part) -> Result<(), NoMemory>
    ensures { OnOk result (names.new.items ≡ names.old.items ++ parts.channels_of part.now) }
{
    match part {
        Part::Root(channel) | Part::OnLedger(_, channel) => put_name(names, *channel),
        Part::End(v) | Part::Middle(v) => put_virtual(names, v),
    }
}

/// The channels of parts, in their order.
fn channels_of(alloc: Global, all: &[Part]) -> Result<Vec<Name>, NoMemory>
    ensures { IfOk result (λ names. names.items ≡ parts.channels all.now) }
{
    let mut names = Vec::new(alloc);
    for part in all {
        put_channels(&mut names, part)?;
    }
    Ok(names)
}

/// The channels of an end or an intermediary's part in which its person is a participant.
fn put_joined_virtual(
    names: &mut Vec<Name>,
    first: Name,
    second: Name,
    third: Name,
) -> Result<(), NoMemory>
    ensures { OnOk result (names.new.items ≡ names.old.items ++ first ∷ second ∷ third ∷ []) }
{
    names.push(first)?;
    names.push(second)?;
    names.push(third)?;
    Ok(())
}

fn put_joined(names: &mut Vec<Name>, part: &Part) -> Result<(), NoMemory>
    ensures { OnOk result (names.new.items ≡ names.old.items ++ parts.joined_of part.now) }
{
    match part {
        Part::Root(channel) | Part::OnLedger(_, channel) => put_name(names, *channel),
        Part::End(v) => put_joined_virtual(names, v.own_guarantor(), v.joint, v.channel),
        Part::Middle(v) => put_joined_virtual(names, v.guarantor_a, v.guarantor_b, v.joint),
    }
}

/// The channels of parts in which their person is a participant, in their order.
pub(crate) fn joined(alloc: Global, all: &[Part]) -> Result<Vec<Name>, NoMemory>
    ensures { IfOk result (λ names. names.items ≡ plans.joined all.now) }
{
    let mut names = Vec::new(alloc);
    for part in all {
        put_joined(&mut names, part)?;
    }
    Ok(names)
}

// ---- ledgers

/// Whether the ledgers of a part are among these.
fn is_grounded(before: &[Name], part: &Part) -> bool
    ensures { result ≡ list_all (λ ledger. is_among ledger before.now) (parts.ledgers_of part.now) }
{
    match part {
        Part::Root(_) => true,
        Part::OnLedger(ledger, _) => is_among(ledger, before),
        Part::End(v) => is_among(&v.own_ledger(), before),
        Part::Middle(v) => is_among(&v.ledger_a, before) && is_among(&v.ledger_b, before),
    }
}

/// Adds the channel on which a later part can stand.
fn put_bearing(before: &mut Vec<Name>, part: &Part) -> Result<(), NoMemory>
    ensures { OnOk result (before.new.items ≡ before.old.items ++ plans.bears part.now) }
{
    match part {
        Part::Root(channel) | Part::OnLedger(_, channel) => put_name(before, *channel),
        Part::End(v) => put_name(before, v.channel),
        Part::Middle(_) => Ok(()),
    }
}

/// Whether each part stands on channels of parts before it.
fn stand_on(before: &mut Vec<Name>, all: &[Part]) -> Result<bool, NoMemory>
    ensures { IfOk result (λ b. b ≡ plans.stand_on before.old.items all.now) }
{
    match all {
        [] => Ok(true),
        [part, others @ ..] => {
            if !is_grounded(before, part) {
                return Ok(false);
            }
            put_bearing(before, part)?;
            stand_on(before, others)
        }
    }
}

// ---- what channels can end with

fn without(alloc: Global, name: &Name, names: &[Name]) -> Result<Vec<Name>, NoMemory>
    ensures { IfOk result (λ left. left.items ≡ plans.without name.now names.now) }
{
    let mut left = Vec::new(alloc);
    for other in names {
        if *name != *other {
            left.push(*other)?;
        }
    }
    Ok(left)
}

fn copy_known(known: &Known) -> Result<Known, NoMemory>
    ensures { IfOk result (λ k. k ≡ known.now) }
{
    let last = known.last.copy()?;
    Ok(Known {
        channel: known.channel,
        last,
    })
}

/// Adds the first known state of each of these channels.
fn put_firsts(
    alloc: Global,
    all: &mut Vec<Known>,
    names: &[Name],
    known: &[Known],
) -> Result<(), NoMemory>
    ensures { OnOk result (all.new.items ≡ all.old.items ++ plans.firsts names.now known.now) }
{
    match known {
        [] => Ok(()),
        [state, others @ ..] => {
            if !is_among(&state.channel, names) {
                return put_firsts(alloc, all, names, others);
            }
            let first = copy_known(state)?;
            all.push(first)?;
            let left = without(alloc, &state.channel, names)?;
            put_firsts(alloc, all, &left, others)
        }
    }
}

/// The first known state of each channel of a plan in which its person is a participant.
pub(crate) fn firsts(alloc: Global, plan: &Plan, known: &[Known]) -> Result<Vec<Known>, NoMemory>
    ensures { IfOk result (λ all. all.items ≡ plans.firsts (plans.joined plan.now.parts) known.now) }
{
    let names = joined(alloc, plan.parts.as_slice())?;
    let mut all = Vec::new(alloc);
    put_firsts(alloc, &mut all, &names, known)?;
    Ok(all)
}

/// The outcome that the bytes spell, if they spell one.
fn spelled(alloc: Global, bytes: &[u8]) -> Result<Option<Outcome>, NoMemory>
    ensures { IfOk result (λ o. o ≡ result_ok (outcome_of bytes.now)) }
{
    match read_outcome(alloc, bytes) {
        Ok(outcome) => Ok(Some(outcome)),
        Err(ByteFault::NoMemory) => Err(NoMemory),
        Err(_) => Ok(None),
    }
}

/// The outcome that the votes of a state's data are for, if there are votes.
pub(crate) fn proposed(alloc: Global, app_bytes: &[u8]) -> Result<Option<Outcome>, NoMemory>
    ensures { IfOk result (λ o. o ≡ proposed app_bytes.now) }
{
    match app_bytes {
        [] => Ok(None),
        [votes, bytes @ ..] => {
            if 1 <= *votes && *votes <= 3 {
                spelled(alloc, bytes)
            } else {
                Ok(None)
            }
        }
    }
}

/// Whether there is a proposal of another outcome than this.
fn is_other(own: &Outcome, proposal: Option<&Outcome>) -> bool
    ensures { result ≡ plans.other_than own.now (option_copied proposal.entry) }
{
    match proposal {
        None => false,
        Some(other) => other.bytes() != own.bytes(),
    }
}

fn has_two(alloc: Global, past: &Past, known: &Known) -> Result<bool, NoMemory>
    ensures { IfOk result (λ b. b ≡ seen.two_seen past.now known.now) }
{
    if past.is_final(&known.channel) {
        return Ok(false);
    }
    let proposal = proposed(alloc, known.last.app_bytes())?;
    Ok(is_other(known.last.outcome(), proposal.as_ref()))
}

/// How many of these channels can end with two outcomes.
fn count_two(alloc: Global, past: &Past, known: &[Known]) -> Result<usize, NoMemory>
    ensures { IfOk result (λ n. n ≡ count_by (seen.two_seen past.now) known.now) }
{
    let mut count = 0;
    for state in known {
        if has_two(alloc, past, state)? {
            count += 1;
        }
    }
    Ok(count)
}

/// Whether at most two channels of a plan can end with two outcomes.
fn has_few(alloc: Global, past: &Past, plan: &Plan, known: &[Known]) -> Result<bool, NoMemory>
    ensures { IfOk result (λ b. b ≡ seen.few_seen past.now plan.now known.now) }
{
    let first = firsts(alloc, plan, known)?;
    let two = count_two(alloc, past, &first)?;
    Ok(two <= 2)
}

fn is_distinct(alloc: Global, all: &[Part]) -> Result<bool, NoMemory>
    ensures { IfOk result (λ b. b ≡ plans.are_distinct (parts.channels all.now)) }
{
    let names = channels_of(alloc, all)?;
    Ok(are_distinct(&names))
}

/// Whether the conditions of an ending's plan hold.
fn has_plan(alloc: Global, past: &Past, ending: &Ending) -> Result<bool, NoMemory>
    ensures { IfOk result (λ b. b ≡ seen.is_tellable_seen past.now ending.now.plan ending.now.known) }
{
    let all = ending.plan.parts.as_slice();
    if !is_distinct(alloc, all)? {
        return Ok(false);
    }
    if !stand_on(&mut Vec::new(alloc), all)? {
        return Ok(false);
    }
    has_few(alloc, past, &ending.plan, ending.known.as_slice())
}

/// The first ending whose plan doesn't keep its conditions.
pub(crate) fn first_bad_plan(
    alloc: Global,
    past: &Past,
    ends: &[Ending],
) -> Result<Option<usize>, NoMemory>
    ensures { IfOk result (Lacks (seen.HasPlanSeen past.now) ends.now) }
{
    let mut count = 0;
    for ending in ends {
        if !has_plan(alloc, past, ending)? {
            return Ok(Some(count));
        }
        count += 1;
    }
    Ok(None)
}
