//! What the driver does with its seat, which has the whole of the book, and what it does with nodes.

ghost use Rattle.std.specs.Prelude.{◌≡◌, ℕ, ◌==◌, ◌≤◌, ◌<◌, List, [], length, take, drop, fold, OnOk, IfOk, IfSome};
ghost use Rattle.std.specs.List.{position};
ghost use Rattle.call_history.specs.declared.entry.Entry.{Entry as AnEntry};
ghost use Rattle.shared_object.specs.Caller.{whole, IsCaller};
ghost use Rattle.channel_safety.specs.Journals.{In};
ghost use Rattle.network.specs.Members.{MemberOf, sees};
ghost use Rattle.network.specs.Worlds.{happened, given, journal};
ghost use Rattle.network.specs.declared.happening.Happening.TheVariants as happenings;
ghost use Rattle.script_play.specs.Rounds.{seen_by};
ghost use Rattle.script_race.specs.Driving.{world_of, EntersOp, HasLookedOn};

use adjudicator::{Adjudicator, CheckedOp};
use call_history::{Entry, Event, Op};
use network::{Command, Member, Outs, Party, no_outs};
use network_rounds::RoundFault;
use shared_object::{Book, BookFault, Seat};
use std::alloc::Global;
use std::sync::Wait;
use std::thread::Threads;
use step_meanings::Person;

/// Enters an op as caller 0, and answers its number. Its signatures are checked before the turn is drawn.
pub(crate) fn enter<R: Threads + Wait + Sync>(
    rt: &R,
    alloc: Global,
    book: &Book<Adjudicator>,
    seat: &mut Seat<Adjudicator>,
    op: Op,
) -> Result<u32, RoundFault>
    requires book { seat.old.book ≡ book.now }
    requires part { seat.old.part ≡ whole }
    ensures entered { OnOk result (EntersOp op seat.old seat.new) }
    ensures number { IfOk result (λ number. number ≡ length seat.new.seen) }
{
    let Ok(checked) = CheckedOp::make(rt, alloc, op) else {
        return Err(RoundFault::NoMemory);
    };
    match book.enter(rt, seat, 0, checked) {
        Ok(answer) => Ok(answer.number),
        Err(BookFault::Full(count)) => Err(RoundFault::Full(count)),
        Err(BookFault::NoMemory) => Err(RoundFault::NoMemory),
    }
}

/// The entries after the first `from`.
pub(crate) fn look<R: Wait>(
    rt: &R,
    alloc: Global,
    book: &Book<Adjudicator>,
    seat: &mut Seat<Adjudicator>,
    from: u32,
) -> Result<Vec<Entry>, RoundFault>
    requires book { seat.old.book ≡ book.now }
    requires part { seat.old.part ≡ whole }
    requires from { from ≤ length seat.old.seen }
    ensures looked { OnOk result (HasLookedOn seat.old seat.new) }
    ensures entries { IfOk result (λ entries. entries.items ≡ drop from seat.old.seen) }
{
    match book.look(rt, alloc, seat, from) {
        Ok(entries) => Ok(entries),
        Err(_) => Err(RoundFault::NoMemory),
    }
}

/// The place of the node of this number.
fn place_of<P: Party>(nodes: &Vec<Member<P>>, number: u32) -> Option<usize>
    ensures place { result ≡ position (λ m. P.ways.number m.node == number) nodes.now.items }
    ensures inside { IfSome result (λ place. place < length nodes.now.items) }
{
    nodes.iter().position(|m| m.node.number() == number)
}

/// The journal of the node of this number, or nothing.
pub(crate) fn journal<P: Party>(nodes: &Vec<Member<P>>, number: u32) -> &[Event]
    ensures { result.now ≡ journal P.ways (world_of [] nodes.now.items) number }
{
    match place_of(nodes, number) {
        Some(place) => {
            let member = &nodes[place];
            member.node.journal()
        }
        None => &[],
    }
}

/// It follows what it hasn't followed of what the driver has seen.
fn show<R: Wait, P: Party>(
    rt: &R,
    alloc: Global,
    book: &Book<Adjudicator>,
    seat: &mut Seat<Adjudicator>,
    member: &mut Member<P>,
) -> Result<(), RoundFault>
    requires book { seat.old.book ≡ book.now }
    requires part { seat.old.part ≡ whole }
    requires sound { IsCaller seat.old }
    requires followed { P.ways.seen member.old.node ≤ length seat.old.seen }
    ensures looked { OnOk result (HasLookedOn seat.old seat.new) }
    ensures seen { OnOk result (member.new ≡ sees P.ways seat.old.seen member.old) }
{
    let entries = look(rt, alloc, book, seat, member.node.seen())?;
    member.node.see(entries.as_slice())?;
    Ok(())
}

/// The node of this number follows what it hasn't followed of what the driver has seen.
pub(crate) fn see<R: Wait, P: Party>(
    rt: &R,
    alloc: Global,
    book: &Book<Adjudicator>,
    seat: &mut Seat<Adjudicator>,
    nodes: &mut Vec<Member<P>>,
    number: u32,
) -> Result<(), RoundFault>
    requires book { seat.old.book ≡ book.now }
    requires part { seat.old.part ≡ whole }
    requires sound { IsCaller seat.old }
    requires followed { (m : MemberOf P) → In m nodes.old.items → P.ways.seen m.node ≤ length seat.old.seen }
    ensures looked { OnOk result (HasLookedOn seat.old seat.new) }
    ensures seen { OnOk result (world_of seat.old.seen nodes.new.items
        ≡ happened P.ways (happenings.See number) (world_of seat.old.seen nodes.old.items)) }
{
    let Some(place) = place_of(nodes, number) else {
        return Ok(());
    };
    let member = &mut nodes[place];
    show(rt, alloc, book, seat, member)?;
    Ok(())
}

/// The nodes of these people follow what they haven't followed of what the driver has seen, one after another.
pub(crate) fn see_all<R: Wait, P: Party>(
    rt: &R,
    alloc: Global,
    book: &Book<Adjudicator>,
    seat: &mut Seat<Adjudicator>,
    nodes: &mut Vec<Member<P>>,
    people: &[Person],
) -> Result<(), RoundFault>
    requires book { seat.old.book ≡ book.now }
    requires part { seat.old.part ≡ whole }
    requires sound { IsCaller seat.old }
    requires followed { (count : ℕ) (m : MemberOf P)
        → In m (fold (seen_by P.ways) (world_of seat.old.seen nodes.old.items) (take count people.now)).members
        → P.ways.seen m.node ≤ length seat.old.seen }
    ensures looked { OnOk result (HasLookedOn seat.old seat.new) }
    ensures seen { OnOk result (world_of seat.old.seen nodes.new.items
        ≡ fold (seen_by P.ways) (world_of seat.old.seen nodes.old.items) people.now) }
{
    for person in people {
        see(rt, alloc, book, seat, nodes, person.number)?;
    }
    Ok(())
}

/// The node of this number is given the command of a step. It gives nothing where it refuses.
pub(crate) fn command<P: Party>(
    alloc: Global,
    nodes: &mut Vec<Member<P>>,
    number: u32,
    step: u32,
    command: Command,
) -> Result<Outs, RoundFault>
    ensures made { OnOk result ((seen : List AnEntry) → world_of seen nodes.new.items
        ≡ happened P.ways (happenings.Command number step command) (world_of seen nodes.old.items)) }
    ensures given { IfOk result (λ outs.
        (seen : List AnEntry) → outs ≡ given P.ways (happenings.Command number step command)
        (world_of seen nodes.old.items)) }
{
    let Some(place) = place_of(nodes, number) else {
        return Ok(no_outs(alloc));
    };
    let member = &mut nodes[place];
    let outs = member.command(alloc, step, command)?;
    Ok(outs)
}
