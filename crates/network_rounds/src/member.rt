//! The two phases of a node with its watchers.

ghost use Rattle.std.specs.Prelude.{◌≡◌, ◌≤◌, ◌<◌, ◌^◌, length, fold, slice_get, Some, OnOk, IfOk};
ghost use Rattle.network.specs.declared.lookout.Lookout.{Lookout as ALookout};
ghost use Rattle.network_rounds.specs.Members.{heard, HaveFollowed, LooksOnce};
ghost use Rattle.network_rounds.specs.Workers.{NodeActs, NodeWatches};
ghost use Rattle.network_rounds.specs.Working.{Working};

use crate::callers::{enter_all, look};
use crate::fault::RoundFault;
use adjudicator::Adjudicator;
use channel_values::{Listed, Name, person_name};
use network::{Member, NodeFault, Outs, Party};
use shared_object::{Book, Seat};
use std::alloc::Global;
use std::sync::Wait;
use std::thread::Threads;

/// A message, with the person that it is for.
pub type Letter = (Name, Listed<u8>);

/// It is handed a message, if it is for this person. Its journal has what it refuses.
fn hear<P: Party>(member: &mut Member<P>, who: &Name, letter: &Letter) -> Result<(), RoundFault>
    ensures { OnOk result (member.new ≡ heard P.ways who.now member.old letter.now) }
{
    if letter.0 == *who {
        match member.node.handle(letter.1.as_slice()) {
            Ok(()) | Err(NodeFault::Refused(_)) => {}
            Err(NodeFault::NoMemory) => return Err(RoundFault::NoMemory),
        }
    }
    Ok(())
}

fn hear_all<P: Party>(member: &mut Member<P>, who: &Name, post: &[Letter]) -> Result<(), RoundFault>
    ensures { OnOk result (member.new ≡ fold (heard P.ways who.now) member.old post.now) }
{
    for letter in post {
        hear(member, who, letter)?;
    }
    Ok(())
}

/// It looks, sees, handles what came for it, acts, and enters its calls. It gives what it sends.
pub(crate) fn act<R: Threads + Wait + Sync, P: Party>(
    member: &mut Member<P>,
    rt: &R,
    alloc: Global,
    book: &Book<Adjudicator>,
    seat: &mut Seat<Adjudicator>,
    post: &[Letter],
) -> Result<Vec<Letter>, RoundFault>
    requires book { seat.old.book ≡ book.now }
    requires followed { P.ways.seen member.old.node ≤ length seat.old.seen }
    ensures book { OnOk result (seat.new.book ≡ seat.old.book) }
    ensures acts { IfOk result (λ sent.
        Working (NodeActs P.ways post.now member.old member.new sent.items) seat.old seat.new) }
{
    let who = person_name(member.node.key());
    let from = member.node.seen();
    let entries = look(rt, alloc, book, seat, from)?;
    member.node.see(entries.as_slice())?;
    hear_all(member, &who, post)?;
    let outs = member.node.tick()?;
    let by = member.node.number();
    let Outs { sends, calls, .. } = outs;
    enter_all(rt, alloc, book, seat, by, calls.into_vec())?;
    Ok(sends.into_vec())
}

/// The watcher at a place looks, and its calls are entered.
fn watch_one<R: Threads + Wait + Sync, P: Party>(
    member: &mut Member<P>,
    rt: &R,
    alloc: Global,
    book: &Book<Adjudicator>,
    seat: &mut Seat<Adjudicator>,
    place: usize,
) -> Result<(), RoundFault>
    requires book { seat.old.book ≡ book.now }
    requires followed { (l : ALookout) → slice_get member.old.watchers place ≡ Some l → l.seen ≤ length seat.old.seen }
    requires place { place < length member.old.watchers }
    requires few { length member.old.watchers < 2 ^ 32 }
    ensures book { OnOk result (seat.new.book ≡ seat.old.book) }
    ensures looks { OnOk result (LooksOnce P.ways place member.old member.new seat.old seat.new) }
{
    let lookout = &mut member.watchers[place];
    let from = lookout.seen;
    let entries = look(rt, alloc, book, seat, from)?;
    let calls = member
        .node
        .watch(lookout, place as u32, entries.as_slice())?;
    let by = member.node.number();
    enter_all(rt, alloc, book, seat, by, calls)?;
    Ok(())
}

/// Each watcher looks, and its calls are entered, one watcher after the other.
pub(crate) fn watch<R: Threads + Wait + Sync, P: Party>(
    member: &mut Member<P>,
    rt: &R,
    alloc: Global,
    book: &Book<Adjudicator>,
    seat: &mut Seat<Adjudicator>,
) -> Result<(), RoundFault>
    requires book { seat.old.book ≡ book.now }
    requires followed { HaveFollowed seat.old.seen member.old.watchers }
    requires few { length member.old.watchers < 2 ^ 32 }
    ensures book { OnOk result (seat.new.book ≡ seat.old.book) }
    ensures watches { OnOk result (Working (NodeWatches P.ways member.old member.new) seat.old seat.new) }
{
    for place in 0..member.watchers.len() {
        watch_one(member, rt, alloc, book, seat, place)?;
    }
    Ok(())
}
