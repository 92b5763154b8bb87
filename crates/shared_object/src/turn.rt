//! One turn at the slot, in ticket order.
ghost use Rattle.std.specs.Prelude.{◌≡◌, true, false, ◌<◌, ◌≤◌, ◌++◌, [], ◌∷◌, length};
ghost use Rattle.shared_object.specs.Turn.{HasTurn, Waits};
ghost use Rattle.shared_object.specs.Caller.{most_entries};
ghost use Rattle.shared_object.specs.Desk.{IsMore};
ghost use Rattle.shared_object.specs.Turns.{idle, Took, Learns};

use crate::desk::Desk;
use crate::one_thread::OneThread;
use crate::rule::{Draw, Learn, NoteMore, NoteSame, Pass, See, Turns, View};
use atomic_table::{Seat, Shared};
use std::sync::Wait;
use std::thread;

pub(crate) const TICKET: usize = 0;

pub(crate) const SERVED: usize = 1;

pub(crate) const COUNT: usize = 2;

/// What a seat steps with.
pub type Token<O, E> = Seat<Option<Desk<O, E>>, View<E>>;

// Draws a ticket.
fn draw<O: OneThread>(
    words: &Shared<Option<Desk<O, O::Entry>>, View<O::Entry>, (), Turns<O>>,
    token: &mut Token<O, O::Entry>,
) -> u64
    requires table { (words.now.table_id.words ≡ 3) × (token.old.table_id ≡ words.now.table_id) }
    requires idle { (token.old.me.0.tickets ≡ 0) × (token.old.me.0.holds ≡ false) × (0 < token.old.me.0.part)
        × (token.old.me.1 ≡ []) × (token.old.me.0.told ≡ []) }
    ensures { Waits words.now.table_id result token.old.me.0 token.new }
{
    words.fetch_add::<Draw>(token, TICKET, 1)
}

// Waits until the ticket is served.
fn wait<O: OneThread, R: Wait>(
    rt: &R,
    words: &Shared<Option<Desk<O, O::Entry>>, View<O::Entry>, (), Turns<O>>,
    token: &mut Token<O, O::Entry>,
    ticket: u64,
)
    requires table { words.now.table_id.words ≡ 3 }
    requires waits { Waits words.now.table_id ticket token.old.me.0 token.old }
    ensures { (token.new.table_id ≡ words.now.table_id) × Took O.stands O.gives (token.old.me.0, []) token.new.me }
{
    for _ in rt.forever() {
        let served = words.load::<See<O>>(token, SERVED);
        if served == ticket {
            return;
        }
        thread::yield_now();
    }
    unreachable!()
}

// Takes the desk out of the slot in turn.
pub(crate) fn take<O: OneThread, R: Wait>(
    rt: &R,
    words: &Shared<Option<Desk<O, O::Entry>>, View<O::Entry>, (), Turns<O>>,
    token: &mut Token<O, O::Entry>,
) -> Desk<O, O::Entry>
    requires table { (words.now.table_id.words ≡ 3) × (words.now.table_id.slots ≡ 1)
        × (token.old.table_id ≡ words.now.table_id) }
    requires idle { (token.old.me.0.tickets ≡ 0) × (token.old.me.0.holds ≡ false) × (0 < token.old.me.0.part)
        × (token.old.me.1 ≡ []) × (token.old.me.0.told ≡ []) }
    ensures { HasTurn O.stands O.gives words.now.table_id result token.old.me.0 token.new }
{
    let ticket = draw(words, token);
    wait(rt, words, token, ticket);
    match words.exchange(token, 0, None) {
        Some(desk) => desk,
        None => unreachable!(),
    }
}

// Gives the desk back with one more entry, and passes the turn on.
pub(crate) fn give_more<O: OneThread>(
    words: &Shared<Option<Desk<O, O::Entry>>, View<O::Entry>, (), Turns<O>>,
    token: &mut Token<O, O::Entry>,
    desk: Desk<O, O::Entry>,
)
    requires table { (words.now.table_id.words ≡ 3) × (token.old.table_id ≡ words.now.table_id) }
    requires turn { (token.old.me.1 ≡ (0, None) ∷ []) × (token.old.me.0.holds ≡ true) × (token.old.me.0.told ≡ []) }
    requires more { IsMore O.gives token.old.me.0.hand desk.history.items }
    requires few { length desk.history.items ≤ most_entries }
    requires stands { O.stands desk.object desk.history.items }
    ensures { (token.new.table_id ≡ words.now.table_id)
        × (token.new.me ≡ (
          idle desk.history.items (token.old.me.0.made ++ length desk.history.items
              ∷ []) token.old.me.0.part,
          [],
        )) }
{
    let count = desk.history.len() as u64;
    match words.exchange(token, 0, Some(desk)) {
        None => {}
        Some(_) => unreachable!(),
    }
    words.store::<NoteMore>(token, COUNT, count);
    words.fetch_add::<Pass>(token, SERVED, 1);
}

// The same with no more entry.
pub(crate) fn give_same<O: OneThread>(
    words: &Shared<Option<Desk<O, O::Entry>>, View<O::Entry>, (), Turns<O>>,
    token: &mut Token<O, O::Entry>,
    desk: Desk<O, O::Entry>,
)
    requires table { (words.now.table_id.words ≡ 3) × (token.old.table_id ≡ words.now.table_id) }
    requires turn { (token.old.me.1 ≡ (0, None) ∷ []) × (token.old.me.0.holds ≡ true) × (token.old.me.0.told ≡ []) }
    requires same { desk.history.items ≡ token.old.me.0.hand }
    requires stands { O.stands desk.object desk.history.items }
    ensures { (token.new.table_id ≡ words.now.table_id)
        × (token.new.me ≡ (idle desk.history.items token.old.me.0.made token.old.me.0.part, [])) }
{
    let count = desk.history.len() as u64;
    match words.exchange(token, 0, Some(desk)) {
        None => {}
        Some(_) => unreachable!(),
    }
    words.store::<NoteSame>(token, COUNT, count);
    words.fetch_add::<Pass>(token, SERVED, 1);
}

// Gives the desk back as it was, with no length noted.
pub(crate) fn give_back<O: OneThread>(
    words: &Shared<Option<Desk<O, O::Entry>>, View<O::Entry>, (), Turns<O>>,
    token: &mut Token<O, O::Entry>,
    desk: Desk<O, O::Entry>,
)
    requires table { (words.now.table_id.words ≡ 3) × (token.old.table_id ≡ words.now.table_id) }
    requires turn { (token.old.me.1 ≡ (0, None) ∷ []) × (token.old.me.0.holds ≡ true) × (token.old.me.0.told ≡ []) }
    requires same { desk.history.items ≡ token.old.me.0.hand }
    requires stands { O.stands desk.object desk.history.items }
    ensures { (token.new.table_id ≡ words.now.table_id)
        × (token.new.me ≡ (idle token.old.me.0.seen token.old.me.0.made token.old.me.0.part, [])) }
{
    match words.exchange(token, 0, Some(desk)) {
        None => {}
        Some(_) => unreachable!(),
    }
    words.fetch_add::<Pass>(token, SERVED, 1);
}

// Looks at the seat's own part.
pub(crate) fn learn<O: OneThread>(
    words: &Shared<Option<Desk<O, O::Entry>>, View<O::Entry>, (), Turns<O>>,
    token: &mut Token<O, O::Entry>,
)
    requires table { (words.now.table_id.words ≡ 3) × (token.old.table_id ≡ words.now.table_id) }
    requires idle { (token.old.me.0.tickets ≡ 0) × (token.old.me.0.holds ≡ false) × (0 < token.old.me.0.part) }
    ensures { (token.new.table_id ≡ token.old.table_id) × Learns token.old.me token.new.me }
{
    words.load::<Learn>(token, TICKET);
}
