//! An object beside its history, and one call on it.
ghost use Rattle.std.specs.Prelude.{◌≡◌, ℕ, ◌≤◌, OnErr, IfOk, length};
ghost use Rattle.shared_object.specs.Caller.{most_entries};
ghost use Rattle.shared_object.specs.Desk.{Adds};

use crate::no_memory::NoMemory;
use crate::one_thread::OneThread;

/// The object beside its history. It lies in the one slot of a book's table.
#[derive(Drop)]
pub struct Desk<O, E> {
    pub object: O,
    pub history: Vec<E>,
}

/// The call's number in the history, and its reply.
#[derive(Drop)]
pub struct Answer<O: OneThread> {
    pub number: u32,
    pub reply: O::Reply,
}

/// Why nothing was entered.
#[derive(Clone, Copy, Debug, PartialEq, Eq)]
pub enum BookFault {
    /// The history has this many entries, 2^32 - 1, and no number is left for one more.
    Full(u32),
    NoMemory,
}

impl From<NoMemory> for BookFault {
    ghost use Rattle.shared_object.specs.declared.desk.BookFault.TheVariants.{NoMemory};

    ghost from_gives = { λ _ e. e ≡ NoMemory };

    fn from(_: NoMemory) -> BookFault {
        BookFault::NoMemory
    }
}

// Steps the object once, and adds the entry to its history. Memory is taken before the step.
pub(crate) fn add<O: OneThread>(
    desk: &mut Desk<O, O::Entry>,
    by: u32,
    call: O::Call,
) -> Result<Answer<O>, BookFault>
    requires { O.stands desk.old.object desk.old.history.items }
    ensures ok { IfOk result (λ a. Adds O.stands O.gives O.reply by call a.number a.reply desk.old desk.new) }
    ensures err { OnErr result ((desk.new.history.items ≡ desk.old.history.items)
        × O.stands desk.new.object desk.new.history.items) }
    ensures full { (n : ℕ) → result ≡ Err (BookFault.Full n) → (n ≡ most_entries)
        × (most_entries ≤ length desk.old.history.items) }
    ensures at_full { most_entries ≤ length desk.old.history.items → result ≡ Err (BookFault.Full most_entries) }
{
    let count = desk.history.len();
    if count >= u32::MAX as usize {
        return Err(BookFault::Full(u32::MAX));
    }
    if desk.history.reserve(1).is_err() {
        return Err(BookFault::NoMemory);
    }
    desk.object.reserve()?;
    let number = count as u32 + 1;
    let entry = desk.object.step(number, by, call);
    let reply = O::reply_of(&entry);
    desk.history.push_reserved(entry);
    Ok(Answer { number, reply })
}
