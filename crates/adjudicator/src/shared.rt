//! The adjudicator as an object that threads share.

use crate::adjudicator::Adjudicator;
use crate::checked::CheckedOp;
use call_history::{Entry, Op, Reply};
use shared_object::OneThread;

impl OneThread for Adjudicator {
    ghost use Rattle.std.specs.Prelude.{refl};
    ghost use Rattle.call_history.specs.History.{newest_first};
    ghost use Rattle.support_rules.specs.Real.{real};
    ghost use Rattle.adjudicator.specs.Standing.{StandsFor};
    ghost use Rattle.adjudicator.specs.Shared.{has_room, entry_after};

    type Call = CheckedOp;

    type Reply = Reply;

    type Entry = Entry;

    type Kept = Op;

    ghost stands = { λ a h. StandsFor real (newest_first h) a };

    ghost gives = { entry_after real };

    ghost has_room = { has_room };

    ghost number_of = { λ e. e.number };

    ghost by_of = { λ e. e.by };

    ghost kept_of = { λ e. e.op };

    ghost kept = { λ op. op };

    ghost reply = { λ e. e.reply };

    ghost keeps = { λ _ _ _ _. (refl, refl, refl) };

    fn reserve(&mut self) -> Result<(), shared_object::NoMemory> {
        match Adjudicator::reserve(self) {
            Ok(()) => Ok(()),
            Err(_) => Err(shared_object::NoMemory),
        }
    }

    fn step(&mut self, number: u32, by: u32, call: CheckedOp) -> Entry {
        let reply = self.apply_checked(&call);
        Entry {
            number,
            by,
            op: call.into_op(),
            reply,
        }
    }

    fn reply_of(entry: &Entry) -> Reply {
        entry.reply
    }

    fn copy(entry: &Entry) -> Result<Entry, shared_object::NoMemory> {
        match entry.copy() {
            Ok(copy) => Ok(copy),
            Err(_) => Err(shared_object::NoMemory),
        }
    }
}
