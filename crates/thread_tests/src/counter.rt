//! The object that is shared: a call adds a number, and its reply is the sum.
use shared_object::{NoMemory, OneThread};

/// What was added in all, modulo 2^64.
#[derive(Drop)]
pub struct Counter {
    pub sum: u64,
    /// Whether it always refuses, as if out of memory.
    pub refuses: bool,
}

/// One addition, and the sum after it.
#[derive(Drop)]
pub struct Addition {
    pub number: u32,
    pub by: u32,
    pub amount: u64,
    pub sum: u64,
}

impl OneThread for Counter {
    ghost use Rattle.thread_tests.specs.Counter.{StandsFor, addition_after};
    ghost use Rattle.std.specs.Prelude.{true, refl};

    type Call = u64;

    type Reply = u64;

    type Entry = Addition;

    type Kept = u64;

    ghost stands = { λ c h. StandsFor c.sum h };

    ghost gives = { addition_after };

    ghost has_room = { λ _. true };

    ghost number_of = { λ e. e.number };

    ghost by_of = { λ e. e.by };

    ghost kept_of = { λ e. e.amount };

    ghost kept = { λ n. n };

    ghost reply = { λ e. e.sum };

    ghost keeps = { λ _ _ _ _. (refl, refl, refl) };

    fn reserve(&mut self) -> Result<(), NoMemory> {
        if self.refuses { Err(NoMemory) } else { Ok(()) }
    }

    fn step(&mut self, number: u32, by: u32, call: u64) -> Addition {
        self.sum = self.sum.wrapping_add(call);
        Addition {
            number,
            by,
            amount: call,
            sum: self.sum,
        }
    }

    fn reply_of(entry: &Addition) -> u64 {
        entry.sum
    }

    fn copy(entry: &Addition) -> Result<Addition, NoMemory> {
        Ok(Addition {
            number: entry.number,
            by: entry.by,
            amount: entry.amount,
            sum: entry.sum,
        })
    }
}
