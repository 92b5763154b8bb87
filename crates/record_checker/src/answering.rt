//! What a program answers.

ghost use Rattle.std.specs.Prelude.{◌≡◌, IfOk};
ghost use Rattle.run_record.specs.Sound.{IsSound};
ghost use Rattle.record_checker.specs.Answering.{Asked};

use channel_values::NoMemory;
use run_record::Record;
use std::alloc::Global;

/// A program that answers a sound record, where its word is given.
pub trait Answering {
    /// Its word, and the text of its answer.
    ghost asked: { Asked };

    /// What else its answer needs, for example that threads may share its runtime.
    ghost ready: { Self → Type 0 };

    fn word(&self) -> &'static str
        ensures { result.now ≡ asked.word };

    fn answer(&self, alloc: Global, value: &Record) -> Result<Vec<u8>, NoMemory>
        requires ready { ready self.now }
        requires sound { IsSound value.now }
        ensures { IfOk result (λ text. text.items ≡ asked.text value.now) };
}
