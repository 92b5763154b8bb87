//! The words and the bytes of a call.

ghost use Rattle.std.specs.Prelude.{◌≡◌, ◌≤◌, ◌+◌, ◌∷◌, ◌++◌, [], ℕ, List, length, codes, IfOk, string_bytes};
ghost use Rattle.call_history.specs.Limits.{KeepsCall};
ghost use Rattle.call_history.specs.Spelling as spelling;
ghost use Rattle.hex.specs.Hex.{encode_lower};
ghost use Rattle.report_lines.specs.Text.{◌&◌, call_text};

use call_bytes::write_call;
use call_history::{Call, Entry, Op, Reply};
use channel_values::NoMemory;
use report_lines::entry_line;
use std::alloc::Global;

// What surrounds the words of a call in the line of an entry.
const BEFORE: usize = 4;

const AFTER: usize = 11;

/// The digits of a call's canonical bytes.
pub(crate) fn call_digits(alloc: Global, call: &Call) -> Result<String, NoMemory>
    requires { KeepsCall call.now }
    ensures { IfOk result (λ text. string_bytes text ≡ encode_lower (spelling.call call.now)) }
{
    let mut bytes = Vec::new(alloc);
    write_call(call, &mut bytes)?;
    Ok(hex::encode(alloc, bytes.as_slice())?)
}

// The line of an entry with a call, which is its first and is answered with 0.
fn line_with(alloc: Global, call: &Call) -> Result<String, NoMemory>
    ensures { IfOk result (λ line. string_bytes line
        ≡ codes "0 0 " ++ (call_text [] call.now ++ codes " ok held 0\n")) }
{
    let op = Op::Call(call.copy()?);
    let entry = Entry {
        number: 0,
        by: 0,
        op,
        reply: Reply::Held(0),
    };
    let line = entry_line(alloc, &[], &entry)?;
    drop(entry);
    Ok(line)
}

#[tactic(auto, using(crate::proofs::Words::between))]
fn inner(line: &[u8]) -> &[u8]
    requires { 15 ≤ length line.now }
    ensures { (words : List ℕ) → line.now ≡ codes "0 0 " ++ (words ++ codes " ok held 0\n") → result.now ≡ words }
{
    &line[BEFORE..line.len() - AFTER]
}

/// A call in the words of a run's text, with digits for all names.
pub(crate) fn call_words(alloc: Global, call: &Call) -> Result<Vec<u8>, NoMemory>
    ensures { IfOk result (λ words. words.items ≡ call_text [] call.now) }
{
    let line = line_with(alloc, call)?;
    Ok(Vec::from_slice(alloc, inner(line.as_bytes()))?)
}
