//! The objects of lines.

ghost use Rattle.std.specs.Prelude.{◌≡◌, ◌++◌, ◌==◌, ◌∷◌, [], flat_map, drop, zip, IfOk, OnOk};
ghost use Rattle.std.specs.List.{slice_split};
ghost use Rattle.json_lines.specs.Json.{quoted, named, reply_member, kind_member, members, opening, object_of, object_of_line, object_line, json_of};

use crate::naming::{begins_with_digit, names_of, words_of};
use crate::quoting::{push_member, push_quoted};
use channel_values::{Listed, NoMemory};
use std::alloc::Global;

/// Adds a word by its name.
fn push_named(out: &mut Vec<u8>, name: &[u8], word: &[u8]) -> Result<(), NoMemory>
    ensures { OnOk result (out.new.items ≡ out.old.items ++ named (name.now, word.now)) }
{
    if name == "-".as_bytes() {
        return Ok(());
    }
    push_member(out, name, word)
}

/// Adds the words that have a name.
fn push_names(out: &mut Vec<u8>, names: &[Listed<u8>], words: &[Listed<u8>]) -> Result<(), NoMemory>
    ensures { OnOk result (out.new.items ≡ out.old.items ++ flat_map named (zip names.now words.now)) }
{
    for (name, word) in names.iter().zip(words) {
        push_named(out, name.as_slice(), word.as_slice())?;
    }
    Ok(())
}

/// Adds words, each after a comma.
fn push_others(out: &mut Vec<u8>, words: &[Listed<u8>]) -> Result<(), NoMemory>
    ensures { OnOk result (out.new.items ≡ out.old.items ++ flat_map (λ w. 44 ∷ quoted w) words.now) }
{
    for word in words {
        out.push(44)?;
        push_quoted(out, word.as_slice())?;
    }
    Ok(())
}

/// Adds the words after those that have a name.
fn push_reply(out: &mut Vec<u8>, words: &[Listed<u8>]) -> Result<(), NoMemory>
    ensures { OnOk result (out.new.items ≡ out.old.items ++ reply_member words.now) }
{
    let [word, others @ ..] = words else {
        return Ok(());
    };
    out.extend_from_slice(",\"reply\":[".as_bytes())?;
    push_quoted(out, word.as_slice())?;
    push_others(out, others)?;
    out.extend_from_slice("]".as_bytes())?;
    Ok(())
}

/// Adds what an entry is called.
fn push_kind(out: &mut Vec<u8>, words: &[Listed<u8>]) -> Result<(), NoMemory>
    ensures { OnOk result (out.new.items ≡ out.old.items ++ kind_member words.now) }
{
    match words {
        [first, ..] if begins_with_digit(first.as_slice()) => {
            push_member(out, "line".as_bytes(), "entry".as_bytes())
        }
        _ => Ok(()),
    }
}

/// The words after so many.
fn others_of(words: &[Listed<u8>], count: usize) -> &[Listed<u8>]
    ensures { result.now ≡ drop count words.now }
{
    if count < words.len() {
        &words[count..]
    } else {
        &[]
    }
}

/// Adds the members of words by their names.
fn push_members(
    out: &mut Vec<u8>,
    names: &[Listed<u8>],
    words: &[Listed<u8>],
) -> Result<(), NoMemory>
    ensures { OnOk result (out.new.items ≡ out.old.items ++ members names.now words.now) }
{
    push_kind(out, words)?;
    push_names(out, names, words)?;
    push_reply(out, others_of(words, names.len()))
}

/// Adds how each object begins.
#[tactic(auto, unfolding(crate::specs::Json::opening))]
fn push_opening(out: &mut Vec<u8>) -> Result<(), NoMemory>
    ensures { OnOk result (out.new.items ≡ out.old.items ++ opening) }
{
    out.extend_from_slice("{\"version\":\"1\"".as_bytes())?;
    Ok(())
}

/// Adds the object of words by their names, in a line of its own.
fn push_object(
    out: &mut Vec<u8>,
    names: &[Listed<u8>],
    words: &[Listed<u8>],
) -> Result<(), NoMemory>
    ensures { OnOk result (out.new.items ≡ out.old.items ++ object_of names.now words.now) }
{
    push_opening(out)?;
    push_members(out, names, words)?;
    out.extend_from_slice("}\n".as_bytes())?;
    Ok(())
}

/// Adds the object of a line that has anything.
fn push_object_of(alloc: Global, out: &mut Vec<u8>, line: &[u8]) -> Result<(), NoMemory>
    ensures { OnOk result (out.new.items ≡ out.old.items ++ object_of_line line.now) }
{
    let words = words_of(alloc, line)?;
    let names = words_of(alloc, names_of(&words).as_bytes())?;
    push_object(out, &names, &words)
}

/// Adds the object of a line. An empty line has none.
fn push_line(alloc: Global, out: &mut Vec<u8>, line: &[u8]) -> Result<(), NoMemory>
    ensures { OnOk result (out.new.items ≡ out.old.items ++ object_line line.now) }
{
    match line {
        [] => Ok(()),
        [_, ..] => push_object_of(alloc, out, line),
    }
}

/// The lines of a text, each as one JSON object in a line of its own: its words by their names, all of them strings.
pub fn json_of(alloc: Global, text: &[u8]) -> Result<Vec<u8>, NoMemory>
    ensures { IfOk result (λ json. json.items ≡ json_of text.now) }
{
    let mut out = Vec::new(alloc);
    for line in text.split(|byte| *byte == 10) {
        push_line(alloc, &mut out, line)?;
    }
    Ok(out)
}
