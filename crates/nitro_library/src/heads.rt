//! The first line of a state file: a title, and the number of the file's inode.

ghost use Rattle.std.specs.Prelude.{◌≡◌, ◌++◌, ◌∷◌, ◌+◌, ◌-◌, ◌^◌, [], min, length, true, is_some, IfOk, IfErr, OnOk, MatchOption};
ghost use Rattle.nitro_library.specs.Files.{records_in};
ghost use Rattle.nitro_library.specs.Heads.{first_line, has_line, is_ours, head_in};
ghost use Rattle.nitro_library.specs.Beginnings.{IsForeign};

use crate::opened::OpenedFile;
use crate::status::Failure;
use lasting_lines::{Split, split_row};
use std::alloc::{AllocError, Global};

/// A file that begins with its first line, or doesn't yet.
#[derive(Drop)]
pub(crate) struct Head<'a> {
    /// What stands after the first line.
    pub(crate) records: &'a [u8],
    /// What a file has to begin with that is new, or has only a part of its first line; else nothing.
    pub(crate) line: Vec<u8>,
}

fn first_line(alloc: Global, title: &str, inode: u64) -> Result<Vec<u8>, AllocError>
    ensures { IfOk result (λ line. line.items ≡ first_line title.now inode) }
{
    Ok(format!(in alloc; "{title} {inode}\n")?.into_bytes())
}

fn front_of(alloc: Global, title: &str) -> Result<Vec<u8>, AllocError>
    ensures { IfOk result (λ front. front.items ≡ title.now ++ 32 ∷ []) }
{
    Ok(format!(in alloc; "{title} ")?.into_bytes())
}

// What stands after the first line, if a line ends.
#[tactic(auto, using(crate::proofs::FirstLine::no_line, crate::proofs::FirstLine::some_line, crate::proofs::Recovering::records_none, crate::proofs::Recovering::records_some))]
fn records_in(bytes: &[u8]) -> Option<&[u8]>
    ensures line { is_some result ≡ has_line bytes.now }
    ensures records { MatchOption result (records_in bytes.now ≡ []) (λ records. records.now ≡ records_in bytes.now) }
{
    match split_row(bytes) {
        None => None,
        Some(Split { row: _, rest }) => Some(rest),
    }
}

/// After how many bytes a file is cut, of whose records so many are whole.
pub(crate) fn cut_after(bytes: &[u8], records: &[u8], kept: usize) -> usize
    ensures { result ≡ min ((length bytes.now - length records.now) + kept) (2 ^ 64 - 1) }
{
    (bytes.len().saturating_sub(records.len())).saturating_add(kept)
}

/// The head of a file with these bytes. `Foreign` where the first line has another title, or names another inode and may not.
#[tactic(auto, using(crate::proofs::FirstLine::memory))]
pub(crate) fn head_of<'a>(
    alloc: Global,
    file: &OpenedFile,
    title: &str,
    bytes: &'a [u8],
) -> Result<Head<'a>, Failure>
    ensures records { IfOk result (λ head. head.records.now ≡ records_in bytes.now) }
    ensures line { IfOk result (λ head. head.line.items ≡ head_in title.now file.now bytes.now) }
    ensures ours { OnOk result (is_ours title.now file.now bytes.now ≡ true) }
    ensures foreign { IfErr result (IsForeign title.now file.now bytes.now) }
{
    let front = front_of(alloc, title)?;
    let line = first_line(alloc, title, file.inode)?;
    match records_in(bytes) {
        None if line.starts_with(bytes) => Ok(Head { records: &[], line }),
        Some(records) if bytes.starts_with(&front) && (file.moved || bytes.starts_with(&line)) => {
            let line = Vec::new(alloc);
            Ok(Head { records, line })
        }
        _ => Err(Failure::Foreign),
    }
}
