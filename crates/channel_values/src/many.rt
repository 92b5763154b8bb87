//! Lists after their counts, from any reader of one value.

ghost use Rattle.std.specs.Prelude.{◌≡◌, []};
ghost use Rattle.channel_values.specs.Reading.{Gives, many_at};
ghost use Rattle.channel_values.specs.Lists.{short_list_at, long_list_at};

use crate::cursor::{take_count, take_u32};
use crate::fault::ByteFault;
use crate::listed::Listed;
use std::alloc::Global;

/// A reader of one value of a list. What may stand next can depend on the values before it.
pub trait Take {
    ghost use Rattle.std.specs.Prelude.{ℕ, List, Result};
    ghost use Rattle.channel_values.specs.declared.fault.ByteFault.{ByteFault};

    /// What is read.
    type Value: Drop;

    /// What it reads: the length of the whole, the values before, and the bytes give a value and the bytes after it.
    ghost at: { ℕ → List Self.Value → List ℕ → Result (Self.Value × List ℕ) ByteFault };

    /// The value that stands first, and the bytes after it.
    fn take<'a>(
        alloc: Global,
        whole: usize,
        seen: &[Self::Value],
        bytes: &'a [u8],
    ) -> Result<(Self::Value, &'a [u8]), ByteFault>
        ensures { Gives (λ x. (x.0, x.1.now)) result (at whole seen.now bytes.now) };
}

/// As many values as a count says, and the bytes after them.
pub fn take_many<T: Take>(
    alloc: Global,
    whole: usize,
    count: u32,
    bytes: &[u8],
) -> Result<(Vec<T::Value>, &[u8]), ByteFault>
    ensures { Gives (λ x. (x.0.items, x.1.now)) result (many_at (T.at whole) [] count bytes.now) }
{
    let mut values = Vec::new(alloc);
    let mut rest = bytes;
    'values: for _ in 0..count {
        let (value, after) = T::take(alloc, whole, &values, rest)?;
        values.push(value)?;
        rest = after;
    }
    Ok((values, rest))
}

/// The list after a count of one byte, which is at most the limit, and the bytes after the list.
pub fn take_short_list<T: Take>(
    alloc: Global,
    whole: usize,
    limit: u8,
    bytes: &[u8],
) -> Result<(Listed<T::Value>, &[u8]), ByteFault>
    ensures { Gives (λ x. (x.0, x.1.now)) result (short_list_at limit (T.at whole) whole bytes.now) }
{
    let (count, rest) = take_count(whole, limit, bytes)?;
    let (values, rest) = take_many::<T>(alloc, whole, count as u32, rest)?;
    Ok((Listed::make(values), rest))
}

/// The list after a count of four bytes, and the bytes after the list.
pub fn take_long_list<T: Take>(
    alloc: Global,
    whole: usize,
    bytes: &[u8],
) -> Result<(Listed<T::Value>, &[u8]), ByteFault>
    ensures { Gives (λ x. (x.0, x.1.now)) result (long_list_at (T.at whole) whole bytes.now) }
{
    let (count, rest) = take_u32(whole, bytes)?;
    let (values, rest) = take_many::<T>(alloc, whole, count, rest)?;
    Ok((Listed::make(values), rest))
}
