//! Lists in JSON.

ghost use Rattle.std.specs.Prelude.{◌≡◌, ◌++◌, codes, OnOk};
ghost use Rattle.std.specs.List.{flat_map, join_by};

use channel_values::NoMemory;

/// What a list can have.
pub(crate) trait JsonItem {
    ghost use Rattle.std.specs.Prelude.{ℕ, List};

    /// Its text.
    ghost json: { Self → List ℕ };

    /// Appends its text. Where there is no memory, some of it may stay.
    fn put(&self, out: &mut Vec<u8>) -> Result<(), NoMemory>
        ensures { OnOk result (out.new.items ≡ out.old.items ++ json self.now) };
}

// Appends the texts of items, each after a comma.
fn put_more<T: JsonItem>(out: &mut Vec<u8>, items: &[T]) -> Result<(), NoMemory>
    ensures { OnOk result (out.new.items ≡ out.old.items ++ flat_map (λ item. codes "," ++ T.json item) items.now) }
{
    for item in items {
        out.extend_from_slice(b",")?;
        item.put(out)?;
    }
    Ok(())
}

/// Appends the texts of items with commas between them.
pub(crate) fn put_items<T: JsonItem>(out: &mut Vec<u8>, items: &[T]) -> Result<(), NoMemory>
    ensures { OnOk result (out.new.items ≡ out.old.items ++ join_by T.json (codes ",") items.now) }
{
    match items {
        [] => Ok(()),
        [first, rest @ ..] => {
            first.put(out)?;
            put_more(out, rest)
        }
    }
}
