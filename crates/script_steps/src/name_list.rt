//! Names that are found without a search from the front.

ghost use Rattle.std.specs.Prelude.{◌≡◌, ◌++◌, ◌∷◌, [], OnOk, OnErr};
ghost use Rattle.std.specs.List.{list_any};
ghost use Rattle.std.specs.Str.{bytes_eq};

use channel_values::{Label, NoMemory};
use std::alloc::Global;
use std::collections::BTreeSet;
use std::marker::Model;

/// Names in the order of their declaration, and the set of them, in which they are looked up.
#[derive(Drop)]
pub struct NameList {
    names: Vec<Label>,
    index: BTreeSet<String>,
}

impl Model for NameList {
    ghost use Rattle.std.specs.Prelude.{List, ℕ};
    ghost use Rattle.script_steps.specs.Index.{IsIndex};

    ghost Value = { List (List ℕ) };

    ghost view = { λ l. l.names.items };

    ghost invariant = { λ l. IsIndex l.names.items l.index };
}

impl NameList {
    pub fn make(alloc: Global) -> NameList
        ensures { result ≡ [] }
    {
        NameList {
            names: Vec::new(alloc),
            index: BTreeSet::new(alloc),
        }
    }

    /// Whether the name is there.
    pub(crate) fn contains(&self, name: &str) -> bool
        ensures { result ≡ list_any (λ n. bytes_eq n name.now) self.now }
    {
        self.index.contains(name)
    }

    pub(crate) fn push(&mut self, name: Label) -> Result<(), NoMemory>
        ensures ok { OnOk result (self.new ≡ self.old ++ name ∷ []) }
        ensures err { OnErr result (self.new ≡ self.old) }
    {
        let text = String::from_str(*self.names.allocator(), name.as_str())?;
        self.names.push(name)?;
        match self.index.insert(text) {
            Ok(_) => Ok(()),
            Err(_) => {
                self.names.pop();
                Err(NoMemory)
            }
        }
    }
}
