//! Which clients hold a chain of a channel.

ghost use Rattle.std.specs.Prelude.{◌≡◌, Some, vec_len, position, IfOk, OnOk, OnErr};
ghost use Rattle.std.specs.List.{Contains};
ghost use Rattle.std.specs.Str.{bytes_eq};
ghost use Rattle.indexmap.specs.IndexSet.{index_set_len};
ghost use Rattle.watchtower.specs.Holders.{holders_of, KeepsHolders};

use channel_values::{Listed, Name, NoMemory};
use indexmap::IndexSet;
use std::alloc::Global;

/// The channels of which anybody has handed a chain, and for each the places of the clients that did.
#[derive(Drop)]
pub(crate) struct Holders {
    channels: IndexSet<Name>,
    places: Vec<Listed<usize>>,
    ghost paired: { vec_len places ≡ index_set_len channels },
}

impl Holders {
    pub(crate) fn make(alloc: Global) -> Holders {
        Holders {
            channels: IndexSet::new(alloc),
            places: Vec::new(alloc),
        }
    }

    /// The places of the clients that hold a chain of the channel.
    pub(crate) fn of(&self, channel: &Name) -> &[usize]
        ensures { result.now ≡ holders_of self.now.channels.keys self.now.places.items channel.now }
    {
        match self.channels.get_index_of(channel) {
            Some(index) => self.places[index].as_slice(),
            None => &[],
        }
    }

    /// The index of a channel, which is added where it isn't there.
    fn index_for(&mut self, channel: Name) -> Result<usize, NoMemory>
        ensures index { IfOk result (λ index. position (bytes_eq channel) self.new.channels.keys ≡ Some index) }
        ensures kept { KeepsHolders self.old.channels.keys self.old.places.items self.new.channels.keys self.new.places.items }
    {
        if let Some(index) = self.channels.get_index_of(&channel) {
            return Ok(index);
        }
        let alloc = *self.places.allocator();
        self.places.reserve(1)?;
        let (index, _) = self.channels.insert_full(channel)?;
        self.places.push_reserved(Listed::make(Vec::new(alloc)));
        Ok(index)
    }

    /// Adds a place to those of a channel. No other goes.
    pub(crate) fn add(&mut self, channel: Name, place: usize) -> Result<(), NoMemory>
        ensures added { OnOk result (Contains (holders_of self.new.channels.keys self.new.places.items channel) place) }
        ensures kept { KeepsHolders self.old.channels.keys self.old.places.items self.new.channels.keys self.new.places.items }
    {
        let index = self.index_for(channel)?;
        self.places[index].push(place)?;
        Ok(())
    }
}
