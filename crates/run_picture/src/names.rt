//! The channels and the persons of a run.

use indexmap::IndexSet;
use run_text::{Call, Payee, Run};
use std::alloc::{AllocError, Global};

/// The channels in the order in which they are named, and the persons that have a node or were paid.
#[derive(Drop)]
pub struct Names<'a> {
    pub channels: IndexSet<&'a [u8]>,
    pub persons: IndexSet<&'a [u8]>,
}

/// A channel or a person, by its place among the names.
#[derive(Clone, Copy, PartialEq, Eq)]
pub enum Who {
    Channel(usize),
    Person(usize),
}

/// The place of a name, where it is there.
pub fn place_of(names: &IndexSet<&[u8]>, name: &[u8]) -> Option<usize> {
    names.get_index_of(name)
}

fn add_name<'a>(names: &mut IndexSet<&'a [u8]>, name: &'a [u8]) -> Result<(), AllocError> {
    names.insert(name)?;
    Ok(())
}

fn add_called<'a>(channels: &mut IndexSet<&'a [u8]>, call: &Call<'a>) -> Result<(), AllocError> {
    match call {
        Call::Deposit { channel, .. }
        | Call::Turn { channel, .. }
        | Call::Transfer { channel, .. } => add_name(channels, channel),
        Call::Claim {
            guarantor,
            target,
            ..
        } => {
            add_name(channels, guarantor)?;
            add_name(channels, target)
        }
        Call::Time(_) => Ok(()),
    }
}

fn channels_of<'a>(alloc: Global, run: &Run<'a>) -> Result<IndexSet<&'a [u8]>, AllocError> {
    let mut channels = IndexSet::new(alloc);
    for entry in &run.entries {
        add_called(&mut channels, &entry.call)?;
        if let Some(Payee::Channel(name)) = entry.payee {
            add_name(&mut channels, name)?;
        }
    }
    for balance in &run.held {
        add_name(&mut channels, balance.name)?;
    }
    Ok(channels)
}

fn persons_of<'a>(alloc: Global, run: &Run<'a>) -> Result<IndexSet<&'a [u8]>, AllocError> {
    let mut persons = IndexSet::new(alloc);
    for person in &run.persons {
        add_name(&mut persons, person.name)?;
    }
    for balance in &run.paid {
        add_name(&mut persons, balance.name)?;
    }
    for entry in &run.entries {
        if let Some(Payee::Person(name)) = entry.payee {
            add_name(&mut persons, name)?;
        }
    }
    Ok(persons)
}

impl Names<'_> {
    /// The place of somebody among all: the channels, then the persons.
    pub fn place(&self, who: Who) -> usize {
        match who {
            Who::Channel(at) => at,
            Who::Person(at) => self.channels.len().saturating_add(at),
        }
    }

    /// Who is paid, where it is named.
    pub fn who(&self, payee: &Payee) -> Option<Who> {
        match payee {
            Payee::Channel(name) => Some(Who::Channel(place_of(&self.channels, name)?)),
            Payee::Person(name) => Some(Who::Person(place_of(&self.persons, name)?)),
        }
    }
}

/// All names of a run.
pub fn names_of<'a>(alloc: Global, run: &Run<'a>) -> Result<Names<'a>, AllocError> {
    let channels = channels_of(alloc, run)?;
    let persons = persons_of(alloc, run)?;
    Ok(Names { channels, persons })
}
