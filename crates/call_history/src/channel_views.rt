//! What is known of channels, found by name.

ghost use Rattle.std.specs.Prelude.{◌≡◌, ◌≤◌, ◌<◌, ◌++◌, ◌∷◌, [], ℕ, List, Some, None, length, slice_set, slice_index_or, find, IfOk, OnOk, MatchOption, option_copied, if◌then◌else◌};
ghost use Rattle.std.specs.Map.{lookup};
ghost use Rattle.std.specs.Str.{bytes_eq};
ghost use Rattle.indexmap.specs.IndexMap.{spare};
ghost use Rattle.call_history.specs.Viewed.{unknown, is_of, view_of, views_with, ArePlaced};
ghost use Rattle.call_history.specs.declared.view.ChannelView.{ChannelView as AView};

use crate::view::ChannelView;
use channel_values::{Listed, Name, NoMemory};
use indexmap::IndexMap;
use std::alloc::Global;
use std::marker::Model;
use std::mem;

/// What is known of channels, in the order in which they were named. Contracts see the list. A channel is found by a
/// table of names, so that finding one takes the same time however many there are.
#[derive(Drop)]
pub struct ChannelViews {
    views: Vec<ChannelView>,
    places: IndexMap<Name, usize>,
}

impl Model for ChannelViews {
    ghost use Rattle.std.specs.Prelude.{List};
    ghost use Rattle.call_history.specs.Viewed.{ArePlaced};
    ghost use Rattle.call_history.specs.declared.view.ChannelView.{ChannelView};

    ghost Value = { List ChannelView };

    ghost view = { λ s. s.views.items };

    ghost invariant = { λ s. ArePlaced s.places.entries s.views.items };
}

fn unknown(alloc: Global, channel: &Name) -> ChannelView
    ensures { result ≡ unknown channel.now }
{
    ChannelView {
        channel: *channel,
        turn: 0,
        deadline: None,
        held: Listed::make(Vec::new(alloc)),
        shown: None,
        settled: None,
        rest: None,
    }
}

/// The place of the channel, if the table has one.
fn place_in(places: &IndexMap<Name, usize>, channel: &Name) -> Option<usize>
    ensures { result ≡ lookup (bytes_eq channel.now) places.now.entries }
{
    match places.get(channel) {
        Some(place) => Some(*place),
        None => None,
    }
}

/// The channel has this place, and the others keep theirs.
fn set_place(places: &mut IndexMap<Name, usize>, channel: Name, place: usize)
    requires { 1 ≤ spare places.old }
    ensures { (c : List ℕ) → lookup (bytes_eq c) places.new.entries
        ≡ (if bytes_eq channel c then Some place else lookup (bytes_eq c) places.old.entries) }
{
    places.insert(channel, place).unwrap();
}

/// Adds a row of a channel that had none.
#[tactic(auto, using(crate::proofs::Viewed::placed_new))]
fn add(
    views: &mut Vec<ChannelView>,
    places: &mut IndexMap<Name, usize>,
    view: ChannelView,
) -> Result<(), NoMemory>
    requires new { lookup (bytes_eq view.channel) places.old.entries ≡ None }
    requires placed { ArePlaced places.old.entries views.old.items }
    ensures views { OnOk result (views.new.items ≡ views.old.items ++ view ∷ []) }
    ensures placed { ArePlaced places.new.entries views.new.items }
{
    let channel = view.channel;
    let place = views.len();
    places.reserve(1)?;
    views.push(view)?;
    set_place(places, channel, place);
    Ok(())
}

/// The place of the channel's row, which is added where there is none.
fn place_for(
    alloc: Global,
    views: &mut Vec<ChannelView>,
    places: &mut IndexMap<Name, usize>,
    channel: &Name,
) -> Result<usize, NoMemory>
    requires { ArePlaced places.old.entries views.old.items }
    ensures placed { ArePlaced places.new.entries views.new.items }
    ensures there { IfOk result (λ place. place < length views.new.items) }
    ensures named { IfOk result (λ place. (other : AView)
        → (slice_index_or views.new.items place other).channel ≡ channel.now) }
    ensures view { IfOk result (λ place. (other : AView)
        → slice_index_or views.new.items place other ≡ view_of views.old.items channel.now) }
    ensures change { IfOk result (λ place. (change : AView → AView)
        → slice_set views.new.items place (change (view_of views.old.items channel.now))
        ≡ views_with change channel.now views.old.items) }
{
    if let Some(place) = place_in(places, channel) {
        return Ok(place);
    }
    let place = views.len();
    add(views, places, unknown(alloc, channel))?;
    Ok(place)
}

impl ChannelViews {
    /// Nothing is known of any channel.
    pub fn new(alloc: Global) -> ChannelViews
        ensures { result ≡ [] }
    {
        ChannelViews {
            views: Vec::new(alloc),
            places: IndexMap::new(alloc),
        }
    }

    /// What is known of each channel.
    pub fn as_slice(&self) -> &[ChannelView]
        ensures { result.now ≡ self.now }
    {
        self.views.as_slice()
    }

    /// The allocator that it keeps.
    pub fn allocator(&self) -> Global {
        *self.views.allocator()
    }

    /// What is known of the channel, if anything is.
    #[tactic(auto, using(crate::proofs::Viewed::find_there, crate::proofs::Viewed::find_past, crate::proofs::Viewed::view_there, crate::proofs::Viewed::view_past))]
    pub fn get(&self, channel: &Name) -> Option<&ChannelView>
        ensures found { option_copied result ≡ find (is_of channel.now) self.now }
        ensures meant { MatchOption result (view_of self.now channel.now ≡ unknown channel.now)
            (λ v. view_of self.now channel.now ≡ v.now) }
    {
        match place_in(&self.places, channel) {
            Some(place) => Some(&self.views[place]),
            None => None,
        }
    }

    #[tactic(auto, using(crate::proofs::Viewed::placed_again))]
    /// Adds what is known of a channel. Where something was known of it, that is still what is found.
    pub fn push(&mut self, view: ChannelView) -> Result<(), NoMemory>
        ensures { OnOk result (self.new ≡ self.old ++ view ∷ []) }
    {
        if place_in(&self.places, &view.channel).is_none() {
            return add(&mut self.views, &mut self.places, view);
        }
        self.views.push(view)?;
        Ok(())
    }

    /// Takes out what is known of the channel. Until it is put back, nothing is known of it.
    pub fn take(&mut self, channel: &Name) -> Result<ChannelView, NoMemory>
        ensures known { IfOk result (λ v. v ≡ view_of self.old channel.now) }
        ensures named { IfOk result (λ v. v.channel ≡ channel.now) }
        ensures rest { OnOk result (self.new ≡ views_with (λ v. unknown channel.now) channel.now self.old) }
    {
        let alloc = self.allocator();
        let place = place_for(alloc, &mut self.views, &mut self.places, channel)?;
        let nothing = unknown(alloc, channel);
        Ok(mem::replace(&mut self.views[place], nothing))
    }

    /// Puts what is known of a channel in place of what was known of it.
    pub fn put(&mut self, view: ChannelView) -> Result<(), NoMemory>
        ensures { OnOk result (self.new ≡ views_with (λ v. view) view.channel self.old) }
    {
        let alloc = self.allocator();
        let channel = view.channel;
        let place = place_for(alloc, &mut self.views, &mut self.places, &channel)?;
        self.views[place] = view;
        Ok(())
    }
}
