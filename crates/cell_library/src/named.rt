//! Definitions by name.

ghost use Rattle.std.specs.Prelude.{◌≡◌, ◌<◌, ◌^◌, [], IfSome, OnOk, OnErr, length, slice_get};
ghost use Rattle.std.specs.Prelude.{option_copied};
ghost use Rattle.std.specs.Option.{option_map};
ghost use Rattle.form_meanings.specs.Firsts.{find_named, with_first};
ghost use Rattle.cell_library.specs.Naming.{entry_seen, place_of, name_of, named};
ghost use Rattle.lefdef_tokens.specs.Views.{word_view};

use indexmap::IndexMap;
use name_keys::Name;
use std::alloc::{AllocError, Allocator, Global};
use std::hash::RandomState;
use std::marker::Model;

/// Definitions with their names, in the order in which they came: the first of each name.
#[derive(Drop)]
pub struct Named<'l, D: Drop, A: Allocator = Global> {
    entries: IndexMap<Name<'l>, D, RandomState, A>,
}

impl<'l, D: Drop, A: Allocator> Model for Named<'l, D, A> {
    ghost use Rattle.std.specs.Prelude.{List, ℕ};
    ghost use Rattle.cell_library.specs.Naming.{entries_view};

    ghost Value = { List (List ℕ × D) };

    ghost view = { λ t. entries_view t.entries.entries };
}

impl<'l, D: Drop, A: Allocator + Copy> Named<'l, D, A> {
    /// No definition. It takes no memory.
    pub fn new(alloc: A, hash_builder: RandomState) -> Named<'l, D, A>
        ensures { result ≡ [] }
    {
        Named {
            entries: IndexMap::with_hasher(alloc, hash_builder),
        }
    }

    /// What the names are hashed with.
    pub fn hash_builder(&self) -> RandomState {
        *self.entries.hasher()
    }

    /// The definition of a name.
    pub fn get(&self, name: &[u8]) -> Option<&D>
        ensures { option_copied result ≡ named self.now name.now }
    {
        self.entries.get(Name { bytes: name })
    }

    /// The definition of a name, with that name.
    pub fn find(&self, name: &[u8]) -> Option<(&'l [u8], &D)>
        ensures { option_map entry_seen result ≡ find_named name_of self.now name.now }
    {
        self.at(self.place_of(name)?)
    }

    /// How many definitions there are.
    pub fn len(&self) -> usize
        ensures { result ≡ length self.now }
    {
        self.entries.len()
    }

    /// The definition at a place, with its name.
    pub fn at(&self, place: usize) -> Option<(&'l [u8], &D)>
        ensures there { option_map entry_seen result ≡ slice_get self.now place }
        ensures few { IfSome result (λ e. place < 2 ^ 63) }
    {
        let (name, definition) = self.entries.as_slice().get_index(place)?;
        Some((name.bytes, definition))
    }

    /// The place of a name among the others.
    pub fn place_of(&self, name: &[u8]) -> Option<usize>
        ensures { result ≡ place_of self.now name.now }
    {
        self.entries.get_index_of(Name { bytes: name })
    }

    /// The name at a place.
    pub fn name_at(&self, place: usize) -> Option<&'l [u8]>
        ensures { option_map word_view result ≡ option_map name_of (slice_get self.now place) }
    {
        let (name, _) = self.entries.get_index(place)?;
        Some(name.bytes)
    }

    /// Adds a definition at the end, unless its name is taken. Where memory is refused nothing changes.
    pub fn add(&mut self, name: &'l [u8], definition: D) -> Result<(), AllocError>
        ensures ok { OnOk result (self.new ≡ with_first name_of self.old (name.now, definition)) }
        ensures err { OnErr result (self.new ≡ self.old) }
    {
        if self.entries.contains_key(Name { bytes: name }) {
            return Ok(());
        }
        self.entries.insert(Name { bytes: name }, definition)?;
        Ok(())
    }
}
