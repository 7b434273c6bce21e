//! Names of nets, each with a place.

ghost use Rattle.std.specs.Prelude.{◌≡◌, ◌++◌, ℕ, IfOk, IfSome, List, Some, [], slice_get};
ghost use Rattle.std.specs.Option.{option_map};
ghost use Rattle.net_lists.specs.NetViews.{head_view};
ghost use Rattle.named_shapes.specs.Named.{owner_in};

use indexmap::IndexSet;
use name_keys::{Name, OwnName};
use net_lists::NetHead;
use net_queries::{PartOwner, PartOwners};
use std::alloc::{AllocError, Allocator, Global};
use std::hash::RandomState;
use std::marker::Model;

/// Names of nets, each with a place that it keeps.
#[derive(Drop)]
pub(crate) struct NetNames<A: Allocator = Global> {
    names: IndexSet<OwnName<A>, RandomState, A>,
}

impl<A: Allocator> Model for NetNames<A> {
    ghost use Rattle.std.specs.Prelude.{List, ℕ};

    ghost Value = { List (List ℕ) };

    ghost view = { λ n. n.names.keys };
}

impl<A: Allocator + Copy> NetNames<A> {
    /// No names. It takes no memory.
    pub(crate) fn new(alloc: A, hash_builder: RandomState) -> NetNames<A>
        ensures { result ≡ [] }
    {
        NetNames {
            names: IndexSet::with_hasher(alloc, hash_builder),
        }
    }

    /// The place of a name, if it has one.
    pub(crate) fn place_of(&self, name: &[u8]) -> Option<usize>
        ensures { IfSome result (λ n. slice_get self.now n ≡ Some name.now) }
    {
        self.names.get_index_of(Name { bytes: name })
    }

    /// Puts a name behind the others, unless it has a place, and gives its place. The name is copied.
    fn put_new(&mut self, alloc: A, name: &[u8]) -> Result<usize, AllocError>
        ensures place { IfOk result (λ n. slice_get self.new n ≡ Some name.now) }
        ensures stay { (more : List (List ℕ)) × (self.new ≡ self.old ++ more) }
    {
        let own = OwnName::copy_of(alloc, name)?;
        let (place, _) = self.names.insert_full(own)?;
        Ok(place)
    }

    /// The place of a name, which is put behind the others if it has none.
    pub(crate) fn put(&mut self, alloc: A, name: &[u8]) -> Result<usize, AllocError>
        ensures place { IfOk result (λ n. slice_get self.new n ≡ Some name.now) }
        ensures stay { (more : List (List ℕ)) × (self.new ≡ self.old ++ more) }
    {
        match self.place_of(name) {
            Some(place) => Ok(place),
            None => self.put_new(alloc, name),
        }
    }

    /// The name at a place.
    pub(crate) fn name(&self, place: usize) -> Option<&[u8]>
        ensures { option_map (λ w. w.now) result ≡ slice_get self.now place }
    {
        let own = self.names.get_index(place)?;
        Some(own.bytes())
    }
}

impl<A: Allocator + Copy> PartOwners for NetNames<A> {
    ghost owner = { λ n. owner_in n };

    fn of_part(&self, number: usize) -> Option<(PartOwner, NetHead<'_>)> {
        let name = self.name(number)?;
        let owner = PartOwner {
            net: number,
            is_pin: true,
        };
        let head = NetHead {
            name,
            is_power: false,
            parts: 0,
        };
        Some((owner, head))
    }
}
