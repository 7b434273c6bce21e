//! Nets by their names.

ghost use Rattle.std.specs.Prelude.{◌≡◌, ◌<◌, ℕ, List, [], Some, IfOk, OnOk, if◌then◌else◌, length};
ghost use Rattle.std.specs.Option.{option_map};
ghost use Rattle.std.specs.Str.{bytes_eq};
ghost use Rattle.design_model.specs.Views.{rectangle_of};
ghost use Rattle.form_meanings.specs.Firsts.{find_named};
ghost use Rattle.reports.specs.MeasuredNets.{measured_at, measures_view, name_of};

use design_model::geometry::Rect;
use indexmap::IndexMap;
use name_keys::{Name, OwnName};
use net_entries::NetPlaces;
use std::alloc::{AllocError, Allocator, Global};
use std::hash::RandomState;
use std::marker::Model;

/// The length of a net, in database units, and the least rectangle round its shapes, if it has some.
#[derive(Clone, Copy)]
pub(crate) struct Measures {
    pub(crate) length: u64,
    pub(crate) bounds: Option<Rect>,
}

/// The measures of nets by their names, each name once.
pub(crate) struct NetTable<A: Allocator = Global> {
    nets: IndexMap<OwnName<A>, Measures, RandomState, A>,
}

// (written out, so that who owns this is proved over one call)
impl<A: Allocator> Drop for NetTable<A> {
    fn drop(self) {
        let NetTable { nets: _ } = self;
    }
}

impl<A: Allocator> Model for NetTable<A> {
    ghost use Rattle.std.specs.Prelude.{List, map};
    ghost use Rattle.reports.specs.MeasuredNets.{MeasuredNet, entry_view};

    ghost Value = { List MeasuredNet };

    ghost view = { λ t. map entry_view t.nets.entries };
}

impl<A: Allocator + Copy> NetTable<A> {
    /// No nets, with room for so many.
    pub(crate) fn with_room(
        alloc: A,
        hash_builder: RandomState,
        count: usize,
    ) -> Result<NetTable<A>, AllocError>
        ensures { IfOk result (λ table. table ≡ []) }
    {
        let nets = IndexMap::with_capacity_and_hasher(alloc, count, hash_builder)?;
        Ok(NetTable { nets })
    }

    /// Gives the net at a place these measures, in the place of those that it has.
    pub(crate) fn set_at(&mut self, place: usize, measures: Measures)
        requires { place < length self.old }
        ensures { self.new ≡ measured_at place measures.length (option_map rectangle_of measures.bounds) self.old }
    {
        *self.nets.get_index_mut(place).unwrap() = measures;
    }

    /// Gives the net of a name these measures, in the place of those that it has, if it is there. The name is copied.
    pub(crate) fn set(&mut self, name: &[u8], measures: Measures) -> Result<(), AllocError>
        ensures { OnOk result ((n : List ℕ) → find_named name_of self.new n ≡ (if bytes_eq name.now n then Some (measures_view name.now measures) else find_named name_of self.old n)) }
    {
        let key = OwnName::copy_of(*self.nets.allocator(), name)?;
        self.nets.insert(key, measures)?;
        Ok(())
    }

    /// The measures of the net of a name.
    pub(crate) fn get(&self, name: &[u8]) -> Option<Measures>
        ensures { option_map (measures_view name.now) result ≡ find_named name_of self.now name.now }
    {
        self.nets.get(Name { bytes: name }).copied()
    }
}

impl<A: Allocator + Copy> NetPlaces for NetTable<A> {
    ghost use Rattle.std.specs.Prelude.{map};
    ghost use Rattle.reports.specs.MeasuredNets.{name_of};

    ghost names = { map name_of };

    /// The name is copied. Its net is yet to be measured then, also one that was there.
    fn place_of(&mut self, name: &[u8]) -> Result<usize, AllocError> {
        let key = OwnName::copy_of(*self.nets.allocator(), name)?;
        let unmeasured = Measures {
            length: 0,
            bounds: None,
        };
        let (place, _) = self.nets.insert_full(key, unmeasured)?;
        Ok(place)
    }
}
