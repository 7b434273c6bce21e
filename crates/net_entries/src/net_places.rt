//! Places of nets by their names.

ghost use Rattle.std.specs.Prelude.{◌≡◌, [], IfOk, OnOk};
ghost use Rattle.form_meanings.specs.Firsts.{with_first};
ghost use Rattle.net_entries.specs.Places.{place_in};

use indexmap::IndexSet;
use name_keys::OwnName;
use std::alloc::{AllocError, Allocator, Global};
use std::hash::RandomState;
use std::marker::Model;

/// Names of nets, each with a place, in the order in which they came. A name isn't lent to them.
pub trait NetPlaces {
    ghost use Rattle.std.specs.Prelude.{List, ℕ};

    ghost names: { Self → List (List ℕ) };

    /// The place of a name, which is put behind the others if it has none.
    fn place_of(&mut self, name: &[u8]) -> Result<usize, AllocError>
        ensures place { IfOk result (λ n. n ≡ place_in (names self.old) name.now) }
        ensures named { OnOk result (names self.new ≡ with_first (λ n. n) (names self.old) name.now) };
}

/// Names of nets alone, which it copies.
pub struct NamePlaces<A: Allocator = Global> {
    names: IndexSet<OwnName<A>, RandomState, A>,
}

// (written out, so that who owns this is proved over one call)
impl<A: Allocator> Drop for NamePlaces<A> {
    fn drop(self) {
        let NamePlaces { names: _ } = self;
    }
}

impl<A: Allocator> Model for NamePlaces<A> {
    ghost use Rattle.std.specs.Prelude.{List, ℕ};

    ghost Value = { List (List ℕ) };

    ghost view = { λ p. p.names.keys };
}

impl<A: Allocator + Copy> NamePlaces<A> {
    /// No names. It takes no memory.
    pub fn new(alloc: A, hash_builder: RandomState) -> Self
        ensures { result ≡ [] }
    {
        NamePlaces {
            names: IndexSet::with_hasher(alloc, hash_builder),
        }
    }
}

impl<A: Allocator + Copy> NetPlaces for NamePlaces<A> {
    ghost names = { λ p. p };

    fn place_of(&mut self, name: &[u8]) -> Result<usize, AllocError> {
        let key = OwnName::copy_of(*self.names.allocator(), name)?;
        let (place, _) = self.names.insert_full(key)?;
        Ok(place)
    }
}
