//! Changes of tables that are let go of.

ghost use Rattle.std.specs.Prelude.{◌≡◌, ◌&&◌, ℕ, List, Some, false, not};
ghost use Rattle.std.specs.Str.{bytes_eq};
ghost use Rattle.def_grammar.specs.Records.{Record};
ghost use Rattle.design_model.specs.declared.identifier.StmtId.{StmtId as TheStmtId};
ghost use Rattle.design_tables.specs.LettingGo.{AreInUse, is_unused};
ghost use Rattle.design_tables.specs.ListingViews.{listing_view};
ghost use Rattle.design_tables.specs.Listings.{AreTablesOf, found, listed};

use crate::names::{Listing, NameTable};
use crate::prepared::PreparedTables;
use crate::tables::Tables;
use name_keys::Name;
use std::alloc::Allocator;

impl<A: Allocator + Copy> Listing<A> {
    /// Whether nothing stands there.
    fn is_unused(&self) -> bool
        ensures { result ≡ is_unused (Some (listing_view self.now)) }
    {
        self.marks.as_slice().is_empty() && self.entries == 0
    }
}

impl<A: Allocator + Copy> NameTable<A> {
    /// Whether a name has a place under which nothing stands.
    fn is_unused(&self, name: &[u8]) -> bool
        ensures { result ≡ is_unused (found name.now self.now) }
    {
        match self.get(name) {
            Some(listing) => listing.is_unused(),
            None => false,
        }
    }

    /// Takes a name out if nothing stands under it. The last name goes to its place, so more names take no longer.
    fn let_go_of(&mut self, name: &[u8])
        ensures same { (n : List ℕ) → listed n self.new ≡ listed n self.old }
        ensures gone { (n : List ℕ) → is_unused (found n self.new) ≡ (not (bytes_eq n name.now) && is_unused (found n self.old)) }
    {
        if self.is_unused(name) {
            drop(self.names.swap_remove(Name { bytes: name }));
        }
    }

    /// Takes out those names of a change under which nothing stands.
    fn let_go_all(&mut self, change: &NameTable<A>)
        ensures same { (n : List ℕ) → listed n self.new ≡ listed n self.old }
        ensures gone { AreInUse change.now self.new }
    {
        let mut left = change.names.keys();
        while let Some(name) = left.next() {
            self.let_go_of(name.bytes());
        }
    }
}

impl<A: Allocator + Copy> Tables<A> {
    /// Lets go of a change that isn't needed any more, whether it was made or not, with the names of it under which nothing stands.
    /// What the tables say stays. Where other changes lead that are kept isn't known from then on. It takes no memory.
    pub fn let_go(&mut self, change: PreparedTables<A>)
        ensures same { (xs : List (TheStmtId × Record)) → AreTablesOf xs self.old → AreTablesOf xs self.new }
        ensures gone { AreInUse change self.new }
    {
        self.names.let_go_all(&change.names);
    }
}
