//! Changes of tables, prepared beside them and committed by an exchange.

ghost use Rattle.std.specs.Prelude.{◌≡◌, ◌<◌, ◌++◌, ℕ, List, IfErr, IfOk, OnOk, false, map, true};
ghost use Rattle.std.specs.List.{list_any};
ghost use Rattle.def_grammar.specs.Records.{Record};
ghost use Rattle.def_reader.specs.StatementViews.{record_view};
ghost use Rattle.design_model.specs.declared.identifier.StmtId.{StmtId as TheStmtId};
ghost use Rattle.design_tables.specs.Listings.{AreTablesOf, Listing, listed};
ghost use Rattle.design_tables.specs.Marks.{key_mark};
ghost use Rattle.design_tables.specs.Prepared.{AreApart, AreKeyed, HasNames, IsBetween, IsKept, count_in, exchanged, is_repeated, is_twice, lacks_units};
ghost use Rattle.design_tables.specs.TableViews.{numbered_view};
ghost use Rattle.design_tables.specs.declared.prepared.PrepareError.TheVariants.{Duplicate as IsDuplicate, Memory as IsMemory};

use crate::edited::edited;
use crate::marks::key_mark;
use crate::names::NameTable;
use crate::role::Role;
use crate::tables::{Numbered, Tables};
use def_reader::statement::Statement;
use name_keys::Name;
use std::alloc::{AllocError, Allocator, Global};
use std::marker::Model;

/// Why a change is not prepared.
#[derive(Clone, Copy, Debug, PartialEq, Eq)]
pub enum PrepareError {
    /// What a text has once would stand twice, or UNITS not at all.
    Duplicate,
    /// Memory was refused.
    Memory,
}

impl From<AllocError> for PrepareError {
    ghost from_gives = { λ _ e. e ≡ IsMemory };

    fn from(_error: AllocError) -> PrepareError {
        PrepareError::Memory
    }
}

/// A change of tables that is prepared.
pub struct PreparedTables<A: Allocator + Copy = Global> {
    pub(crate) names: NameTable<A>,
}

// (written out, so that who owns this is proved over one call)
impl<A: Allocator + Copy> Drop for PreparedTables<A> {
    fn drop(self) {
        let PreparedTables { names: _ } = self;
    }
}

impl<A: Allocator + Copy> Model for PreparedTables<A> {
    ghost use Rattle.std.specs.Prelude.{List, ℕ};
    ghost use Rattle.design_tables.specs.Listings.{Listing};

    ghost Value = { List (List ℕ × Listing) };

    ghost view = { λ t. t.names };
}

impl<A: Allocator + Copy> NameTable<A> {
    /// How many statements have a role under a name.
    pub(crate) fn count(&self, name: &[u8], role: Role) -> usize
        ensures { result ≡ count_in name.now role self.now }
    {
        match self.get(name) {
            Some(listing) => listing.count(role),
            None => 0,
        }
    }

    /// Whether what a text has once of a statement stands twice.
    pub(crate) fn is_repeated(&self, statement: &Statement<'_>) -> bool
        ensures { result ≡ is_twice (key_mark (record_view statement.now)) self.now }
    {
        match key_mark(statement) {
            Some(mark) => self.count(mark.name, mark.role) > 1,
            None => false,
        }
    }

    /// Whether it does of one of some statements.
    fn has_repeated(&self, statements: &[Numbered<'_>]) -> bool
        ensures { result ≡ list_any (is_repeated self.now) (map numbered_view statements.now) }
    {
        for statement in statements {
            if self.is_repeated(&statement.statement) {
                return true;
            }
        }
        false
    }

    /// Whether the word UNITS has a place, and no statement stands there.
    fn lacks_units(&self) -> bool
        ensures { result ≡ lacks_units self.now }
    {
        match self.get(b"UNITS") {
            Some(listing) => listing.count(Role::Statement) == 0,
            None => false,
        }
    }

    /// Makes places for all names of another table.
    fn make_places(&mut self, of: &NameTable<A>) -> Result<(), AllocError>
        ensures same { (n : List ℕ) → listed n self.new ≡ listed n self.old }
        ensures there { OnOk result (HasNames of.now self.new) }
        ensures kept { HasNames self.old self.new }
        ensures apart { AreApart of.now }
    {
        let mut left = of.names.keys();
        while let Some(name) = left.next() {
            self.make_place(name.bytes())?;
        }
        Ok(())
    }

    /// Exchanges what stands under each name of a change with what this table has there. It takes no memory.
    fn exchange(&mut self, change: &mut NameTable<A>)
        requires { HasNames change.old self.old }
        ensures change { change.new ≡ (exchanged change.old self.old).0 }
        ensures names { self.new ≡ (exchanged change.old self.old).1 }
    {
        for i in 0..change.names.len() {
            let (name, other) = change.names.pair_mut(i);
            match self.names.get_mut(Name {
                bytes: name.bytes(),
            }) {
                Some(own) => std::mem::swap(own, other),
                None => {}
            }
        }
    }
}

impl<A: Allocator + Copy> Tables<A> {
    /// Prepares a change: some statements go out and others are put in. What the tables say stays, whatever the answer is, and so does
    /// where another change leads. It is `Duplicate` where what a text has once would then stand twice, or UNITS not at all.
    pub fn prepare(
        &mut self,
        out: &[Numbered<'_>],
        put: &[Numbered<'_>],
    ) -> Result<PreparedTables<A>, PrepareError>
        ensures same { (xs : List (TheStmtId × Record)) → AreTablesOf xs self.old → AreTablesOf xs self.new }
        ensures lasts { (change : List (List ℕ × Listing)) (base other : List (TheStmtId × Record)) → IsBetween self.old change base other → IsBetween self.new change base other }
        ensures between { (xs kept : List (TheStmtId × Record)) → AreTablesOf xs self.old → IsKept xs (map numbered_view out.now) kept → IfOk result (λ change. IsBetween self.new change xs (kept ++ map numbered_view put.now)) }
        ensures keyed { (xs kept : List (TheStmtId × Record)) → AreTablesOf xs self.old → IsKept xs (map numbered_view out.now) kept → AreKeyed xs → OnOk result (AreKeyed (kept ++ map numbered_view put.now)) }
        ensures duplicate { (xs kept : List (TheStmtId × Record)) → AreTablesOf xs self.old → IsKept xs (map numbered_view out.now) kept → AreKeyed xs → IfErr result (λ e. e ≡ IsDuplicate → AreKeyed (kept ++ map numbered_view put.now) → ⊥) }
    {
        let names = edited(&self.names, out, put)?;
        if names.has_repeated(put) || names.lacks_units() {
            return Err(PrepareError::Duplicate);
        }
        self.names.make_places(&names)?;
        Ok(PreparedTables { names })
    }

    /// Exchanges the two texts of a change that was prepared: a second commit puts the first one back. It takes no memory.
    pub fn commit(&mut self, change: &mut PreparedTables<A>)
        requires { (base : List (TheStmtId × Record)) × (other : List (TheStmtId × Record)) × IsBetween self.old change.old base other }
        ensures { (base other : List (TheStmtId × Record)) → IsBetween self.old change.old base other → IsBetween self.new change.new other base }
    {
        self.names.exchange(&mut change.names);
    }
}
