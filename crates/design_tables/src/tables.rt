//! Tables of the statements of a text, and what they find.

ghost use Rattle.std.specs.Prelude.{◌≡◌, ◌↔◌, ◌∷◌, ◌++◌, [], ℕ, List, IfOk, MatchOption, OnOk, Some, codes, false, length};
ghost use Rattle.statement_model.specs.Reading.{is_among};
ghost use Rattle.def_grammar.specs.Records.{Record};
ghost use Rattle.def_reader.specs.StatementViews.{record_view};
ghost use Rattle.design_model.specs.declared.identifier.StmtId.{StmtId as TheStmtId};
ghost use Rattle.design_tables.specs.Listings.{AreTablesOf, listed};
ghost use Rattle.design_tables.specs.Lookups.{Finds, FindsAll, entries_of, ids_with, is_design_pin, is_end, is_header, is_named_entry, is_of, is_star_pin, lists};
ghost use Rattle.design_tables.specs.Prepared.{HaveKeysOnce, is_repeated, keys_of};

use crate::names::NameTable;
use crate::role::{Mark, Role};
use def_reader::statement::Statement;
use design_model::identifier::StmtId;
use design_model::mode::Section;
use std::alloc::{AllocError, Allocator, Global};
use std::hash::RandomState;
use std::marker::Model;
use std::rc::Rc;

/// A statement with its number.
#[derive(Clone, Copy)]
pub struct Numbered<'t> {
    pub id: StmtId,
    pub statement: Statement<'t>,
}

/// The numbers of statements that have to do with a name in one way, one after the other.
#[derive(Drop)]
pub struct Numbers<'a> {
    marks: &'a [Mark],
    role: Role,
}

impl<'a> Model for Numbers<'a> {
    ghost use Rattle.std.specs.Prelude.{List};
    ghost use Rattle.design_model.specs.declared.identifier.StmtId.{StmtId as TheStmtId};
    ghost use Rattle.design_tables.specs.Lookups.{ids_with};

    ghost Value = { List TheStmtId };

    ghost view = { λ n. ids_with n.role n.marks.now };
}

impl<'a> Numbers<'a> {
    /// The next number.
    pub fn next(&mut self) -> Option<StmtId>
        ensures { MatchOption result ((self.old ≡ []) × (self.new ≡ [])) (λ id. self.old ≡ id ∷ self.new) }
    {
        while let Some((mark, rest)) = self.marks.split_first() {
            self.marks = rest;
            if mark.role.is(self.role) {
                return Some(mark.id.get());
            }
        }
        None
    }
}

/// What stands in a text under each name.
pub struct Tables<A: Allocator + Copy = Global> {
    pub(crate) names: NameTable<A>,
}

// (written out, so that who owns this is proved over one call)
impl<A: Allocator + Copy> Drop for Tables<A> {
    fn drop(self) {
        let Tables { names: _ } = self;
    }
}

impl<A: Allocator + Copy> Model for Tables<A> {
    ghost use Rattle.std.specs.Prelude.{List, ℕ};
    ghost use Rattle.design_tables.specs.Listings.{Listing};

    ghost Value = { List (List ℕ × Listing) };

    ghost view = { λ t. t.names };
}

impl<A: Allocator + Copy> Tables<A> {
    /// Tables of no statements. It takes no memory.
    pub fn new(alloc: A, hash_builder: RandomState) -> Tables<A>
        ensures { AreTablesOf [] result }
    {
        Tables {
            names: NameTable::new(alloc, hash_builder),
        }
    }

    /// The same with room for so many names, where there is memory for it.
    pub fn with_room(alloc: A, hash_builder: RandomState, names: usize) -> Tables<A>
        ensures { AreTablesOf [] result }
    {
        Tables {
            names: NameTable::with_room(alloc, hash_builder, names),
        }
    }

    /// What the names are hashed with.
    pub fn hash_builder(&self) -> RandomState {
        self.names.hash_builder()
    }

    /// Puts one more statement in, under a number, and answers whether what a text has once of it stands more than once then.
    /// Where memory is refused it may be put in part. Its name is kept as a part of the text where it stands there, and else copied.
    pub fn add(
        &mut self,
        id: StmtId,
        statement: &Statement<'_>,
        text: &Rc<Vec<u8, A>, A>,
    ) -> Result<bool, AllocError>
        ensures added { (xs : List (TheStmtId × Record)) → AreTablesOf xs self.old → OnOk result (AreTablesOf (xs ++ (id, record_view statement.now) ∷ []) self.new) }
        ensures repeated { IfOk result (λ repeats. repeats ≡ is_repeated self.new (id, record_view statement.now)) }
        ensures once { (xs : List (TheStmtId × Record)) → AreTablesOf xs self.old → HaveKeysOnce xs → IfOk result (λ repeats. (repeats ≡ false) ↔ HaveKeysOnce (xs ++ (id, record_view statement.now) ∷ [])) }
    {
        let is_new = self.names.add(id, statement, text)?;
        if is_new {
            return Ok(false);
        }
        Ok(self.names.is_repeated(statement))
    }

    /// The marks under a name.
    fn marks(&self, name: &[u8]) -> &[Mark]
        ensures { result.now ≡ (listed name.now self.now).marks }
    {
        match self.names.get(name) {
            Some(listing) => listing.marks.as_slice(),
            None => &[],
        }
    }

    /// The numbers of the statements that have a role under a name.
    fn numbers(&self, name: &[u8], role: Role) -> Numbers<'_>
        ensures { result ≡ ids_with role (listed name.now self.now).marks }
    {
        let marks = self.marks(name);
        Numbers { marks, role }
    }

    /// The entry of a section by its name.
    pub fn find(&self, section: Section, name: &[u8]) -> Option<StmtId>
        ensures { (xs : List (TheStmtId × Record)) → AreTablesOf xs self.now → Finds (is_named_entry section name.now) xs result }
    {
        self.numbers(name, Role::Entry(section)).next()
    }

    /// The header of a section.
    pub fn header(&self, section: Section) -> Option<StmtId>
        ensures { (xs : List (TheStmtId × Record)) → AreTablesOf xs self.now → Finds (is_header section) xs result }
    {
        self.numbers(section.word(), Role::Statement).next()
    }

    /// The `END` of a section.
    pub fn end(&self, section: Section) -> Option<StmtId>
        ensures { (xs : List (TheStmtId × Record)) → AreTablesOf xs self.now → Finds (is_end section) xs result }
    {
        self.numbers(section.word(), Role::SectionEnd).next()
    }

    /// How many entries a section has.
    pub fn entries_in(&self, section: Section) -> usize
        ensures { (xs : List (TheStmtId × Record)) → AreTablesOf xs self.now → result ≡ length (entries_of section xs) }
    {
        match self.names.get(section.word()) {
            Some(listing) => listing.entries,
            None => 0,
        }
    }

    /// Whether the text has UNITS.
    pub fn has_units(&self) -> bool
        ensures { (xs : List (TheStmtId × Record)) → AreTablesOf xs self.now → result ≡ is_among (keys_of xs) (codes "UNITS" ∷ []) }
    {
        self.names.count(b"UNITS", Role::Statement) > 0
    }

    /// The entries of NETS and SPECIALNETS that list a pin of a component by its name, one as often as it lists one.
    pub fn nets_of(&self, component: &[u8]) -> Numbers<'_>
        ensures { (xs : List (TheStmtId × Record)) → AreTablesOf xs self.now → FindsAll (lists (is_of component.now)) xs result }
    {
        self.numbers(component, Role::Component)
    }

    /// Those that list the pins of a name of all components.
    pub fn nets_by_star(&self, pin: &[u8]) -> Numbers<'_>
        ensures { (xs : List (TheStmtId × Record)) → AreTablesOf xs self.now → FindsAll (lists (is_star_pin pin.now)) xs result }
    {
        self.numbers(pin, Role::StarPin)
    }

    /// Those that list a pin of the design.
    pub fn nets_of_design_pin(&self, pin: &[u8]) -> Numbers<'_>
        ensures { (xs : List (TheStmtId × Record)) → AreTablesOf xs self.now → FindsAll (lists (is_design_pin pin.now)) xs result }
    {
        self.numbers(pin, Role::DesignPin)
    }
}
