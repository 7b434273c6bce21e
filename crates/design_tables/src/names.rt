//! A table of names, with the marks of statements under each.

ghost use Rattle.std.specs.Prelude.{◌≡◌, ◌∷◌, ◌||◌, [], ℕ, List, IfOk, OnOk, Some, count_by, if◌then◌else◌};
ghost use Rattle.std.specs.Option.{option_map};
ghost use Rattle.std.specs.Str.{bytes_eq};
ghost use Rattle.design_tables.specs.ListingViews.{listing_view};
ghost use Rattle.design_tables.specs.Changes.{is_gone, less, or_else_listed, without};
ghost use Rattle.design_tables.specs.Marks.{same_role};
ghost use Rattle.design_tables.specs.Listings.{found, has_name, listed, marks_named, unlisted, with_marks};
ghost use Rattle.design_tables.specs.Prepared.{HasNames};

use crate::kept_name::KeptName;
use crate::mark_list::{FewMarks, MarkList};
use crate::role::{Mark, Role};
use indexmap::{IndexMap, IndexSet};
use name_keys::Name;
use std::alloc::{AllocError, Allocator, Global};
use std::hash::{BuildHasherDefault, FoldHasher, RandomState};
use std::marker::Model;

/// What stands under a name: marks of statements, and how many entries the section of this word has. These are only counted, as a
/// section can have all statements of a text.
#[derive(Drop)]
pub(crate) struct Listing<A: Allocator> {
    pub marks: MarkList<A>,
    pub entries: usize,
}

impl<A: Allocator + Copy> Listing<A> {
    /// Nothing. It takes no memory.
    pub fn new() -> Listing<A>
        ensures { listing_view result ≡ unlisted }
    {
        Listing {
            marks: MarkList::Empty,
            entries: 0,
        }
    }

    /// One mark, or one entry counted. It takes no memory.
    pub fn one(mark: Mark) -> Listing<A>
        ensures { listing_view result ≡ with_marks (mark ∷ []) unlisted }
    {
        if mark.role.is(Role::Member) {
            Listing {
                marks: MarkList::Empty,
                entries: 1,
            }
        } else {
            Listing {
                marks: MarkList::Few(FewMarks::one(mark)),
                entries: 0,
            }
        }
    }

    /// Puts one more mark behind the others, or counts one more entry. More than fit into a number are refused as memory is.
    pub fn push(&mut self, alloc: A, mark: Mark) -> Result<(), AllocError>
        ensures { OnOk result (listing_view self.new ≡ with_marks (mark ∷ []) (listing_view self.old)) }
    {
        if mark.role.is(Role::Member) {
            self.entries = self.entries.checked_add(1).ok_or(AllocError)?;
        } else {
            self.marks.push(alloc, mark)?;
        }
        Ok(())
    }

    /// Counts one entry less.
    pub fn uncount(&mut self)
        ensures { listing_view self.new ≡ less 1 (listing_view self.old) }
    {
        self.entries = self.entries.saturating_sub(1);
    }

    /// The same without the marks of statements of these numbers.
    pub fn without(&self, alloc: A, gone: &Ids<A>) -> Result<Listing<A>, AllocError>
        ensures { IfOk result (λ l. listing_view l ≡ without (is_gone gone.now.keys) (listing_view self.now)) }
    {
        let mut marks = MarkList::Empty;
        for mark in self.marks.as_slice() {
            if !mark.is_of(gone) {
                marks.push(alloc, *mark)?;
            }
        }
        let entries = self.entries;
        Ok(Listing { marks, entries })
    }

    /// How many marks have a role.
    pub fn count(&self, role: Role) -> usize
        ensures { result ≡ count_by (λ m. same_role m.role role) (listing_view self.now).marks }
    {
        let mut count = 0;
        for mark in self.marks.as_slice() {
            if mark.role.is(role) {
                count += 1;
            }
        }
        count
    }
}

/// Numbers of statements.
pub(crate) type Ids<A> = IndexSet<usize, BuildHasherDefault<FoldHasher>, A>;

impl Mark {
    /// Whether it is of a statement with one of these numbers.
    fn is_of<A: Allocator + Copy>(&self, ids: &Ids<A>) -> bool
        ensures { result ≡ is_gone ids.now.keys self.now.id }
    {
        let id = self.id.get();
        ids.contains(&id.0)
    }
}

/// Names with what stands under them.
#[derive(Drop)]
pub(crate) struct NameTable<A: Allocator + Copy = Global> {
    pub names: IndexMap<KeptName<A>, Listing<A>, RandomState, A>,
    // Where the name stood that `put_again` put a mark under last. Another name may have the place now.
    pub last: usize,
}

impl<A: Allocator + Copy> Model for NameTable<A> {
    ghost use Rattle.std.specs.Prelude.{List, ℕ, map};
    ghost use Rattle.design_tables.specs.Listings.{Listing as TheListing};
    ghost use Rattle.design_tables.specs.ListingViews.{named_view};

    ghost Value = { List (List ℕ × TheListing) };

    ghost view = { λ t. map named_view t.names.entries };
}

impl<A: Allocator + Copy> NameTable<A> {
    /// No names. It takes no memory.
    pub fn new(alloc: A, hash_builder: RandomState) -> NameTable<A>
        ensures { result ≡ [] }
    {
        NameTable {
            names: IndexMap::with_hasher(alloc, hash_builder),
            last: 0,
        }
    }

    /// The same with room for so many names, where there is memory for it.
    pub fn with_room(alloc: A, hash_builder: RandomState, names: usize) -> NameTable<A>
        ensures { result ≡ [] }
    {
        let mut table = NameTable::new(alloc, hash_builder);
        let _ = table.names.reserve(names);
        table
    }

    /// Where it has its memory from.
    pub fn allocator(&self) -> A {
        *self.names.allocator()
    }

    /// What the names are hashed with.
    pub fn hash_builder(&self) -> RandomState {
        *self.names.hasher()
    }

    /// What stands under a name, where it has a place.
    pub fn get(&self, name: &[u8]) -> Option<&Listing<A>>
        ensures { option_map (λ l. listing_view l.now) result ≡ found name.now self.now }
    {
        self.names.get(Name { bytes: name })
    }

    /// Makes a place for a name, under which nothing stands, unless it has one.
    pub fn make_place(&mut self, name: &[u8]) -> Result<(), AllocError>
        ensures same { (n : List ℕ) → listed n self.new ≡ listed n self.old }
        ensures there { OnOk result ((n : List ℕ) → has_name n self.new ≡ (has_name n self.old || bytes_eq n name.now)) }
        ensures kept { HasNames self.old self.new }
    {
        if self.names.contains_key(Name { bytes: name }) {
            return Ok(());
        }
        let alloc = self.allocator();
        let name = KeptName::copy_of(alloc, name)?;
        self.names.insert(name, Listing::new())?;
        Ok(())
    }

    /// What stands under a name without the marks of statements of these numbers.
    fn left_of(&self, name: &[u8], gone: &Ids<A>) -> Result<Listing<A>, AllocError>
        ensures { IfOk result (λ l. listing_view l ≡ without (is_gone gone.now.keys) (listed name.now self.now)) }
    {
        let alloc = self.allocator();
        match self.get(name) {
            Some(listing) => listing.without(alloc, gone),
            None => Ok(Listing::new()),
        }
    }

    /// Makes a place for a name that has none, and puts there what another table has under it, without the marks of statements of
    /// these numbers.
    pub fn copy(
        &mut self,
        from: &NameTable<A>,
        gone: &Ids<A>,
        name: &[u8],
    ) -> Result<(), AllocError>
        ensures copied { OnOk result ((n : List ℕ) → listed n self.new ≡ or_else_listed (found n self.old) (if bytes_eq n name.now then without (is_gone gone.now.keys) (listed name.now from.now) else unlisted)) }
        ensures there { OnOk result ((n : List ℕ) → has_name n self.new ≡ (has_name n self.old || bytes_eq n name.now)) }
    {
        if self.names.contains_key(Name { bytes: name }) {
            return Ok(());
        }
        let listing = from.left_of(name, gone)?;
        let name = KeptName::copy_of(self.allocator(), name)?;
        self.names.insert(name, listing)?;
        Ok(())
    }

    /// Counts one entry less of the section of a word.
    pub fn uncount(&mut self, word: &[u8])
        ensures names { (n : List ℕ) → has_name n self.new ≡ has_name n self.old }
        ensures counted { (n : List ℕ) → listed n self.new ≡ (if bytes_eq word.now n then less 1 (listed n self.old) else listed n self.old) }
    {
        match self.names.get_mut(Name { bytes: word }) {
            Some(listing) => listing.uncount(),
            None => {}
        }
    }

    /// Puts a mark under a name.
    pub fn put(&mut self, name: &[u8], mark: Mark) -> Result<(), AllocError>
        ensures there { OnOk result ((n : List ℕ) → has_name n self.new ≡ (has_name n self.old || bytes_eq n name.now)) }
        ensures put { OnOk result ((n : List ℕ) → listed n self.new ≡ with_marks (marks_named n ((name.now, mark) ∷ [])) (listed n self.old)) }
    {
        let alloc = self.allocator();
        match self.names.get_mut(Name { bytes: name }) {
            Some(listing) => {
                listing.push(alloc, mark)?;
                return Ok(());
            }
            None => {}
        }
        let name = KeptName::copy_of(alloc, name)?;
        self.names.insert(name, Listing::one(mark))?;
        Ok(())
    }
}
