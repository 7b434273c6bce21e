//! A table with a group for each name.

ghost use Rattle.std.specs.Prelude.{◌≡◌, ◌<◌, ◌∷◌, [], IfOk, OnOk, Some, length, slice_get};
ghost use Rattle.name_groups.specs.Groups.{Group, members_named, with_member};

use indexmap::IndexMap;
use indexmap::map::Entry;
use name_keys::Name;
use std::alloc::{AllocError, Allocator, Global};
use std::hash::RandomState;
use std::marker::Model;

/// Things by their names, a group for each name.
#[derive(Drop)]
pub struct Groups<'t, T, A: Allocator = Global> {
    groups: IndexMap<Name<'t>, Vec<T, A>, RandomState, A>,
}

impl<'t, T, A: Allocator> Model for Groups<'t, T, A> {
    ghost use Rattle.std.specs.Prelude.{List, map};
    ghost use Rattle.name_groups.specs.Groups.{Group};
    ghost use Rattle.name_groups.specs.GroupViews.{group_view};

    ghost Value = { List (Group T) };

    ghost view = { λ g. map group_view g.groups.entries };
}

/// A list of one thing, with room for no other: most groups stay at one.
fn one<T: Drop, A: Allocator + Copy>(alloc: A, member: T) -> Result<Vec<T, A>, AllocError>
    ensures { IfOk result (λ members. members.items ≡ member ∷ []) }
{
    let mut members = Vec::with_capacity(alloc, 1)?;
    members.push(member)?;
    Ok(members)
}

impl<'t, T: Drop, A: Allocator + Copy> Groups<'t, T, A> {
    /// No groups. It takes no memory.
    pub fn new(alloc: A, hash_builder: RandomState) -> Self
        ensures { result ≡ [] }
    {
        Groups {
            groups: IndexMap::with_hasher(alloc, hash_builder),
        }
    }

    /// Puts a thing behind those of its name. A new name goes last.
    pub fn add(&mut self, name: &'t [u8], member: T) -> Result<(), AllocError>
        ensures { OnOk result (self.new ≡ with_member name.now member self.old) }
    {
        let alloc = *self.groups.allocator();
        match self.groups.entry(Name { bytes: name })? {
            Entry::Occupied(entry) => entry.into_mut().push(member)?,
            Entry::Vacant(entry) => {
                entry.insert(one(alloc, member)?);
            }
        }
        Ok(())
    }

    /// The things of a name, in the order in which they came.
    pub fn get(&self, name: &[u8]) -> &[T]
        ensures { result.now ≡ members_named name.now self.now }
    {
        match self.groups.get(Name { bytes: name }) {
            Some(members) => members.as_slice(),
            None => &[],
        }
    }

    /// How many groups there are.
    pub fn len(&self) -> usize
        ensures { result ≡ length self.now }
    {
        self.groups.len()
    }

    /// The name of the group at a place, and its things in the order in which they came.
    pub fn at(&self, index: usize) -> (&'t [u8], &[T])
        requires { index < length self.now }
        ensures { slice_get self.now index ≡ Some (record { name = result.0.now; members = result.1.now }) }
    {
        let (name, members) = self.groups.get_index(index).unwrap();
        (name.bytes, members.as_slice())
    }
}
