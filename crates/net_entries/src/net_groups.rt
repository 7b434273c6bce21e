//! The entries of nets by the places of their names.

ghost use Rattle.std.specs.Prelude.{◌≡◌, ◌<◌, [], OnOk, Some, length, map, slice_get};
ghost use Rattle.name_groups.specs.Groups.{Group, with_member};
ghost use Rattle.net_entries.specs.Places.{group_names, net_group_view, place_in, with_member_at};

use crate::entry_list::EntryList;
use crate::lent_entry::LentEntry;
use std::alloc::{AllocError, Allocator, Global};
use std::marker::Model;

/// A net and its entries.
#[derive(Drop)]
pub(crate) struct NetGroup<'r, 't, A: Allocator> {
    name: &'t [u8],
    entries: EntryList<'r, 't, A>,
}

/// The entries of nets, net by net, in the order in which each name came first.
pub struct NetGroups<'r, 't, A: Allocator = Global> {
    groups: Vec<NetGroup<'r, 't, A>, A>,
}

// (written out, so that who owns this is proved over one call)
impl<A: Allocator> Drop for NetGroups<'_, '_, A> {
    fn drop(self) {
        let NetGroups { groups: _ } = self;
    }
}

impl<'r, 't, A: Allocator> Model for NetGroups<'r, 't, A> {
    ghost use Rattle.std.specs.Prelude.{List, map};
    ghost use Rattle.name_groups.specs.Groups.{Group};
    ghost use Rattle.net_entries.specs.Places.{net_group_view};
    ghost use Rattle.net_entries.specs.declared.lent_entry.LentEntry.{LentEntry as Lent};

    ghost Value = { List (Group Lent) };

    ghost view = { λ g. map net_group_view g.groups.items };
}

/// Puts an entry behind those of the net at a place.
fn push_at<'r, 't, A: Allocator>(
    groups: &mut [NetGroup<'r, 't, A>],
    place: usize,
    alloc: A,
    entry: LentEntry<'r, 't>,
) -> Result<(), AllocError>
    requires { place < length groups.old }
    ensures { OnOk result (map net_group_view groups.new ≡ with_member_at place entry.entry (map net_group_view groups.old)) }
{
    groups[place].entries.push(alloc, entry)
}

impl<'r, 't, A: Allocator + Copy> NetGroups<'r, 't, A> {
    /// No nets. It takes no memory.
    pub fn new(alloc: A) -> Self
        ensures { result ≡ [] }
    {
        NetGroups {
            groups: Vec::new(alloc),
        }
    }

    /// Puts an entry behind those of the net at a place, which is that of the entry's name. The net of a new name goes last.
    pub fn add_at(
        &mut self,
        place: usize,
        name: &'t [u8],
        entry: LentEntry<'r, 't>,
    ) -> Result<(), AllocError>
        requires { place ≡ place_in (group_names self.old) name.now }
        ensures { OnOk result (self.new ≡ with_member name.now entry.entry self.old) }
    {
        let alloc = *self.groups.allocator();
        if place < self.groups.len() {
            return push_at(&mut self.groups, place, alloc, entry);
        }
        let entries = EntryList::One(entry);
        self.groups.push(NetGroup { name, entries })?;
        Ok(())
    }

    /// How many nets there are.
    pub fn len(&self) -> usize
        ensures { result ≡ length self.now }
    {
        self.groups.len()
    }

    /// The name of the net at a place, and its entries in the order of the text.
    pub fn at(&self, index: usize) -> (&'t [u8], &[LentEntry<'r, 't>])
        requires { index < length self.now }
        ensures { slice_get self.now index ≡ Some (record { name = result.0.now; members = result.1.now }) }
    {
        let group = &self.groups[index];
        (group.name, group.entries.as_slice())
    }
}
