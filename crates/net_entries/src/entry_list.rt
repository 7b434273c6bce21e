//! Lists of entries, of which most have one.

ghost use Rattle.std.specs.Prelude.{◌≡◌, ◌∷◌, ◌++◌, [], OnOk};
ghost use Rattle.net_entries.specs.Places.{entries_listed};

use crate::lent_entry::LentEntry;
use std::alloc::{AllocError, Allocator};

/// Entries one after the other, at least one. One entry takes no memory of its own.
#[derive(Drop)]
pub(crate) enum EntryList<'r, 't, A: Allocator> {
    One(LentEntry<'r, 't>),
    Several(Vec<LentEntry<'r, 't>, A>),
}

impl<'r, 't, A: Allocator> EntryList<'r, 't, A> {
    /// The entries.
    pub(crate) fn as_slice(&self) -> &[LentEntry<'r, 't>]
        ensures { result.now ≡ entries_listed self.now }
    {
        match self {
            EntryList::One(entry) => std::slice::from_ref(entry),
            EntryList::Several(entries) => entries.as_slice(),
        }
    }

    /// Puts one more entry behind the others.
    pub(crate) fn push(&mut self, alloc: A, entry: LentEntry<'r, 't>) -> Result<(), AllocError>
        ensures { OnOk result (entries_listed self.new ≡ entries_listed self.old ++ entry.entry ∷ []) }
    {
        match self {
            EntryList::One(first) => {
                let mut entries = Vec::new(alloc);
                entries.push(*first)?;
                entries.push(entry)?;
                *self = EntryList::Several(entries);
            }
            EntryList::Several(entries) => entries.push(entry)?,
        }
        Ok(())
    }
}
