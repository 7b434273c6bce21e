//! Entries that are lent.

use def_reader::entry::Entry;

/// An entry that is lent from the statements that were read.
#[derive(Clone, Copy, Drop)]
pub struct LentEntry<'r, 't> {
    pub entry: &'r Entry<'t>,
}
