//! Names of entries in their sections.

ghost use Rattle.std.specs.Prelude.{◌≡◌, ◌&&◌};
ghost use Rattle.std.specs.Cmp.{on_equiv, on_per, partial_equiv_from_equiv};
ghost use Rattle.name_keys.specs.Inputs.{entry_input, is_same_entry, same_entries, same_entry_input};

use indexmap::Equivalent;
use std::hash::{Hash, Hasher};

/// The word of a section, and the name of one of its entries: a key of a table, and what an entry is looked up by. Entries of one
/// name are hashed alike in all sections.
#[derive(Clone, Copy)]
pub struct EntryName<'t> {
    pub word: &'static [u8],
    pub name: &'t [u8],
}

impl<'t> PartialEq for EntryName<'t> {
    ghost eq = { λ x y. is_same_entry (x.word.now, x.name.now) (y.word.now, y.name.now) };

    ghost laws = { on_per (λ x. (x.word.now, x.name.now)) (partial_equiv_from_equiv same_entries) };

    fn eq(&self, other: &EntryName<'t>) -> bool {
        self.word == other.word && self.name == other.name
    }
}

impl<'t> Eq for EntryName<'t> {
    ghost laws = { on_equiv (λ x. (x.word.now, x.name.now)) same_entries };
}

impl<'t> Hash for EntryName<'t> {
    ghost hash_input = { λ x. entry_input (x.word.now, x.name.now) };

    ghost respects_eq = { λ x y. same_entry_input (x.word.now, x.name.now) (y.word.now, y.name.now) };

    fn hash<H: Hasher>(&self, state: &mut H) {
        state.write(self.name);
    }
}

impl<'a, 't> Equivalent<EntryName<'t>> for EntryName<'a> {
    ghost equivalent = { λ q x. is_same_entry (q.word.now, q.name.now) (x.word.now, x.name.now) };

    ghost respects_hash = { λ q x. same_entry_input (q.word.now, q.name.now) (x.word.now, x.name.now) };

    ghost respects_eq = { λ q x y. same_entries.congr (q.word.now, q.name.now) (x.word.now, x.name.now) (y.word.now, y.name.now) };

    fn equivalent(&self, key: &EntryName<'t>) -> bool {
        self.word == key.word && self.name == key.name
    }
}
