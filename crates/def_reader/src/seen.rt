//! What a text has said so far, of all that it may say once.

ghost use Rattle.std.specs.Prelude.{◌≡◌, []};
ghost use Rattle.def_reader.specs.SeenViews.{has_word, key_view, Notes};

use design_model::fault::{FaultCode, ReadError};
use design_model::mode::Section;
use indexmap::IndexSet;
use std::alloc::Allocator;
use std::hash::RandomState;

/// What of a statement a text has once.
#[derive(Clone, Copy)]
pub enum Key<'t> {
    /// Nothing: it may come again.
    Nothing,
    /// A statement that begins with this word.
    Statement(&'t [u8]),
    /// An entry of a section with this name.
    Entry(Section, &'t [u8]),
}

type Words<'t, A> = IndexSet<&'t [u8], RandomState, A>;

/// The words that statements began with, and the names in the present section. A text has each section once, so the
/// names of earlier ones are not needed any more.
#[derive(Drop)]
pub(crate) struct Seen<'t, A: Allocator> {
    words: Words<'t, A>,
    names: Words<'t, A>,
}

impl<'t, A: Allocator + Copy> Seen<'t, A> {
    /// Before the first statement.
    pub fn new(alloc: A, hash_builder: RandomState) -> Seen<'t, A>
        ensures words { result.words.keys ≡ [] }
        ensures names { result.names.keys ≡ [] }
    {
        Seen {
            words: IndexSet::with_hasher(alloc, hash_builder),
            names: IndexSet::with_hasher(alloc, hash_builder),
        }
    }

    /// Notes a key, or gives the fault of one that stands already.
    pub fn note(&mut self, key: Key<'t>) -> Result<Option<FaultCode>, ReadError>
        ensures { Notes self.old.words.keys self.old.names.keys (key_view key.entry) self.new.words.keys self.new.names.keys result }
    {
        match key {
            Key::Nothing => Ok(None),
            Key::Statement(word) => {
                self.names.clear();
                if self.words.insert(word)? {
                    Ok(None)
                } else {
                    Ok(Some(FaultCode::Repeated))
                }
            }
            Key::Entry(_, name) => {
                if self.names.insert(name)? {
                    Ok(None)
                } else {
                    Ok(Some(FaultCode::NameTaken))
                }
            }
        }
    }

    /// Whether a statement began with this word.
    pub fn has(&self, word: &[u8]) -> bool
        ensures { result ≡ has_word self.now.words.keys word.now }
    {
        self.words.contains(word)
    }
}
