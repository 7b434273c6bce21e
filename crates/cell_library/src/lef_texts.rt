//! The LEF texts of a library.

ghost use Rattle.std.specs.Prelude.{◌≡◌, ◌++◌, ◌∷◌, [], OnOk, OnErr};

use design_model::sequence::{Bytes, Sequence};
use std::alloc::{AllocError, Allocator, Global};
use std::marker::Model;

/// LEF texts in their order, kept for the library that borrows from them.
#[derive(Drop)]
pub struct LefTexts<A: Allocator = Global> {
    texts: Vec<Bytes<A>, A>,
}

impl<A: Allocator> Model for LefTexts<A> {
    ghost use Rattle.std.specs.Prelude.{List, ℕ};

    ghost Value = { List (List ℕ) };

    ghost view = { λ t. t.texts.items };
}

impl<A: Allocator + Copy> LefTexts<A> {
    /// No text.
    pub fn new(alloc: A) -> LefTexts<A>
        ensures { result ≡ [] }
    {
        LefTexts {
            texts: Vec::new(alloc),
        }
    }

    /// Puts a copy of a text at the end. A refused growth leaves the texts as they were.
    pub fn push(&mut self, text: &[u8]) -> Result<(), AllocError>
        ensures ok { OnOk result (self.new ≡ self.old ++ text.now ∷ []) }
        ensures err { OnErr result (self.new ≡ self.old) }
    {
        let copy = Sequence::from_slice(*self.texts.allocator(), text)?;
        self.texts.push(copy)?;
        Ok(())
    }

    /// The texts.
    pub fn as_slice(&self) -> &[Bytes<A>]
        ensures { result.now ≡ self.now }
    {
        self.texts.as_slice()
    }
}
