//! Lists that contracts see as lists.

ghost use Rattle.std.specs.Prelude.{◌≡◌, ◌++◌, ◌∷◌, [], OnOk, OnErr, IfOk, length};

use std::alloc::{AllocError, Allocator, Global};
use std::marker::Model;

/// A list that grows at its end.
#[derive(Drop)]
pub struct Sequence<T: Drop, A: Allocator = Global> {
    items: Vec<T, A>,
}

/// Owned bytes.
pub type Bytes<A = Global> = Sequence<u8, A>;

impl<T: Drop, A: Allocator> Model for Sequence<T, A> {
    ghost use Rattle.std.specs.Prelude.{List};

    ghost Value = { List T };

    ghost view = { λ s. s.items.items };
}

impl<T: Drop, A: Allocator> Sequence<T, A> {
    /// The empty list. It takes no memory.
    pub fn new(alloc: A) -> Sequence<T, A>
        ensures { result ≡ [] }
    {
        Sequence {
            items: Vec::new(alloc),
        }
    }

    /// The list of a vector's elements.
    pub fn from_vec(items: Vec<T, A>) -> Sequence<T, A>
        ensures { result ≡ items.items }
    {
        Sequence { items }
    }

    /// The elements as a vector.
    pub fn into_vec(self) -> Vec<T, A>
        ensures { result.items ≡ self }
    {
        self.items
    }

    /// Puts an element behind the others. A refused growth leaves the list as it was.
    pub fn push(&mut self, item: T) -> Result<(), AllocError>
        ensures ok { OnOk result (self.new ≡ self.old ++ item ∷ []) }
        ensures err { OnErr result (self.new ≡ self.old) }
    {
        self.items.push(item)?;
        Ok(())
    }

    /// The elements.
    pub fn as_slice(&self) -> &[T]
        ensures { result.now ≡ self.now }
    {
        self.items.as_slice()
    }

    /// How many there are.
    pub fn len(&self) -> usize
        ensures { result ≡ length self.now }
    {
        self.items.len()
    }
}

impl<A: Allocator> Sequence<u8, A> {
    /// A copy of these bytes.
    pub fn from_slice(alloc: A, bytes: &[u8]) -> Result<Bytes<A>, AllocError>
        ensures { IfOk result (λ b. b ≡ bytes.now) }
    {
        Ok(Sequence {
            items: Vec::from_slice(alloc, bytes)?,
        })
    }
}
