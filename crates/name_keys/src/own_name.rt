//! Names with bytes of their own.

ghost use Rattle.std.specs.Prelude.{◌≡◌, IfOk};
ghost use Rattle.std.specs.Cmp.{partial_equiv_from_equiv};
ghost use Rattle.std.specs.Cmp.Lexicographic.{nat_list_eq_equiv};
ghost use Rattle.std.specs.Str.{bytes_eq};
ghost use Rattle.name_keys.specs.Inputs.{name_input, same_input};

use crate::name::Name;
use indexmap::Equivalent;
use std::alloc::{AllocError, Allocator, Global};
use std::hash::{Hash, Hasher};
use std::marker::Model;

/// A name with bytes of its own, as a key of a table.
#[derive(Drop)]
pub struct OwnName<A: Allocator = Global> {
    bytes: Vec<u8, A>,
}

impl<A: Allocator> Model for OwnName<A> {
    ghost use Rattle.std.specs.Prelude.{List, ℕ};

    ghost Value = { List ℕ };

    ghost view = { λ n. n.bytes.items };
}

impl<A: Allocator> OwnName<A> {
    /// A copy of a name.
    pub fn copy_of(alloc: A, name: &[u8]) -> Result<OwnName<A>, AllocError>
        ensures { IfOk result (λ n. n ≡ name.now) }
    {
        let bytes = Vec::from_slice(alloc, name)?;
        Ok(OwnName { bytes })
    }

    /// Its bytes.
    pub fn bytes(&self) -> &[u8]
        ensures { result.now ≡ self.now }
    {
        self.bytes.as_slice()
    }
}

impl<A: Allocator> PartialEq for OwnName<A> {
    ghost eq = { bytes_eq };

    ghost laws = { partial_equiv_from_equiv nat_list_eq_equiv };

    fn eq(&self, other: &OwnName<A>) -> bool {
        self.bytes() == other.bytes()
    }
}

impl<A: Allocator> Eq for OwnName<A> {
    ghost laws = { nat_list_eq_equiv };
}

impl<A: Allocator> Hash for OwnName<A> {
    ghost hash_input = { name_input };

    ghost respects_eq = { same_input };

    fn hash<H: Hasher>(&self, state: &mut H) {
        state.write(self.bytes());
    }
}

impl<'q, A: Allocator> Equivalent<OwnName<A>> for Name<'q> {
    ghost equivalent = { λ q x. bytes_eq q.bytes.now x };

    ghost respects_hash = { λ q x. same_input q.bytes.now x };

    ghost respects_eq = { λ q x y. nat_list_eq_equiv.congr q.bytes.now x y };

    fn equivalent(&self, key: &OwnName<A>) -> bool {
        self.bytes == key.bytes()
    }
}
