//! Names that are lent.

ghost use Rattle.std.specs.Prelude.{◌≡◌};
ghost use Rattle.std.specs.Cmp.{on_equiv, on_per, partial_equiv_from_equiv};
ghost use Rattle.std.specs.Cmp.Lexicographic.{nat_list_eq_equiv};
ghost use Rattle.std.specs.Str.{bytes_eq};
ghost use Rattle.name_keys.specs.Inputs.{name_input, same_input};

use indexmap::Equivalent;
use std::hash::{Hash, Hasher};

/// A name that is lent: a key of a table, and what a name is looked up by.
#[derive(Clone, Copy)]
pub struct Name<'t> {
    pub bytes: &'t [u8],
}

impl<'t> PartialEq for Name<'t> {
    ghost eq = { λ x y. bytes_eq x.bytes.now y.bytes.now };

    ghost laws = { on_per (λ x. x.bytes.now) (partial_equiv_from_equiv nat_list_eq_equiv) };

    fn eq(&self, other: &Name<'t>) -> bool {
        self.bytes == other.bytes
    }
}

impl<'t> Eq for Name<'t> {
    ghost laws = { on_equiv (λ x. x.bytes.now) nat_list_eq_equiv };
}

impl<'t> Hash for Name<'t> {
    ghost hash_input = { λ x. name_input x.bytes.now };

    ghost respects_eq = { λ x y. same_input x.bytes.now y.bytes.now };

    fn hash<H: Hasher>(&self, state: &mut H) {
        state.write(self.bytes);
    }
}

impl<'a, 't> Equivalent<Name<'t>> for Name<'a> {
    ghost equivalent = { λ q x. bytes_eq q.bytes.now x.bytes.now };

    ghost respects_hash = { λ q x. same_input q.bytes.now x.bytes.now };

    ghost respects_eq = { λ q x y. nat_list_eq_equiv.congr q.bytes.now x.bytes.now y.bytes.now };

    fn equivalent(&self, key: &Name<'t>) -> bool {
        self.bytes == key.bytes
    }
}
