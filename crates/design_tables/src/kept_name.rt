//! Names as keys of a table, which are parts of the text that they stand in where that is kept.

ghost use Rattle.std.specs.Prelude.{◌≡◌, ◌≤◌, IfOk, length};
ghost use Rattle.std.specs.Cmp.{partial_equiv_from_equiv};
ghost use Rattle.std.specs.Cmp.Lexicographic.{nat_list_eq_equiv};
ghost use Rattle.std.specs.List.{slice_range};
ghost use Rattle.std.specs.Str.{bytes_eq};
ghost use Rattle.name_keys.specs.Inputs.{name_input, same_input};

use design_model::MAX_TEXT;
use indexmap::Equivalent;
use name_keys::Name;
use std::alloc::{AllocError, Allocator, Global};
use std::hash::{Hash, Hasher};
use std::marker::Model;
use std::rc::Rc;

/// A name: a part of bytes that are shared.
#[derive(Drop)]
pub(crate) struct KeptName<A: Allocator = Global> {
    text: Rc<Vec<u8, A>, A>,
    lo: u32,
    hi: u32,
}

impl<A: Allocator> Model for KeptName<A> {
    ghost use Rattle.std.specs.Prelude.{◌≤◌, List, ℕ, length};
    ghost use Rattle.std.specs.List.{slice_range};

    ghost Value = { List ℕ };

    ghost view = { λ n. slice_range n.text.value.items n.lo n.hi };

    ghost invariant = { λ n. (n.lo ≤ n.hi) × (n.hi ≤ length n.text.value.items) };
}

impl<A: Allocator> KeptName<A> {
    /// Its bytes.
    pub fn bytes(&self) -> &[u8]
        ensures { result.now ≡ self.now }
    {
        &self.text.as_slice()[self.lo as usize..self.hi as usize]
    }
}

impl<A: Allocator + Copy> KeptName<A> {
    /// The bytes of a text between two positions. A position past the most bytes of a text is refused as memory is.
    fn part(text: &Rc<Vec<u8, A>, A>, lo: usize, hi: usize) -> Result<KeptName<A>, AllocError>
        requires order { lo ≤ hi }
        requires within { hi ≤ length text.now.value.items }
        ensures { IfOk result (λ n. n ≡ slice_range text.now.value.items lo hi) }
    {
        if hi > MAX_TEXT {
            return Err(AllocError);
        }
        let text = text.clone()?;
        Ok(KeptName {
            text,
            lo: lo as u32,
            hi: hi as u32,
        })
    }

    /// A copy of a name.
    pub fn copy_of(alloc: A, name: &[u8]) -> Result<KeptName<A>, AllocError>
        ensures { IfOk result (λ n. n ≡ name.now) }
    {
        let text = Rc::new(alloc, Vec::from_slice(alloc, name)?)?;
        KeptName::part(&text, 0, name.len())
    }

    /// A name that stands at a position of a text, of which it is a part then, or anywhere else: then it is copied.
    pub fn in_text(
        text: &Rc<Vec<u8, A>, A>,
        pos: usize,
        name: &[u8],
    ) -> Result<KeptName<A>, AllocError>
        ensures { IfOk result (λ n. n ≡ name.now) }
    {
        let bytes = text.as_slice();
        if pos <= bytes.len() && name.len() <= bytes.len() - pos {
            let end = pos + name.len();
            if &bytes[pos..end] == name {
                return KeptName::part(text, pos, end);
            }
        }
        KeptName::copy_of(*text.allocator(), name)
    }
}

impl<A: Allocator> PartialEq for KeptName<A> {
    ghost eq = { bytes_eq };

    ghost laws = { partial_equiv_from_equiv nat_list_eq_equiv };

    fn eq(&self, other: &KeptName<A>) -> bool {
        self.bytes() == other.bytes()
    }
}

impl<A: Allocator> Eq for KeptName<A> {
    ghost laws = { nat_list_eq_equiv };
}

impl<A: Allocator> Hash for KeptName<A> {
    ghost hash_input = { name_input };

    ghost respects_eq = { same_input };

    fn hash<H: Hasher>(&self, state: &mut H) {
        state.write(self.bytes());
    }
}

impl<'q, A: Allocator> Equivalent<KeptName<A>> for Name<'q> {
    ghost equivalent = { λ q x. bytes_eq q.bytes.now x };

    ghost respects_hash = { λ q x. same_input q.bytes.now x };

    ghost respects_eq = { λ q x y. nat_list_eq_equiv.congr q.bytes.now x y };

    fn equivalent(&self, key: &KeptName<A>) -> bool {
        self.bytes == key.bytes()
    }
}
