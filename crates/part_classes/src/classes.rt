//! Classes of numbered parts.

ghost use Rattle.std.specs.Prelude.{◌≡◌, ◌<◌, IfOk, length};
ghost use Rattle.shape_rules.specs.Classes.{bare, holding, joined, numbers};

use crate::forest;
use std::alloc::{AllocError, Allocator, Global};
use std::marker::Model;

/// Classes of parts under the numbers from 0 on.
#[derive(Drop)]
pub struct Classes<A: Allocator = Global> {
    parents: Vec<usize, A>,
}

impl<A: Allocator> Model for Classes<A> {
    ghost use Rattle.std.specs.Prelude.{ℕ, List};
    ghost use Rattle.part_classes.specs.Forest.{labels_of};

    ghost Value = { List ℕ };

    ghost view = { λ c. labels_of c.parents.items };
}

/// How many classes hold a marked part, and how many hold none.
#[derive(Clone, Copy)]
pub struct Counts {
    pub holding: usize,
    pub bare: usize,
}

impl<A: Allocator> Classes<A> {
    /// As many parts, each in a class of its own.
    pub fn new(alloc: A, count: usize) -> Result<Classes<A>, AllocError>
        ensures labels { IfOk result (λ c. c ≡ numbers 0 count) }
        ensures size { IfOk result (λ c. length c ≡ count) }
    {
        let mut parents = Vec::with_capacity(alloc, count)?;
        for part in 0..count {
            parents.push(part)?;
        }
        Ok(Classes { parents })
    }

    /// How many parts there are.
    pub fn len(&self) -> usize
        ensures { result ≡ length self.now }
    {
        self.parents.len()
    }

    /// Joins the classes of two parts.
    pub fn join(&mut self, a: usize, b: usize)
        requires first { a < length self.old }
        requires second { b < length self.old }
        ensures labels { self.new ≡ joined (a, b) self.old }
        ensures size { length self.new ≡ length self.old }
    {
        forest::join(&mut self.parents, a, b);
    }
}

impl<A: Allocator + Copy> Classes<A> {
    /// How many classes hold a part that `marks` marks, and how many hold none.
    pub fn counts(&mut self, marks: &[bool]) -> Result<Counts, AllocError>
        requires { length marks.now ≡ length self.old }
        ensures holding { IfOk result (λ c. c.holding ≡ holding marks.now self.old) }
        ensures bare { IfOk result (λ c. c.bare ≡ bare marks.now self.old) }
        ensures same { self.new ≡ self.old }
    {
        let mut held = Vec::from_elem(*self.parents.allocator(), false, marks.len())?;
        forest::settle(&mut self.parents);
        let classes = forest::count_classes(&self.parents);
        let holding = forest::count_holding(&self.parents, marks, &mut held);
        Ok(Counts {
            holding,
            bare: classes - holding,
        })
    }
}
