//! Lists of marks, of which most are short.

ghost use Rattle.std.specs.Prelude.{◌≡◌, ◌∷◌, ◌++◌, [], IfOk, OnOk, false, true};
ghost use Rattle.design_tables.specs.MarkLists.{marks_listed};

use crate::role::Mark;
use std::alloc::{AllocError, Allocator};
use std::marker::Model;

/// Up to four marks, one after the other.
#[derive(Drop)]
pub(crate) struct FewMarks {
    len: u8,
    marks: [Mark; 4],
}

impl Model for FewMarks {
    ghost use Rattle.std.specs.Prelude.{◌≤◌, List, take};
    ghost use Rattle.design_tables.specs.declared.role.Mark.{Mark as TheMark};

    ghost Value = { List TheMark };

    ghost view = { λ m. take m.len m.marks };

    ghost invariant = { λ m. m.len ≤ 4 };
}

impl FewMarks {
    /// One mark.
    pub fn one(mark: Mark) -> FewMarks
        ensures { result ≡ mark ∷ [] }
    {
        FewMarks {
            len: 1,
            marks: [mark; 4],
        }
    }

    /// The marks.
    pub fn as_slice(&self) -> &[Mark]
        ensures { result.now ≡ self.now }
    {
        &self.marks[..self.len as usize]
    }

    /// Puts one more mark behind the others where there is room for it, and answers whether there is.
    pub fn push(&mut self, mark: Mark) -> bool
        ensures put { result ≡ true → self.new ≡ self.old ++ mark ∷ [] }
        ensures same { result ≡ false → self.new ≡ self.old }
    {
        if self.len >= 4 {
            return false;
        }
        self.marks[self.len as usize] = mark;
        self.len += 1;
        true
    }
}

/// Marks one after the other. Up to four take no memory of their own.
#[derive(Drop)]
pub(crate) enum MarkList<A: Allocator> {
    Empty,
    Few(FewMarks),
    Several(Vec<Mark, A>),
}

/// Marks with one more behind them.
fn with_one_more<A: Allocator>(
    alloc: A,
    few: &[Mark],
    mark: Mark,
) -> Result<Vec<Mark, A>, AllocError>
    ensures { IfOk result (λ v. v.items ≡ few.now ++ mark ∷ []) }
{
    let mut marks = Vec::with_capacity(alloc, 8)?;
    marks.extend_from_slice(few)?;
    marks.push(mark)?;
    Ok(marks)
}

impl<A: Allocator> MarkList<A> {
    /// The marks.
    pub fn as_slice(&self) -> &[Mark]
        ensures { result.now ≡ marks_listed self.now }
    {
        match self {
            MarkList::Empty => &[],
            MarkList::Few(few) => few.as_slice(),
            MarkList::Several(marks) => marks.as_slice(),
        }
    }

    /// Puts one more mark behind the others.
    pub fn push(&mut self, alloc: A, mark: Mark) -> Result<(), AllocError>
        ensures { OnOk result (marks_listed self.new ≡ marks_listed self.old ++ mark ∷ []) }
    {
        match self {
            MarkList::Empty => *self = MarkList::Few(FewMarks::one(mark)),
            MarkList::Few(few) => {
                if !few.push(mark) {
                    *self = MarkList::Several(with_one_more(alloc, few.as_slice(), mark)?);
                }
            }
            MarkList::Several(marks) => marks.push(mark)?,
        }
        Ok(())
    }
}
