//! The names that a change of statements has to do with, with what stands under them after it.

ghost use Rattle.std.specs.Prelude.{◌≡◌, ◌∷◌, ◌++◌, [], ℕ, List, IfOk, OnOk, flat_map, map};
ghost use Rattle.design_model.specs.declared.identifier.StmtId.{StmtId as TheStmtId};
ghost use Rattle.design_tables.specs.Changes.{IsEdited, has_number, is_gone};
ghost use Rattle.design_tables.specs.Listings.{marks_in};
ghost use Rattle.design_tables.specs.TableViews.{numbered_view};
ghost use Rattle.design_tables.specs.declared.role.Mark.{Mark as TheMark};

use crate::marks::{NameMark, marks_of};
use crate::names::{Ids, NameTable};
use crate::role::{Mark, Role};
use crate::tables::Numbered;
use design_model::identifier::StmtId;
use indexmap::IndexSet;
use std::alloc::{AllocError, Allocator};
use std::hash::BuildHasherDefault;

/// The numbers of statements.
fn ids_of<A: Allocator + Copy>(alloc: A, statements: &[Numbered<'_>]) -> Result<Ids<A>, AllocError>
    ensures { IfOk result (λ ids. (id : TheStmtId) → is_gone ids.keys id ≡ has_number (map numbered_view statements.now) id) }
{
    let mut ids = IndexSet::with_hasher(alloc, BuildHasherDefault::new());
    for statement in statements {
        ids.insert(statement.id.0)?;
    }
    Ok(ids)
}

impl<A: Allocator + Copy> NameTable<A> {
    /// Takes out a mark of a statement that goes out: what stood under its name was copied without it, and members are counted.
    fn take_mark(
        &mut self,
        from: &NameTable<A>,
        gone: &Ids<A>,
        mark: &NameMark<'_>,
    ) -> Result<(), AllocError>
        ensures { (outs : List (List ℕ × TheMark)) (id : TheStmtId) → IsEdited (is_gone gone.now.keys) from.now outs [] self.old → OnOk result (IsEdited (is_gone gone.now.keys) from.now (outs ++ (mark.now.name.now, record { role = mark.now.role; id = id }) ∷ []) [] self.new) }
    {
        self.copy(from, gone, mark.name)?;
        if mark.role.is(Role::Member) {
            self.uncount(mark.name);
        }
        Ok(())
    }

    /// Puts a mark under its name, where what stood there was copied first.
    fn put_mark(
        &mut self,
        from: &NameTable<A>,
        gone: &Ids<A>,
        mark: &NameMark<'_>,
        id: StmtId,
    ) -> Result<(), AllocError>
        ensures { (outs puts : List (List ℕ × TheMark)) → IsEdited (is_gone gone.now.keys) from.now outs puts self.old → OnOk result (IsEdited (is_gone gone.now.keys) from.now outs (puts ++ (mark.now.name.now, record { role = mark.now.role; id = id }) ∷ []) self.new) }
    {
        self.copy(from, gone, mark.name)?;
        let role = mark.role;
        self.put(mark.name, Mark::new(role, id)?)?;
        Ok(())
    }

    /// Takes out the marks of a statement that goes out.
    fn take_out(
        &mut self,
        from: &NameTable<A>,
        gone: &Ids<A>,
        statement: &Numbered<'_>,
    ) -> Result<(), AllocError>
        ensures { (outs : List (List ℕ × TheMark)) → IsEdited (is_gone gone.now.keys) from.now outs [] self.old → OnOk result (IsEdited (is_gone gone.now.keys) from.now (outs ++ marks_in (numbered_view statement.now)) [] self.new) }
    {
        let marks = marks_of(self.allocator(), &statement.statement)?;
        for mark in marks.as_slice() {
            self.take_mark(from, gone, mark)?;
        }
        Ok(())
    }

    /// Puts the marks of a statement that is put in.
    fn put_in(
        &mut self,
        from: &NameTable<A>,
        gone: &Ids<A>,
        statement: &Numbered<'_>,
    ) -> Result<(), AllocError>
        ensures { (outs puts : List (List ℕ × TheMark)) → IsEdited (is_gone gone.now.keys) from.now outs puts self.old → OnOk result (IsEdited (is_gone gone.now.keys) from.now outs (puts ++ marks_in (numbered_view statement.now)) self.new) }
    {
        let marks = marks_of(self.allocator(), &statement.statement)?;
        for mark in marks.as_slice() {
            self.put_mark(from, gone, mark, statement.id)?;
        }
        Ok(())
    }

    /// Takes out the marks of all statements that go out.
    fn take_all(
        &mut self,
        from: &NameTable<A>,
        gone: &Ids<A>,
        out: &[Numbered<'_>],
    ) -> Result<(), AllocError>
        ensures { IsEdited (is_gone gone.now.keys) from.now [] [] self.old → OnOk result (IsEdited (is_gone gone.now.keys) from.now (flat_map marks_in (map numbered_view out.now)) [] self.new) }
    {
        for statement in out {
            self.take_out(from, gone, statement)?;
        }
        Ok(())
    }

    /// Puts the marks of all statements that are put in.
    fn put_all(
        &mut self,
        from: &NameTable<A>,
        gone: &Ids<A>,
        put: &[Numbered<'_>],
    ) -> Result<(), AllocError>
        ensures { (outs : List (List ℕ × TheMark)) → IsEdited (is_gone gone.now.keys) from.now outs [] self.old → OnOk result (IsEdited (is_gone gone.now.keys) from.now outs (flat_map marks_in (map numbered_view put.now)) self.new) }
    {
        for statement in put {
            self.put_in(from, gone, statement)?;
        }
        Ok(())
    }
}

/// What a table has under each name that these statements have to do with, once some are taken out of it and others put in.
pub(crate) fn edited<A: Allocator + Copy>(
    from: &NameTable<A>,
    out: &[Numbered<'_>],
    put: &[Numbered<'_>],
) -> Result<NameTable<A>, AllocError>
    ensures { IfOk result (λ t. IsEdited (has_number (map numbered_view out.now)) from.now (flat_map marks_in (map numbered_view out.now)) (flat_map marks_in (map numbered_view put.now)) t) }
{
    let alloc = from.allocator();
    let gone = ids_of(alloc, out)?;
    let mut table = NameTable::new(alloc, from.hash_builder());
    table.take_all(from, &gone, out)?;
    table.put_all(from, &gone, put)?;
    Ok(table)
}
