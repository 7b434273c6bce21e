//! What stands round components (LEF/DEF 5.8 Language Reference, "Rows", "Die Area", "Regions", "Groups" and "Blockages").

ghost use Rattle.std.specs.Prelude.{◌≡◌, ◌<◌, ◌≤◌, ◌++◌, IfOk, OnOk, filter, map};
ghost use Rattle.std.specs.List.{list_any};
ghost use Rattle.def_reader.specs.StatementViews.{record_view, records_view};
ghost use Rattle.design_rules.specs.Boxes.{scale};
ghost use Rattle.design_rules.specs.Surroundings.{surroundings};
ghost use Rattle.design_tables.specs.TableViews.{numbered_view};
ghost use Rattle.place_checks.specs.IndexViews.{surroundings_view};
ghost use Rattle.place_checks.specs.SameSurroundings.{HaveSameLines};
ghost use Rattle.staying_laws.specs.PlaceStatements.{is_surrounding, surrounds_or_blocks};

use cell_library::library::Library;
use def_reader::entry::Entry;
use def_reader::statement::Statement;
use design_model::identifier::StmtId;
use design_tables::Numbered;
use place_checks::kept_surroundings::KeptSurroundings;
use place_checks::scale::scale_of;
use place_checks::surroundings::{Surroundings, surroundings_of};
use std::alloc::{AllocError, Allocator};

/// What stands round components, and the database units per micron by which it is measured, kept from one edit to the next.
#[derive(Drop)]
pub(crate) struct KeptAround<A: Allocator> {
    pub(crate) surroundings: KeptSurroundings<A>,
    pub(crate) scale: u32,
}

/// The same, lent for the lines of components.
#[derive(Drop)]
pub(crate) struct Around<'t, A: Allocator> {
    pub(crate) surroundings: Surroundings<'t, A>,
    pub(crate) scale: u32,
}

/// Whether a statement is of what stands round components, or of what all is measured by.
pub(crate) fn is_surrounding(statement: &Statement<'_>) -> bool
    ensures { result ≡ is_surrounding (record_view statement.now) }
{
    match statement {
        Statement::Units(_) | Statement::Floor(_) => true,
        Statement::Entry(entry) => match entry {
            Entry::Region(_) | Entry::Group(_) => true,
            _ => false,
        },
        _ => false,
    }
}

/// Whether a statement is such a one, or a blockage.
fn surrounds_or_blocks(statement: &Statement<'_>) -> bool
    ensures { result ≡ surrounds_or_blocks (record_view statement.now) }
{
    match statement {
        Statement::Entry(Entry::Blockage(_)) => true,
        _ => is_surrounding(statement),
    }
}

/// Whether one of these statements is of what stands round components.
pub(crate) fn is_any_surrounding(statements: &[Numbered<'_>]) -> bool
    ensures { result ≡ list_any (λ x. is_surrounding x.1) (map numbered_view statements.now) }
{
    for numbered in statements {
        if is_surrounding(&numbered.statement) {
            return true;
        }
    }
    false
}

impl<A: Allocator + Copy> KeptAround<A> {
    /// That of these statements.
    pub(crate) fn of(
        alloc: A,
        library: &Library<'_, A>,
        statements: &[Statement<'_>],
    ) -> Result<KeptAround<A>, AllocError>
        requires some { 0 < scale (records_view statements.now) }
        requires few { scale (records_view statements.now) ≤ 100000 }
        ensures surroundings { IfOk result (λ a. HaveSameLines a.surroundings (surroundings library.now (records_view statements.now))) }
        ensures scale { IfOk result (λ a. a.scale ≡ scale (records_view statements.now)) }
    {
        let surroundings = surroundings_of(alloc, library, statements)?;
        Ok(KeptAround {
            surroundings: KeptSurroundings::of(alloc, &surroundings)?,
            scale: scale_of(statements),
        })
    }

    /// It, lent. No statement is read, and nothing is sorted.
    pub(crate) fn lent<'a>(&'a self, alloc: A) -> Result<Around<'a, A>, AllocError>
        ensures surroundings { IfOk result (λ a. surroundings_view a.surroundings ≡ self.entry.now.surroundings) }
        ensures scale { IfOk result (λ a. a.scale ≡ self.entry.now.scale) }
    {
        Ok(Around {
            surroundings: self.surroundings.lent(alloc)?,
            scale: self.scale,
        })
    }
}

/// Puts the numbers of those of these statements that tell what stands round components and what keeps them out behind others, in their order.
pub(crate) fn push_numbers_around<A: Allocator>(
    statements: &[Numbered<'_>],
    numbers: &mut Vec<StmtId, A>,
) -> Result<(), AllocError>
    ensures { OnOk result (numbers.new.items ≡ numbers.old.items ++ map (λ x. x.0) (filter (λ x. surrounds_or_blocks x.1) (map numbered_view statements.now))) }
{
    for numbered in statements {
        if surrounds_or_blocks(&numbered.statement) {
            numbers.push(numbered.id)?;
        }
    }
    Ok(())
}

/// These numbers by themselves.
pub(crate) fn numbers_around<A: Allocator + Copy>(
    alloc: A,
    statements: &[Numbered<'_>],
) -> Result<Vec<StmtId, A>, AllocError>
    ensures { IfOk result (λ v. v.items ≡ map (λ x. x.0) (filter (λ x. surrounds_or_blocks x.1) (map numbered_view statements.now))) }
{
    let mut numbers = Vec::new(alloc);
    push_numbers_around(statements, &mut numbers)?;
    Ok(numbers)
}
