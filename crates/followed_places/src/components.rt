//! The components among numbered statements.

ghost use Rattle.std.specs.Prelude.{◌≡◌, ◌<◌, ◌≤◌, ◌++◌, IfOk, IsTrue, OnOk, map};
ghost use Rattle.design_model.specs.declared.identifier.StmtId.{StmtId as Number};
ghost use Rattle.def_grammar.specs.Records.{Record};
ghost use Rattle.design_tables.specs.TableViews.{numbered_view};
ghost use Rattle.statement_boxes.specs.Boxes.{box_view};
ghost use Rattle.line_laws.specs.Lines.{SameThings};
ghost use Rattle.followed_places.specs.Placed.{placed_view};
ghost use Rattle.followed_places.specs.Places.{components_under, place_under};

use cell_library::library::Library;
use design_model::identifier::StmtId;
use design_tables::Numbered;
use place_checks::boxes::box_of;
use place_checks::last_macros::LastMacros;
use place_checks::placed_box::PlacedBox;
use statement_boxes::{StatementBox, StatementBoxes};
use std::alloc::{AllocError, Allocator};

/// A component that takes part, and the number of its statement.
#[derive(Clone, Copy)]
pub(crate) struct Placed<'t> {
    pub(crate) id: StmtId,
    pub(crate) component: PlacedBox<'t>,
}

impl<'t> Placed<'t> {
    /// Its box.
    pub(crate) fn place(&self) -> StatementBox
        ensures { box_view result ≡ place_under (placed_view self.now) }
    {
        StatementBox {
            id: self.id,
            rect: self.component.rect,
        }
    }
}

/// The components among statements that take part, in their order.
pub(crate) fn components_of<'t, A: Allocator + Copy>(
    alloc: A,
    library: &'t Library<'_, A>,
    scale: u32,
    statements: &[Numbered<'t>],
) -> Result<Vec<Placed<'t>, A>, AllocError>
    requires some { 0 < scale }
    requires few { scale ≤ 100000 }
    ensures { IfOk result (λ v. map placed_view v.items ≡ components_under library.entry.now scale (map numbered_view statements.now)) }
{
    let mut macros = LastMacros::new(library, scale);
    let mut components = Vec::new(alloc);
    for numbered in statements {
        let Some(component) = box_of(&mut macros, &numbered.statement) else {
            continue;
        };
        let id = numbered.id;
        components.push(Placed { id, component })?;
    }
    Ok(components)
}

/// The boxes of the components among statements that take part, in their order.
fn places_of<'t, A: Allocator + Copy>(
    alloc: A,
    library: &'t Library<'_, A>,
    scale: u32,
    statements: &[Numbered<'t>],
) -> Result<Vec<StatementBox, A>, AllocError>
    requires some { 0 < scale }
    requires few { scale ≤ 100000 }
    ensures { IfOk result (λ v. map box_view v.items ≡ map place_under (components_under library.now scale (map numbered_view statements.now))) }
{
    let mut macros = LastMacros::new(library, scale);
    let mut places = Vec::new(alloc);
    for numbered in statements {
        let Some(component) = box_of(&mut macros, &numbered.statement) else {
            continue;
        };
        let id = numbered.id;
        let rect = component.rect;
        places.push(StatementBox { id, rect })?;
    }
    Ok(places)
}

/// The same, over tiles.
pub(crate) fn boxes_of<'t, A: Allocator + Copy>(
    alloc: A,
    library: &'t Library<'_, A>,
    scale: u32,
    statements: &[Numbered<'t>],
) -> Result<StatementBoxes<A>, AllocError>
    requires some { 0 < scale }
    requires few { scale ≤ 100000 }
    ensures { IfOk result (λ boxes. SameThings boxes (map place_under (components_under library.now scale (map numbered_view statements.now)))) }
{
    let places = places_of(alloc, library, scale, statements)?;
    StatementBoxes::of(alloc, &places)
}

/// Takes the boxes of components out, and says whether all of them were there.
pub(crate) fn remove_all<A: Allocator + Copy>(
    boxes: &mut StatementBoxes<A>,
    components: &[Placed<'_>],
) -> bool
    ensures { IsTrue result → SameThings boxes.old (map (λ p. place_under (placed_view p)) components.now ++ boxes.new) }
{
    for placed in components {
        if !boxes.remove(placed.place()) {
            return false;
        }
    }
    true
}

/// Puts the boxes of components in.
pub(crate) fn insert_all<A: Allocator + Copy>(
    boxes: &mut StatementBoxes<A>,
    components: &[Placed<'_>],
) -> Result<(), AllocError>
    ensures { OnOk result (SameThings boxes.new (map (λ p. place_under (placed_view p)) components.now ++ boxes.old)) }
{
    for placed in components {
        boxes.insert(placed.place())?;
    }
    Ok(())
}
