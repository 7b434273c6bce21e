//! The lines on components among those whose boxes are kept.

ghost use Rattle.std.specs.Prelude.{◌≡◌, ◌<◌, ◌≤◌, ◌-◌, ◌^◌, ◌++◌, [], IfOk, List, OnOk, filter, map, min};
ghost use Rattle.design_model.specs.declared.identifier.StmtId.{StmtId as Number};
ghost use Rattle.design_model.specs.Views.{rectangle_of};
ghost use Rattle.following_laws.specs.DesignLaws.{lines_of_components};
ghost use Rattle.line_laws.specs.Lines.{SameLines, SameThings};
ghost use Rattle.place_checks.specs.IndexViews.{surroundings_view};
ghost use Rattle.place_checks.specs.Views.{boxed_view};
ghost use Rattle.shape_rules.specs.Meeting.{meets};
ghost use Rattle.statement_boxes.specs.Boxes.{met_count, near_count};
ghost use Rattle.followed_places.specs.Lines.{AreBoxesOf, boxed_under};
ghost use Rattle.followed_places.specs.Placed.{component_of, placed_view};
ghost use Rattle.followed_places.specs.Places.{place_under};
ghost use Rattle.followed_places.specs.Tests.{met_sum, near_sum};

use crate::around::Around;
use crate::components::Placed;
use cell_library::library::Library;
use design_model::geometry::Rect;
use design_text::text::DesignText;
use place_checks::boxes::boxes_among;
use place_checks::one::put_own_lines;
use place_checks::placed_box::PlacedBox;
use report_lines::{Checked, Lines};
use statement_boxes::StatementBoxes;
use std::alloc::{AllocError, Allocator};

/// The components whose boxes meet a rectangle.
#[derive(Drop)]
pub(crate) struct MetComponents<'t, A: Allocator> {
    pub(crate) components: Vec<PlacedBox<'t>, A>,
    /// How many boxes were compared.
    pub(crate) compared: u64,
}

/// The components of a text whose boxes meet a rectangle. They alone are read.
pub(crate) fn met<'t, A: Allocator + Copy>(
    alloc: A,
    library: &'t Library<'_, A>,
    scale: u32,
    text: &'t DesignText<A>,
    boxes: &StatementBoxes<A>,
    rect: Rect,
) -> Result<MetComponents<'t, A>, AllocError>
    requires some { 0 < scale }
    requires few { scale ≤ 100000 }
    requires kept { (ids : List Number) × AreBoxesOf library.now scale text.now.pieces.table.slots ids boxes.now }
    ensures components { (ids : List Number) → AreBoxesOf library.now scale text.now.pieces.table.slots ids boxes.now
        → IfOk result (λ m. SameThings (map boxed_view m.components.items) (filter (λ b. meets b.box (rectangle_of rect)) (boxed_under library.entry.now scale text.entry.now.pieces.table.slots ids))) }
    ensures compared { IfOk result (λ m. m.compared ≤ near_count (rectangle_of rect) boxes.now) }
    ensures least { IfOk result (λ m. met_count (rectangle_of rect) boxes.now ≤ m.compared) }
{
    let found = boxes.met(alloc, rect)?;
    let statements = text.kept(alloc, &found.ids)?;
    let components = boxes_among(alloc, library, scale, &statements)?;
    let compared = found.compared;
    Ok(MetComponents {
        components,
        compared,
    })
}

/// Puts components behind others.
fn push_components<'t, A: Allocator>(
    boxes: &mut Vec<PlacedBox<'t>, A>,
    components: &[Placed<'t>],
) -> Result<(), AllocError>
    ensures { OnOk result (map boxed_view boxes.new.items ≡ map boxed_view boxes.old.items ++ map component_of components.now) }
{
    for placed in components {
        boxes.push(placed.component)?;
    }
    Ok(())
}

/// No lines, for which nothing was compared.
pub(crate) fn nothing<A: Allocator + Copy>(alloc: A) -> Checked<A>
    ensures lines { result.lines ≡ [] }
    ensures tests { result.tests ≡ 0 }
{
    let lines = Lines::new(alloc);
    Checked { lines, tests: 0 }
}

/// The lines on components: with one another, with those whose boxes are kept, in what stands round them, and on the rectangles that keep
/// them out; and how many of the boxes and rectangles that are kept were compared with theirs.
pub(crate) fn lines_of<'t, A: Allocator + Copy>(
    alloc: A,
    library: &'t Library<'_, A>,
    text: &'t DesignText<A>,
    around: &Around<'t, A>,
    boxes: &StatementBoxes<A>,
    keep_outs: &StatementBoxes<A>,
    components: &[Placed<'t>],
) -> Result<Checked<A>, AllocError>
    requires some { 0 < around.now.scale }
    requires few { around.now.scale ≤ 100000 }
    requires kept { (ids : List Number) × AreBoxesOf library.now around.now.scale text.now.pieces.table.slots ids boxes.now }
    ensures lines { (ids : List Number) → AreBoxesOf library.now around.now.scale text.now.pieces.table.slots ids boxes.now
        → IfOk result (λ c. SameLines c.lines (lines_of_components (surroundings_view around.now.surroundings) (map component_of components.now) (boxed_under library.now around.now.scale text.now.pieces.table.slots ids) (map (λ b. b.1) keep_outs.now) [])) }
    ensures tests { IfOk result (λ c. c.tests ≤ near_sum (boxes.now ++ keep_outs.now) (map place_under (map placed_view components.now))) }
    ensures least { IfOk result (λ c. min (met_sum (boxes.now ++ keep_outs.now) (map place_under (map placed_view components.now))) (2 ^ 64 - 1) ≤ c.tests) }
{
    let scale = around.scale;
    let mut lines = Lines::new(alloc);
    let mut tests = 0_u64;
    for (place, one) in components.iter().enumerate() {
        let rect = one.component.rect;
        let found = met(alloc, library, scale, text, boxes, rect)?;
        let blocking = keep_outs.met_rects(alloc, rect)?;
        tests = tests.saturating_add(found.compared);
        tests = tests.saturating_add(blocking.compared);
        let mut others = found.components;
        push_components(&mut others, &components[place + 1..])?;
        put_own_lines(
            alloc,
            &around.surroundings,
            &one.component,
            &others,
            &blocking.rects,
            &mut lines,
        )?;
    }
    Ok(Checked { lines, tests })
}
