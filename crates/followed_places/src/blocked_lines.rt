//! The lines on components that lie on rectangles which keep them out.

ghost use Rattle.std.specs.Prelude.{◌≡◌, ◌<◌, ◌≤◌, ◌+◌, ◌-◌, ◌^◌, ◌++◌, IfOk, List, map, min};
ghost use Rattle.design_model.specs.declared.identifier.StmtId.{StmtId as Number};
ghost use Rattle.design_model.specs.Families.{cross_lines};
ghost use Rattle.design_rules.specs.PlaceLines.{blocked_of};
ghost use Rattle.line_laws.specs.Lines.{SameLines};
ghost use Rattle.statement_boxes.specs.Boxes.{box_view};
ghost use Rattle.followed_places.specs.Lines.{AreBoxesOf, boxed_under};
ghost use Rattle.followed_places.specs.Tests.{met_sum, near_sum};

use crate::own_lines::met;
use cell_library::library::Library;
use design_text::text::DesignText;
use line_laws::each::crosses_turn;
use place_checks::blocked::put_blockage;
use report_lines::Checked;
use statement_boxes::{StatementBox, StatementBoxes};
use std::alloc::{AllocError, Allocator};

/// A line for each component of a text, whose boxes are kept, and each of some rectangles that it lies on, behind lines that are there; and
/// how many of the boxes were compared with these, with what was counted before. The components alone are read whose boxes meet one of them.
pub(crate) fn blocked_near<'t, A: Allocator + Copy>(
    alloc: A,
    library: &'t Library<'_, A>,
    scale: u32,
    text: &'t DesignText<A>,
    boxes: &StatementBoxes<A>,
    keep_outs: &[StatementBox],
    before: Checked<A>,
) -> Result<Checked<A>, AllocError>
    requires some { 0 < scale }
    requires few { scale ≤ 100000 }
    requires kept { (ids : List Number) × AreBoxesOf library.now scale text.now.pieces.table.slots ids boxes.now }
    ensures lines { (ids : List Number) → AreBoxesOf library.now scale text.now.pieces.table.slots ids boxes.now
        → IfOk result (λ c. SameLines c.lines (before.lines ++ cross_lines blocked_of (boxed_under library.now scale text.now.pieces.table.slots ids) (map (λ b. b.1) (map box_view keep_outs.now)))) }
    ensures tests { IfOk result (λ c. c.tests ≤ before.tests + near_sum boxes.now (map box_view keep_outs.now)) }
    ensures least { IfOk result (λ c. min (before.tests + met_sum boxes.now (map box_view keep_outs.now)) (2 ^ 64 - 1) ≤ c.tests) }
{
    crosses_turn();
    let mut lines = before.lines;
    let mut tests = before.tests;
    for keep_out in keep_outs {
        let found = met(alloc, library, scale, text, boxes, keep_out.rect)?;
        tests = tests.saturating_add(found.compared);
        put_blockage(&found.components, &keep_out.rect, &mut lines)?;
    }
    Ok(Checked { lines, tests })
}
