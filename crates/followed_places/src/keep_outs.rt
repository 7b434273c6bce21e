//! Rectangles that keep components out, each under the number of its statement, of which some go and others come (LEF/DEF 5.8 Language
//! Reference, "Blockages").

ghost use Rattle.std.specs.Prelude.{◌≡◌, ◌++◌, IfOk, IsTrue, OnOk, map};
ghost use Rattle.design_model.specs.Views.{rectangle_of};
ghost use Rattle.design_tables.specs.TableViews.{numbered_view};
ghost use Rattle.line_laws.specs.Lines.{SameThings};
ghost use Rattle.statement_boxes.specs.Boxes.{box_view};
ghost use Rattle.followed_places.specs.Places.{keep_outs_under};

use design_model::geometry::Rect;
use design_model::identifier::StmtId;
use design_tables::Numbered;
use place_checks::keep_outs::keep_outs_of;
use statement_boxes::{StatementBox, StatementBoxes};
use std::alloc::{AllocError, Allocator};
use std::slice;

/// Puts rectangles under the number of one statement behind others.
fn push_under<A: Allocator>(
    id: StmtId,
    rects: &[Rect],
    boxes: &mut Vec<StatementBox, A>,
) -> Result<(), AllocError>
    ensures { OnOk result (map box_view boxes.new.items ≡ map box_view boxes.old.items ++ map (λ r. (id, r)) (map rectangle_of rects.now)) }
{
    for rect in rects {
        boxes.push(StatementBox { id, rect: *rect })?;
    }
    Ok(())
}

/// The rectangles where statements keep components out, in their order.
pub(crate) fn keep_outs_among<A: Allocator + Copy>(
    alloc: A,
    statements: &[Numbered<'_>],
) -> Result<Vec<StatementBox, A>, AllocError>
    ensures { IfOk result (λ v. map box_view v.items ≡ keep_outs_under (map numbered_view statements.now)) }
{
    let mut boxes = Vec::new(alloc);
    for numbered in statements {
        let rects = keep_outs_of(alloc, slice::from_ref(&numbered.statement))?;
        push_under(numbered.id, &rects, &mut boxes)?;
    }
    Ok(boxes)
}

/// Takes rectangles out, each once, and says whether all of them were there.
fn take_all<A: Allocator + Copy>(keep_outs: &mut StatementBoxes<A>, went: &[StatementBox]) -> bool
    ensures { IsTrue result → SameThings keep_outs.old (map box_view went.now ++ keep_outs.new) }
{
    for gone in went {
        if !keep_outs.remove(*gone) {
            return false;
        }
    }
    true
}

/// Puts rectangles in.
fn put_all<A: Allocator + Copy>(
    keep_outs: &mut StatementBoxes<A>,
    came: &[StatementBox],
) -> Result<(), AllocError>
    ensures { OnOk result (SameThings keep_outs.new (map box_view came.now ++ keep_outs.old)) }
{
    for put in came {
        keep_outs.insert(*put)?;
    }
    Ok(())
}

/// Takes the rectangles that went out, each once, and puts those that came in; says whether all that went were there.
pub(crate) fn exchange_keep_outs<A: Allocator + Copy>(
    keep_outs: &mut StatementBoxes<A>,
    went: &[StatementBox],
    came: &[StatementBox],
) -> Result<bool, AllocError>
    ensures { IfOk result (λ there. IsTrue there
        → SameThings (keep_outs.old ++ map box_view came.now) (map box_view went.now ++ keep_outs.new)) }
{
    if !take_all(keep_outs, went) {
        return Ok(false);
    }
    put_all(keep_outs, came)?;
    Ok(true)
}
