//! The rectangles of an entry of BLOCKAGES (LEF/DEF 5.8 Language Reference, "Blockages").

ghost use Rattle.std.specs.Prelude.{◌≡◌, ◌++◌, ◌∷◌, [], OnOk, map};
ghost use Rattle.std.specs.List.{filter_map, list_any};
ghost use Rattle.design_model.specs.Views.{rectangle_of};
ghost use Rattle.place_parts.specs.BlockageViews.{blockage_clause_view, blockage_clauses_of, blockage_shape_view, blockage_shapes_of, blockage_view};
ghost use Rattle.entry_rules.specs.Blocked.{blocked_rectangles, is_spared, is_sparing, rectangle_of_shape};

use crate::corners::corner_rectangle;
use crate::pushing::put_behind;
use design_model::geometry::Rect;
use lefdef_tokens::is_word;
use place_parts::blockages::{BlockageClause, BlockageParts, BlockageShape};
use statement_reader::parts::Parts;
use std::alloc::{AllocError, Allocator};

/// Whether an entry with this clause gives no line.
fn is_sparing(clause: BlockageClause<'_>) -> bool
    ensures { result ≡ is_sparing (blockage_clause_view clause.entry) }
{
    let word = clause.kept.keyword.bytes;
    is_word(word, b"SOFT")
        || is_word(word, b"PARTIAL")
        || is_word(word, b"SLOTS")
        || is_word(word, b"FILLS")
        || is_word(word, b"COMPONENT")
}

/// Whether one of these clauses is such a one.
fn has_sparing<'t>(clauses: Parts<'t, BlockageClause<'t>>) -> bool
    ensures { result ≡ list_any is_sparing (blockage_clauses_of clauses.entry) }
{
    let mut left = clauses;
    while let Some(clause) = left.next() {
        if is_sparing(clause) {
            return true;
        }
    }
    false
}

/// Whether an entry gives no line.
pub fn is_spared(blockage: &BlockageParts<'_>) -> bool
    ensures { result ≡ is_spared (blockage_view blockage.now) }
{
    has_sparing(blockage.clauses.again())
}

/// Adds the rectangle that a shape is.
fn push_shape<A: Allocator>(
    shape: &BlockageShape<'_>,
    found: &mut Vec<Rect, A>,
) -> Result<(), AllocError>
    ensures { OnOk result (map rectangle_of found.new.items ≡ map rectangle_of found.old.items ++ filter_map rectangle_of_shape (blockage_shape_view shape.now ∷ [])) }
{
    match shape {
        BlockageShape::Rectangle(corners) => put_behind(corner_rectangle(corners), found),
        _ => Ok(()),
    }
}

/// Adds the rectangles among shapes.
fn push_shapes<'t, A: Allocator>(
    shapes: Parts<'t, BlockageShape<'t>>,
    found: &mut Vec<Rect, A>,
) -> Result<(), AllocError>
    ensures { OnOk result (map rectangle_of found.new.items ≡ map rectangle_of found.old.items ++ filter_map rectangle_of_shape (blockage_shapes_of shapes.entry)) }
{
    let mut left = shapes;
    while let Some(shape) = left.next() {
        or_error!(push_shape(&shape, found));
    }
    Ok(())
}

/// Adds the rectangles of an entry, whatever it blocks, in the order of the text.
pub fn push_rectangles<A: Allocator>(
    blockage: &BlockageParts<'_>,
    found: &mut Vec<Rect, A>,
) -> Result<(), AllocError>
    ensures { OnOk result (map rectangle_of found.new.items ≡ map rectangle_of found.old.items ++ blocked_rectangles (blockage_view blockage.now)) }
{
    or_error!(push_shape(&blockage.first, found));
    push_shapes(blockage.others.again(), found)
}
