//! Rectangles where placement is blocked (LEF/DEF 5.8 Language Reference, "Blockages").

ghost use Rattle.std.specs.Prelude.{◌≡◌, ◌++◌, IfOk, OnOk, map};
ghost use Rattle.design_model.specs.Views.{rectangle_of};
ghost use Rattle.place_parts.specs.BlockageViews.{blockage_view};
ghost use Rattle.design_rules.specs.Surroundings.{keep_outs, kept_out};
ghost use Rattle.def_reader.specs.StatementViews.{records_view};

use crate::blocked_shapes::{is_spared, push_rectangles};
use def_reader::entry::Entry;
use def_reader::statement::Statement;
use design_model::geometry::Rect;
use place_parts::blockages::{BlockageEntry, BlockageKind, BlockageParts};
use std::alloc::{AllocError, Allocator};

/// Adds the rectangles where a blockage keeps components out.
fn push_kept_out<A: Allocator>(
    blockage: &BlockageParts<'_>,
    found: &mut Vec<Rect, A>,
) -> Result<(), AllocError>
    ensures { OnOk result (map rectangle_of found.new.items ≡ map rectangle_of found.old.items ++ kept_out (blockage_view blockage.now)) }
{
    match blockage.kind {
        BlockageKind::Placement if !is_spared(blockage) => push_rectangles(blockage, found),
        BlockageKind::Placement | BlockageKind::Layer(_) => Ok(()),
    }
}

/// The rectangles where components are kept out, in the order of the text.
pub fn keep_outs_of<A: Allocator + Copy>(
    alloc: A,
    records: &[Statement<'_>],
) -> Result<Vec<Rect, A>, AllocError>
    ensures { IfOk result (λ v. map rectangle_of v.items ≡ keep_outs (records_view records.now)) }
{
    let mut found = Vec::new(alloc);
    for statement in records {
        let Statement::Entry(Entry::Blockage(blockage)) = statement else {
            continue;
        };
        if let BlockageEntry::Blocks(blockage) = blockage.parts() {
            or_error!(push_kept_out(&blockage, &mut found));
        }
    }
    Ok(found)
}
