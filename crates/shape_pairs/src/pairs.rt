//! The pairs of a list that meet.

ghost use Rattle.std.specs.Prelude.{IfOk};
ghost use Rattle.shape_pairs.specs.Pairs.{LeadsOverMeetingPairs};

use crate::bins::Bins;
use crate::direct::for_pairs_directly;
use crate::grid::Grid;
use crate::runs::for_pairs_in_bins;
use design_model::geometry::Rect;
use std::alloc::{AllocError, Allocator};

/// Up to how many rectangles are compared pair by pair.
const FEW: usize = 64;

/// A rectangle with a number of the caller's.
#[derive(Clone, Copy)]
pub struct Numbered {
    pub rect: Rect,
    pub id: usize,
}

/// Folds `f` over the pairs of rectangles that meet, bin by bin of a grid.
fn for_pairs_by_bins<B: Drop, A: Allocator + Copy, F: Fn(B, usize, usize) -> B>(
    alloc: A,
    items: &[Numbered],
    acc: B,
    f: &F,
) -> Result<B, AllocError>
    requires { F.IsAlwaysCallable f.now }
    ensures { IfOk result (LeadsOverMeetingPairs (F.post f.now) items.now acc) }
{
    let grid = Grid::over(items);
    let bins = Bins::of(alloc, &grid, items)?;
    Ok(for_pairs_in_bins(&grid, items, &bins, acc, f))
}

/// Folds `f` over the pairs of rectangles that meet, each pair once, in an order that is left open. Within a pair the rectangle
/// that stands earlier in the list comes first. Want of memory gives an error.
pub fn for_meeting_pairs<B: Drop, A: Allocator + Copy, F: Fn(B, usize, usize) -> B>(
    alloc: A,
    items: &[Numbered],
    acc: B,
    f: F,
) -> Result<B, AllocError>
    requires { F.IsAlwaysCallable f }
    ensures { IfOk result (LeadsOverMeetingPairs (F.post f) items.now acc) }
{
    if items.len() <= FEW {
        return Ok(for_pairs_directly(items, acc, &f));
    }
    for_pairs_by_bins(alloc, items, acc, &f)
}
