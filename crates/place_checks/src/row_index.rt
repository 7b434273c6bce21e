//! Rows by their lower edges.

ghost use Rattle.std.specs.Prelude.{◌≡◌, IsSortedByKey};
ghost use Rattle.std.specs.Ordering.{int_cmp, int_eq};
ghost use Rattle.place_checks.specs.RowEdges.{edge_of};

use crate::placed_row::PlacedRow;
use crate::sought::{Sought, all_equal};
use std::alloc::{Allocator, Global};
use std::cmp::Ordering;

/// The edge by which rows are looked up that have no line of sites, or several.
pub(crate) const NO_EDGE: i64 = i64::MAX;

/// Rows in the order of the edges by which they are looked up.
#[derive(Drop)]
pub struct RowIndex<'t, A: Allocator = Global> {
    pub(crate) rows: Vec<PlacedRow<'t>, A>,
    ghost sorted: { IsSortedByKey edge_of int_cmp rows.items },
}

/// The edge by which a row is looked up: the lower one of its sites, where they stand in one line.
fn edge_of(row: &PlacedRow<'_>) -> i64
    ensures { result ≡ edge_of row.now }
{
    if row.sites.rows == 1 {
        row.sites.origin.y
    } else {
        NO_EDGE
    }
}

/// An edge by which rows are looked up.
#[derive(Clone, Copy)]
struct Edge {
    edge: i64,
}

impl<'t> Sought<PlacedRow<'t>> for Edge {
    ghost use Rattle.std.specs.Ordering.{int_cmp};
    ghost use Rattle.place_checks.specs.RowEdges.{edge_of};

    ghost rank = { λ e row. int_cmp (edge_of row) e.edge };

    fn rank(&self, row: &PlacedRow<'t>) -> Ordering {
        edge_of(row).cmp(&self.edge)
    }
}

impl<'t, A: Allocator> RowIndex<'t, A> {
    ghost use Rattle.std.specs.Prelude.{filter, map, IsPermutation};
    ghost use Rattle.place_checks.specs.PlaceViews.{placed_row_view};
    ghost use Rattle.place_checks.specs.IndexViews.{rows_view};

    /// An index of these rows. It takes no memory.
    pub fn new(rows: Vec<PlacedRow<'t>, A>) -> RowIndex<'t, A>
        ensures { IsPermutation (map placed_row_view rows.entry.items) (rows_view result) }
    {
        let mut rows = rows;
        rows.sort_unstable_by_key(edge_of);
        RowIndex { rows }
    }

    /// An index of these rows, which are those of one, in its order. It takes no memory.
    pub(crate) fn in_order(rows: Vec<PlacedRow<'t>, A>) -> RowIndex<'t, A>
        requires { IsSortedByKey edge_of int_cmp rows.items }
        ensures { rows_view result ≡ map placed_row_view rows.entry.items }
    {
        RowIndex { rows }
    }

    /// The rows that are looked up by an edge.
    pub(crate) fn at_edge(&self, edge: i64) -> &[PlacedRow<'t>]
        ensures { result.now ≡ filter (λ row. int_eq (edge_of row) edge) self.now.rows.items }
    {
        all_equal(&self.rows, &Edge { edge })
    }

    /// The rows that are looked up by an edge, by the rows of the edge that was looked up last.
    pub(crate) fn at_next_edge<'b>(
        &'b self,
        last_edge: i64,
        last: &'b [PlacedRow<'t>],
        edge: i64,
    ) -> &'b [PlacedRow<'t>]
        requires { last.now ≡ filter (λ row. int_eq (edge_of row) last_edge) self.now.rows.items }
        ensures { result.now ≡ filter (λ row. int_eq (edge_of row) edge) self.now.rows.items }
    {
        if edge == last_edge {
            return last;
        }
        self.at_edge(edge)
    }
}
