//! Rows of sites that are kept, for look-ups by their lower edges.

use crate::copying::{CopyOf, copies_of};
use crate::kept_row::KeptRow;
use crate::placed_row::PlacedRow;
use crate::row_index::RowIndex;
use design_model::sequence::Bytes;
use std::alloc::{AllocError, Allocator};
use std::marker::Model;

/// The rows of an index, in its order.
#[derive(Drop)]
pub(crate) struct KeptRows<A: Allocator> {
    rows: Vec<KeptRow<A>, A>,
}

impl<A: Allocator> Model for KeptRows<A> {
    ghost use Rattle.std.specs.Prelude.{IsSortedByKey, List, map};
    ghost use Rattle.std.specs.Ordering.{int_cmp};
    ghost use Rattle.design_rules.specs.Surroundings.{PlacedRow};
    ghost use Rattle.place_checks.specs.KeptViews.{kept_row_view};
    ghost use Rattle.place_checks.specs.KeptOrders.{edge_in};

    ghost Value = { List PlacedRow };

    ghost view = { λ k. map kept_row_view k.rows.items };

    ghost invariant = { λ k. IsSortedByKey edge_in int_cmp (map kept_row_view k.rows.items) };
}

impl<'a, 't, A: Allocator + Copy> CopyOf<'a, PlacedRow<'t>, A> for KeptRow<A> {
    ghost use Rattle.design_rules.specs.Surroundings.{PlacedRow};
    ghost use Rattle.place_checks.specs.KeptViews.{kept_row_view};
    ghost use Rattle.place_checks.specs.PlaceViews.{placed_row_view};

    ghost Value = { PlacedRow };

    ghost copied = { kept_row_view };

    ghost seen = { placed_row_view };

    fn copy_of(alloc: A, from: &'a PlacedRow<'t>) -> Result<KeptRow<A>, AllocError> {
        let site = or_error!(Bytes::from_slice(alloc, from.site));
        Ok(KeptRow {
            site,
            orient: from.orient,
            sites: from.sites,
        })
    }
}

impl<'a, A: Allocator + Copy> CopyOf<'a, KeptRow<A>, A> for PlacedRow<'a> {
    ghost use Rattle.design_rules.specs.Surroundings.{PlacedRow};
    ghost use Rattle.place_checks.specs.KeptViews.{kept_row_view};
    ghost use Rattle.place_checks.specs.PlaceViews.{placed_row_view};

    ghost Value = { PlacedRow };

    ghost copied = { placed_row_view };

    ghost seen = { kept_row_view };

    fn copy_of(_alloc: A, from: &'a KeptRow<A>) -> Result<PlacedRow<'a>, AllocError> {
        Ok(PlacedRow {
            site: from.site.as_slice(),
            orient: from.orient,
            sites: from.sites,
        })
    }
}

impl<A: Allocator + Copy> KeptRows<A> {
    ghost use Rattle.std.specs.Prelude.{◌≡◌, IfOk};
    ghost use Rattle.place_checks.specs.IndexViews.{rows_view};

    /// Copies of the rows of an index.
    pub(crate) fn of(alloc: A, index: &RowIndex<'_, A>) -> Result<KeptRows<A>, AllocError>
        ensures { IfOk result (λ k. k ≡ rows_view index.now) }
    {
        let rows = or_error!(copies_of(alloc, &index.rows));
        Ok(KeptRows { rows })
    }

    /// An index of the rows, with their names lent. Nothing is sorted.
    pub(crate) fn lent<'a>(&'a self, alloc: A) -> Result<RowIndex<'a, A>, AllocError>
        ensures { IfOk result (λ index. rows_view index ≡ self.entry.now) }
    {
        let rows = or_error!(copies_of(alloc, &self.rows));
        Ok(RowIndex::in_order(rows))
    }
}
