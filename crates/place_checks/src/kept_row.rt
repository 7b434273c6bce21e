//! A row of sites with a name of its own.

ghost use Rattle.place_kernels.specs.Views.{IsNearRow, site_row_of};

use design_model::geometry::Orient;
use design_model::sequence::Bytes;
use place_kernels::sites::SiteRow;
use std::alloc::Allocator;

/// A row as in `PlacedRow`, whose name is its own.
#[derive(Drop)]
pub(crate) struct KeptRow<A: Allocator> {
    pub(crate) site: Bytes<A>,
    pub(crate) orient: Orient,
    pub(crate) sites: SiteRow,
    pub(crate) ghost near: { IsNearRow (site_row_of sites) },
}
