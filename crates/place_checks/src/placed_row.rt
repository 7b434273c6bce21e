//! A row of sites.

ghost use Rattle.place_kernels.specs.Views.{IsNearRow, site_row_of};

use design_model::geometry::Orient;
use place_kernels::sites::SiteRow;

/// A row: the name of its site, how it is turned, and its sites as they then stand, in database units.
#[derive(Clone, Copy)]
pub struct PlacedRow<'t> {
    pub site: &'t [u8],
    pub orient: Orient,
    pub sites: SiteRow,
    pub ghost near: { IsNearRow (site_row_of sites) },
}
