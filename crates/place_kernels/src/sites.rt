//! Rows of sites, and how boxes and orientations stand to them (LEF/DEF 5.8 Language Reference, "Rows").

ghost use Rattle.std.specs.Prelude.{◌≡◌, ◌<◌, ◌*◌, ◌==◌, nat_le, pos, ◌*ℤ◌};
ghost use Rattle.std.specs.Ordering.{int_eq};
ghost use Rattle.std.specs.Int.Signed.{le_z};
ghost use Rattle.std.specs.List.{list_any, range_with_len};
ghost use Rattle.design_model.specs.Geometry.{IsNearRectangle};
ghost use Rattle.design_model.specs.Views.{rectangle_of};
ghost use Rattle.place_rules.specs.Sites.{holds, is_on_sites, is_row_orient, quarter_turns, spans, turned_size};
ghost use Rattle.place_kernels.specs.Views.{IsNearRow, site_row_of};

use design_model::geometry::{Orient, Point, Rect};

/// A row of sites as they stand after they were turned, in database units. A row without DO has one column and one line
/// of sites; one without STEP has the size of its turned site there.
#[derive(Clone, Copy, Debug, PartialEq, Eq)]
pub struct SiteRow {
    /// The lower left corner of the first site.
    pub origin: Point,
    /// How many sites it has in x.
    pub columns: u32,
    /// How many sites it has in y.
    pub rows: u32,
    /// How far apart sites are in x and in y; below 0 they go to the left and down.
    pub step: Point,
    /// The width and the height of a site.
    pub size: Point,
}

/// Whether one of so many steps, counted from 0, ends exactly at a distance.
fn has_step_at(count: u32, step: u64, distance: u64) -> bool
    requires { 0 < step }
    ensures { result ≡ list_any (λ i. (i * step) == distance) (range_with_len 0 count) }
{
    distance % step == 0 && distance / step < count as u64
}

/// Whether one of so many steps, counted from 0, ends at a distance or past it.
fn has_step_past(count: u32, step: u64, distance: u64) -> bool
    requires forward { 0 < step }
    requires some { 0 < distance }
    ensures { result ≡ list_any (λ i. nat_le distance (i * step)) (range_with_len 0 count) }
{
    (distance - 1) / step + 1 < count as u64
}

/// Whether one of so many steps, counted from 0, ends exactly at a distance, either of which may be below 0.
fn lands_on(count: u32, step: i64, distance: i64) -> bool
    ensures { result ≡ list_any (λ i. int_eq (pos i *ℤ step) distance) (range_with_len 0 count) }
{
    if distance == 0 {
        count > 0
    } else if step.signum() != distance.signum() {
        false
    } else {
        has_step_at(count, step.unsigned_abs(), distance.unsigned_abs())
    }
}

/// Whether one of so many steps, counted from 0, ends at a distance or past it, either of which may be below 0.
fn reaches(count: u32, step: i64, distance: i64) -> bool
    ensures { result ≡ list_any (λ i. le_z distance (pos i *ℤ step)) (range_with_len 0 count) }
{
    if distance <= 0 {
        count > 0
    } else if step <= 0 {
        false
    } else {
        has_step_past(count, step.unsigned_abs(), distance.unsigned_abs())
    }
}

/// Whether a box reaches neither left of all sites of a row nor right of all.
fn spans(row: &SiteRow, area: &Rect) -> bool
    requires row { IsNearRow (site_row_of row.now) }
    requires area { IsNearRectangle (rectangle_of area.now) }
    ensures { result ≡ spans (site_row_of row.now) (rectangle_of area.now) }
{
    reaches(row.columns, -row.step.x, row.origin.x - area.x1)
        && reaches(row.columns, row.step.x, area.x2 - row.size.x - row.origin.x)
}

/// Whether a box stands on the lower edge of one of a row's sites, and reaches neither left of all its sites nor right
/// of all. A row without sites holds nothing.
pub fn holds(row: &SiteRow, area: &Rect) -> bool
    requires row { IsNearRow (site_row_of row.now) }
    requires area { IsNearRectangle (rectangle_of area.now) }
    ensures { result ≡ holds (site_row_of row.now) (rectangle_of area.now) }
{
    lands_on(row.rows, row.step.y, area.y1 - row.origin.y) && spans(row, area)
}

/// Whether the left edge of a box is that of one of a row's sites.
pub fn on_sites(row: &SiteRow, area: &Rect) -> bool
    requires row { IsNearRow (site_row_of row.now) }
    requires area { IsNearRectangle (rectangle_of area.now) }
    ensures { result ≡ is_on_sites (site_row_of row.now) (rectangle_of area.now) }
{
    lands_on(row.columns, row.step.x, area.x1 - row.origin.x)
}

/// The width and the height of a site after a turn, which is also how far apart the sites of a row without STEP are.
pub fn turned_site(orient: Orient, size: Point) -> Point
    ensures { result ≡ turned_size orient size }
{
    match orient {
        Orient::N | Orient::S | Orient::FN | Orient::FS => size,
        Orient::W | Orient::E | Orient::FW | Orient::FE => Point {
            x: size.y,
            y: size.x,
        },
    }
}

/// How often an orientation turns by a quarter, beside its flip.
fn quarter_turns(orient: Orient) -> u8
    ensures { result ≡ quarter_turns orient }
{
    match orient {
        Orient::N | Orient::FN => 0,
        Orient::W | Orient::FW => 1,
        Orient::S | Orient::FS => 2,
        Orient::E | Orient::FE => 3,
    }
}

/// Whether a component of this orientation may stand in a row of sites of that one: they are equal, or one is the other
/// flipped about the y axis.
pub fn rows_agree(row: Orient, component: Orient) -> bool
    ensures { result ≡ is_row_orient row component }
{
    quarter_turns(row) == quarter_turns(component)
}
