//! The places of an array of vias, one at a time.

ghost use Rattle.std.specs.Prelude.{◌≡◌, ◌<◌, pos, ◌+ℤ◌, [], ◌∷◌, IsFalse, IsTrue};
ghost use Rattle.wire_rules.specs.Paths.{array_of};
ghost use Rattle.design_model.specs.Ranges.{IsArray, IsPointWithin};
ghost use Rattle.wire_shapes.specs.ItemViews.{IsPlace, via_use_view};
ghost use Rattle.wire_shapes.specs.PlacesLeft.{GivesPlace, IsInReach, places_left, reach};

use crate::path_items::ViaUse;
use design_model::geometry::Point;

/// The places that are left of an array: those of a row, and the rows after it.
#[derive(Clone, Copy)]
pub(crate) struct ViaPlaces {
    /// How far it is to the next place of a row, and to the next row.
    across: Point,
    up: Point,
    columns: u32,
    /// The next place, and how many are left in its row.
    at: Point,
    in_row: u32,
    /// Where the next row begins, and how many rows are left.
    row: Point,
    rows: u32,
}

/// The point that is one step from another.
fn next_point(at: Point, step: Point) -> Point
    requires at { IsPointWithin (reach 0) at }
    requires step { IsPlace step }
    ensures { result ≡ record { x = at.x +ℤ step.x; y = at.y +ℤ step.y } }
{
    Point {
        x: at.x + step.x,
        y: at.y + step.y,
    }
}

/// The part of a step in x.
fn step_across(step: Point) -> Point
    ensures { result ≡ record { x = step.x; y = pos 0 } }
{
    Point { x: step.x, y: 0 }
}

/// The part of a step in y.
fn step_up(step: Point) -> Point
    ensures { result ≡ record { x = pos 0; y = step.y } }
{
    Point { x: 0, y: step.y }
}

impl ViaPlaces {
    /// The places of a via's array whose first place is at a point.
    fn new(via: &ViaUse<'_>, at: Point) -> ViaPlaces
        requires in_range { IsArray via.now.columns via.now.rows }
        requires step { IsPlace via.now.step }
        requires at { IsPlace at }
        ensures is { places_left result ≡ array_of (via_use_view via.now) at }
        ensures reach { IsInReach result }
    {
        ViaPlaces {
            across: step_across(via.step),
            up: step_up(via.step),
            columns: via.columns,
            at,
            in_row: 0,
            row: at,
            rows: via.rows,
        }
    }

    /// The places of a via's array after the first, which is at a point.
    pub(crate) fn after_first(via: &ViaUse<'_>, at: Point) -> ViaPlaces
        requires in_range { IsArray via.now.columns via.now.rows }
        requires step { IsPlace via.now.step }
        requires at { IsPlace at }
        ensures is { array_of (via_use_view via.now) at ≡ at ∷ places_left result }
        ensures reach { IsInReach result }
    {
        let mut places = ViaPlaces::new(via, at);
        let _first = places.next();
        places
    }

    /// Goes on to the next row, if there is one.
    fn enter_row(&mut self) -> bool
        requires reach { IsInReach self.old }
        requires done { self.old.in_row ≡ 0 }
        ensures same { places_left self.new ≡ places_left self.old }
        ensures reach { IsInReach self.new }
        ensures none { IsFalse result → places_left self.new ≡ [] }
        ensures some { IsTrue result → 0 < self.new.in_row }
    {
        if self.rows == 0 {
            return false;
        }
        self.at = self.row;
        self.in_row = self.columns;
        self.row = next_point(self.row, self.up);
        self.rows -= 1;
        true
    }

    /// Goes past the next place.
    fn pass(&mut self) -> Point
        requires reach { IsInReach self.old }
        requires some { 0 < self.old.in_row }
        ensures gives { GivesPlace (places_left self.old) (Some result) (places_left self.new) }
        ensures reach { IsInReach self.new }
    {
        let at = self.at;
        self.in_row -= 1;
        self.at = next_point(at, self.across);
        at
    }

    /// The first place that is left; at the end `None`.
    pub(crate) fn next(&mut self) -> Option<Point>
        requires { IsInReach self.old }
        ensures gives { GivesPlace (places_left self.old) result (places_left self.new) }
        ensures reach { IsInReach self.new }
    {
        if self.in_row == 0 && !self.enter_row() {
            return None;
        }
        Some(self.pass())
    }
}
