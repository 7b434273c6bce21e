ghost use Rattle.std.specs.Prelude.{◌≡◌, ◌≤ℤ◌};
ghost use Rattle.design_model.specs.Views.{rectangle_of};

use crate::{overlaps, place_box, turn};
use design_model::geometry::Orient::{self, E, FE, FN, FS, FW, N, S, W};
use design_model::geometry::{Point, Rect};

fn rect(x1: i64, y1: i64, x2: i64, y2: i64) -> Rect
    requires wide { x1 ≤ℤ x2 }
    requires high { y1 ≤ℤ y2 }
    ensures { rectangle_of result ≡ record { x1 = x1; y1 = y1; x2 = x2; y2 = y2 } }
{
    Rect { x1, y1, x2, y2 }
}

#[test]
fn turned_rectangles(rt: HostRuntime) {
    let rows: [(Orient, Rect); 8] = [
        (N, rect(10, 20, 30, 50)),
        (W, rect(-50, 10, -20, 30)),
        (S, rect(-30, -50, -10, -20)),
        (E, rect(20, -30, 50, -10)),
        (FN, rect(-30, 20, -10, 50)),
        (FS, rect(10, -50, 30, -20)),
        (FW, rect(20, 10, 50, 30)),
        (FE, rect(-50, -30, -20, -10)),
    ];
    for (orient, want) in rows {
        assert_eq!(rt; turn(orient, rect(10, 20, 30, 50)), want);
    }
}

#[test]
fn placed_boxes(rt: HostRuntime) {
    let rows: [(Orient, i32, i32, Rect); 4] = [
        (N, 1000, 2000, rect(1000, 2000, 1100, 2200)),
        (FW, 1000, 2000, rect(1000, 2000, 1200, 2100)),
        (W, 0, 0, rect(0, 0, 200, 100)),
        (S, -50, -50, rect(-50, -50, 50, 150)),
    ];
    for (orient, x, y, want) in rows {
        let boundary = rect(0, 0, 100, 200);
        let at = Point {
            x: x as i64,
            y: y as i64,
        };
        assert_eq!(rt; place_box(orient, boundary, at), want);
    }
}

#[test]
fn overlapping_rectangles(rt: HostRuntime) {
    let square = rect(0, 0, 10, 10);
    let rows: [(Rect, bool); 7] = [
        // a shared edge
        (rect(10, 0, 20, 10), false),
        (rect(0, -10, 10, 0), false),
        // a shared corner
        (rect(10, 10, 20, 20), false),
        // one unit of area
        (rect(9, 9, 20, 20), true),
        // inside
        (rect(3, 3, 4, 4), true),
        // inside, and without area
        (rect(3, 3, 3, 7), false),
        (rect(5, 5, 5, 5), false),
    ];
    for (other, want) in rows {
        assert_eq!(rt; overlaps(&square, &other), want);
        assert_eq!(rt; overlaps(&other, &square), want);
    }
}
