//! Lengths and numbers of cuts, put in range.

ghost use Rattle.std.specs.Prelude.{◌≡◌, ◌<◌, ◌≤◌, pos};
ghost use Rattle.design_model.specs.Ranges.{IsPointWithin, IsSize, IsWithin};
ghost use Rattle.wire_rules.specs.Sizes.{as_cuts, as_size, as_sizes};

use design_model::geometry::Point;

/// A length, and 0 for one below 0.
pub(crate) fn as_size(length: i64) -> i64
    requires { IsWithin 100000000000 length }
    ensures is { result ≡ as_size length }
    ensures size { IsSize result }
{
    if 0 <= length { length } else { 0 }
}

/// Lengths in x and in y, each by itself.
pub(crate) fn as_sizes(lengths: Point) -> Point
    requires { IsPointWithin 100000000000 lengths }
    ensures is { result ≡ as_sizes lengths }
    ensures wide { IsSize result.x }
    ensures high { IsSize result.y }
{
    Point {
        x: as_size(lengths.x),
        y: as_size(lengths.y),
    }
}

/// The cuts in a line of a generated via: 1 to 1000000, and else one.
pub(crate) fn as_cuts(number: i32) -> u32
    ensures is { pos result ≡ as_cuts number }
    ensures some { 0 < result }
    ensures few { result ≤ 1000000 }
{
    if 1 <= number && number <= 1000000 {
        number.unsigned_abs()
    } else {
        1
    }
}
