//! Diagonal segments of paths (LEF/DEF 5.8 Language Reference, "Regular Wiring Statement").

ghost use Rattle.std.specs.Prelude.{◌≡◌};
ghost use Rattle.entry_rules.specs.Unchecked.{is_diagonal};

use design_model::geometry::Point;

/// Whether a segment lies neither in x nor in y.
pub fn is_diagonal(from: Point, to: Point) -> bool
    ensures { result ≡ is_diagonal from to }
{
    from.x != to.x && from.y != to.y
}
