//! The points of statements in database units.

ghost use Rattle.std.specs.Prelude.{◌≡◌};
ghost use Rattle.def_grammar.specs.Numbers.{int_of};
ghost use Rattle.def_grammar.specs.Points.{coordinate_after, number_after, place_after, place_of, point_after};
ghost use Rattle.design_model.specs.Ranges.{IsPointWithin, IsWithin};
ghost use Rattle.def_parts.specs.PointViews.{point_view};

use crate::number::int_of;
use crate::point::Coordinates;
use design_model::geometry::Point;
use lefdef_tokens::{Token, is_word};

/// A coordinate or a length by itself, in database units.
pub fn number_of(word: &[u8]) -> i64
    ensures is { result ≡ int_of word.now }
    ensures near { IsWithin 2147483647 result }
{
    int_of(word) as i64
}

/// A coordinate after another one, which it repeats where it is `*`.
fn number_after(before: i64, word: &[u8]) -> i64
    ensures is { result ≡ number_after before word.now }
    ensures near { IsWithin 2147483647 before → IsWithin 2147483647 result }
{
    if is_word(word, b"*") {
        before
    } else {
        number_of(word)
    }
}

/// The word of a coordinate after another one, of which `*` repeats the word.
fn coordinate_after<'t>(before: Token<'t>, word: Token<'t>) -> Token<'t>
    ensures { result.bytes.now ≡ coordinate_after before.entry.bytes.now word.entry.bytes.now }
{
    if is_word(word.bytes, b"*") {
        before
    } else {
        word
    }
}

impl<'t> Coordinates<'t> {
    /// The point by itself, in database units.
    pub fn place(self) -> Point
        ensures is { result ≡ place_of (point_view self.entry) }
        ensures near { IsPointWithin 2147483647 result }
    {
        Point {
            x: number_of(self.x.bytes),
            y: number_of(self.y.bytes),
        }
    }

    /// The point in database units, after another one of which it may repeat a coordinate by `*`.
    pub fn place_after(self, before: Point) -> Point
        ensures is { result ≡ place_after before (point_view self.entry) }
        ensures near { IsPointWithin 2147483647 before → IsPointWithin 2147483647 result }
    {
        Point {
            x: number_after(before.x, self.x.bytes),
            y: number_after(before.y, self.y.bytes),
        }
    }

    /// The point without `*`, after another one of which it may repeat a coordinate.
    pub fn after(self, before: Coordinates<'t>) -> Coordinates<'t>
        ensures { point_view result ≡ point_after (point_view before.entry) (point_view self.entry) }
    {
        Coordinates {
            x: coordinate_after(before.x, self.x),
            y: coordinate_after(before.y, self.y),
        }
    }
}
