//! The numbers of paths, in database units.

ghost use Rattle.std.specs.Prelude.{◌≡◌, IsTrue};
ghost use Rattle.def_grammar.specs.Numbers.{int_of};
ghost use Rattle.entry_rules.specs.WireItems.{count_of, extension_of};
ghost use Rattle.wire_parts.specs.PathViews.{wire_point_view};
ghost use Rattle.design_model.specs.Ranges.{IsArray, IsSize};
ghost use Rattle.wire_rules.specs.Sizes.{as_size, is_array};
ghost use Rattle.wire_shapes.specs.ItemViews.{IsPast};

use def_parts::number::int_of;
use def_parts::places::number_of;
use wire_parts::paths::WirePoint;

/// A length.
pub(crate) fn size_of(word: &[u8]) -> i64
    ensures is { result ≡ as_size (int_of word.now) }
    ensures in_range { IsSize result }
{
    let size = number_of(word);
    if size >= 0 { size } else { 0 }
}

/// How far a wire goes past a point, where that is said.
pub(crate) fn extension_of(point: &WirePoint<'_>) -> Option<i64>
    ensures is { result ≡ extension_of (wire_point_view point.now) }
    ensures in_range { IsPast result }
{
    let word = point.extension?;
    Some(size_of(word.bytes))
}

/// A number of columns or of rows.
pub(crate) fn count_of(word: &[u8]) -> u32
    ensures { result ≡ count_of word.now }
{
    int_of(word).unsigned_abs()
}

/// Whether so many columns and rows are an array of vias.
pub(crate) fn is_array(columns: u32, rows: u32) -> bool
    ensures is { result ≡ is_array columns rows }
    ensures array { IsTrue result → IsArray columns rows }
{
    let some = columns > 0 && rows > 0;
    let short = columns <= 1000000 && rows <= 1000000;
    some && (short && columns as u64 * rows as u64 <= 1000000)
}
