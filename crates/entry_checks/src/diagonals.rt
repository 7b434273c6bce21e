//! The diagonal segments of a path of SPECIALNETS (LEF/DEF 5.8 Language Reference, "Special Wiring Statement").

ghost use Rattle.std.specs.Prelude.{◌≡◌};
ghost use Rattle.wire_parts.specs.PathViews.{special_path_view};
ghost use Rattle.entry_rules.specs.Unchecked.{diagonals_of};
ghost use Rattle.entry_rules.specs.WireItems.{special_via};

use entry_references::diagonals::is_diagonal;
use wire_parts::paths::{Path, PathItem, SpecialVia};

/// How many segments of a path are diagonal.
#[tactic(auto, unfolding(entry_rules::specs::WireItems::items_after, entry_rules::specs::Unchecked::diagonals))]
pub(crate) fn special_diagonals<'t>(path: &Path<'t, SpecialVia<'t>>) -> usize
    ensures { result ≡ diagonals_of special_via (special_path_view path.now) }
{
    let mut at = path.start.at.place();
    let mut left = path.items.again();
    let mut count = 0;
    while let Some(item) = left.next() {
        match item {
            PathItem::Virtual(to) => at = to.place_after(at),
            PathItem::Point(to) => {
                let to = to.at.place_after(at);
                if is_diagonal(at, to) {
                    count += 1;
                }
                at = to;
            }
            PathItem::Mask(_) | PathItem::Rectangle(_) | PathItem::Via(_) => {}
        }
    }
    count
}
