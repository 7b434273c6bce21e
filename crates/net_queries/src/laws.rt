//! Laws of what hangs together, and of lines on two shapes.

ghost use Rattle.net_queries.specs.PieceLaws.{PartsInAnyOrder, RunsAreHeld, ShapesInAnyOrder};
ghost use Rattle.net_queries.specs.ShortLaws.{ShortIsSymmetric};

use part_classes::{labels_are_classes, order_is_open};

/// The classes of parts don't depend on the order of the shapes within each,
pub fn shapes_in_any_order()
    ensures { ShapesInAnyOrder }
{
    order_is_open();
}

/// nor on the order of the parts.
pub fn parts_in_any_order()
    ensures { PartsInAnyOrder }
{
    labels_are_classes();
}

/// A set that holds parts one after the other holds those of each run of them.
pub fn runs_are_held()
    ensures { RunsAreHeld }
{}

/// The line on two shapes that touch is the same whichever comes first.
pub fn short_is_symmetric()
    ensures { ShortIsSymmetric }
{}
