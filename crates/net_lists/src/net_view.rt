//! A net of a list.

ghost use Rattle.std.specs.Prelude.{◌≡◌, length, sum_by};
ghost use Rattle.net_lists.specs.Counts.{shape_count};

use crate::parts::{NetHead, NetShape, PartHead};

/// A net of a list, with its shapes part by part: each part's head says how many of them come next.
#[derive(Clone, Copy)]
pub struct NetView<'n, 't: 'n> {
    pub head: &'n NetHead<'t>,
    pub parts: &'n [PartHead],
    pub shapes: &'n [NetShape],
    ghost whole: { sum_by shape_count parts.now ≡ length shapes.now },
}
