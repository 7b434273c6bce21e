//! The nets of a list, one after the other.

ghost use Rattle.std.specs.Prelude.{◌≡◌, ◌^◌, ◌<◌, length, sum_by};
ghost use Rattle.net_lists.specs.Counts.{part_count, shape_count};
ghost use Rattle.net_lists.specs.NetViews.{nets_of};

use crate::net_view::NetView;
use crate::parts::{NetHead, NetShape, PartHead};
use std::marker::Model;

/// The nets that are left of a list. It takes no memory.
#[derive(Drop)]
pub struct Nets<'n, 't: 'n> {
    heads: &'n [NetHead<'t>],
    parts: &'n [PartHead],
    shapes: &'n [NetShape],
}

impl<'n, 't> Model for Nets<'n, 't> {
    ghost use Rattle.std.specs.Prelude.{List};
    ghost use Rattle.connection_rules.specs.NetParts.{Net};
    ghost use Rattle.net_lists.specs.NetViews.{nets_of, AddUp};

    ghost Value = { List Net };

    ghost view = { λ n. nets_of n.heads.now n.parts.now n.shapes.now };

    ghost invariant = { λ n. AddUp n.heads.now n.parts.now n.shapes.now };
}

/// How many shapes these parts have.
fn shapes_of(parts: &[PartHead]) -> usize
    requires { sum_by shape_count parts.now < 2 ^ 64 }
    ensures { result ≡ sum_by shape_count parts.now }
{
    let mut count = 0;
    for part in parts {
        count += part.shapes as usize;
    }
    count
}

impl<'n, 't> Nets<'n, 't> {
    /// The nets of these heads, whose counts are those of the lists.
    pub(crate) fn new(
        heads: &'n [NetHead<'t>],
        parts: &'n [PartHead],
        shapes: &'n [NetShape],
    ) -> Nets<'n, 't>
        requires parts { sum_by part_count heads.now ≡ length parts.now }
        requires shapes { sum_by shape_count parts.now ≡ length shapes.now }
        ensures { result ≡ nets_of heads.now parts.now shapes.now }
    {
        Nets {
            heads,
            parts,
            shapes,
        }
    }
}

impl<'n, 't> Iterator for Nets<'n, 't> {
    ghost use Rattle.std.specs.Iterator.{item_count};
    ghost use Rattle.net_lists.specs.NetViews.{GivesNet};

    type Item = NetView<'n, 't>;

    ghost next_gives = { GivesNet };

    ghost remaining = { item_count (λ s. s) };

    fn next(&mut self) -> Option<NetView<'n, 't>> {
        if self.heads.is_empty() {
            return None;
        }
        let head = &self.heads[0];
        let (parts, other_parts) = self.parts.split_at(head.parts);
        let (shapes, other_shapes) = self.shapes.split_at(shapes_of(parts));
        self.heads = &self.heads[1..];
        self.parts = other_parts;
        self.shapes = other_shapes;
        Some(NetView {
            head,
            parts,
            shapes,
        })
    }
}
