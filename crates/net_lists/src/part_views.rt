//! The parts of a net, one after the other.

ghost use Rattle.std.specs.Prelude.{◌≡◌};
ghost use Rattle.net_lists.specs.NetViews.{net_view};

use crate::net_view::NetView;
use crate::parts::{NetShape, PartHead};
use std::marker::Model;

/// A part of a net, with its shapes.
#[derive(Clone, Copy)]
pub struct PartView<'n> {
    pub is_pin: bool,
    pub shapes: &'n [NetShape],
}

/// The parts that are left of a net. It takes no memory.
#[derive(Drop)]
pub struct PartViews<'n> {
    parts: &'n [PartHead],
    shapes: &'n [NetShape],
}

impl<'n> Model for PartViews<'n> {
    ghost use Rattle.std.specs.Prelude.{List, ◌≡◌, length, sum_by};
    ghost use Rattle.connection_rules.specs.NetParts.{Part};
    ghost use Rattle.net_lists.specs.Counts.{shape_count};
    ghost use Rattle.net_lists.specs.PartCuts.{parts_of};

    ghost Value = { List Part };

    ghost view = { λ p. parts_of p.parts.now p.shapes.now };

    ghost invariant = { λ p. sum_by shape_count p.parts.now ≡ length p.shapes.now };
}

impl<'n, 't> NetView<'n, 't> {
    /// The net's parts, one after the other.
    pub fn part_views(&self) -> PartViews<'n>
        ensures { result ≡ (net_view self.now).parts }
    {
        PartViews {
            parts: self.parts,
            shapes: self.shapes,
        }
    }
}

impl<'n> Iterator for PartViews<'n> {
    ghost use Rattle.std.specs.Iterator.{item_count};
    ghost use Rattle.net_lists.specs.PartCuts.{GivesPart};

    type Item = PartView<'n>;

    ghost next_gives = { GivesPart };

    ghost remaining = { item_count (λ s. s) };

    fn next(&mut self) -> Option<PartView<'n>> {
        let (part, parts) = self.parts.split_first()?;
        let (shapes, other_shapes) = self.shapes.split_at(part.shapes as usize);
        self.parts = parts;
        self.shapes = other_shapes;
        Some(PartView {
            is_pin: part.is_pin,
            shapes,
        })
    }
}
