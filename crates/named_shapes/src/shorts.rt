//! The lines of a net's shapes with those of other nets.

ghost use Rattle.std.specs.Prelude.{◌≡◌, ◌++◌, ◌≤◌, ◌-◌, ◌^◌, IfOk, flat_map, map, min, sum_by};
ghost use Rattle.connection_rules.specs.NetLines.{short_of};
ghost use Rattle.design_model.specs.Families.{cross_lines};
ghost use Rattle.line_laws.specs.Lines.{SameLines};
ghost use Rattle.net_lists.specs.PartCuts.{shape_view};
ghost use Rattle.net_touches.specs.Barriers.{name_at};
ghost use Rattle.shape_index.specs.Near.{met_shapes, near_shapes};
ghost use Rattle.named_shapes.specs.Named.{named};

use crate::shapes::NamedShapes;
use net_lists::{NetHead, NetShape};
use net_queries::put_touching;
use net_touches::ShapeOfNet;
use report_lines::{Checked, Lines};
use std::alloc::{AllocError, Allocator};

impl<A: Allocator + Copy> NamedShapes<A> {
    /// Puts the lines of a shape of a net with the shapes of other nets that touch it behind others, and says how many shapes were
    /// compared for them.
    fn put_shorts_of(
        &self,
        layers: &[&[u8]],
        net: &[u8],
        shape: &NetShape,
        lines: Lines<A>,
    ) -> Result<Checked<A>, AllocError>
        ensures lines { IfOk result (λ c. SameLines c.lines (lines ++ flat_map (short_of (name_at (map (λ w. w.now) layers.now)) (named net.now (shape_view shape.now))) self.now)) }
        ensures tests { IfOk result (λ c. c.tests ≤ near_shapes (shape_view shape.now) (map (λ n. n.shape) self.now)) }
        ensures least { IfOk result (λ c. met_shapes (shape_view shape.now) (map (λ n. n.shape) self.now) ≤ c.tests) }
    {
        let head = NetHead {
            name: net,
            is_power: false,
            parts: 0,
        };
        let own = ShapeOfNet {
            shape,
            head: &head,
            is_drawn: false,
        };
        put_touching(layers, &own, self.placed.tiles(), &self.names, lines)
    }

    /// Puts the lines of shapes of a net with the shapes of other nets that touch them behind others, in an order that is left open, and
    /// says how many pairs of shapes were compared for them: those that touch at least, of one net too, up to 2^64 - 1. `layers` are the
    /// names of all layers, from the bottom up. Two shapes of one net have no line.
    pub fn put_shorts(
        &self,
        layers: &[&[u8]],
        net: &[u8],
        shapes: &[NetShape],
        lines: Lines<A>,
    ) -> Result<Checked<A>, AllocError>
        ensures lines { IfOk result (λ c. SameLines c.lines (lines ++ cross_lines (short_of (name_at (map (λ w. w.now) layers.now))) (map (named net.now) (map shape_view shapes.now)) self.now)) }
        ensures tests { IfOk result (λ c. c.tests ≤ sum_by (λ s. near_shapes s (map (λ n. n.shape) self.now)) (map shape_view shapes.now)) }
        ensures least { IfOk result (λ c. min (sum_by (λ s. met_shapes s (map (λ n. n.shape) self.now)) (map shape_view shapes.now)) (2 ^ 64 - 1) ≤ c.tests) }
    {
        let mut lines = lines;
        let mut tests: u64 = 0;
        for shape in shapes {
            let checked = self.put_shorts_of(layers, net, shape, lines)?;
            lines = checked.lines;
            tests = tests.saturating_add(checked.tests);
        }
        Ok(Checked { lines, tests })
    }
}
