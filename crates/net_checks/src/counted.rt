//! The lines on the nets of a design, with a count of the comparisons by which it is found how the parts of each hang together.

ghost use Rattle.std.specs.Prelude.{◌≡◌, ◌≤◌, ◌-◌, ◌^◌, ◌++◌, IfOk, List, OnOk, flat_map, map, min};
ghost use Rattle.def_grammar.specs.Records.{Record};
ghost use Rattle.lef_grammar.specs.Library.{Library as TheLibrary};
ghost use Rattle.design_rules.specs.Boxes.{scale};
ghost use Rattle.connection_rules.specs.NetLines.{Barrier as NetBarrier, class_lines, is_drawn, layer_name};
ghost use Rattle.connection_rules.specs.NetParts.{all_nets};
ghost use Rattle.connection_rules.specs.PartClasses.{with_pins, without_pins};
ghost use Rattle.line_laws.specs.Lines.{SameLines, SameThings};
ghost use Rattle.net_lists.specs.NetViews.{net_view};
ghost use Rattle.net_queries.specs.Held.{shapes_from};
ghost use Rattle.placed_shapes.specs.Placed.{placed_shape};
ghost use Rattle.net_checks.specs.Drawings.{IsBarredDrawing, lines_of_nets};
ghost use Rattle.net_checks.specs.NearWithin.{met_in_net, met_within, near_in_net, near_within};

use crate::net_lines::NetDrawing;
use line_laws::same::same_lines_append;
use net_classes::{NetClasses, put_lines_of_classes};
use net_lists::{NetList, NetView};
use net_queries::{NetState, pieces_of};
use net_touches::{layers_have_their_names, touching_lines};
use part_classes::Counts;
use placed_shapes::{PlacedShapes, push_placed};
use report_lines::{Checked, Lines};
use shape_index::Shape;
use std::alloc::{AllocError, Allocator};

/// The shapes of a net, each under the number of its part.
fn numbered_shapes<A: Allocator + Copy>(
    alloc: A,
    net: &NetView<'_, '_>,
) -> Result<Vec<Shape, A>, AllocError>
    ensures { IfOk result (λ v. map placed_shape v.items ≡ shapes_from 0 (net_view net.now).parts) }
{
    let mut shapes = Vec::with_capacity(alloc, net.shapes.len())?;
    let mut left = net.part_views();
    let mut number = 0;
    while let Some(part) = left.next() {
        push_placed(number, part.shapes, &mut shapes)?;
        number += 1;
    }
    Ok(shapes)
}

/// The same, searched by tiles.
fn placed_parts<A: Allocator + Copy>(
    alloc: A,
    net: &NetView<'_, '_>,
) -> Result<PlacedShapes<A>, AllocError>
    ensures { IfOk result (λ s. SameThings s (shapes_from 0 (net_view net.now).parts)) }
{
    let shapes = numbered_shapes(alloc, net)?;
    PlacedShapes::of(alloc, &shapes)
}

/// How the parts of a net hang together, and how many pairs of its shapes were compared to find it: those that meet, and others that are
/// near each other by tiles.
fn state_of<A: Allocator + Copy>(alloc: A, net: &NetView<'_, '_>) -> Result<NetState, AllocError>
    ensures classes { IfOk result (λ s. s.classes ≡ with_pins (net_view net.now).parts) }
    ensures floating { IfOk result (λ s. s.floating ≡ without_pins (net_view net.now).parts) }
    ensures tests { IfOk result (λ s. s.tests ≤ near_in_net (net_view net.now)) }
    ensures least { IfOk result (λ s. min (met_in_net (net_view net.now)) (2 ^ 64 - 1) ≤ s.tests) }
{
    let placed = placed_parts(alloc, net)?;
    pieces_of(alloc, 0, net, placed.tiles())
}

/// Whether a net has wires or vias.
fn has_wires(net: &NetView<'_, '_>) -> bool
    ensures { result ≡ is_drawn (net_view net.now).parts }
{
    net.parts.iter().any(|part| !part.is_pin)
}

/// Puts the lines on how a net hangs together behind others, and says how many pairs of its shapes were compared for them.
#[tactic(auto, using(net_classes::proofs::PartHeads::few_with_pins, net_classes::proofs::PartHeads::few_without_pins, net_classes::proofs::PartHeads::length_parts))]
fn put_counted_net<A: Allocator + Copy>(
    alloc: A,
    net: &NetView<'_, '_>,
    lines: &mut Lines<A>,
) -> Result<u64, AllocError>
    ensures lines { OnOk result (lines.new ≡ lines.old ++ class_lines (net_view net.now)) }
    ensures tests { IfOk result (λ n. n ≤ near_in_net (net_view net.now)) }
    ensures least { IfOk result (λ n. min (met_in_net (net_view net.now)) (2 ^ 64 - 1) ≤ n) }
{
    let state = state_of(alloc, net)?;
    let classes = NetClasses {
        counts: Counts {
            holding: state.classes,
            bare: state.floating,
        },
        is_drawn: has_wires(net),
    };
    put_lines_of_classes(net.head.name, classes, lines)?;
    Ok(state.tests)
}

/// The same of each net of a list.
fn put_counted_nets<A: Allocator + Copy>(
    alloc: A,
    nets: &NetList<'_, A>,
    lines: Lines<A>,
) -> Result<Checked<A>, AllocError>
    ensures lines { IfOk result (λ c. c.lines ≡ lines ++ flat_map class_lines nets.now) }
    ensures tests { IfOk result (λ c. c.tests ≤ near_within nets.now) }
    ensures least { IfOk result (λ c. min (met_within nets.now) (2 ^ 64 - 1) ≤ c.tests) }
{
    let mut lines = lines;
    let mut tests: u64 = 0;
    let mut left = nets.nets();
    while let Some(net) = left.next() {
        let compared = put_counted_net(alloc, &net, &mut lines)?;
        tests = tests.saturating_add(compared);
    }
    Ok(Checked { lines, tests })
}

impl<'l, 't, A: Allocator + Copy> NetDrawing<'l, 't, A> {
    /// The lines that `put_lines` puts behind others, and how many pairs of shapes were compared to find how the parts of each net hang
    /// together. The comparisons of shapes of two nets, and of shapes with rectangles where routing is blocked, aren't counted here: one net
    /// has no others to be compared with, and who follows these rectangles counts what is compared with those that go or come.
    pub fn put_counted_lines(&self, alloc: A, lines: Lines<A>) -> Result<Checked<A>, AllocError>
        ensures lines { (library : TheLibrary) (design : List Record) (bars : List NetBarrier) → IsBarredDrawing library design bars self.now
            → IfOk result (λ c. SameLines c.lines (lines ++ lines_of_nets (layer_name library.layers) (all_nets library design (scale design)) bars)) }
        ensures tests { IfOk result (λ c. c.tests ≤ near_within self.now.nets) }
        ensures least { IfOk result (λ c. min (met_within self.now.nets) (2 ^ 64 - 1) ≤ c.tests) }
    {
        layers_have_their_names();
        same_lines_append();
        let lines = touching_lines(alloc, &self.layers, &self.nets, &self.barriers, lines)?;
        let checked = put_counted_nets(alloc, &self.nets, lines)?;
        Ok(checked)
    }
}
