//! The lines on the nets of a design.

ghost use Rattle.std.specs.Prelude.{◌≡◌, ◌++◌, ◌<◌, ◌≤◌, IfOk, List, map};
ghost use Rattle.def_grammar.specs.Records.{Record};
ghost use Rattle.lef_grammar.specs.Library.{Library as TheLibrary};
ghost use Rattle.design_rules.specs.Boxes.{scale};
ghost use Rattle.connection_rules.specs.NetLines.{Barrier as NetBarrier, layer_name};
ghost use Rattle.connection_rules.specs.NetParts.{all_nets};
ghost use Rattle.line_laws.specs.Lines.{SameLines};
ghost use Rattle.net_touches.specs.Barriers.{barrier_view};
ghost use Rattle.net_checks.specs.Drawings.{IsBarredDrawing, IsDrawingOf, lines_of_nets};

use crate::barriers::barriers_of;
use crate::layer_names::layer_names;
use cell_library::library::Library;
use design_names::names::Names;
use design_nets::{NetsWithLengths, nets_with_lengths};
use design_wires::wires::DesignWires;
use line_laws::same::same_lines_append;
use net_classes::put_class_lines;
use net_lists::NetList;
use net_touches::{Barrier, layers_have_their_names, touching_lines};
use report_lines::Lines;
use std::alloc::{AllocError, Allocator, Global};
use std::marker::Model;

/// What the lines on the nets of a design speak of: its nets with their shapes, where routing is blocked, and the names of layers; and how
/// long its wires are. It borrows from the texts alone, so what it was made from may be given back before its lines are made.
#[derive(Drop)]
pub struct NetDrawing<'l, 't, A: Allocator = Global> {
    pub(crate) nets: NetList<'t, A>,
    lengths: Vec<u64, A>,
    pub(crate) barriers: Vec<Barrier, A>,
    pub(crate) layers: Vec<&'l [u8], A>,
}

impl<'l, 't, A: Allocator> Model for NetDrawing<'l, 't, A> {
    ghost use Rattle.std.specs.Prelude.{map};
    ghost use Rattle.net_touches.specs.Barriers.{barrier_view};
    ghost use Rattle.net_checks.specs.Drawings.{Drawing};

    ghost Value = { Drawing };

    ghost view = { λ d. record { nets = d.nets; lengths = d.lengths.items; barriers = map barrier_view d.barriers.items; layers = map (λ w. w.now) d.layers.items } };
}

impl<'l, 't, A: Allocator + Copy> NetDrawing<'l, 't, A> {
    /// The nets of a design whose text reads, so that its scale is in range.
    pub fn new(
        alloc: A,
        library: &Library<'l, A>,
        names: &Names<'_, 't, A>,
    ) -> Result<NetDrawing<'l, 't, A>, AllocError>
        requires some { 0 < scale names.now }
        requires few { scale names.now ≤ 100000 }
        ensures { IfOk result (IsDrawingOf library.now names.now) }
    {
        let wires = DesignWires::new(alloc, library, names)?;
        let NetsWithLengths { nets, lengths } = nets_with_lengths(alloc, library, names, &wires)?;
        let barriers = barriers_of(alloc, library, names.records())?;
        let layers = layer_names(alloc, library)?;
        Ok(NetDrawing {
            nets,
            lengths,
            barriers,
            layers,
        })
    }

    /// The same with these rectangles in the place of the design's own.
    pub fn barred(
        alloc: A,
        library: &Library<'l, A>,
        names: &Names<'_, 't, A>,
        barriers: &[Barrier],
    ) -> Result<NetDrawing<'l, 't, A>, AllocError>
        requires some { 0 < scale names.now }
        requires few { scale names.now ≤ 100000 }
        ensures { IfOk result (IsBarredDrawing library.now names.now (map barrier_view barriers.now)) }
    {
        let wires = DesignWires::new(alloc, library, names)?;
        let NetsWithLengths { nets, lengths } = nets_with_lengths(alloc, library, names, &wires)?;
        let barriers = Vec::from_slice(alloc, barriers)?;
        let layers = layer_names(alloc, library)?;
        Ok(NetDrawing {
            nets,
            lengths,
            barriers,
            layers,
        })
    }

    /// The nets, with their parts and shapes.
    pub fn nets(&self) -> &NetList<'t, A>
        ensures { result.now ≡ self.now.nets }
    {
        &self.nets
    }

    /// How long the wires of each net are along their centres, in database units: 2^64 - 1 where they are longer.
    pub fn lengths(&self) -> &[u64]
        ensures { result.now ≡ self.now.lengths }
    {
        &self.lengths
    }

    /// Puts the lines on shapes of two nets that touch, on wires where routing is blocked, and on what hangs together in each net
    /// behind others, in an order that is left open.
    pub fn put_lines(&self, alloc: A, lines: Lines<A>) -> Result<Lines<A>, AllocError>
        ensures { (library : TheLibrary) (design : List Record) (bars : List NetBarrier) → IsBarredDrawing library design bars self.now
            → IfOk result (λ l. SameLines l (lines ++ lines_of_nets (layer_name library.layers) (all_nets library design (scale design)) bars)) }
    {
        layers_have_their_names();
        same_lines_append();
        let mut lines = touching_lines(alloc, &self.layers, &self.nets, &self.barriers, lines)?;
        put_class_lines(alloc, &self.nets, &mut lines)?;
        Ok(lines)
    }
}
