//! What the pins of a design are found in.

ghost use Rattle.std.specs.Prelude.{◌≡◌};
ghost use Rattle.design_rules.specs.Boxes.{scale as scale_of};
ghost use Rattle.net_rules.specs.ViaRectangles.{via_shapes};
ghost use Rattle.design_wires.specs.KnownShapes.{known_left};
ghost use Rattle.design_wires.specs.Scales.{units_of};

use cell_library::library::Library;
use design_names::names::Names;
use design_wires::known_shapes::KnownShapes;
use design_wires::scale::Scale;
use design_wires::wires::DesignWires;
use std::alloc::{Allocator, Global};

/// A library, the entries of a design by their names, the vias of both, and how many database units a micron has.
#[derive(Drop)]
pub(crate) struct Sources<'v, 'a, 'l, 'r, 't, A: Allocator = Global> {
    pub(crate) library: &'a Library<'l, A>,
    pub(crate) names: &'a Names<'r, 't, A>,
    pub(crate) wires: &'v DesignWires<'a, 'l, 'r, 't, A>,
    pub(crate) scale: Scale,
    ghost same_library: { wires.now.library ≡ library.now },
    ghost same_design: { wires.now.design ≡ names.now },
    ghost same_units: { units_of scale ≡ scale_of names.now },
}

impl<'v, 'a, 'l: 'a, 'r: 'a, 't: 'a, A: Allocator + Copy> Sources<'v, 'a, 'l, 'r, 't, A> {
    /// The shapes of a via about its origin; none where it isn't known.
    pub(crate) fn via_shapes(&self, via: &[u8]) -> KnownShapes<'v, 'a>
        ensures { known_left result ≡ via_shapes self.now.library.now self.now.names.now (units_of self.now.scale) via.now }
    {
        self.wires.via_shapes(via)
    }
}
