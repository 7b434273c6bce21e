//! The vias that paths of a design name.

ghost use Rattle.std.specs.Prelude.{◌≡◌, ◌<◌, ◌≤◌, IfOk};
ghost use Rattle.std.specs.Option.{option_map};
ghost use Rattle.design_rules.specs.Boxes.{scale};
ghost use Rattle.entry_rules.specs.ViaLayers.{via_layers};
ghost use Rattle.net_rules.specs.ViaRectangles.{via_shapes};
ghost use Rattle.wire_rules.specs.Paths.{other_layer};
ghost use Rattle.wire_shapes.specs.RuleViews.{via_on_view};
ghost use Rattle.design_wires.specs.Defined.{defined, with_units};
ghost use Rattle.design_wires.specs.KnownShapes.{known_left};

use crate::definitions::Definitions;
use crate::known_shapes::KnownShapes;
use crate::scale::Scale;
use crate::via_table::{Table, vias_of};
use cell_library::library::Library;
use design_names::names::Names;
use std::alloc::{AllocError, Allocator, Global};
use std::marker::Model;
use wire_shapes::ViaOn;

/// What the wires of a design are made by. Its vias are found once, with the layers that they join and with their shapes.
pub struct DesignWires<'a, 'l, 'r, 't, A: Allocator = Global> {
    definitions: Definitions<'a, 'l, 'r, 't, A>,
    vias: Table<'a, A>,
}

// (written out, so that who owns this is proved over one call)
impl<A: Allocator> Drop for DesignWires<'_, '_, '_, '_, A> {
    fn drop(self) {
        let DesignWires {
            definitions: _,
            vias: _,
        } = self;
    }
}

impl<'a, 'l, 'r, 't, A: Allocator> Model for DesignWires<'a, 'l, 'r, 't, A> {
    ghost use Rattle.std.specs.Prelude.{◌≡◌};
    ghost use Rattle.design_rules.specs.Boxes.{scale};
    ghost use Rattle.design_wires.specs.Defined.{DefinedIn, defined};
    ghost use Rattle.design_wires.specs.KnownVias.{HasVias};
    ghost use Rattle.design_wires.specs.Scales.{units_of};

    ghost Value = { DefinedIn };

    ghost view = { λ w. record { library = w.definitions.library.now; design = w.definitions.names.now } };

    ghost invariant = { λ w. HasVias (defined w.definitions) w.vias × (units_of w.definitions.scale ≡ scale w.definitions.names.now) };
}

impl<'a, 'l: 'a, 'r: 'a, 't: 'a, A: Allocator + Copy> DesignWires<'a, 'l, 'r, 't, A> {
    /// Finds the vias of a design and of its library, and its scale, which a text that reads has in range. The one error is
    /// `AllocError`.
    pub fn new(
        alloc: A,
        library: &'a Library<'l, A>,
        names: &'a Names<'r, 't, A>,
    ) -> Result<DesignWires<'a, 'l, 'r, 't, A>, AllocError>
        requires some { 0 < scale names.now }
        requires few { scale names.now ≤ 100000 }
        ensures { IfOk result (λ wires. wires ≡ record { library = library.entry.now; design = names.entry.now }) }
    {
        let definitions = Definitions {
            library,
            names,
            scale: Scale::of(names.records()),
        };
        let vias = vias_of(alloc, definitions)?;
        Ok(DesignWires { definitions, vias })
    }

    /// Where layers, rules and vias are defined.
    pub(crate) fn definitions(&self) -> Definitions<'a, 'l, 'r, 't, A>
        ensures { defined result ≡ with_units self.now }
    {
        self.definitions
    }

    /// What a via does where a path is on a layer.
    pub(crate) fn via_on(&self, via: &[u8], layer: &[u8]) -> ViaOn<'a>
        ensures { via_on_view result ≡ option_map (other_layer layer.now) (via_layers self.now.library self.now.design via.now) }
    {
        match self.vias.get(via) {
            Some(known) => known.joined.via_on(layer),
            None => ViaOn::Unknown,
        }
    }

    /// The shapes of a via about its origin; none where it isn't known.
    pub fn via_shapes(&self, via: &[u8]) -> KnownShapes<'_, 'a>
        ensures { known_left result ≡ via_shapes self.now.library self.now.design (scale self.now.design) via.now }
    {
        let Some(known) = self.vias.get(via) else {
            return KnownShapes::none();
        };
        KnownShapes {
            left: known.shapes.as_slice(),
        }
    }
}
