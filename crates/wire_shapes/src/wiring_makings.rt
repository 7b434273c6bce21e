//! What wires and vias are made by, as those who know a design and its libraries answer it.

ghost use Rattle.std.specs.Prelude.{◌≡◌, List};
ghost use Rattle.std.specs.Option.{option_map};
ghost use Rattle.wire_rules.specs.Paths.{other_layer};
ghost use Rattle.design_model.specs.Ranges.{IsSize};
ghost use Rattle.wire_shapes.specs.RuleViews.{GivesShape, via_on_view};

use design_model::geometry::Rect;

/// A rectangle on a layer, by the layer's name, in database units.
#[derive(Clone, Copy)]
pub struct LayerShape<'l> {
    pub layer: &'l [u8],
    pub rect: Rect,
}

/// What a via does where a path is on a layer.
#[derive(Clone, Copy)]
pub enum ViaOn<'l> {
    /// No via of this name is known.
    Unknown,
    /// It joins the layer to no other.
    Stays,
    /// It joins the layer to the one of this name.
    Leads(&'l [u8]),
}

/// The shapes that are left of a via, about its origin.
pub trait LayerShapes<'l>: Sized + Copy + Drop {
    ghost use Rattle.wire_rules.specs.ViaShapes.{NamedShape};

    ghost shapes: { Self → List NamedShape };

    /// The first shape that is left, which reaches at most 10^18 database units from the origin in x and in y; at the end
    /// `None`.
    fn next(&mut self) -> Option<LayerShape<'l>>
        ensures { GivesShape (shapes self.old) result (shapes self.new) };
}

/// The widths of wires and the vias of a design, for nets or for special nets.
pub trait WiringMakings<'l>: Sized + Drop {
    ghost use Rattle.wire_rules.specs.Paths.{WireMakings};

    type Shapes: LayerShapes<'l>;

    ghost rules: { Self → WireMakings };

    /// The width of a wire on a layer; on a layer that isn't known 0.
    fn width(&self, layer: &[u8]) -> i64
        ensures value { result ≡ (rules self.now).width layer.now }
        ensures in_range { IsSize result };

    /// How far a wire of a width goes past a point where nothing is said of that: half its width for nets, and nothing for
    /// special nets.
    fn past_end(&self, width: i64) -> i64
        requires { IsSize width }
        ensures value { result ≡ (rules self.now).past_end width }
        ensures in_range { IsSize result };

    /// What a via does where a path is on a layer.
    fn via_on(&self, via: &[u8], layer: &[u8]) -> ViaOn<'l>
        ensures { via_on_view result ≡ option_map (other_layer layer.now) ((rules self.now).via_layers via.now) };

    /// The shapes of a via about its origin.
    fn via_shapes(&self, via: &[u8]) -> Self::Shapes
        ensures { Self.Shapes.shapes result ≡ (rules self.now).via_shapes via.now };
}
