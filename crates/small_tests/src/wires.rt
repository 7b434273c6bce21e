ghost use Rattle.std.specs.Prelude.{◌≡◌, ℕ, List, [], None, pos};
ghost use Rattle.wire_rules.specs.ViaShapes.{half};
ghost use Rattle.small_tests.specs.Cases.{wire_to};

use design_model::geometry::{Point, Rect};
use wire_shapes::{
    LayerShape, LayerShapes, PathItem, PathItems, PathPieces, Piece, ViaOn, WiringMakings,
};

/// A wire to a point on the x axis, or none.
#[derive(Drop)]
struct WireTo {
    x: Option<i16>,
}

impl<'t> PathItems<'t> for WireTo {
    ghost items = { λ w. wire_to w.x };

    fn next(&mut self) -> Option<PathItem<'t>> {
        let x = self.x?;
        self.x = None;
        let at = Point { x: x as i64, y: 0 };
        Some(PathItem::ToPoint(at, None))
    }
}

/// No shape.
#[derive(Clone, Copy, Drop)]
struct NoShapes {}

impl<'l> LayerShapes<'l> for NoShapes {
    ghost shapes = { λ s. [] };

    fn next(&mut self) -> Option<LayerShape<'l>> {
        None
    }
}

/// Wires of one width, and no via.
#[derive(Drop)]
struct OneWidth {
    width: u16,
}

impl<'l> WiringMakings<'l> for OneWidth {
    type Shapes = NoShapes;

    ghost rules = { λ r. record { width = λ (l : List ℕ). pos r.width; past_end = half; via_layers = λ (n : List ℕ). None; via_shapes = λ (n : List ℕ). [] } };

    fn width(&self, _layer: &[u8]) -> i64 {
        self.width as i64
    }

    fn past_end(&self, width: i64) -> i64 {
        width / 2
    }

    fn via_on(&self, _via: &[u8], _layer: &[u8]) -> ViaOn<'l> {
        ViaOn::Unknown
    }

    fn via_shapes(&self, _via: &[u8]) -> NoShapes {
        NoShapes {}
    }
}

#[test]
fn one_wire(rt: HostRuntime) {
    let rules = OneWidth { width: 140 };
    let items = WireTo { x: Some(1000) };
    let origin = Point { x: 0, y: 0 };
    let mut pieces = PathPieces::new(rules, b"met1", origin, None, items);
    match pieces.next() {
        Some(Piece::Segment { shape, length }) => {
            assert_eq!(rt; length, 1000);
            let want = Rect {
                x1: -70,
                y1: -70,
                x2: 1070,
                y2: 70,
            };
            assert_eq!(rt; shape.rect, want);
        }
        _ => panic!(rt; "no segment"),
    }
    assert!(rt; pieces.next().is_none());
}
