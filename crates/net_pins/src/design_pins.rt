//! A pin of the design as a part of a net (LEF/DEF 5.8 Language Reference, "Pins").

ghost use Rattle.std.specs.Prelude.{◌≡◌, ◌<◌, OnOk, length, map};
ghost use Rattle.std.specs.Option.{option_map};
ghost use Rattle.design_model.specs.Geometry.{IsNearRectangle, moved};
ghost use Rattle.design_model.specs.Ranges.{IsBoxWithin, IsPointWithin};
ghost use Rattle.design_model.specs.Views.{rectangle_of};
ghost use Rattle.def_grammar.specs.Pins.{pin_has_via};
ghost use Rattle.def_parts.specs.PointViews.{corners_view};
ghost use Rattle.net_rules.specs.ViaRectangles.{box_of};
ghost use Rattle.connection_rules.specs.PinShapes.{checked_named, clause_shapes, turned_shape};
ghost use Rattle.connection_rules.specs.Terminals.{design_pin, is_some_shape};
ghost use Rattle.net_lists.specs.Building.{with_parts, with_shapes};
ghost use Rattle.checked_layers.specs.CheckedLayers.{checked_place, on_place_if};
ghost use Rattle.place_parts.specs.PinViews.{pin_clause_view, pin_clauses_of, pin_via_view, pin_view};
ghost use Rattle.wire_shapes.specs.RuleViews.{shape_reach};
ghost use Rattle.design_wires.specs.Scales.{units_of};
ghost use Rattle.net_pins.specs.Counting.{counted};
ghost use Rattle.net_pins.specs.PortViews.{port_place_view, vias_in};
ghost use Rattle.net_pins.specs.PortsLeft.{clause_if};
ghost use Rattle.net_pins.specs.Putting.{HasPart};

use crate::port_place::PortPlace;
use crate::ports::{is_port, place_ahead};
use crate::sources::Sources;
use checked_layers::LastLayers;
use def_parts::points::Corners;
use design_model::geometry::{Point, Rect};
use net_lists::NetList;
use orient_geom::{move_by, span};
use place_parts::pins::{PinClause, PinParts, PinVia};
use std::alloc::{AllocError, Allocator};
use wire_shapes::LayerShapes;

/// The rectangle between two corners, where the second one may repeat a coordinate of the first by `*`.
fn corner_rectangle(corners: &Corners<'_>) -> Rect
    ensures is { rectangle_of result ≡ box_of (corners_view corners.now) }
    ensures near { IsNearRectangle (rectangle_of result) }
{
    let second = corners.second.after(corners.first);
    span(corners.first.place(), second.place())
}

/// A rectangle of a via where the via is.
fn via_rectangle(rect: Rect, at: Point) -> Rect
    requires rect_near { IsBoxWithin shape_reach (rectangle_of rect) }
    requires at_near { IsPointWithin 2147483647 at }
    ensures is { rectangle_of result ≡ moved at.x at.y (rectangle_of rect) }
    ensures near { IsNearRectangle (rectangle_of result) }
{
    move_by(rect, at)
}

/// Puts a rectangle into the last part, where the layer of this name is one of TYPE ROUTING or CUT.
fn put_named<A: Allocator + Copy>(
    layers: &mut LastLayers<'_, '_, A>,
    layer: &[u8],
    rect: Rect,
    nets: &mut NetList<'_, A>,
) -> Result<(), AllocError>
    requires { HasPart nets.old }
    ensures ok { OnOk result (nets.new ≡ with_shapes (on_place_if (rectangle_of rect) (checked_place layers.old.layers layer.now)) nets.old) }
    ensures part { OnOk result (HasPart nets.new) }
    ensures same { layers.new ≡ layers.old }
{
    match layers.layer_of(layer) {
        Some(id) => nets.push_shape(id, rect),
        None => Ok(()),
    }
}

/// Puts the shapes of a via of a pin into the last part.
fn put_via<'a, 'l: 'a, 'r: 'a, 't: 'a, A: Allocator + Copy>(
    of: &Sources<'_, 'a, 'l, 'r, 't, A>,
    via: &PinVia<'t>,
    place: PortPlace,
    layers: &mut LastLayers<'_, '_, A>,
    nets: &mut NetList<'_, A>,
) -> Result<(), AllocError>
    requires part { HasPart nets.old }
    requires known { layers.old ≡ of.now.library.now }
    ensures ok { OnOk result (nets.new ≡ with_shapes (checked_named of.now.library.now.layers (map (turned_shape (port_place_view place)) (clause_shapes (vias_in of.now) (pin_has_via (pin_via_view via.now))))) nets.old) }
    ensures part { OnOk result (HasPart nets.new) }
    ensures known { layers.new ≡ of.now.library.now }
{
    let at = via.at.place();
    let mut shapes = of.via_shapes(via.name.bytes);
    while let Some(shape) = shapes.next() {
        let rect = place.place(via_rectangle(shape.rect, at));
        or_error!(put_named(layers, shape.layer, rect, nets));
    }
    Ok(())
}

/// Puts the shapes of a clause, where its port is placed, into the last part.
fn put_clause<'a, 'l: 'a, 'r: 'a, 't: 'a, A: Allocator + Copy>(
    of: &Sources<'_, 'a, 'l, 'r, 't, A>,
    clause: &PinClause<'t>,
    place: Option<PortPlace>,
    layers: &mut LastLayers<'_, '_, A>,
    nets: &mut NetList<'_, A>,
) -> Result<(), AllocError>
    requires part { HasPart nets.old }
    requires known { layers.old ≡ of.now.library.now }
    ensures ok { OnOk result (nets.new ≡ with_shapes (checked_named of.now.library.now.layers (clause_if (vias_in of.now) (option_map port_place_view place) (pin_clause_view clause.now))) nets.old) }
    ensures part { OnOk result (HasPart nets.new) }
    ensures known { layers.new ≡ of.now.library.now }
{
    let Some(place) = place else {
        return Ok(());
    };
    match clause {
        PinClause::Rectangle(rectangle) => {
            let rect = place.place(corner_rectangle(&rectangle.corners));
            put_named(layers, rectangle.layer.bytes, rect, nets)
        }
        PinClause::Via(via) => put_via(of, via, place, layers, nets),
        _ => Ok(()),
    }
}

/// Puts the shapes of a pin, port by port, into the last part.
fn put_ports<'a, 'l: 'a, 'r: 'a, 't: 'a, A: Allocator + Copy>(
    of: &Sources<'_, 'a, 'l, 'r, 't, A>,
    pin: &PinParts<'t>,
    layers: &mut LastLayers<'_, '_, A>,
    nets: &mut NetList<'_, A>,
) -> Result<(), AllocError>
    requires part { HasPart nets.old }
    requires known { layers.old ≡ of.now.library.now }
    ensures ok { OnOk result (nets.new ≡ with_shapes (design_pin of.now.library.now of.now.names.now (units_of of.now.scale) (pin_view pin.now)).shapes nets.old) }
    ensures part { OnOk result (HasPart nets.new) }
    ensures known { layers.new ≡ of.now.library.now }
{
    let mut place = place_ahead(&pin.clauses);
    let mut left = pin.clauses.again();
    while let Some(clause) = left.next() {
        if is_port(&clause) {
            place = place_ahead(&left);
        } else {
            or_error!(put_clause(of, &clause, place, layers, nets));
        }
    }
    Ok(())
}

/// Whether a via has a shape on a layer of TYPE ROUTING or CUT.
fn via_has_shape<'a, 'l: 'a, 'r: 'a, 't: 'a, A: Allocator + Copy>(
    of: &Sources<'_, 'a, 'l, 'r, 't, A>,
    via: &PinVia<'t>,
    layers: &mut LastLayers<'_, '_, A>,
) -> bool
    requires { layers.old ≡ of.now.library.now }
    ensures value { result ≡ is_some_shape (checked_named of.now.library.now.layers (clause_shapes (vias_in of.now) (pin_has_via (pin_via_view via.now)))) }
    ensures known { layers.new ≡ of.now.library.now }
{
    let mut shapes = of.via_shapes(via.name.bytes);
    while let Some(shape) = shapes.next() {
        if layers.layer_of(shape.layer).is_some() {
            return true;
        }
    }
    false
}

/// Whether a clause has a shape on such a layer.
fn clause_has_shape<'a, 'l: 'a, 'r: 'a, 't: 'a, A: Allocator + Copy>(
    of: &Sources<'_, 'a, 'l, 'r, 't, A>,
    clause: &PinClause<'t>,
    layers: &mut LastLayers<'_, '_, A>,
) -> bool
    requires { layers.old ≡ of.now.library.now }
    ensures value { result ≡ is_some_shape (checked_named of.now.library.now.layers (clause_shapes (vias_in of.now) (pin_clause_view clause.now))) }
    ensures known { layers.new ≡ of.now.library.now }
{
    match clause {
        PinClause::Rectangle(rectangle) => { layers.layer_of(rectangle.layer.bytes).is_some() }
        PinClause::Via(via) => via_has_shape(of, via, layers),
        _ => false,
    }
}

/// Whether a pin counts: whether a clause has a shape on such a layer, placed or not.
fn counts<'a, 'l: 'a, 'r: 'a, 't: 'a, A: Allocator + Copy>(
    of: &Sources<'_, 'a, 'l, 'r, 't, A>,
    pin: &PinParts<'t>,
    layers: &mut LastLayers<'_, '_, A>,
) -> bool
    requires { layers.old ≡ of.now.library.now }
    ensures value { result ≡ (design_pin of.now.library.now of.now.names.now (units_of of.now.scale) (pin_view pin.now)).counts }
    ensures known { layers.new ≡ of.now.library.now }
{
    let mut left = pin.clauses.again();
    while let Some(clause) = left.next() {
        if clause_has_shape(of, &clause, layers) {
            return true;
        }
    }
    false
}

/// Puts a pin of the design behind the parts of the last net, where it counts.
pub(crate) fn put_design_pin<'a, 'l: 'a, 'r: 'a, 't: 'a, A: Allocator + Copy>(
    of: &Sources<'_, 'a, 'l, 'r, 't, A>,
    pin: &PinParts<'t>,
    layers: &mut LastLayers<'_, '_, A>,
    nets: &mut NetList<'_, A>,
) -> Result<(), AllocError>
    requires net { 0 < length nets.old }
    requires known { layers.old ≡ of.now.library.now }
    ensures ok { OnOk result (nets.new ≡ with_parts (counted (design_pin of.now.library.now of.now.names.now (units_of of.now.scale) (pin_view pin.now))) nets.old) }
    ensures net { OnOk result (0 < length nets.new) }
    ensures known { layers.new ≡ of.now.library.now }
{
    if !counts(of, pin, layers) {
        return Ok(());
    }
    nets.begin_part(true)?;
    put_ports(of, pin, layers, nets)
}
