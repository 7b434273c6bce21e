//! The shapes of a pin of a macro on layers of TYPE ROUTING or CUT (LEF/DEF 5.8 Language Reference, "Macro Pin Statement").

ghost use Rattle.std.specs.Prelude.{◌≡◌, ℕ, OnOk, map};
ghost use Rattle.design_model.specs.declared.geometry.Point.{Point as ThePoint};
ghost use Rattle.connection_rules.specs.Terminals.{is_some_shape};
ghost use Rattle.net_lists.specs.Building.{with_shapes};
ghost use Rattle.cell_library.specs.Numbers.{rectangle_view};
ghost use Rattle.cell_library.specs.ShapeViews.{shapes_view};
ghost use Rattle.net_pins.specs.MacroPins.{all_checked, all_placed, layer_checked, layer_placed, rectangles_placed};
ghost use Rattle.net_pins.specs.Putting.{HasPart};

use crate::cell_place::CellPlace;
use crate::last_rects::LastRects;
use cell_library::numbers::MicronRect;
use cell_library::shapes::LayerShapes;
use checked_layers::LastLayers;
use design_model::identifier::LayerId;
use net_lists::NetList;
use std::alloc::{AllocError, Allocator};

/// Whether there is a rectangle on a layer, and the layer is such a one.
#[inline(always)]
fn layer_has_shape<A: Allocator + Copy>(
    layers: &mut LastLayers<'_, '_, A>,
    layer: &LayerShapes<'_, A>,
) -> bool
    ensures value { (u : ℕ) (o : ThePoint) → result ≡ is_some_shape (layer_checked u o layers.old.layers (shapes_view layer.now)) }
    ensures same { layers.new ≡ layers.old }
{
    if layer.rectangles.as_slice().is_empty() {
        return false;
    }
    layers.layer_of(layer.layer).is_some()
}

/// Whether there is a shape on such a layer.
#[inline(always)]
pub(crate) fn has_shape<A: Allocator + Copy>(
    layers: &mut LastLayers<'_, '_, A>,
    shapes: &[LayerShapes<'_, A>],
) -> bool
    ensures value { (u : ℕ) (o : ThePoint) → result ≡ is_some_shape (all_checked u o layers.old.layers (map shapes_view shapes.now)) }
    ensures same { layers.new ≡ layers.old }
{
    for layer in shapes {
        if layer_has_shape(layers, layer) {
            return true;
        }
    }
    false
}

/// Puts rectangles on a layer, where they lie for a component, into the last part.
#[inline(always)]
fn put_rectangles<A: Allocator + Copy>(
    place: CellPlace,
    layer: LayerId,
    rectangles: &[MicronRect],
    rects: &mut LastRects,
    nets: &mut NetList<'_, A>,
) -> Result<(), AllocError>
    requires { HasPart nets.old }
    ensures ok { OnOk result (nets.new ≡ with_shapes (rectangles_placed place (map rectangle_view rectangles.now) layer.0) nets.old) }
    ensures part { OnOk result (HasPart nets.new) }
{
    for rectangle in rectangles {
        or_error!(nets.push_shape(layer, place.place(rects, *rectangle)));
    }
    Ok(())
}

/// Puts the shapes on a layer, where it is such a one, into the last part.
#[inline(always)]
fn put_layer<A: Allocator + Copy>(
    layers: &mut LastLayers<'_, '_, A>,
    place: CellPlace,
    layer: &LayerShapes<'_, A>,
    rects: &mut LastRects,
    nets: &mut NetList<'_, A>,
) -> Result<(), AllocError>
    requires { HasPart nets.old }
    ensures ok { OnOk result (nets.new ≡ with_shapes (layer_placed place layers.old.layers (shapes_view layer.now)) nets.old) }
    ensures part { OnOk result (HasPart nets.new) }
    ensures same { layers.new ≡ layers.old }
{
    match layers.layer_of(layer.layer) {
        Some(id) => put_rectangles(place, id, layer.rectangles.as_slice(), rects, nets),
        None => Ok(()),
    }
}

/// Puts the shapes on such layers, where they lie for a component, into the last part.
#[inline(always)]
pub(crate) fn put_shapes<A: Allocator + Copy>(
    layers: &mut LastLayers<'_, '_, A>,
    place: CellPlace,
    shapes: &[LayerShapes<'_, A>],
    rects: &mut LastRects,
    nets: &mut NetList<'_, A>,
) -> Result<(), AllocError>
    requires { HasPart nets.old }
    ensures ok { OnOk result (nets.new ≡ with_shapes (all_placed place layers.old.layers (map shapes_view shapes.now)) nets.old) }
    ensures part { OnOk result (HasPart nets.new) }
    ensures same { layers.new ≡ layers.old }
{
    for layer in shapes {
        or_error!(put_layer(layers, place, layer, rects, nets));
    }
    Ok(())
}
