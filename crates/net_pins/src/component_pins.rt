//! The pin of a component as a part of a net (LEF/DEF 5.8 Language Reference, "Nets").

ghost use Rattle.std.specs.Prelude.{◌≡◌, ◌<◌, OnOk, length};
ghost use Rattle.connection_rules.specs.Terminals.{component_pin};
ghost use Rattle.connection_rules.specs.PinShapes.{macro_pin_shapes, shapes_at};
ghost use Rattle.def_grammar.specs.Placing.{placing};
ghost use Rattle.lef_grammar.specs.Library.{Macro as TheMacro};
ghost use Rattle.net_lists.specs.Building.{with_parts, with_shapes};
ghost use Rattle.cell_library.specs.PinViews.{pin_view};
ghost use Rattle.place_parts.specs.ComponentViews.{component_view};
ghost use Rattle.design_wires.specs.Scales.{units_of};
ghost use Rattle.net_pins.specs.Counting.{counted};
ghost use Rattle.net_pins.specs.FoundPins.{IsFrameOf};
ghost use Rattle.net_pins.specs.Putting.{HasPart};

use crate::cell_place::CellPlace;
use crate::found_pin::FoundPin;
use crate::last_rects::LastRects;
use crate::macro_pins::{has_shape, put_shapes};
use checked_layers::LastLayers;
use net_lists::NetList;
use place_parts::component_parts::ComponentParts;
use place_parts::standing::Standing;
use std::alloc::{AllocError, Allocator};

/// Puts the shapes of a component's pin, where the component is placed, into the last part.
#[inline(always)]
fn put_placed<A: Allocator + Copy>(
    pin: FoundPin<'_, '_, '_, A>,
    component: &ComponentParts<'_>,
    layers: &mut LastLayers<'_, '_, A>,
    rects: &mut LastRects,
    nets: &mut NetList<'_, A>,
) -> Result<(), AllocError>
    requires { HasPart nets.old }
    ensures ok { (m : TheMacro) → IsFrameOf m pin.entry.frame → OnOk result (nets.new ≡ with_shapes (component_pin layers.old (units_of pin.entry.frame.scale) (component_view component.now) m (pin_view (pin.entry.name.now, pin.entry.pin.now))).shapes nets.old) }
    ensures part { OnOk result (HasPart nets.new) }
    ensures same { layers.new ≡ layers.old }
{
    let Some(standing) = component.standing else {
        return Ok(());
    };
    let Standing::At(spot) = standing else {
        return Ok(());
    };
    let place = CellPlace::of(pin.frame, spot);
    put_shapes(layers, place, pin.pin.shapes.as_slice(), rects, nets)
}

/// Puts a component's pin behind the parts of the last net, where it counts.
#[inline(always)]
pub(crate) fn put_component_pin<A: Allocator + Copy>(
    pin: FoundPin<'_, '_, '_, A>,
    component: &ComponentParts<'_>,
    layers: &mut LastLayers<'_, '_, A>,
    rects: &mut LastRects,
    nets: &mut NetList<'_, A>,
) -> Result<(), AllocError>
    requires { 0 < length nets.old }
    ensures ok { (m : TheMacro) → IsFrameOf m pin.entry.frame → OnOk result (nets.new ≡ with_parts (counted (component_pin layers.old (units_of pin.entry.frame.scale) (component_view component.now) m (pin_view (pin.entry.name.now, pin.entry.pin.now)))) nets.old) }
    ensures net { OnOk result (0 < length nets.new) }
    ensures same { layers.new ≡ layers.old }
{
    if !has_shape(layers, pin.pin.shapes.as_slice()) {
        return Ok(());
    }
    or_error!(nets.begin_part(true));
    put_placed(pin, component, layers, rects, nets)
}
