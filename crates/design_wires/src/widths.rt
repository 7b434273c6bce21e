//! How wide wires are (LEF/DEF 5.8 Language Reference, "Layer (Routing)" and "Nondefault Rules").

ghost use Rattle.std.specs.Prelude.{◌≡◌, IfSome};
ghost use Rattle.std.specs.Option.{option_map};
ghost use Rattle.lefdef_tokens.specs.Views.{word_view};
ghost use Rattle.net_rules.specs.Widths.{layer_width, rule_width, wire_width};
ghost use Rattle.design_model.specs.Ranges.{IsSize, IsWithin};
ghost use Rattle.design_wires.specs.RuleWidths.{width_if};
ghost use Rattle.design_wires.specs.Scales.{units_of};

use crate::rule_widths::{def_rule_width, lef_rule_width};
use crate::scale::Scale;
use crate::sizes::as_size;
use cell_library::library::Library;
use cell_library::numbers::in_units;
use design_names::names::Names;
use std::alloc::Allocator;

/// The `WIDTH` of a layer; of one without, or that isn't defined, 0.
pub fn layer_width<A: Allocator + Copy>(library: &Library<'_, A>, scale: Scale, layer: &[u8]) -> i64
    ensures is { result ≡ layer_width library.now (units_of scale) layer.now }
    ensures near { IsWithin 100000000000 result }
{
    let Some(found) = library.layer_named(layer) else {
        return 0;
    };
    match found.width {
        Some(width) => in_units(width, scale.per_micron()),
        None => 0,
    }
}

/// The width that the rule of a name gives on a layer. Rules of DEF come before those of LEF.
pub fn rule_width<A: Allocator + Copy>(
    library: &Library<'_, A>,
    names: &Names<'_, '_, A>,
    scale: Scale,
    rule: &[u8],
    layer: &[u8],
) -> Option<i64>
    ensures is { result ≡ rule_width library.now names.now (units_of scale) layer.now rule.now }
    ensures near { IfSome result (IsWithin 100000000000) }
{
    if let Some(parts) = names.rule(rule) {
        return def_rule_width(parts, layer);
    }
    match library.rule(rule) {
        Some(found) => lef_rule_width(found, layer, scale),
        None => None,
    }
}

/// The same, where there is a rule.
fn width_by<A: Allocator + Copy>(
    library: &Library<'_, A>,
    names: &Names<'_, '_, A>,
    scale: Scale,
    rule: Option<&[u8]>,
    layer: &[u8],
) -> Option<i64>
    ensures is { result ≡ width_if library.now names.now (units_of scale) (option_map word_view rule.entry) layer.now }
    ensures near { IfSome result (IsWithin 100000000000) }
{
    match rule {
        Some(rule) => rule_width(library, names, scale, rule, layer),
        None => None,
    }
}

/// The width of a wire on a layer, by a rule if there is one; a rule that isn't defined, or that has no such layer, leaves
/// the layer's `WIDTH`.
pub fn wire_width<A: Allocator + Copy>(
    library: &Library<'_, A>,
    names: &Names<'_, '_, A>,
    scale: Scale,
    rule: Option<&[u8]>,
    layer: &[u8],
) -> i64
    ensures is { result ≡ wire_width library.now names.now (units_of scale) (option_map word_view rule.entry) layer.now }
    ensures size { IsSize result }
{
    match width_by(library, names, scale, rule, layer) {
        Some(width) => as_size(width),
        None => as_size(layer_width(library, scale, layer)),
    }
}
