//! The width that a nondefault rule gives on a layer (LEF/DEF 5.8 Language Reference, "Nondefault Rules").

ghost use Rattle.std.specs.Prelude.{◌≡◌, ℕ, List, IfSome};
ghost use Rattle.std.specs.Option.{option_map};
ghost use Rattle.def_grammar.specs.Numbers.{int_of};
ghost use Rattle.via_parts.specs.RuleViews.{rule_view, rule_clauses_of};
ghost use Rattle.cell_library.specs.RuleViews.{rule_view as lef_rule_view};
ghost use Rattle.net_rules.specs.Widths.{def_rule_width, lef_rule_width};
ghost use Rattle.design_model.specs.Ranges.{IsWithin};
ghost use Rattle.design_wires.specs.RuleLayers.{first_width};
ghost use Rattle.design_wires.specs.Scales.{units_of};

use crate::scale::Scale;
use cell_library::numbers::in_units;
use cell_library::rule::Rule;
use def_parts::number::int_of;
use lefdef_tokens::is_word;
use statement_reader::parts::Parts;
use std::alloc::Allocator;
use via_parts::rules::{RuleClause, RuleParts};

/// The width of the first `LAYER` of a name among clauses of a rule.
fn first_width<'t>(clauses: Parts<'t, RuleClause<'t>>, layer: &[u8]) -> Option<i64>
    ensures is { result ≡ first_width layer.now (rule_clauses_of clauses.entry) }
    ensures near { IfSome result (IsWithin 100000000000) }
{
    let mut left = clauses;
    while let Some(clause) = left.next() {
        if let RuleClause::Layer(found) = clause {
            if is_word(found.layer.bytes, layer) {
                return Some(int_of(found.width.bytes) as i64);
            }
        }
    }
    None
}

/// The width that a rule of DEF gives on a layer.
pub(crate) fn def_rule_width(rule: &RuleParts<'_>, layer: &[u8]) -> Option<i64>
    ensures is { result ≡ def_rule_width layer.now (rule_view rule.now) }
    ensures near { IfSome result (IsWithin 100000000000) }
{
    first_width(rule.clauses.again(), layer)
}

/// The width that a rule of LEF gives on a layer.
pub(crate) fn lef_rule_width<A: Allocator + Copy>(
    rule: &Rule<'_, A>,
    layer: &[u8],
    scale: Scale,
) -> Option<i64>
    ensures is { (name : List ℕ) → result ≡ lef_rule_width (units_of scale) layer.now (lef_rule_view (name, rule.now)) }
    ensures near { IfSome result (IsWithin 100000000000) }
{
    let width = rule.layers.get(layer)?.width?;
    Some(in_units(width, scale.per_micron()))
}
