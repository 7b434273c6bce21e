//! The names in entries of NONDEFAULTRULES (LEF/DEF 5.8 Language Reference, "Nondefault Rules").

ghost use Rattle.std.specs.Prelude.{◌≡◌, ◌++◌, OnOk};
ghost use Rattle.std.specs.List.{list_any};
ghost use Rattle.via_parts.specs.RuleViews.{rule_view};
ghost use Rattle.entry_rules.specs.References.{rule_references};
ghost use Rattle.entry_references.specs.ReferenceViews.{is_to_layer, references_view};

use crate::reference::{Reference, push};
use std::alloc::{AllocError, Allocator};
use via_parts::rules::{RuleClause, RuleParts};

/// Whether one of these is a reference to this layer.
fn has_layer(found: &[Reference<'_>], layer: &[u8]) -> bool
    ensures { result ≡ list_any (is_to_layer layer.now) (references_view found.now) }
{
    for reference in found {
        if let Reference::Layer(name) = reference {
            if *name == layer {
                return true;
            }
        }
    }
    false
}

/// Adds the layers of a rule, each once.
pub(crate) fn push_rule<'t, A: Allocator>(
    parts: &RuleParts<'t>,
    found: &mut Vec<Reference<'t>, A>,
) -> Result<(), AllocError>
    ensures { OnOk result (references_view found.new.items ≡ references_view found.old.items ++ rule_references (rule_view parts.now)) }
{
    let start = found.len();
    let mut left = parts.clauses.again();
    while let Some(clause) = left.next() {
        let RuleClause::Layer(layer) = clause else {
            continue;
        };
        if !has_layer(&found[start..], layer.layer.bytes) {
            push(found, Reference::Layer(layer.layer.bytes))?;
        }
    }
    Ok(())
}
