//! Parts of special nets whose shape isn't checked (LEF/DEF 5.8 Language Reference, "Special Nets").

ghost use Rattle.std.specs.Prelude.{◌≡◌, ◌<◌, ◌^◌, map, sum};
ghost use Rattle.std.specs.List.{list_any};
ghost use Rattle.def_parts.specs.ClauseViews.{kept_view};
ghost use Rattle.wire_parts.specs.SpecialNetViews.{special_clause_view, special_clauses_of, special_net_view};
ghost use Rattle.wire_parts.specs.WiringViews.{marks_of, special_wire_view, special_wires_of, special_wiring_view};
ghost use Rattle.def_grammar.specs.SpecialNets.{special_has_wiring};
ghost use Rattle.def_grammar.specs.Records.{special_net};
ghost use Rattle.entry_rules.specs.Unchecked.{is_listed, is_style, special_words, unchecked_in, unchecked_in_special, unchecked_in_special_wire};

use crate::diagonals::special_diagonals;
use crate::unchecked_parts::{UncheckedParts, count_unchecked};
use def_parts::clauses::KeptClause;
use entry_references::token_count::few_tokens;
use lefdef_tokens::is_word;
use statement_reader::parts::Parts;
use wire_parts::special_nets::{SpecialClause, SpecialNetParts};
use wire_parts::wiring::{SpecialWire, SpecialWiring, WireMark};

/// Whether a style stands among marks of a wire.
fn has_style<'t>(marks: Parts<'t, WireMark<'t>>) -> bool
    ensures { result ≡ list_any is_style (marks_of marks.entry) }
{
    let mut left = marks;
    while let Some(mark) = left.next() {
        if let WireMark::Style(_) = mark {
            return true;
        }
    }
    false
}

/// How many parts of a wire aren't checked: its style, and its diagonal segments.
fn in_wire(wire: SpecialWire<'_>) -> usize
    requires { unchecked_in_special_wire (special_wire_view wire) < 2 ^ 63 }
    ensures { result ≡ unchecked_in_special_wire (special_wire_view wire.entry) }
{
    let segments = special_diagonals(&wire.path);
    if has_style(wire.marks) {
        segments + 1
    } else {
        segments
    }
}

impl<'t> UncheckedParts for Parts<'t, SpecialWire<'t>> {
    ghost unchecked = { λ p. sum (map unchecked_in_special_wire (special_wires_of p)) };

    ghost left = { λ p. p.most };

    fn next_unchecked(&mut self) -> Option<usize> {
        let wire = self.next()?;
        Some(in_wire(wire))
    }
}

/// How many parts of a wiring clause aren't checked.
fn in_wiring(wiring: SpecialWiring<'_>) -> usize
    requires { unchecked_in_special (special_has_wiring (special_wiring_view wiring)) < 2 ^ 63 }
    ensures { result ≡ unchecked_in_special (special_has_wiring (special_wiring_view wiring.entry)) }
{
    match wiring.wires {
        Some(wires) => in_wire(wires.first) + count_unchecked(wires.others),
        None => 0,
    }
}

/// Whether a clause begins as one that has a form.
fn is_listed(clause: KeptClause<'_>) -> bool
    ensures { result ≡ is_listed special_words (kept_view clause.entry) }
{
    let word = clause.keyword.bytes;
    is_word(word, b"USE")
        || is_word(word, b"ROUTED")
        || is_word(word, b"FIXED")
        || is_word(word, b"COVER")
        || is_word(word, b"SHIELD")
        || is_word(word, b"RECT")
        || is_word(word, b"VIA")
        || is_word(word, b"POLYGON")
        || is_word(word, b"SHAPE")
        || is_word(word, b"MASK")
}

/// How many parts of a clause aren't checked.
fn in_clause(clause: SpecialClause<'_>) -> usize
    requires { unchecked_in_special (special_clause_view clause) < 2 ^ 63 }
    ensures { result ≡ unchecked_in_special (special_clause_view clause.entry) }
{
    match clause {
        SpecialClause::Subnet(_) | SpecialClause::Polygon(_, _) => 1,
        SpecialClause::Wiring(wiring) => in_wiring(wiring),
        SpecialClause::Other(kept) => { if is_listed(kept) { 1 } else { 0 } }
        SpecialClause::Use(_)
        | SpecialClause::Shape(_)
        | SpecialClause::Mask(_)
        | SpecialClause::Rectangle(_, _)
        | SpecialClause::Vias(_) => 0,
    }
}

impl<'t> UncheckedParts for Parts<'t, SpecialClause<'t>> {
    ghost unchecked = { λ p. sum (map unchecked_in_special (special_clauses_of p)) };

    ghost left = { λ p. p.most };

    fn next_unchecked(&mut self) -> Option<usize> {
        let clause = self.next()?;
        Some(in_clause(clause))
    }
}

/// How many parts of an entry of SPECIALNETS aren't checked.
#[tactic(auto, using(crate::proofs::SpecialWireCounts::few_in_special_clauses))]
pub(crate) fn in_special_net(parts: &SpecialNetParts<'_>) -> usize
    ensures count { result ≡ unchecked_in (special_net (special_net_view parts.now)) }
    ensures few { result < 2 ^ 63 }
{
    few_tokens(&parts.clauses.cursor);
    count_unchecked(parts.clauses.again())
}
