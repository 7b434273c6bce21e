//! The names in entries of NETS, and how many of their parts aren't checked, in one reading (LEF/DEF 5.8 Language Reference,
//! "Nets").

ghost use Rattle.std.specs.Prelude.{◌≡◌, ◌++◌, ◌<◌, ◌^◌, flat_map, map, sum, IfOk, OnOk};
ghost use Rattle.std.specs.Option.{option_map, option_or};
ghost use Rattle.form_meanings.specs.Firsts.{first_of};
ghost use Rattle.def_grammar.specs.Nets.{is_net, net_wiring, rule_of_clause};
ghost use Rattle.def_grammar.specs.NetWires.{wires_of};
ghost use Rattle.def_grammar.specs.Records.{net};
ghost use Rattle.def_grammar.specs.Wiring.{WireVia as TheWireVia};
ghost use Rattle.def_parts.specs.ClauseViews.{bytes_view, kept_view};
ghost use Rattle.wire_parts.specs.NetViews.{net_clause_view, net_clauses_of, net_entry_view, net_view};
ghost use Rattle.wire_parts.specs.PathViews.{net_path_view};
ghost use Rattle.wire_parts.specs.WiringViews.{taper_view, wire_view, wires_of as later_wires, wiring_view};
ghost use Rattle.entry_rules.specs.References.{first_to, item_references, net_references, taper_references, to_rule, wire_references};
ghost use Rattle.entry_rules.specs.Unchecked.{diagonals_of, is_listed, net_words, unchecked_in, unchecked_in_clause, unchecked_in_wire};
ghost use Rattle.entry_rules.specs.WireItems.{net_via};
ghost use Rattle.entry_references.specs.ReferenceViews.{references_view};

use crate::diagonals::is_diagonal;
use crate::reference::{Reference, push};
use crate::terminals::push_terminals;
use crate::token_count::few_tokens;
use def_parts::clauses::KeptClause;
use lefdef_tokens::{Token, is_word};
use statement_reader::parts::Parts;
use std::alloc::{AllocError, Allocator};
use wire_parts::nets::{NetClause, NetEntry, NetParts};
use wire_parts::paths::{Path, PathItem, WireVia};
use wire_parts::wiring::{Taper, Wire, Wiring};

/// What clauses of a net say: the first nondefault rule that one of them names, and how many parts aren't checked.
#[derive(Clone, Copy)]
struct Noted<'t> {
    rule: Option<Token<'t>>,
    unchecked: usize,
}

/// Adds the vias of a path, and gives how many of its segments are diagonal.
#[tactic(auto, unfolding(entry_rules::specs::WireItems::items_after, entry_rules::specs::Unchecked::diagonals))]
fn push_path<'t, A: Allocator>(
    path: &Path<'t, WireVia<'t>>,
    found: &mut Vec<Reference<'t>, A>,
) -> Result<usize, AllocError>
    ensures references { OnOk result (references_view found.new.items ≡ references_view found.old.items ++ item_references (λ (v : TheWireVia). v) (net_path_view path.now).items) }
    ensures diagonals { IfOk result (λ n. n ≡ diagonals_of net_via (net_path_view path.now)) }
{
    let mut at = path.start.at.place();
    let mut left = path.items.again();
    let mut count = 0;
    while let Some(item) = left.next() {
        match item {
            PathItem::Via(via) => push(found, Reference::Via(via.name.bytes))?,
            PathItem::Virtual(to) => at = to.place_after(at),
            PathItem::Point(to) => {
                let to = to.at.place_after(at);
                if is_diagonal(at, to) {
                    count += 1;
                }
                at = to;
            }
            PathItem::Mask(_) | PathItem::Rectangle(_) => {}
        }
    }
    Ok(count)
}

/// Adds the rule of a wire.
fn push_taper<'t, A: Allocator>(
    taper: Taper<'t>,
    found: &mut Vec<Reference<'t>, A>,
) -> Result<(), AllocError>
    ensures { OnOk result (references_view found.new.items ≡ references_view found.old.items ++ taper_references (taper_view taper.entry)) }
{
    match taper {
        Taper::Rule(rule) => push(found, Reference::Rule(rule.bytes)),
        Taper::Layer | Taper::Net => Ok(()),
    }
}

/// Adds the layer, the rule and the vias of a wire, and gives how many of its parts aren't checked: its style, and its diagonal
/// segments.
fn push_wire<'t, A: Allocator>(
    wire: &Wire<'t>,
    found: &mut Vec<Reference<'t>, A>,
) -> Result<usize, AllocError>
    requires { unchecked_in_wire (wire_view wire.now) < 2 ^ 63 }
    ensures references { OnOk result (references_view found.new.items ≡ references_view found.old.items ++ wire_references (wire_view wire.now)) }
    ensures unchecked { IfOk result (λ n. n ≡ unchecked_in_wire (wire_view wire.now)) }
{
    push(found, Reference::Layer(wire.layer.bytes))?;
    push_taper(wire.taper, found)?;
    let diagonals = push_path(&wire.path, found)?;
    match wire.style {
        Some(_) => Ok(diagonals + 1),
        None => Ok(diagonals),
    }
}

/// Adds what wires name that come after the first of a clause, and gives how many of their parts aren't checked.
fn push_later_wires<'t, A: Allocator>(
    wires: Parts<'t, Wire<'t>>,
    found: &mut Vec<Reference<'t>, A>,
) -> Result<usize, AllocError>
    requires { sum (map unchecked_in_wire (later_wires wires)) < 2 ^ 63 }
    ensures references { OnOk result (references_view found.new.items ≡ references_view found.old.items ++ flat_map wire_references (later_wires wires.entry)) }
    ensures unchecked { IfOk result (λ n. n ≡ sum (map unchecked_in_wire (later_wires wires.entry))) }
{
    let mut left = wires;
    let mut count = 0;
    while let Some(wire) = left.next() {
        count += push_wire(&wire, found)?;
    }
    Ok(count)
}

/// Adds what the wires of a wiring clause name, and gives how many of their parts aren't checked.
fn push_wiring<'t, A: Allocator>(
    wiring: &Wiring<'t>,
    found: &mut Vec<Reference<'t>, A>,
) -> Result<usize, AllocError>
    requires { unchecked_in_clause (net_wiring (wiring_view wiring.now)) < 2 ^ 63 }
    ensures references { OnOk result (references_view found.new.items ≡ references_view found.old.items ++ flat_map wire_references (wires_of (net_wiring (wiring_view wiring.now)))) }
    ensures unchecked { IfOk result (λ n. n ≡ unchecked_in_clause (net_wiring (wiring_view wiring.now))) }
{
    let first = push_wire(&wiring.first, found)?;
    let others = push_later_wires(wiring.others.again(), found)?;
    Ok(first + others)
}

/// Whether a clause begins as one that has a form.
fn is_listed(clause: &KeptClause<'_>) -> bool
    ensures { result ≡ is_listed net_words (kept_view clause.now) }
{
    let word = clause.keyword.bytes;
    is_word(word, b"USE")
        || is_word(word, b"NONDEFAULTRULE")
        || is_word(word, b"ROUTED")
        || is_word(word, b"FIXED")
        || is_word(word, b"COVER")
        || is_word(word, b"NOSHIELD")
}

/// Adds what the wires of a clause name, and gives how many of its parts aren't checked.
fn push_clause<'t, A: Allocator>(
    clause: &NetClause<'t>,
    found: &mut Vec<Reference<'t>, A>,
) -> Result<usize, AllocError>
    requires { unchecked_in_clause (net_clause_view clause.now) < 2 ^ 63 }
    ensures references { OnOk result (references_view found.new.items ≡ references_view found.old.items ++ flat_map wire_references (wires_of (net_clause_view clause.now))) }
    ensures unchecked { IfOk result (λ n. n ≡ unchecked_in_clause (net_clause_view clause.now)) }
{
    match clause {
        NetClause::Subnet(_) => Ok(1),
        NetClause::Wiring(wiring) => push_wiring(wiring, found),
        NetClause::Other(kept) => { if is_listed(kept) { Ok(1) } else { Ok(0) } }
        NetClause::Use(_) | NetClause::Rule(_) => Ok(0),
    }
}

/// The rule that was found before a clause, or else its own.
fn first_rule<'t>(found: Option<Token<'t>>, clause: &NetClause<'t>) -> Option<Token<'t>>
    ensures { option_map bytes_view result ≡ option_or (option_map bytes_view found.entry) (rule_of_clause (net_clause_view clause.now)) }
{
    match (found, clause) {
        (None, NetClause::Rule(name)) => Some(*name),
        _ => found,
    }
}

/// Adds what the wires of clauses name, and gives what is noted of the clauses.
fn push_clauses<'t, A: Allocator>(
    clauses: Parts<'t, NetClause<'t>>,
    found: &mut Vec<Reference<'t>, A>,
) -> Result<Noted<'t>, AllocError>
    requires { sum (map unchecked_in_clause (net_clauses_of clauses)) < 2 ^ 63 }
    ensures wires { OnOk result (references_view found.new.items ≡ references_view found.old.items ++ flat_map wire_references (flat_map wires_of (net_clauses_of clauses.entry))) }
    ensures rule { IfOk result (λ noted. option_map bytes_view noted.rule ≡ first_of rule_of_clause (net_clauses_of clauses.entry)) }
    ensures unchecked { IfOk result (λ noted. noted.unchecked ≡ sum (map unchecked_in_clause (net_clauses_of clauses.entry))) }
{
    let mut left = clauses;
    let mut rule = None;
    let mut unchecked = 0;
    while let Some(clause) = left.next() {
        rule = first_rule(rule, &clause);
        unchecked += push_clause(&clause, found)?;
    }
    Ok(Noted { rule, unchecked })
}

/// Adds the first nondefault rule of a net, and what its wires name, and gives how many parts of its clauses aren't checked. The
/// clauses are read once, so the rule, which comes before what any wire names, is put in its place at the end.
fn push_rule_and_wires<'t, A: Allocator>(
    clauses: Parts<'t, NetClause<'t>>,
    found: &mut Vec<Reference<'t>, A>,
) -> Result<usize, AllocError>
    requires { sum (map unchecked_in_clause (net_clauses_of clauses)) < 2 ^ 63 }
    ensures references { OnOk result (references_view found.new.items ≡ references_view found.old.items ++ (first_to to_rule rule_of_clause (net_clauses_of clauses.entry) ++ flat_map wire_references (flat_map wires_of (net_clauses_of clauses.entry)))) }
    ensures unchecked { IfOk result (λ n. n ≡ sum (map unchecked_in_clause (net_clauses_of clauses.entry))) }
{
    let place = found.len();
    let noted = push_clauses(clauses, found)?;
    if let Some(rule) = noted.rule {
        found.insert(place, Reference::Rule(rule.bytes))?;
    }
    Ok(noted.unchecked)
}

/// Adds the terminals of a net, its first nondefault rule, and what its wires name, and gives how many of its parts aren't
/// checked.
#[tactic(auto, using(crate::proofs::WireCounts::few_in_clauses))]
fn push_parts<'t, A: Allocator>(
    parts: &NetParts<'t>,
    found: &mut Vec<Reference<'t>, A>,
) -> Result<usize, AllocError>
    ensures references { OnOk result (references_view found.new.items ≡ references_view found.old.items ++ net_references (is_net (net_view parts.now))) }
    ensures unchecked { IfOk result (λ n. n ≡ unchecked_in (net (is_net (net_view parts.now)))) }
    ensures few { IfOk result (λ n. n < 2 ^ 63) }
{
    few_tokens(&parts.clauses.cursor);
    push_terminals(parts.terminals.again(), found)?;
    push_rule_and_wires(parts.clauses.again(), found)
}

/// Adds what an entry of NETS names, at the end of a list, and gives how many of its parts aren't checked, all of which takes one
/// reading of its wires. Where memory is refused the list may hold some of the names.
pub fn push_net<'t, A: Allocator>(
    entry: &NetEntry<'t>,
    found: &mut Vec<Reference<'t>, A>,
) -> Result<usize, AllocError>
    ensures references { OnOk result (references_view found.new.items ≡ references_view found.old.items ++ net_references (net_entry_view entry.now)) }
    ensures unchecked { IfOk result (λ n. n ≡ unchecked_in (net (net_entry_view entry.now))) }
    ensures few { IfOk result (λ n. n < 2 ^ 63) }
{
    match entry {
        NetEntry::MustJoin(_) => Ok(0),
        NetEntry::Net(parts) => push_parts(parts, found),
    }
}
