//! The wires of a special net, one after the other (LEF/DEF 5.8 Language Reference, "Special Wiring Statement").

ghost use Rattle.std.specs.Prelude.{◌≡◌, ℕ, List, IfSome};
ghost use Rattle.def_grammar.specs.SpecialWires.{special_net_wires, special_wires_of};
ghost use Rattle.statement_model.specs.Tokens.{Token};
ghost use Rattle.lefdef_tokens.specs.Places.{behind};
ghost use Rattle.lefdef_tokens.specs.Views.{IsLater};
ghost use Rattle.wire_parts.specs.SpecialNetViews.{SpecialClauseAt, special_clause_view, special_net_view};
ghost use Rattle.wire_parts.specs.SpecialWireViews.{IsNextWires, SpecialClauseLeftIn, SpecialPathsIn, of_special_clause, special_paths_left};
ghost use Rattle.wire_parts.specs.WiresLeft.{GivesFirst, StandsIn};
ghost use Rattle.wire_parts.specs.WiringViews.{SpecialWireAt, SpecialWiresAt, special_wire_view, wires_view};

use crate::special_nets::{SpecialClause, SpecialNetParts};
use crate::wiring::{SpecialWire, SpecialWires};
use statement_reader::parts::Parts;

/// Gives the wires of a special net, clause by clause. It takes no memory.
#[derive(Clone, Copy)]
pub struct SpecialPaths<'t> {
    /// Those that are left of the present wiring clause.
    pub wires: Option<Parts<'t, SpecialWire<'t>>>,
    pub clauses: Parts<'t, SpecialClause<'t>>,
}

impl<'t> SpecialNetParts<'t> {
    /// The wires of all its wiring clauses, in the order of the text. Its other shapes are no wires.
    pub fn paths(&self) -> SpecialPaths<'t>
        ensures gives { special_paths_left result ≡ special_net_wires (special_net_view self.now) }
        ensures text { SpecialPathsIn self.now.clauses.cursor.tokens.text.now result }
    {
        SpecialPaths {
            wires: None,
            clauses: self.clauses.again(),
        }
    }
}

/// The wires of a clause, if it is a wiring clause that has some.
fn wires_of<'t>(clause: SpecialClause<'t>) -> Option<SpecialWires<'t>>
    ensures gives { wires_view result ≡ special_wires_of (special_clause_view clause.entry) }
    ensures lent { (ps : List Token) → SpecialClauseAt ps clause.entry → IfSome result (λ w. (others : List (List ℕ)) × SpecialWiresAt (behind others ps) w) }
{
    match clause {
        SpecialClause::Wiring(wiring) => wiring.wires,
        _ => None,
    }
}

/// The wires of the next clause that has some. The clauses before it are passed over.
fn next_wires<'t>(clauses: &mut Parts<'t, SpecialClause<'t>>) -> Option<SpecialWires<'t>>
    ensures step { IsNextWires clauses.old result clauses.new }
    ensures later { IsLater clauses.old.cursor clauses.new.cursor }
    ensures lent { IfSome result (λ w. StandsIn SpecialWiresAt clauses.old.cursor.tokens.text.now w) }
{
    while let Some(clause) = clauses.next() {
        if let Some(wires) = wires_of(clause) {
            return Some(wires);
        }
    }
    None
}

/// The next wire of the present clause.
fn next_of_clause<'t>(wires: &mut Option<Parts<'t, SpecialWire<'t>>>) -> Option<SpecialWire<'t>>
    ensures step { GivesFirst special_wire_view (of_special_clause wires.old) result (of_special_clause wires.new) }
    ensures text { (text : List ℕ) → SpecialClauseLeftIn text wires.old → SpecialClauseLeftIn text wires.new }
    ensures lent { (text : List ℕ) → SpecialClauseLeftIn text wires.old → IfSome result (λ w. StandsIn SpecialWireAt text w) }
{
    match wires {
        Some(left) => left.next(),
        None => None,
    }
}

impl<'t> SpecialPaths<'t> {
    /// The next wire; at the end `None`, then and ever after.
    pub fn next(&mut self) -> Option<SpecialWire<'t>>
        ensures step { GivesFirst special_wire_view (special_paths_left self.old) result (special_paths_left self.new) }
        ensures text { (text : List ℕ) → SpecialPathsIn text self.old → SpecialPathsIn text self.new }
        ensures lent { (text : List ℕ) → SpecialPathsIn text self.old → IfSome result (λ w. StandsIn SpecialWireAt text w) }
    {
        if let Some(wire) = next_of_clause(&mut self.wires) {
            return Some(wire);
        }
        let wires = next_wires(&mut self.clauses)?;
        self.wires = Some(wires.others);
        Some(wires.first)
    }
}
