//! The wires of a net, one after the other (LEF/DEF 5.8 Language Reference, "Regular Wiring Statement").

ghost use Rattle.std.specs.Prelude.{◌≡◌, ℕ, List, IfSome};
ghost use Rattle.def_grammar.specs.NetWires.{net_wires, wires_of};
ghost use Rattle.statement_model.specs.Tokens.{Token};
ghost use Rattle.lefdef_tokens.specs.Views.{IsLater};
ghost use Rattle.wire_parts.specs.NetViews.{NetClauseAt, net_clause_view, net_view};
ghost use Rattle.wire_parts.specs.NetWireViews.{ClauseLeftIn, IsNextWiring, PathsIn, of_clause, of_wiring, paths_left};
ghost use Rattle.wire_parts.specs.WiresLeft.{GivesFirst, StandsIn};
ghost use Rattle.wire_parts.specs.WiringViews.{WireAt, WiringAt, wire_view};

use crate::nets::{NetClause, NetParts};
use crate::wiring::{Wire, Wiring};
use statement_reader::parts::Parts;

/// Gives the wires of a net, clause by clause. It takes no memory.
#[derive(Clone, Copy)]
pub struct NetPaths<'t> {
    /// Those that are left of the present wiring clause.
    pub wires: Option<Parts<'t, Wire<'t>>>,
    pub clauses: Parts<'t, NetClause<'t>>,
}

impl<'t> NetParts<'t> {
    /// The wires of all its wiring clauses, in the order of the text.
    pub fn paths(&self) -> NetPaths<'t>
        ensures gives { paths_left result ≡ net_wires (net_view self.now) }
        ensures text { PathsIn self.now.clauses.cursor.tokens.text.now result }
    {
        NetPaths {
            wires: None,
            clauses: self.clauses.again(),
        }
    }
}

/// The wiring of a clause, if it is one.
fn wiring_of<'t>(clause: NetClause<'t>) -> Option<Wiring<'t>>
    ensures gives { of_wiring result ≡ wires_of (net_clause_view clause.entry) }
    ensures lent { (ps : List Token) → NetClauseAt ps clause.entry → IfSome result (λ w. WiringAt ps w) }
{
    match clause {
        NetClause::Wiring(wiring) => Some(wiring),
        _ => None,
    }
}

/// The next wiring clause. Clauses without wires are passed over.
fn next_wiring<'t>(clauses: &mut Parts<'t, NetClause<'t>>) -> Option<Wiring<'t>>
    ensures step { IsNextWiring clauses.old result clauses.new }
    ensures later { IsLater clauses.old.cursor clauses.new.cursor }
    ensures lent { IfSome result (λ w. StandsIn WiringAt clauses.old.cursor.tokens.text.now w) }
{
    while let Some(clause) = clauses.next() {
        if let Some(wiring) = wiring_of(clause) {
            return Some(wiring);
        }
    }
    None
}

/// The next wire of the present clause.
fn next_of_clause<'t>(wires: &mut Option<Parts<'t, Wire<'t>>>) -> Option<Wire<'t>>
    ensures step { GivesFirst wire_view (of_clause wires.old) result (of_clause wires.new) }
    ensures text { (text : List ℕ) → ClauseLeftIn text wires.old → ClauseLeftIn text wires.new }
    ensures lent { (text : List ℕ) → ClauseLeftIn text wires.old → IfSome result (λ w. StandsIn WireAt text w) }
{
    match wires {
        Some(left) => left.next(),
        None => None,
    }
}

impl<'t> NetPaths<'t> {
    /// The next wire; at the end `None`, then and ever after.
    pub fn next(&mut self) -> Option<Wire<'t>>
        ensures step { GivesFirst wire_view (paths_left self.old) result (paths_left self.new) }
        ensures text { (text : List ℕ) → PathsIn text self.old → PathsIn text self.new }
        ensures lent { (text : List ℕ) → PathsIn text self.old → IfSome result (λ w. StandsIn WireAt text w) }
    {
        if let Some(wire) = next_of_clause(&mut self.wires) {
            return Some(wire);
        }
        let wiring = next_wiring(&mut self.clauses)?;
        self.wires = Some(wiring.others);
        Some(wiring.first)
    }
}
