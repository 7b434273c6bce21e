//! The ports of a pin of the design (LEF/DEF 5.8 Language Reference, "Pins").

ghost use Rattle.std.specs.Prelude.{◌≡◌};
ghost use Rattle.std.specs.Option.{option_map};
ghost use Rattle.connection_rules.specs.PinShapes.{placing_of_clause};
ghost use Rattle.place_parts.specs.PinViews.{pin_clause_view, pin_clauses_of};
ghost use Rattle.net_pins.specs.PortViews.{port_place_view};
ghost use Rattle.net_pins.specs.PortsLeft.{is_port, place_ahead};

use crate::port_place::PortPlace;
use place_parts::pins::PinClause;
use statement_reader::parts::Parts;

/// Whether a clause begins a port.
pub(crate) fn is_port(clause: &PinClause<'_>) -> bool
    ensures { result ≡ is_port (pin_clause_view clause.now) }
{
    matches!(clause, PinClause::Port)
}

/// The place that a clause says.
fn place_by(clause: &PinClause<'_>) -> Option<PortPlace>
    ensures { option_map port_place_view result ≡ placing_of_clause (pin_clause_view clause.now) }
{
    match clause {
        PinClause::Placed(placement) => Some(PortPlace {
            at: placement.at.place(),
            orient: placement.orient,
        }),
        _ => None,
    }
}

/// The first place that clauses say up to the next `PORT`.
pub(crate) fn place_ahead<'t>(clauses: &Parts<'t, PinClause<'t>>) -> Option<PortPlace>
    ensures { option_map port_place_view result ≡ place_ahead (pin_clauses_of clauses.now) }
{
    let mut left = clauses.again();
    while let Some(clause) = left.next() {
        if is_port(&clause) {
            return None;
        }
        let place = place_by(&clause);
        if place.is_some() {
            return place;
        }
    }
    None
}
