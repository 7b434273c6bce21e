//! DIEAREA (LEF/DEF 5.8 Language Reference, "Die Area").

ghost use Rattle.std.specs.Prelude.{◌≡◌, IfSome};
ghost use Rattle.form_meanings.specs.Words.{Gives};
ghost use Rattle.statement_model.specs.Form.{read, spell};
ghost use Rattle.def_grammar.specs.DieArea.{die_area_statement};
ghost use Rattle.lefdef_tokens.specs.Places.{behind};
ghost use Rattle.lefdef_tokens.specs.Views.{IsLater, pieces_of, rest_of};
ghost use Rattle.def_parts.specs.PointViews.{with_rest};
ghost use Rattle.place_parts.specs.DieAreaViews.{die_area_view, DieAreaAt};

use def_parts::point::{Coordinates, point_at};
use def_parts::points::{LaterPoint, later_point_at};
use lefdef_tokens::Cursor;
use statement_reader::parts::{Parts, read_parts};

/// The die's area, in database units: two corners of a box, or the points of a polygon.
#[derive(Clone, Copy)]
pub struct DieAreaParts<'t> {
    pub first: Coordinates<'t>,
    pub second: Coordinates<'t>,
    pub others: Parts<'t, LaterPoint<'t>>,
}

/// Two points and more, and `;`, after `DIEAREA`
#[tactic(auto, unfolding(def_grammar::specs::DieArea::die_area_statement, def_grammar::specs::Points::later_point, def_grammar::specs::Parts::point), using(lefdef_tokens::proofs::PlaceLemmas::behind_append))]
pub fn die_area_at<'t>(cursor: Cursor<'t>) -> Option<(DieAreaParts<'t>, Cursor<'t>)>
    ensures gives { Gives (with_rest die_area_view) result (read die_area_statement (rest_of cursor.entry)) }
    ensures later { IfSome result (λ x. IsLater cursor.entry x.1) }
    ensures left { IfSome result (λ x. pieces_of x.1.tokens ≡ behind (spell die_area_statement (die_area_view x.0)) (pieces_of cursor.entry.tokens)) }
    ensures lent { IfSome result (λ x. DieAreaAt (pieces_of cursor.entry.tokens) x.0) }
{
    let (first, cursor) = or_none!(point_at(cursor));
    let (second, cursor) = or_none!(later_point_at(cursor));
    let (others, cursor) = or_none!(read_parts::<LaterPoint<'t>>(cursor));
    let cursor = or_none!(cursor.key(b";"));
    let parts = DieAreaParts {
        first,
        second: second.at,
        others,
    };
    Some((parts, cursor))
}
