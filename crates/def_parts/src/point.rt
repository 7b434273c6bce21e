//! Points and orientations in a statement.

ghost use Rattle.std.specs.Prelude.{◌≡◌, IfSome};
ghost use Rattle.form_meanings.specs.Words.{Gives};
ghost use Rattle.statement_model.specs.Form.{read};
ghost use Rattle.def_grammar.specs.Parts.{orient, point};
ghost use Rattle.lefdef_tokens.specs.Unseens.{Finds};
ghost use Rattle.lefdef_tokens.specs.Places.{past};
ghost use Rattle.lefdef_tokens.specs.Views.{IsLater, pieces_of, rest_of};
ghost use Rattle.def_parts.specs.PointViews.{PointAt, point_view, same, with_rest};

use crate::number::{few_digits_at, int_at};
use design_model::geometry::Orient;
use lefdef_tokens::{Cursor, Token};

/// The numbers of a point.
#[derive(Clone, Copy)]
pub struct Coordinates<'t> {
    pub x: Token<'t>,
    pub y: Token<'t>,
}

/// `( x y )`, where both have one to nine digits, as most do; `None` says nothing
#[tactic(auto, unfolding(def_grammar::specs::Parts::point))]
#[inline(always)]
fn short_point_at<'t>(cursor: Cursor<'t>) -> Option<(Coordinates<'t>, Cursor<'t>)>
    ensures gives { Finds (with_rest point_view) result (read point (rest_of cursor.entry)) }
    ensures later { IfSome result (λ x. IsLater cursor.entry x.1) }
    ensures left { IfSome result (λ x. pieces_of x.1.tokens ≡ past 4 (pieces_of cursor.entry.tokens)) }
    ensures lent { IfSome result (λ x. PointAt (pieces_of cursor.entry.tokens) x.0) }
{
    let (x, left) = few_digits_at(cursor.past(b"(")?)?;
    let (y, left) = few_digits_at(left)?;
    let (_, left) = left.mark(b')')?;
    Some((Coordinates { x, y }, left.seen()))
}

/// `( x y )`, whatever stands there
#[tactic(auto, unfolding(def_grammar::specs::Parts::point))]
#[cold]
#[inline(never)]
fn any_point_at<'t>(cursor: Cursor<'t>) -> Option<(Coordinates<'t>, Cursor<'t>)>
    ensures gives { Gives (with_rest point_view) result (read point (rest_of cursor.entry)) }
    ensures later { IfSome result (λ x. IsLater cursor.entry x.1) }
    ensures left { IfSome result (λ x. pieces_of x.1.tokens ≡ past 4 (pieces_of cursor.entry.tokens)) }
    ensures lent { IfSome result (λ x. PointAt (pieces_of cursor.entry.tokens) x.0) }
{
    let cursor = cursor.key(b"(")?;
    let (x, cursor) = int_at(cursor)?;
    let (y, cursor) = int_at(cursor)?;
    let cursor = cursor.key(b")")?;
    Some((Coordinates { x, y }, cursor))
}

/// `( x y )`
#[inline(always)]
pub fn point_at<'t>(cursor: Cursor<'t>) -> Option<(Coordinates<'t>, Cursor<'t>)>
    ensures gives { Gives (with_rest point_view) result (read point (rest_of cursor.entry)) }
    ensures later { IfSome result (λ x. IsLater cursor.entry x.1) }
    ensures left { IfSome result (λ x. pieces_of x.1.tokens ≡ past 4 (pieces_of cursor.entry.tokens)) }
    ensures lent { IfSome result (λ x. PointAt (pieces_of cursor.entry.tokens) x.0) }
{
    match short_point_at(cursor) {
        Some(found) => Some(found),
        None => any_point_at(cursor),
    }
}

/// The orientation of a word.
#[tactic(auto, unfolding(def_grammar::specs::Parts::orient))]
#[inline(always)]
pub fn orient_at<'t>(cursor: Cursor<'t>) -> Option<(Orient, Cursor<'t>)>
    ensures gives { Gives (with_rest same) result (read orient (rest_of cursor.entry)) }
    ensures later { IfSome result (λ x. IsLater cursor.entry x.1) }
    ensures left { IfSome result (λ x. pieces_of x.1.tokens ≡ past 1 (pieces_of cursor.entry.tokens)) }
{
    let (word, cursor) = cursor.next()?;
    let orient = Orient::of_word(word.bytes)?;
    Some((orient, cursor))
}
