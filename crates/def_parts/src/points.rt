//! Rows of points, rectangles and polygons in a statement.

ghost use Rattle.std.specs.Prelude.{◌≡◌, IfSome};
ghost use Rattle.form_meanings.specs.Words.{Gives, next_passes};
ghost use Rattle.statement_model.specs.Form.{read, spell};
ghost use Rattle.def_grammar.specs.Points.{corners, is_open, later_point, polygon, two_numbers};
ghost use Rattle.lefdef_tokens.specs.Unseens.{Finds};
ghost use Rattle.lefdef_tokens.specs.Places.{behind, past};
ghost use Rattle.lefdef_tokens.specs.Views.{IsLater, pieces_of, rest_of};
ghost use Rattle.def_parts.specs.PointViews.{CornersAt, LaterAt, NumbersAt, PolygonAt, corners_view, later_view, point_view, polygon_view, with_rest};

use crate::number::{coordinate_at, few_digits_or_star_at, int_at};
use crate::point::{Coordinates, point_at};
use lefdef_tokens::{Cursor, is_word};
use statement_reader::parts::{Part, Parts, read_parts};

/// A point after another one, where `*` repeats the coordinate of that one.
#[derive(Clone, Copy, Drop)]
pub struct LaterPoint<'t> {
    pub at: Coordinates<'t>,
}

/// Two corners of a rectangle, in any order.
#[derive(Clone, Copy)]
pub struct Corners<'t> {
    pub first: Coordinates<'t>,
    pub second: Coordinates<'t>,
}

/// A polygon of three points and more.
#[derive(Clone, Copy)]
pub struct Polygon<'t> {
    pub first: Coordinates<'t>,
    pub second: Coordinates<'t>,
    pub third: Coordinates<'t>,
    pub others: Parts<'t, LaterPoint<'t>>,
}

/// Two numbers without parentheses.
#[tactic(auto, unfolding(def_grammar::specs::Points::two_numbers))]
#[inline(always)]
pub fn two_numbers_at<'t>(cursor: Cursor<'t>) -> Option<(Coordinates<'t>, Cursor<'t>)>
    ensures gives { Gives (with_rest point_view) result (read two_numbers (rest_of cursor.entry)) }
    ensures later { IfSome result (λ x. IsLater cursor.entry x.1) }
    ensures left { IfSome result (λ x. pieces_of x.1.tokens ≡ past 2 (pieces_of cursor.entry.tokens)) }
    ensures lent { IfSome result (λ x. NumbersAt (pieces_of cursor.entry.tokens) x.0) }
{
    let (x, cursor) = int_at(cursor)?;
    let (y, cursor) = int_at(cursor)?;
    Some((Coordinates { x, y }, cursor))
}

/// Whether a word begins a point.
#[inline(always)]
pub fn is_open(word: &[u8]) -> bool
    ensures { result ≡ is_open word.now }
{
    is_word(word, b"(")
}

/// Whether a point is next.
#[inline(always)]
pub fn next_is_open<'t>(cursor: Cursor<'t>) -> bool
    ensures { result ≡ next_passes is_open (rest_of cursor.entry) }
{
    cursor.next_is(b"(")
}

/// `( x y )`, where each is `*` or has one to nine digits, as most do; `None` says nothing
#[tactic(auto, unfolding(def_grammar::specs::Points::later_point))]
#[inline(always)]
fn short_later_point_at<'t>(cursor: Cursor<'t>) -> Option<(LaterPoint<'t>, Cursor<'t>)>
    ensures gives { Finds (with_rest later_view) result (read later_point (rest_of cursor.entry)) }
    ensures later { IfSome result (λ x. IsLater cursor.entry x.1) }
    ensures left { IfSome result (λ x. pieces_of x.1.tokens ≡ past 4 (pieces_of cursor.entry.tokens)) }
    ensures lent { IfSome result (λ x. LaterAt (pieces_of cursor.entry.tokens) x.0) }
{
    let (x, left) = few_digits_or_star_at(cursor.past(b"(")?)?;
    let (y, left) = few_digits_or_star_at(left)?;
    let (_, left) = left.mark(b')')?;
    let at = Coordinates { x, y };
    Some((LaterPoint { at }, left.seen()))
}

/// `( x y )`, where each can be `*`, whatever stands there
#[tactic(auto, unfolding(def_grammar::specs::Points::later_point))]
#[cold]
#[inline(never)]
fn any_later_point_at<'t>(cursor: Cursor<'t>) -> Option<(LaterPoint<'t>, Cursor<'t>)>
    ensures gives { Gives (with_rest later_view) result (read later_point (rest_of cursor.entry)) }
    ensures later { IfSome result (λ x. IsLater cursor.entry x.1) }
    ensures left { IfSome result (λ x. pieces_of x.1.tokens ≡ past 4 (pieces_of cursor.entry.tokens)) }
    ensures lent { IfSome result (λ x. LaterAt (pieces_of cursor.entry.tokens) x.0) }
{
    let cursor = cursor.key(b"(")?;
    let (x, cursor) = coordinate_at(cursor)?;
    let (y, cursor) = coordinate_at(cursor)?;
    let cursor = cursor.key(b")")?;
    let at = Coordinates { x, y };
    Some((LaterPoint { at }, cursor))
}

/// `( x y )`, where each can be `*`
#[inline(always)]
pub fn later_point_at<'t>(cursor: Cursor<'t>) -> Option<(LaterPoint<'t>, Cursor<'t>)>
    ensures gives { Gives (with_rest later_view) result (read later_point (rest_of cursor.entry)) }
    ensures later { IfSome result (λ x. IsLater cursor.entry x.1) }
    ensures left { IfSome result (λ x. pieces_of x.1.tokens ≡ past 4 (pieces_of cursor.entry.tokens)) }
    ensures lent { IfSome result (λ x. LaterAt (pieces_of cursor.entry.tokens) x.0) }
{
    match short_later_point_at(cursor) {
        Some(found) => Some(found),
        None => any_later_point_at(cursor),
    }
}

impl<'t> Part<'t> for LaterPoint<'t> {
    ghost use Rattle.def_grammar.specs.Parts.{Coordinates as ThePoint};

    ghost Value = { ThePoint };

    ghost view = { later_view };

    ghost lent = { LaterAt };

    ghost test = { is_open };

    ghost reads = { read later_point };

    ghost spells = { spell later_point };

    ghost spelled = { λ r p e. (later_point.exact.shows r p e).words };

    fn begins(word: &[u8]) -> bool
        ensures { result ≡ is_open word.now }
    {
        is_open(word)
    }

    #[tactic(auto, unfolding(def_grammar::specs::Points::later_point))]
    fn read(cursor: Cursor<'t>) -> Option<(LaterPoint<'t>, Cursor<'t>)>
        ensures gives { Gives (with_rest later_view) result (read later_point (rest_of cursor.entry)) }
        ensures later { IfSome result (λ x. IsLater cursor.entry x.1) }
        ensures left { IfSome result (λ x. pieces_of x.1.tokens ≡ behind (spell later_point (later_view x.0)) (pieces_of cursor.entry.tokens)) }
        ensures lent { IfSome result (λ x. LaterAt (pieces_of cursor.entry.tokens) x.0) }
    {
        later_point_at(cursor)
    }
}

/// Two points
#[tactic(auto, unfolding(def_grammar::specs::Points::corners))]
pub fn corners_at<'t>(cursor: Cursor<'t>) -> Option<(Corners<'t>, Cursor<'t>)>
    ensures gives { Gives (with_rest corners_view) result (read corners (rest_of cursor.entry)) }
    ensures later { IfSome result (λ x. IsLater cursor.entry x.1) }
    ensures left { IfSome result (λ x. pieces_of x.1.tokens ≡ past 8 (pieces_of cursor.entry.tokens)) }
    ensures lent { IfSome result (λ x. CornersAt (pieces_of cursor.entry.tokens) x.0) }
{
    let (first, cursor) = point_at(cursor)?;
    let (second, cursor) = later_point_at(cursor)?;
    let second = second.at;
    Some((Corners { first, second }, cursor))
}

/// Three points and more
#[tactic(auto, unfolding(def_grammar::specs::Points::polygon, def_grammar::specs::Points::later_point, def_grammar::specs::Parts::point))]
pub fn polygon_at<'t>(cursor: Cursor<'t>) -> Option<(Polygon<'t>, Cursor<'t>)>
    ensures gives { Gives (with_rest polygon_view) result (read polygon (rest_of cursor.entry)) }
    ensures later { IfSome result (λ x. IsLater cursor.entry x.1) }
    ensures left { IfSome result (λ x. pieces_of x.1.tokens ≡ behind (spell polygon (polygon_view x.0)) (pieces_of cursor.entry.tokens)) }
    ensures lent { IfSome result (λ x. PolygonAt (pieces_of cursor.entry.tokens) x.0) }
{
    let (first, cursor) = point_at(cursor)?;
    let (second, cursor) = later_point_at(cursor)?;
    let (third, cursor) = later_point_at(cursor)?;
    let (others, cursor) = read_parts::<LaterPoint<'t>>(cursor)?;
    let polygon = Polygon {
        first,
        second: second.at,
        third: third.at,
        others,
    };
    Some((polygon, cursor))
}
