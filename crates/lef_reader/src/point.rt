//! Points and rectangles in a statement, in microns as written.

ghost use Rattle.std.specs.Prelude.{◌≡◌, codes, IfSome};
ghost use Rattle.form_meanings.specs.Words.{Gives};
ghost use Rattle.statement_model.specs.Form.{◌▸◌, ◌◂◌, ◌⨟◌, read, spell, word};
ghost use Rattle.lef_grammar.specs.Extents.{corners, dec, is_kept_word, point, two_points};
ghost use Rattle.lefdef_tokens.specs.Places.{StandsAt, behind, past};
ghost use Rattle.lefdef_tokens.specs.Views.{pieces_of, rest_of, word_of};
ghost use Rattle.lef_reader.specs.Parts.{CornersAt, MaskedAt, PairAt, PointAt, PointsAt, corners_view, masked_view, pair_view, point_view, two_points_view, with_rest};

use crate::parts::{WordKind, word_at};
use lefdef_tokens::{Cursor, Token};

/// A point, in parentheses or without.
#[derive(Clone, Copy)]
pub struct Point<'l> {
    pub x: Token<'l>,
    pub y: Token<'l>,
    pub enclosed: bool,
}

/// Two corners of a rectangle, and the word of its `MASK`.
#[derive(Clone, Copy)]
pub struct Corners<'l> {
    pub mask: Option<Token<'l>>,
    pub from: Point<'l>,
    pub to: Point<'l>,
}

/// `dec dec`
fn pair_at<'l>(cursor: Cursor<'l>) -> Option<((Token<'l>, Token<'l>), Cursor<'l>)>
    ensures gives { Gives (with_rest pair_view) result (read (dec ⨟ dec) (rest_of cursor.entry)) }
    ensures left { IfSome result (λ x. pieces_of x.1.tokens ≡ past 2 (pieces_of cursor.entry.tokens)) }
    ensures lent { IfSome result (λ x. PairAt (pieces_of cursor.entry.tokens) x.0) }
{
    let (x, cursor) = word_at(WordKind::Distance, cursor)?;
    let (y, cursor) = word_at(WordKind::Distance, cursor)?;
    Some(((x, y), cursor))
}

/// `( x y )` or `x y`
#[tactic(auto, unfolding(lef_grammar::specs::Extents::point))]
pub(crate) fn point_at<'l>(cursor: Cursor<'l>) -> Option<(Point<'l>, Cursor<'l>)>
    ensures gives { Gives (with_rest point_view) result (read point (rest_of cursor.entry)) }
    ensures left { IfSome result (λ x. pieces_of x.1.tokens ≡ behind (spell point (point_view x.0)) (pieces_of cursor.entry.tokens)) }
    ensures lent { IfSome result (λ x. PointAt (pieces_of cursor.entry.tokens) x.0) }
{
    if cursor.next_is(b"(") {
        let ((x, y), cursor) = pair_at(cursor.key(b"(")?)?;
        let cursor = cursor.key(b")")?;
        let enclosed = true;
        Some((Point { x, y, enclosed }, cursor))
    } else {
        let ((x, y), cursor) = pair_at(cursor)?;
        let enclosed = false;
        Some((Point { x, y, enclosed }, cursor))
    }
}

/// A point and `;`
pub(crate) fn only_point_at<'l>(cursor: Cursor<'l>) -> Option<(Point<'l>, Cursor<'l>)>
    ensures gives { Gives (with_rest point_view) result (read (point ◂ codes ";") (rest_of cursor.entry)) }
    ensures lent { IfSome result (λ x. PointAt (pieces_of cursor.entry.tokens) x.0) }
{
    let (point, cursor) = point_at(cursor)?;
    Some((point, cursor.key(b";")?))
}

/// Two points and `;`
#[tactic(auto, unfolding(lef_grammar::specs::Extents::two_points))]
fn two_points_at<'l>(cursor: Cursor<'l>) -> Option<((Point<'l>, Point<'l>), Cursor<'l>)>
    ensures gives { Gives (with_rest two_points_view) result (read two_points (rest_of cursor.entry)) }
    ensures lent { IfSome result (λ x. PointsAt (pieces_of cursor.entry.tokens) x.0) }
{
    let (from, cursor) = point_at(cursor)?;
    let (to, cursor) = only_point_at(cursor)?;
    Some(((from, to), cursor))
}

/// `MASK word`. Most have none, and no token is looked for behind another word.
pub(crate) fn mask_at<'l>(cursor: Cursor<'l>) -> Option<(Token<'l>, Cursor<'l>)>
    ensures gives { Gives word_of result (read (codes "MASK" ▸ word is_kept_word) (rest_of cursor.entry)) }
    ensures left { IfSome result (λ x. pieces_of x.1.tokens ≡ past 2 (pieces_of cursor.entry.tokens)) }
    ensures lent { IfSome result (λ x. StandsAt (past 1 (pieces_of cursor.entry.tokens)) x.0) }
{
    word_at(WordKind::Kept, cursor.past(b"MASK")?.seen())
}

/// `MASK word` and two points
fn masked_corners_at<'l>(
    cursor: Cursor<'l>,
) -> Option<((Token<'l>, (Point<'l>, Point<'l>)), Cursor<'l>)>
    ensures gives { Gives (with_rest masked_view) result (read (codes "MASK" ▸ word is_kept_word ⨟ two_points) (rest_of cursor.entry)) }
    ensures lent { IfSome result (λ x. MaskedAt (pieces_of cursor.entry.tokens) x.0) }
{
    let (mask, cursor) = mask_at(cursor)?;
    let (points, cursor) = two_points_at(cursor)?;
    Some(((mask, points), cursor))
}

/// `[MASK word] p p ;`
#[tactic(auto, unfolding(lef_grammar::specs::Extents::corners))]
pub(crate) fn corners_at<'l>(cursor: Cursor<'l>) -> Option<(Corners<'l>, Cursor<'l>)>
    ensures gives { Gives (with_rest corners_view) result (read corners (rest_of cursor.entry)) }
    ensures lent { IfSome result (λ x. CornersAt (pieces_of cursor.entry.tokens) x.0) }
{
    if let Some(((mask, (from, to)), later)) = masked_corners_at(cursor) {
        let corners = Corners {
            mask: Some(mask),
            from,
            to,
        };
        return Some((corners, later));
    }
    let ((from, to), cursor) = two_points_at(cursor)?;
    let corners = Corners {
        mask: None,
        from,
        to,
    };
    Some((corners, cursor))
}
