//! Paths of wires: points, vias and rectangles (LEF/DEF 5.8 Language Reference, "Regular Wiring Statement" and "Special
//! Wiring Statement").

ghost use Rattle.std.specs.Prelude.{◌≡◌, List, codes, true, IfSome};
ghost use Rattle.form_meanings.specs.Words.{Gives, is_place, next_passes};
ghost use Rattle.statement_model.specs.Tokens as definitions;
ghost use Rattle.statement_model.specs.Form.{Form, ◌◂◌, alt, number, opt, read, right, spell};
ghost use Rattle.def_grammar.specs.Parts.{orient};
ghost use Rattle.def_grammar.specs.Points.{is_open};
ghost use Rattle.def_grammar.specs.Wiring.{array_size, extension, goes_on, is_orient, net_path, special_path, path_item, special_via, via_array, wire_point, wire_rectangle, wire_via};
ghost use Rattle.lefdef_tokens.specs.Unseens.{Finds, IsFurther, unseen_rest, unseen_word};
ghost use Rattle.lefdef_tokens.specs.Places.{StandsAt, behind, past};
ghost use Rattle.lefdef_tokens.specs.Views.{IsLater, pieces_of, rest_of, word_of};
ghost use Rattle.def_parts.specs.ClauseViews.{OptionAt, mask_view};
ghost use Rattle.def_parts.specs.PointViews.{corners_view, same, with_rest};
ghost use Rattle.statement_reader.specs.PartViews.{left_after, tokens_after};
ghost use Rattle.wire_parts.specs.PathViews.{array_counts, counts_view, is_number, net_path_view, point_by, special_path_view, ItemAt, PathAt, SpecialViaAt, ViaArrayAt, extension_view, RectangleAt, WirePointAt, WireViaAt, item_view, special_via_view, via_array_view, wire_point_view, wire_via_view};

use crate::keyword::past_keyword;
use def_parts::clauses::mask_at;
use def_parts::number::{
    coordinate_at, copies_at, few_digits_at, few_digits_or_star_at, few_digits_size_at, int_at,
    is_array, size_at,
};
use def_parts::point::Coordinates;
use def_parts::points::{Corners, is_open, later_point_at, next_is_open, two_numbers_at};
use design_model::geometry::Orient;
use lefdef_tokens::{Cursor, Token, Unseen, is_name, is_place, is_word};
use statement_reader::parts::{Part, Parts, UsualPart, read_usual_parts, skip_parts};

/// A point of a path, and how far the wire goes past it. A `*` repeats the coordinate of the path's last point.
#[derive(Clone, Copy)]
pub struct WirePoint<'t> {
    pub at: Coordinates<'t>,
    /// In database units, 0 or more.
    pub extension: Option<Token<'t>>,
}

/// A via at the last point of a path.
#[derive(Clone, Copy, Drop)]
pub struct WireVia<'t> {
    pub name: Token<'t>,
    pub orient: Option<Orient>,
}

/// Columns and rows of vias, and how far apart they are, in x and in y.
#[derive(Clone, Copy)]
pub struct ViaArray<'t> {
    pub columns: Token<'t>,
    pub rows: Token<'t>,
    pub step: Coordinates<'t>,
}

/// A via of a special net, which may be an array.
#[derive(Clone, Copy, Drop)]
pub struct SpecialVia<'t> {
    pub via: WireVia<'t>,
    pub array: Option<ViaArray<'t>>,
}

/// What a path goes on with.
#[derive(Clone, Copy, Drop)]
pub enum PathItem<'t, V> {
    Mask(Token<'t>),
    /// A point to which no wire goes.
    Virtual(Coordinates<'t>),
    /// Two corners, from the path's last point on.
    Rectangle(Corners<'t>),
    Point(WirePoint<'t>),
    Via(V),
}

/// A path from a point on.
#[derive(Clone, Copy)]
pub struct Path<'t, V> {
    pub mask: Option<Token<'t>>,
    pub start: WirePoint<'t>,
    pub items: Parts<'t, PathItem<'t, V>>,
}

/// `[int]`, 0 or more
#[inline(always)]
fn extension_at<'t>(cursor: Cursor<'t>) -> Option<(Option<Token<'t>>, Cursor<'t>)>
    ensures gives { Gives (with_rest mask_view) result (read extension (rest_of cursor.entry)) }
    ensures later { IfSome result (λ x. IsLater cursor.entry x.1) }
    ensures left { IfSome result (λ x. pieces_of x.1.tokens ≡ behind (spell extension (mask_view x.0)) (pieces_of cursor.entry.tokens)) }
    ensures lent { IfSome result (λ x. OptionAt (pieces_of cursor.entry.tokens) x.0) }
{
    if next_is_place(cursor) {
        let (number, cursor) = size_at(cursor)?;
        Some((Some(number), cursor))
    } else {
        Some((None, cursor))
    }
}

/// Whether a word is next that can stand in the place of a number.
#[inline(always)]
fn next_is_place<'t>(cursor: Cursor<'t>) -> bool
    ensures { result ≡ next_passes is_place (rest_of cursor.entry) }
{
    match cursor.peek() {
        Some(token) => is_place(token.bytes),
        None => false,
    }
}

/// `[extension] )`, where the extension has one to nine digits; `None` says nothing
#[inline(always)]
fn short_end_at<'t>(left: Unseen<'t>) -> Option<(Option<Token<'t>>, Unseen<'t>)>
    ensures gives { Finds extension_view result (read (extension ◂ codes ")") (unseen_rest left.entry)) }
    ensures further { IfSome result (λ x. IsFurther left.entry.tokens x.1.tokens) }
    ensures left { IfSome result (λ x. pieces_of x.1.tokens ≡ past 1 (behind (spell extension (mask_view x.0)) (pieces_of left.entry.tokens))) }
    ensures lent { IfSome result (λ x. OptionAt (pieces_of left.entry.tokens) x.0) }
{
    if let Some((_, left)) = left.mark(b')') {
        return Some((None, left));
    }
    let (number, left) = few_digits_size_at(left)?;
    let (_, left) = left.mark(b')')?;
    Some((Some(number), left))
}

/// A number of a point, which can be `*` but in a path's first point
#[inline(always)]
fn number_at<'t>(can_be_star: bool, cursor: Cursor<'t>) -> Option<(Token<'t>, Cursor<'t>)>
    ensures gives { Gives word_of result (read (number (is_number can_be_star)) (rest_of cursor.entry)) }
    ensures later { IfSome result (λ x. IsLater cursor.entry x.1) }
    ensures left { IfSome result (λ x. pieces_of x.1.tokens ≡ past 1 (pieces_of cursor.entry.tokens)) }
    ensures lent { IfSome result (λ x. StandsAt (pieces_of cursor.entry.tokens) x.0) }
{
    if can_be_star {
        coordinate_at(cursor)
    } else {
        int_at(cursor)
    }
}

/// The same, where it is `*` or has one to nine digits, as most do; `None` says nothing
#[inline(always)]
fn short_number_at<'t>(can_be_star: bool, left: Unseen<'t>) -> Option<(Token<'t>, Unseen<'t>)>
    ensures gives { Finds unseen_word result (read (number (is_number can_be_star)) (unseen_rest left.entry)) }
    ensures further { IfSome result (λ x. IsFurther left.entry.tokens x.1.tokens) }
    ensures left { IfSome result (λ x. pieces_of x.1.tokens ≡ past 1 (pieces_of left.entry.tokens)) }
    ensures lent { IfSome result (λ x. StandsAt (pieces_of left.entry.tokens) x.0) }
{
    if can_be_star {
        few_digits_or_star_at(left)
    } else {
        few_digits_at(left)
    }
}

/// `( x y [extension] )`, where each number is short; `None` says nothing
#[inline(always)]
fn short_wire_point_at<'t>(
    can_be_star: bool,
    cursor: Cursor<'t>,
) -> Option<(WirePoint<'t>, Cursor<'t>)>
    ensures gives { Finds (with_rest wire_point_view) result (read (point_by can_be_star) (rest_of cursor.entry)) }
    ensures later { IfSome result (λ x. IsLater cursor.entry x.1) }
    ensures left { IfSome result (λ x. pieces_of x.1.tokens ≡ behind (spell (point_by can_be_star) (wire_point_view x.0)) (pieces_of cursor.entry.tokens)) }
    ensures lent { IfSome result (λ x. WirePointAt (pieces_of cursor.entry.tokens) x.0) }
{
    let (x, left) = short_number_at(can_be_star, cursor.past(b"(")?)?;
    let (y, left) = short_number_at(can_be_star, left)?;
    let (extension, left) = short_end_at(left)?;
    let at = Coordinates { x, y };
    Some((WirePoint { at, extension }, left.seen()))
}

/// `( x y [extension] )`, whatever stands there
#[cold]
#[inline(never)]
fn any_wire_point_at<'t>(
    can_be_star: bool,
    cursor: Cursor<'t>,
) -> Option<(WirePoint<'t>, Cursor<'t>)>
    ensures gives { Gives (with_rest wire_point_view) result (read (point_by can_be_star) (rest_of cursor.entry)) }
    ensures later { IfSome result (λ x. IsLater cursor.entry x.1) }
    ensures left { IfSome result (λ x. pieces_of x.1.tokens ≡ behind (spell (point_by can_be_star) (wire_point_view x.0)) (pieces_of cursor.entry.tokens)) }
    ensures lent { IfSome result (λ x. WirePointAt (pieces_of cursor.entry.tokens) x.0) }
{
    let (x, cursor) = number_at(can_be_star, cursor.key(b"(")?)?;
    let (y, cursor) = number_at(can_be_star, cursor)?;
    let (extension, cursor) = extension_at(cursor)?;
    let cursor = cursor.key(b")")?;
    let at = Coordinates { x, y };
    Some((WirePoint { at, extension }, cursor))
}

/// `( x y [extension] )`
#[inline(always)]
fn wire_point_at<'t>(can_be_star: bool, cursor: Cursor<'t>) -> Option<(WirePoint<'t>, Cursor<'t>)>
    ensures gives { Gives (with_rest wire_point_view) result (read (point_by can_be_star) (rest_of cursor.entry)) }
    ensures later { IfSome result (λ x. IsLater cursor.entry x.1) }
    ensures left { IfSome result (λ x. pieces_of x.1.tokens ≡ behind (spell (point_by can_be_star) (wire_point_view x.0)) (pieces_of cursor.entry.tokens)) }
    ensures lent { IfSome result (λ x. WirePointAt (pieces_of cursor.entry.tokens) x.0) }
{
    match short_wire_point_at(can_be_star, cursor) {
        Some(found) => Some(found),
        None => any_wire_point_at(can_be_star, cursor),
    }
}

/// `( x1 y1 x2 y2 )`
#[tactic(auto, unfolding(def_grammar::specs::Wiring::wire_rectangle, def_grammar::specs::Points::two_numbers))]
fn wire_rectangle_at<'t>(cursor: Cursor<'t>) -> Option<(Corners<'t>, Cursor<'t>)>
    ensures gives { Gives (with_rest corners_view) result (read wire_rectangle (rest_of cursor.entry)) }
    ensures later { IfSome result (λ x. IsLater cursor.entry x.1) }
    ensures left { IfSome result (λ x. pieces_of x.1.tokens ≡ behind (spell wire_rectangle (corners_view x.0)) (pieces_of cursor.entry.tokens)) }
    ensures lent { IfSome result (λ x. RectangleAt (pieces_of cursor.entry.tokens) x.0) }
{
    let (first, cursor) = two_numbers_at(cursor.key(b"(")?)?;
    let (second, cursor) = two_numbers_at(cursor)?;
    let cursor = cursor.key(b")")?;
    Some((Corners { first, second }, cursor))
}

/// `[orient]`
#[tactic(auto, unfolding(def_grammar::specs::Parts::orient))]
#[inline(always)]
fn via_orient_at<'t>(cursor: Cursor<'t>) -> Option<(Option<Orient>, Cursor<'t>)>
    ensures gives { Gives (with_rest same) result (read (opt is_orient orient) (rest_of cursor.entry)) }
    ensures later { IfSome result (λ x. IsLater cursor.entry x.1) }
    ensures left { IfSome result (λ x. pieces_of x.1.tokens ≡ behind (spell (opt is_orient orient) x.0) (pieces_of cursor.entry.tokens)) }
{
    let Some((word, later)) = cursor.next() else {
        return Some((None, cursor));
    };
    match Orient::of_word(word.bytes) {
        Some(orient) => Some((Some(orient), later)),
        None => Some((None, cursor)),
    }
}

/// `name [orient]`
#[tactic(auto, unfolding(def_grammar::specs::Wiring::wire_via))]
#[inline(always)]
pub fn wire_via_at<'t>(cursor: Cursor<'t>) -> Option<(WireVia<'t>, Cursor<'t>)>
    ensures gives { Gives (with_rest wire_via_view) result (read wire_via (rest_of cursor.entry)) }
    ensures later { IfSome result (λ x. IsLater cursor.entry x.1) }
    ensures left { IfSome result (λ x. pieces_of x.1.tokens ≡ behind (spell wire_via (wire_via_view x.0)) (pieces_of cursor.entry.tokens)) }
    ensures lent { IfSome result (λ x. WireViaAt (pieces_of cursor.entry.tokens) x.0) }
{
    let (name, cursor) = cursor.name()?;
    let (orient, cursor) = via_orient_at(cursor)?;
    Some((WireVia { name, orient }, cursor))
}

/// A via of a path, by the section of its net.
pub trait PathVia<'t>: Sized + Copy + Drop {
    ghost Value: { Type 0 };

    ghost view: { Self → Value };

    ghost lent: { List definitions.Token → Self → Type 0 };

    ghost form: { Form Value };

    /// A via by its form.
    fn read(cursor: Cursor<'t>) -> Option<(Self, Cursor<'t>)>
        ensures gives { Gives (with_rest view) result (read form (rest_of cursor.entry)) }
        ensures later { IfSome result (λ x. IsLater cursor.entry x.1) }
        ensures left { IfSome result (λ x. pieces_of x.1.tokens ≡ behind (spell form (view x.0)) (pieces_of cursor.entry.tokens)) }
        ensures lent { IfSome result (λ x. lent (pieces_of cursor.entry.tokens) x.0) };
}

impl<'t> PathVia<'t> for WireVia<'t> {
    ghost use Rattle.def_grammar.specs.Wiring.{WireVia as TheVia};

    ghost Value = { TheVia };

    ghost view = { wire_via_view };

    ghost lent = { WireViaAt };

    ghost form = { wire_via };

    #[inline(always)]
    fn read(cursor: Cursor<'t>) -> Option<(WireVia<'t>, Cursor<'t>)>
        ensures gives { Gives (with_rest wire_via_view) result (read wire_via (rest_of cursor.entry)) }
        ensures later { IfSome result (λ x. IsLater cursor.entry x.1) }
        ensures left { IfSome result (λ x. pieces_of x.1.tokens ≡ behind (spell wire_via (wire_via_view x.0)) (pieces_of cursor.entry.tokens)) }
        ensures lent { IfSome result (λ x. WireViaAt (pieces_of cursor.entry.tokens) x.0) }
    {
        wire_via_at(cursor)
    }
}

/// `columns BY rows`
fn array_counts_at<'t>(cursor: Cursor<'t>) -> Option<((Token<'t>, Token<'t>), Cursor<'t>)>
    ensures gives { Gives (with_rest counts_view) result (read array_counts (rest_of cursor.entry)) }
    ensures later { IfSome result (λ x. IsLater cursor.entry x.1) }
    ensures left { IfSome result (λ x. pieces_of x.1.tokens ≡ behind (spell array_counts (counts_view x.0)) (pieces_of cursor.entry.tokens)) }
    ensures lent { IfSome result (λ x. StandsAt (pieces_of cursor.entry.tokens) x.0.0 × StandsAt (past 2 (pieces_of cursor.entry.tokens)) x.0.1) }
{
    let (columns, cursor) = copies_at(cursor)?;
    let (rows, cursor) = copies_at(cursor.key(b"BY")?)?;
    Some(((columns, rows), cursor))
}

/// `columns BY rows`, where at most 1000000 vias are valid
#[tactic(auto, unfolding(def_grammar::specs::Wiring::array_size))]
fn array_size_at<'t>(cursor: Cursor<'t>) -> Option<((Token<'t>, Token<'t>), Cursor<'t>)>
    ensures gives { Gives (with_rest counts_view) result (read array_size (rest_of cursor.entry)) }
    ensures later { IfSome result (λ x. IsLater cursor.entry x.1) }
    ensures left { IfSome result (λ x. pieces_of x.1.tokens ≡ behind (spell array_size (counts_view x.0)) (pieces_of cursor.entry.tokens)) }
    ensures lent { IfSome result (λ x. StandsAt (pieces_of cursor.entry.tokens) x.0.0 × StandsAt (past 2 (pieces_of cursor.entry.tokens)) x.0.1) }
{
    let ((columns, rows), later) = array_counts_at(cursor)?;
    let good = is_array(columns.bytes, rows.bytes);
    Some(((columns, rows), later.noted(good, cursor.len())))
}

/// `columns BY rows STEP x y`, after `DO`
#[tactic(auto, unfolding(def_grammar::specs::Wiring::via_array, def_grammar::specs::Wiring::array_size, def_grammar::specs::Points::two_numbers))]
fn via_array_at<'t>(cursor: Cursor<'t>) -> Option<(ViaArray<'t>, Cursor<'t>)>
    ensures gives { Gives (with_rest via_array_view) result (read via_array (rest_of cursor.entry)) }
    ensures later { IfSome result (λ x. IsLater cursor.entry x.1) }
    ensures left { IfSome result (λ x. pieces_of x.1.tokens ≡ behind (spell via_array (via_array_view x.0)) (pieces_of cursor.entry.tokens)) }
    ensures lent { IfSome result (λ x. ViaArrayAt (pieces_of cursor.entry.tokens) x.0) }
{
    let ((columns, rows), cursor) = array_size_at(cursor)?;
    let (step, cursor) = two_numbers_at(cursor.key(b"STEP")?)?;
    let array = ViaArray {
        columns,
        rows,
        step,
    };
    Some((array, cursor))
}

/// `name [orient] [DO columns BY rows STEP x y]`
#[tactic(auto, unfolding(def_grammar::specs::Wiring::special_via), using(lefdef_tokens::proofs::PlaceLemmas::behind_append))]
pub fn special_via_at<'t>(cursor: Cursor<'t>) -> Option<(SpecialVia<'t>, Cursor<'t>)>
    ensures gives { Gives (with_rest special_via_view) result (read special_via (rest_of cursor.entry)) }
    ensures later { IfSome result (λ x. IsLater cursor.entry x.1) }
    ensures left { IfSome result (λ x. pieces_of x.1.tokens ≡ behind (spell special_via (special_via_view x.0)) (pieces_of cursor.entry.tokens)) }
    ensures lent { IfSome result (λ x. SpecialViaAt (pieces_of cursor.entry.tokens) x.0) }
{
    let (via, cursor) = wire_via_at(cursor)?;
    if let Some(cursor) = past_keyword(cursor, b"DO") {
        let (array, cursor) = via_array_at(cursor)?;
        let array = Some(array);
        Some((SpecialVia { via, array }, cursor))
    } else {
        let array = None;
        Some((SpecialVia { via, array }, cursor))
    }
}

impl<'t> PathVia<'t> for SpecialVia<'t> {
    ghost use Rattle.def_grammar.specs.Wiring.{SpecialVia as TheVia};

    ghost Value = { TheVia };

    ghost view = { special_via_view };

    ghost lent = { SpecialViaAt };

    ghost form = { special_via };

    #[inline(always)]
    fn read(cursor: Cursor<'t>) -> Option<(SpecialVia<'t>, Cursor<'t>)>
        ensures gives { Gives (with_rest special_via_view) result (read special_via (rest_of cursor.entry)) }
        ensures later { IfSome result (λ x. IsLater cursor.entry x.1) }
        ensures left { IfSome result (λ x. pieces_of x.1.tokens ≡ behind (spell special_via (special_via_view x.0)) (pieces_of cursor.entry.tokens)) }
        ensures lent { IfSome result (λ x. SpecialViaAt (pieces_of cursor.entry.tokens) x.0) }
    {
        special_via_at(cursor)
    }
}

/// Whether a path goes on with what a word begins.
#[inline(always)]
fn goes_on(word: &[u8]) -> bool
    ensures { result ≡ goes_on word.now }
{
    is_open(word) || (is_name(word) && !is_word(word, b"NEW") && !is_word(word, b"DO"))
}

/// A point, or a via
#[tactic(auto, unfolding(def_grammar::specs::Wiring::wire_point))]
#[inline(always)]
fn point_or_via_at<'t, V: PathVia<'t>>(cursor: Cursor<'t>) -> Option<(PathItem<'t, V>, Cursor<'t>)>
    ensures gives { Gives (with_rest (item_view V.view)) result (read (right (right (right (alt is_open wire_point V.form)))) (rest_of cursor.entry)) }
    ensures later { IfSome result (λ x. IsLater cursor.entry x.1) }
    ensures left { IfSome result (λ x. pieces_of x.1.tokens ≡ behind (spell (right (right (right (alt is_open wire_point V.form)))) (item_view V.view x.0)) (pieces_of cursor.entry.tokens)) }
    ensures lent { IfSome result (λ x. ItemAt V.lent (pieces_of cursor.entry.tokens) x.0) }
{
    if next_is_open(cursor) {
        let (at, cursor) = wire_point_at(true, cursor)?;
        Some((PathItem::Point(at), cursor))
    } else {
        let (via, cursor) = V::read(cursor)?;
        Some((PathItem::Via(via), cursor))
    }
}

/// Whether a path goes on.
#[inline(always)]
fn next_goes_on<'t>(cursor: Cursor<'t>) -> bool
    ensures { result ≡ next_passes goes_on (rest_of cursor.entry) }
{
    match cursor.peek() {
        Some(token) => goes_on(token.bytes),
        None => false,
    }
}

impl<'t, V: PathVia<'t>> Part<'t> for PathItem<'t, V> {
    ghost use Rattle.def_grammar.specs.Wiring.{PathItem as TheItem};

    ghost Value = { TheItem V.Value };

    ghost view = { item_view V.view };

    ghost lent = { ItemAt V.lent };

    ghost test = { goes_on };

    ghost reads = { read (path_item V.form) };

    ghost spells = { spell (path_item V.form) };

    ghost spelled = { λ r p e. ((path_item V.form).exact.shows r p e).words };

    #[inline(always)]
    fn begins(word: &[u8]) -> bool
        ensures { result ≡ goes_on word.now }
    {
        goes_on(word)
    }

    #[tactic(auto, unfolding(def_grammar::specs::Points::later_point))]
    #[inline(always)]
    fn read(cursor: Cursor<'t>) -> Option<(PathItem<'t, V>, Cursor<'t>)>
        ensures gives { Gives (with_rest (item_view V.view)) result (read (path_item V.form) (rest_of cursor.entry)) }
        ensures later { IfSome result (λ x. IsLater cursor.entry x.1) }
        ensures left { IfSome result (λ x. pieces_of x.1.tokens ≡ behind (spell (path_item V.form) (item_view V.view x.0)) (pieces_of cursor.entry.tokens)) }
        ensures lent { IfSome result (λ x. ItemAt V.lent (pieces_of cursor.entry.tokens) x.0) }
    {
        if cursor.next_is(b"MASK") {
            let (word, cursor) = cursor.plain_word_behind(b"MASK")?;
            Some((PathItem::Mask(word), cursor))
        } else if let Some(cursor) = past_keyword(cursor, b"VIRTUAL") {
            let (point, cursor) = later_point_at(cursor)?;
            Some((PathItem::Virtual(point.at), cursor))
        } else if let Some(cursor) = past_keyword(cursor, b"RECT") {
            let (corners, cursor) = wire_rectangle_at(cursor)?;
            Some((PathItem::Rectangle(corners), cursor))
        } else {
            point_or_via_at(cursor)
        }
    }
}

impl<'t, V: PathVia<'t>> UsualPart<'t> for PathItem<'t, V> {
    #[tactic(auto, unfolding(def_grammar::specs::Wiring::wire_point))]
    #[inline(always)]
    fn skip(cursor: Cursor<'t>) -> Option<Cursor<'t>>
        ensures begins { IfSome result (λ x. next_passes goes_on (rest_of cursor.entry) ≡ true) }
        ensures gives { Finds rest_of result (left_after (read (path_item V.form) (rest_of cursor.entry))) }
        ensures later { IfSome result (λ x. IsLater cursor.entry x) }
        ensures left { Finds (λ x. pieces_of x.tokens) result (tokens_after (spell (path_item V.form)) (pieces_of cursor.entry.tokens) (read (path_item V.form) (rest_of cursor.entry))) }
    {
        if !next_goes_on(cursor)
            || cursor.next_is(b"MASK")
            || cursor.next_is(b"VIRTUAL")
            || cursor.next_is(b"RECT")
        {
            return None;
        }
        if next_is_open(cursor) {
            let (_, later) = short_wire_point_at(true, cursor)?;
            Some(later)
        } else {
            let (_, later) = V::read(cursor)?;
            Some(later)
        }
    }
}

/// `[MASK word]`, the first point, and what the path goes on with
#[tactic(auto, unfolding(def_grammar::specs::Wiring::net_path, def_grammar::specs::Wiring::net_item, def_grammar::specs::Wiring::wire_start), using(lefdef_tokens::proofs::PlaceLemmas::behind_append))]
#[inline(always)]
pub fn net_path_at<'t>(cursor: Cursor<'t>) -> Option<(Path<'t, WireVia<'t>>, Cursor<'t>)>
    ensures gives { Gives (with_rest net_path_view) result (read net_path (rest_of cursor.entry)) }
    ensures later { IfSome result (λ x. IsLater cursor.entry x.1) }
    ensures left { IfSome result (λ x. pieces_of x.1.tokens ≡ behind (spell net_path (net_path_view x.0)) (pieces_of cursor.entry.tokens)) }
    ensures lent { IfSome result (λ x. PathAt (pieces_of cursor.entry.tokens) x.0) }
{
    let (mask, cursor) = mask_at(cursor)?;
    let (start, cursor) = wire_point_at(false, cursor)?;
    let (items, cursor) = read_usual_parts::<PathItem<'t, WireVia<'t>>>(cursor)?;
    Some((Path { mask, start, items }, cursor))
}

/// What comes after a path whose points have few digits and whose other items are vias; `None` says nothing.
#[tactic(auto, unfolding(def_grammar::specs::Wiring::net_path, def_grammar::specs::Wiring::net_item, def_grammar::specs::Wiring::wire_start), using(lefdef_tokens::proofs::PlaceLemmas::behind_append))]
#[inline(always)]
pub(crate) fn usual_net_path_past<'t>(cursor: Cursor<'t>) -> Option<Cursor<'t>>
    ensures gives { Finds rest_of result (left_after (read net_path (rest_of cursor.entry))) }
    ensures later { IfSome result (λ x. IsLater cursor.entry x) }
    ensures left { Finds (λ x. pieces_of x.tokens) result (tokens_after (spell net_path) (pieces_of cursor.entry.tokens) (read net_path (rest_of cursor.entry))) }
{
    let (_, cursor) = mask_at(cursor)?;
    let (_, cursor) = short_wire_point_at(false, cursor)?;
    skip_parts::<PathItem<'t, WireVia<'t>>>(cursor)
}

/// `[MASK word]`, the first point, and what the path of a special net goes on with
#[tactic(auto, unfolding(def_grammar::specs::Wiring::special_path, def_grammar::specs::Wiring::special_item, def_grammar::specs::Wiring::wire_start), using(lefdef_tokens::proofs::PlaceLemmas::behind_append))]
pub fn special_path_at<'t>(cursor: Cursor<'t>) -> Option<(Path<'t, SpecialVia<'t>>, Cursor<'t>)>
    ensures gives { Gives (with_rest special_path_view) result (read special_path (rest_of cursor.entry)) }
    ensures later { IfSome result (λ x. IsLater cursor.entry x.1) }
    ensures left { IfSome result (λ x. pieces_of x.1.tokens ≡ behind (spell special_path (special_path_view x.0)) (pieces_of cursor.entry.tokens)) }
    ensures lent { IfSome result (λ x. PathAt (pieces_of cursor.entry.tokens) x.0) }
{
    let (mask, cursor) = mask_at(cursor)?;
    let (start, cursor) = wire_point_at(false, cursor)?;
    let (items, cursor) = read_usual_parts::<PathItem<'t, SpecialVia<'t>>>(cursor)?;
    Some((Path { mask, start, items }, cursor))
}
