//! Entries of PINS (LEF/DEF 5.8 Language Reference, "Pins").

ghost use Rattle.std.specs.Prelude.{◌≡◌, IfSome, codes};
ghost use Rattle.form_meanings.specs.Words.{Gives, is_plus, next_passes};
ghost use Rattle.statement_model.specs.Form.{◌▸◌, ◌⨟◌, left, read, right, spell};
ghost use Rattle.def_grammar.specs.Parts.{name, rest};
ghost use Rattle.def_grammar.specs.Components.{is_status, placement};
ghost use Rattle.def_grammar.specs.Pins.{clearance, pin_clause, pin_form, pin_rectangle, pin_shape, pin_via, pin_clause_body};
ghost use Rattle.lefdef_tokens.specs.Places.{behind};
ghost use Rattle.lefdef_tokens.specs.Views.{IsLater, pieces_of, rest_of};
ghost use Rattle.def_parts.specs.PointViews.{with_rest};
ghost use Rattle.place_parts.specs.PinViews.{clearance_view, pin_clause_view, pin_view, ClearanceAt, PinAt, PinBodyAt, PinClauseAt};

use crate::components::{Placement, spot_at};
use crate::keywords::int_behind;
use def_parts::clauses::{KeptClause, kept_clause_at, mask_at};
use def_parts::point::{Coordinates, point_at};
use def_parts::points::{Corners, corners_at};
use design_model::geometry::Status;
use lefdef_tokens::{Cursor, Token, TokenRun, is_plus};
use statement_reader::parts::{Part, Parts, read_parts};

/// What a shape of a pin says of its distance to others, in database units.
#[derive(Clone, Copy)]
pub enum Clearance<'t> {
    Spacing(Token<'t>),
    DesignRuleWidth(Token<'t>),
    Default,
}

/// A rectangle of a pin on a layer, from the pin's place, in database units.
#[derive(Clone, Copy)]
pub struct PinRectangle<'t> {
    pub layer: Token<'t>,
    pub mask: Option<Token<'t>>,
    pub clearance: Clearance<'t>,
    pub corners: Corners<'t>,
}

/// A via of a pin, from the pin's place, in database units.
#[derive(Clone, Copy)]
pub struct PinVia<'t> {
    pub name: Token<'t>,
    pub mask: Option<Token<'t>>,
    pub at: Coordinates<'t>,
}

/// A clause of an entry, without its `+`.
#[derive(Clone, Copy, Drop)]
pub enum PinClause<'t> {
    Placed(Placement<'t>),
    Net(Token<'t>),
    /// The clauses after it, up to the next one, are about a port of their own.
    Port,
    Rectangle(PinRectangle<'t>),
    Via(PinVia<'t>),
    /// By its layer and its other tokens, which mean nothing.
    Polygon(Token<'t>, TokenRun<'t>),
    Kept(KeptClause<'t>),
}

/// An entry: its name and its clauses.
#[derive(Clone, Copy)]
pub struct PinParts<'t> {
    pub name: Token<'t>,
    pub clauses: Parts<'t, PinClause<'t>>,
}

/// Whether a placement is next.
fn next_is_status<'t>(cursor: Cursor<'t>) -> bool
    ensures { result ≡ next_passes is_status (rest_of cursor.entry) }
{
    match cursor.peek() {
        Some(token) => Status::of_word(token.bytes).is_some(),
        None => false,
    }
}

/// `[SPACING int | DESIGNRULEWIDTH int]`
#[tactic(auto, unfolding(def_grammar::specs::Pins::clearance))]
fn clearance_at<'t>(cursor: Cursor<'t>) -> Option<(Clearance<'t>, Cursor<'t>)>
    ensures gives { Gives (with_rest clearance_view) result (read clearance (rest_of cursor.entry)) }
    ensures later { IfSome result (λ x. IsLater cursor.entry x.1) }
    ensures left { IfSome result (λ x. pieces_of x.1.tokens ≡ behind (spell clearance (clearance_view x.0)) (pieces_of cursor.entry.tokens)) }
    ensures lent { IfSome result (λ x. ClearanceAt (pieces_of cursor.entry.tokens) x.0) }
{
    if cursor.next_is(b"SPACING") {
        let (distance, cursor) = or_none!(int_behind(cursor, b"SPACING"));
        Some((Clearance::Spacing(distance), cursor))
    } else if cursor.next_is(b"DESIGNRULEWIDTH") {
        let (width, cursor) = or_none!(int_behind(cursor, b"DESIGNRULEWIDTH"));
        Some((Clearance::DesignRuleWidth(width), cursor))
    } else {
        Some((Clearance::Default, cursor))
    }
}

/// `LAYER layer [MASK word] [SPACING int | DESIGNRULEWIDTH int]` and two points
#[tactic(auto, unfolding(def_grammar::specs::Pins::pin_shape, def_grammar::specs::Pins::pin_rectangle, def_grammar::specs::Points::corners, def_grammar::specs::Points::later_point, def_grammar::specs::Parts::point), using(lefdef_tokens::proofs::PlaceLemmas::behind_append))]
fn rectangle_clause_at<'t>(cursor: Cursor<'t>) -> Option<(PinClause<'t>, Cursor<'t>)>
    ensures gives { Gives (with_rest pin_clause_view) result (read (right (right (right (left (codes "LAYER" ▸ pin_rectangle))))) (rest_of cursor.entry)) }
    ensures later { IfSome result (λ x. IsLater cursor.entry x.1) }
    ensures left { IfSome result (λ x. pieces_of x.1.tokens ≡ behind (spell pin_clause_body (pin_clause_view x.0)) (pieces_of cursor.entry.tokens)) }
    ensures lent { IfSome result (λ x. PinBodyAt (pieces_of cursor.entry.tokens) x.0) }
{
    let (layer, cursor) = or_none!(cursor.name_behind(b"LAYER"));
    let (mask, cursor) = or_none!(mask_at(cursor));
    let (clearance, cursor) = or_none!(clearance_at(cursor));
    let (corners, cursor) = or_none!(corners_at(cursor));
    let rectangle = PinRectangle {
        layer,
        mask,
        clearance,
        corners,
    };
    Some((PinClause::Rectangle(rectangle), cursor))
}

/// `VIA name [MASK word]` and a point
#[tactic(auto, unfolding(def_grammar::specs::Pins::pin_shape, def_grammar::specs::Pins::pin_via, def_grammar::specs::Parts::point), using(lefdef_tokens::proofs::PlaceLemmas::behind_append))]
fn via_clause_at<'t>(cursor: Cursor<'t>) -> Option<(PinClause<'t>, Cursor<'t>)>
    ensures gives { Gives (with_rest pin_clause_view) result (read (right (right (right (right (left (codes "VIA" ▸ pin_via)))))) (rest_of cursor.entry)) }
    ensures later { IfSome result (λ x. IsLater cursor.entry x.1) }
    ensures left { IfSome result (λ x. pieces_of x.1.tokens ≡ behind (spell pin_clause_body (pin_clause_view x.0)) (pieces_of cursor.entry.tokens)) }
    ensures lent { IfSome result (λ x. PinBodyAt (pieces_of cursor.entry.tokens) x.0) }
{
    let (name, cursor) = or_none!(cursor.name_behind(b"VIA"));
    let (mask, cursor) = or_none!(mask_at(cursor));
    let (at, cursor) = or_none!(point_at(cursor));
    Some((PinClause::Via(PinVia { name, mask, at }), cursor))
}

/// `POLYGON layer rest`
#[tactic(auto, unfolding(def_grammar::specs::Pins::pin_shape))]
fn polygon_clause_at<'t>(cursor: Cursor<'t>) -> Option<(PinClause<'t>, Cursor<'t>)>
    ensures gives { Gives (with_rest pin_clause_view) result (read (right (right (right (right (right (left (codes "POLYGON" ▸ name ⨟ rest))))))) (rest_of cursor.entry)) }
    ensures later { IfSome result (λ x. IsLater cursor.entry x.1) }
    ensures left { IfSome result (λ x. pieces_of x.1.tokens ≡ behind (spell pin_clause_body (pin_clause_view x.0)) (pieces_of cursor.entry.tokens)) }
    ensures lent { IfSome result (λ x. PinBodyAt (pieces_of cursor.entry.tokens) x.0) }
{
    let (layer, cursor) = or_none!(cursor.name_behind(b"POLYGON"));
    let (rest, cursor) = cursor.rest();
    Some((PinClause::Polygon(layer, rest), cursor))
}

/// A rectangle, a via, `POLYGON layer rest` or `word rest`
#[tactic(auto, unfolding(def_grammar::specs::Pins::pin_shape))]
fn pin_shape_at<'t>(cursor: Cursor<'t>) -> Option<(PinClause<'t>, Cursor<'t>)>
    ensures gives { Gives (with_rest pin_clause_view) result (read (right (right (right pin_shape))) (rest_of cursor.entry)) }
    ensures later { IfSome result (λ x. IsLater cursor.entry x.1) }
    ensures left { IfSome result (λ x. pieces_of x.1.tokens ≡ behind (spell pin_clause_body (pin_clause_view x.0)) (pieces_of cursor.entry.tokens)) }
    ensures lent { IfSome result (λ x. PinBodyAt (pieces_of cursor.entry.tokens) x.0) }
{
    if cursor.next_is(b"LAYER") {
        rectangle_clause_at(cursor)
    } else if cursor.next_is(b"VIA") {
        via_clause_at(cursor)
    } else if cursor.next_is(b"POLYGON") {
        polygon_clause_at(cursor)
    } else {
        let (kept, cursor) = or_none!(kept_clause_at(cursor));
        Some((PinClause::Kept(kept), cursor))
    }
}

/// `status ( x y ) orient`
#[tactic(auto, unfolding(def_grammar::specs::Components::placement, def_grammar::specs::Parts::point, def_grammar::specs::Parts::orient))]
fn placed_clause_at<'t>(cursor: Cursor<'t>) -> Option<(PinClause<'t>, Cursor<'t>)>
    ensures gives { Gives (with_rest pin_clause_view) result (read (left placement) (rest_of cursor.entry)) }
    ensures later { IfSome result (λ x. IsLater cursor.entry x.1) }
    ensures left { IfSome result (λ x. pieces_of x.1.tokens ≡ behind (spell pin_clause_body (pin_clause_view x.0)) (pieces_of cursor.entry.tokens)) }
    ensures lent { IfSome result (λ x. PinBodyAt (pieces_of cursor.entry.tokens) x.0) }
{
    let (word, cursor) = or_none!(cursor.next());
    let status = or_none!(Status::of_word(word.bytes));
    let ((at, orient), cursor) = or_none!(spot_at(cursor));
    let placement = Placement { status, at, orient };
    Some((PinClause::Placed(placement), cursor))
}

/// A clause without its `+`
fn pin_clause_body_at<'t>(cursor: Cursor<'t>) -> Option<(PinClause<'t>, Cursor<'t>)>
    ensures gives { Gives (with_rest pin_clause_view) result (read pin_clause_body (rest_of cursor.entry)) }
    ensures later { IfSome result (λ x. IsLater cursor.entry x.1) }
    ensures left { IfSome result (λ x. pieces_of x.1.tokens ≡ behind (spell pin_clause_body (pin_clause_view x.0)) (pieces_of cursor.entry.tokens)) }
    ensures lent { IfSome result (λ x. PinBodyAt (pieces_of cursor.entry.tokens) x.0) }
{
    if next_is_status(cursor) {
        placed_clause_at(cursor)
    } else if cursor.next_is(b"NET") {
        let (net, cursor) = or_none!(cursor.name_behind(b"NET"));
        Some((PinClause::Net(net), cursor))
    } else if cursor.next_is(b"PORT") {
        Some((PinClause::Port, or_none!(cursor.key(b"PORT"))))
    } else {
        pin_shape_at(cursor)
    }
}

impl<'t> Part<'t> for PinClause<'t> {
    ghost use Rattle.def_grammar.specs.Pins.{PinClause as TheClause};

    ghost Value = { TheClause };

    ghost view = { pin_clause_view };

    ghost lent = { PinClauseAt };

    ghost test = { is_plus };

    ghost reads = { read pin_clause };

    ghost spells = { spell pin_clause };

    ghost spelled = { λ r p e. (pin_clause.exact.shows r p e).words };

    fn begins(word: &[u8]) -> bool
        ensures { result ≡ is_plus word.now }
    {
        is_plus(word)
    }

    /// `+` and a clause by its word, before a `+` or `;`
    #[tactic(auto, unfolding(def_grammar::specs::Pins::pin_clause))]
    fn read(cursor: Cursor<'t>) -> Option<(PinClause<'t>, Cursor<'t>)>
        ensures gives { Gives (with_rest pin_clause_view) result (read pin_clause (rest_of cursor.entry)) }
        ensures later { IfSome result (λ x. IsLater cursor.entry x.1) }
        ensures left { IfSome result (λ x. pieces_of x.1.tokens ≡ behind (spell pin_clause (pin_clause_view x.0)) (pieces_of cursor.entry.tokens)) }
        ensures lent { IfSome result (λ x. PinClauseAt (pieces_of cursor.entry.tokens) x.0) }
    {
        let (clause, cursor) = or_none!(pin_clause_body_at(or_none!(cursor.key(b"+"))));
        if cursor.next_is_stop() {
            Some((clause, cursor))
        } else {
            None
        }
    }
}

/// `- name (+ clause)* ;`
#[tactic(auto, unfolding(def_grammar::specs::Pins::pin_form), using(lefdef_tokens::proofs::PlaceLemmas::behind_append))]
#[inline(never)]
pub fn pin_at<'t>(cursor: Cursor<'t>) -> Option<(PinParts<'t>, Cursor<'t>)>
    ensures gives { Gives (with_rest pin_view) result (read pin_form (rest_of cursor.entry)) }
    ensures later { IfSome result (λ x. IsLater cursor.entry x.1) }
    ensures left { IfSome result (λ x. pieces_of x.1.tokens ≡ behind (spell pin_form (pin_view x.0)) (pieces_of cursor.entry.tokens)) }
    ensures lent { IfSome result (λ x. PinAt (pieces_of cursor.entry.tokens) x.0) }
{
    let (name, cursor) = or_none!(cursor.name_behind(b"-"));
    let (clauses, cursor) = or_none!(read_parts::<PinClause<'t>>(cursor));
    let cursor = or_none!(cursor.key(b";"));
    Some((PinParts { name, clauses }, cursor))
}
