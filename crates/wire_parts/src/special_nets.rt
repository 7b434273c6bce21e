//! Entries of SPECIALNETS (LEF/DEF 5.8 Language Reference, "Special Nets").

ghost use Rattle.std.specs.Prelude.{◌≡◌, codes, IfSome};
ghost use Rattle.form_meanings.specs.Words.{Gives, is_plus};
ghost use Rattle.statement_model.specs.Form.{◌▸◌, ◌⨟◌, left, or_else, read, right, spell, word};
ghost use Rattle.def_grammar.specs.Clauses.{kept_clause};
ghost use Rattle.def_grammar.specs.Parts.{name};
ghost use Rattle.def_grammar.specs.Points.{corners, polygon};
ghost use Rattle.def_grammar.specs.SpecialNets.{placed_via, special_clause, special_listed, special_net_form, special_shape};
ghost use Rattle.lefdef_tokens.specs.Places.{behind, past};
ghost use Rattle.lefdef_tokens.specs.Views.{IsLater, pieces_of, rest_of};
ghost use Rattle.def_parts.specs.PointViews.{with_rest};
ghost use Rattle.wire_parts.specs.SpecialNetViews.{PlacedViaAt, SpecialClauseAt, SpecialNetAt, of_listed, of_shape, placed_via_view, special_by_word, special_clause_view, special_net_view};

use crate::keyword::past_keyword;
use crate::paths::{WireVia, wire_via_at};
use crate::terminals::Terminal;
use crate::wiring::{SpecialWiring, special_wiring_at};
use def_parts::clauses::{KeptClause, kept_clause_at};
use def_parts::point::{Coordinates, point_at};
use def_parts::points::{Corners, LaterPoint, Polygon, corners_at, polygon_at};
use lefdef_tokens::{Cursor, Token, TokenRun, is_plus};
use statement_reader::parts::{Part, Parts, read_parts, read_usual_parts};

/// A via at one point and more.
#[derive(Clone, Copy)]
pub struct PlacedVia<'t> {
    pub via: WireVia<'t>,
    pub first: Coordinates<'t>,
    pub others: Parts<'t, LaterPoint<'t>>,
}

/// A clause of an entry, without its `+`.
#[derive(Clone, Copy, Drop)]
pub enum SpecialClause<'t> {
    /// All tokens up to the entry's end, without meaning.
    Subnet(TokenRun<'t>),
    Use(Token<'t>),
    Shape(Token<'t>),
    Mask(Token<'t>),
    /// A rectangle on a layer.
    Rectangle(Token<'t>, Corners<'t>),
    Vias(PlacedVia<'t>),
    /// A polygon on a layer.
    Polygon(Token<'t>, Polygon<'t>),
    Wiring(SpecialWiring<'t>),
    /// A clause without meaning, or one that hasn't its form.
    Other(KeptClause<'t>),
}

/// An entry: its name, its terminals, and its clauses.
#[derive(Clone, Copy)]
pub struct SpecialNetParts<'t> {
    pub name: Token<'t>,
    pub terminals: Parts<'t, Terminal<'t>>,
    pub clauses: Parts<'t, SpecialClause<'t>>,
}

/// `name [orient] point+`, after `VIA`
#[tactic(auto, unfolding(def_grammar::specs::SpecialNets::placed_via, def_grammar::specs::Parts::point), using(lefdef_tokens::proofs::PlaceLemmas::behind_append))]
fn placed_via_at<'t>(cursor: Cursor<'t>) -> Option<(PlacedVia<'t>, Cursor<'t>)>
    ensures gives { Gives (with_rest placed_via_view) result (read placed_via (rest_of cursor.entry)) }
    ensures later { IfSome result (λ x. IsLater cursor.entry x.1) }
    ensures left { IfSome result (λ x. pieces_of x.1.tokens ≡ behind (spell placed_via (placed_via_view x.0)) (pieces_of cursor.entry.tokens)) }
    ensures lent { IfSome result (λ x. PlacedViaAt (pieces_of cursor.entry.tokens) x.0) }
{
    let (via, cursor) = wire_via_at(cursor)?;
    let (first, cursor) = point_at(cursor)?;
    let (others, cursor) = read_parts::<LaterPoint<'t>>(cursor)?;
    Some((PlacedVia { via, first, others }, cursor))
}

/// `RECT layer ..`
#[tactic(auto, unfolding(def_grammar::specs::Points::corners, def_grammar::specs::Points::later_point, def_grammar::specs::Parts::point))]
fn rectangle_clause_at<'t>(cursor: Cursor<'t>) -> Option<(SpecialClause<'t>, Cursor<'t>)>
    ensures gives { Gives (with_rest special_clause_view) result (read (of_shape (left (codes "RECT" ▸ name ⨟ corners))) (rest_of cursor.entry)) }
    ensures later { IfSome result (λ x. IsLater cursor.entry x.1) }
    ensures left { IfSome result (λ x. pieces_of x.1.tokens ≡ behind (spell (of_shape (left (codes "RECT" ▸ name ⨟ corners))) (special_clause_view x.0)) (pieces_of cursor.entry.tokens)) }
    ensures lent { IfSome result (λ x. SpecialClauseAt (pieces_of cursor.entry.tokens) x.0) }
{
    let (layer, cursor) = cursor.name_behind(b"RECT")?;
    let (corners, cursor) = corners_at(cursor)?;
    Some((SpecialClause::Rectangle(layer, corners), cursor))
}

/// `POLYGON layer ..`
fn polygon_clause_at<'t>(cursor: Cursor<'t>) -> Option<(SpecialClause<'t>, Cursor<'t>)>
    ensures gives { Gives (with_rest special_clause_view) result (read (of_shape (right (right (left (codes "POLYGON" ▸ name ⨟ polygon))))) (rest_of cursor.entry)) }
    ensures later { IfSome result (λ x. IsLater cursor.entry x.1) }
    ensures left { IfSome result (λ x. pieces_of x.1.tokens ≡ behind (spell (of_shape (right (right (left (codes "POLYGON" ▸ name ⨟ polygon))))) (special_clause_view x.0)) (pieces_of cursor.entry.tokens)) }
    ensures lent { IfSome result (λ x. SpecialClauseAt (pieces_of cursor.entry.tokens) x.0) }
{
    let (layer, cursor) = cursor.name_behind(b"POLYGON")?;
    let (polygon, cursor) = polygon_at(cursor)?;
    Some((SpecialClause::Polygon(layer, polygon), cursor))
}

/// `RECT layer ..`, `VIA ..`, `POLYGON layer ..`, or wiring
#[tactic(auto, unfolding(def_grammar::specs::SpecialNets::special_shape))]
fn shape_at<'t>(cursor: Cursor<'t>) -> Option<(SpecialClause<'t>, Cursor<'t>)>
    ensures gives { Gives (with_rest special_clause_view) result (read (of_shape special_shape) (rest_of cursor.entry)) }
    ensures later { IfSome result (λ x. IsLater cursor.entry x.1) }
    ensures left { IfSome result (λ x. pieces_of x.1.tokens ≡ behind (spell (of_shape special_shape) (special_clause_view x.0)) (pieces_of cursor.entry.tokens)) }
    ensures lent { IfSome result (λ x. SpecialClauseAt (pieces_of cursor.entry.tokens) x.0) }
{
    if cursor.next_is(b"RECT") {
        rectangle_clause_at(cursor)
    } else if let Some(cursor) = past_keyword(cursor, b"VIA") {
        let (via, cursor) = placed_via_at(cursor)?;
        Some((SpecialClause::Vias(via), cursor))
    } else if cursor.next_is(b"POLYGON") {
        polygon_clause_at(cursor)
    } else {
        let (wiring, cursor) = special_wiring_at(cursor)?;
        Some((SpecialClause::Wiring(wiring), cursor))
    }
}

/// The body of a clause but SUBNET, whatever comes behind it: `USE word`, `SHAPE word`, `MASK word`, a shape, or wiring
pub fn special_body_at<'t>(cursor: Cursor<'t>) -> Option<(SpecialClause<'t>, Cursor<'t>)>
    ensures gives { Gives (with_rest special_clause_view) result (read (of_listed special_by_word) (rest_of cursor.entry)) }
    ensures later { IfSome result (λ x. IsLater cursor.entry x.1) }
    ensures left { IfSome result (λ x. pieces_of x.1.tokens ≡ behind (spell (of_listed special_by_word) (special_clause_view x.0)) (pieces_of cursor.entry.tokens)) }
    ensures lent { IfSome result (λ x. SpecialClauseAt (pieces_of cursor.entry.tokens) x.0) }
{
    if cursor.next_is(b"USE") {
        let (word, cursor) = cursor.plain_word_behind(b"USE")?;
        Some((SpecialClause::Use(word), cursor))
    } else if cursor.next_is(b"SHAPE") {
        let (word, cursor) = cursor.plain_word_behind(b"SHAPE")?;
        Some((SpecialClause::Shape(word), cursor))
    } else if cursor.next_is(b"MASK") {
        let (word, cursor) = cursor.plain_word_behind(b"MASK")?;
        Some((SpecialClause::Mask(word), cursor))
    } else {
        shape_at(cursor)
    }
}

/// A clause that has its form, before a `+` or a `;`
#[tactic(auto, unfolding(def_grammar::specs::SpecialNets::special_listed))]
fn listed_at<'t>(cursor: Cursor<'t>) -> Option<(SpecialClause<'t>, Cursor<'t>)>
    ensures gives { Gives (with_rest special_clause_view) result (read (of_listed special_listed) (rest_of cursor.entry)) }
    ensures later { IfSome result (λ x. IsLater cursor.entry x.1) }
    ensures left { IfSome result (λ x. pieces_of x.1.tokens ≡ behind (spell (of_listed special_listed) (special_clause_view x.0)) (pieces_of cursor.entry.tokens)) }
    ensures lent { IfSome result (λ x. SpecialClauseAt (pieces_of cursor.entry.tokens) x.0) }
{
    let (clause, cursor) = special_body_at(cursor)?;
    if cursor.next_is_stop() {
        Some((clause, cursor))
    } else {
        None
    }
}

/// A clause that has its form, or any other
fn listed_or_kept_at<'t>(cursor: Cursor<'t>) -> Option<(SpecialClause<'t>, Cursor<'t>)>
    ensures gives { Gives (with_rest special_clause_view) result (read (right (or_else special_listed kept_clause)) (rest_of cursor.entry)) }
    ensures later { IfSome result (λ x. IsLater cursor.entry x.1) }
    ensures left { IfSome result (λ x. pieces_of x.1.tokens ≡ behind (spell (right (or_else special_listed kept_clause)) (special_clause_view x.0)) (pieces_of cursor.entry.tokens)) }
    ensures lent { IfSome result (λ x. SpecialClauseAt (pieces_of cursor.entry.tokens) x.0) }
{
    if let Some(listed) = listed_at(cursor) {
        return Some(listed);
    }
    let (clause, cursor) = kept_clause_at(cursor)?;
    Some((SpecialClause::Other(clause), cursor))
}

impl<'t> Part<'t> for SpecialClause<'t> {
    ghost use Rattle.def_grammar.specs.SpecialNets.{SpecialClause as TheClause};

    ghost Value = { TheClause };

    ghost view = { special_clause_view };

    ghost lent = { λ ps clause. SpecialClauseAt (past 1 ps) clause };

    ghost test = { is_plus };

    ghost reads = { read special_clause };

    ghost spells = { spell special_clause };

    ghost spelled = { λ r p e. (special_clause.exact.shows r p e).words };

    fn begins(word: &[u8]) -> bool
        ensures { result ≡ is_plus word.now }
    {
        is_plus(word)
    }

    #[tactic(auto, unfolding(def_grammar::specs::SpecialNets::special_clause))]
    fn read(cursor: Cursor<'t>) -> Option<(SpecialClause<'t>, Cursor<'t>)>
        ensures gives { Gives (with_rest special_clause_view) result (read special_clause (rest_of cursor.entry)) }
        ensures later { IfSome result (λ x. IsLater cursor.entry x.1) }
        ensures left { IfSome result (λ x. pieces_of x.1.tokens ≡ behind (spell special_clause (special_clause_view x.0)) (pieces_of cursor.entry.tokens)) }
        ensures lent { IfSome result (λ x. SpecialClauseAt (past 1 (pieces_of cursor.entry.tokens)) x.0) }
    {
        let cursor = cursor.key(b"+")?;
        if let Some(cursor) = past_keyword(cursor, b"SUBNET") {
            let (tokens, cursor) = cursor.up_to_semicolon();
            Some((SpecialClause::Subnet(tokens), cursor))
        } else {
            listed_or_kept_at(cursor)
        }
    }
}

/// `- name terminal* (+ clause)* ;`
#[tactic(auto, unfolding(def_grammar::specs::SpecialNets::special_net_form), using(lefdef_tokens::proofs::PlaceLemmas::behind_append))]
#[inline(never)]
pub fn special_net_at<'t>(cursor: Cursor<'t>) -> Option<(SpecialNetParts<'t>, Cursor<'t>)>
    ensures gives { Gives (with_rest special_net_view) result (read special_net_form (rest_of cursor.entry)) }
    ensures later { IfSome result (λ x. IsLater cursor.entry x.1) }
    ensures left { IfSome result (λ x. pieces_of x.1.tokens ≡ behind (spell special_net_form (special_net_view x.0)) (pieces_of cursor.entry.tokens)) }
    ensures lent { IfSome result (λ x. SpecialNetAt (pieces_of cursor.entry.tokens) x.0) }
{
    let (name, cursor) = cursor.name_behind(b"-")?;
    let (terminals, cursor) = read_usual_parts::<Terminal<'t>>(cursor)?;
    let (clauses, cursor) = read_parts::<SpecialClause<'t>>(cursor)?;
    let cursor = cursor.key(b";")?;
    let parts = SpecialNetParts {
        name,
        terminals,
        clauses,
    };
    Some((parts, cursor))
}
