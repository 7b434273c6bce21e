//! Entries of REGIONS (LEF/DEF 5.8 Language Reference, "Regions").

ghost use Rattle.std.specs.Prelude.{◌≡◌, IfSome, codes};
ghost use Rattle.form_meanings.specs.Words.{Gives, is_plus};
ghost use Rattle.statement_model.specs.Form.{◌▸◌, left, on, one_of, read, spell};
ghost use Rattle.def_grammar.specs.Clauses.{kept_clause};
ghost use Rattle.def_grammar.specs.Points.{is_open};
ghost use Rattle.def_grammar.specs.Regions.{later_corners, region_clause, region_form, region_kind_word, region_kinds};
ghost use Rattle.lefdef_tokens.specs.Places.{behind, past};
ghost use Rattle.lefdef_tokens.specs.Views.{IsLater, pieces_of, rest_of};
ghost use Rattle.def_parts.specs.PointViews.{with_rest};
ghost use Rattle.place_parts.specs.RegionViews.{later_corners_view, region_clause_view, region_view, LaterCornersAt, RegionBodyAt, RegionClauseAt, RegionPartsAt};

use def_parts::clauses::{KeptClause, kept_clause_at};
use def_parts::points::{Corners, corners_at, is_open, later_point_at};
use lefdef_tokens::{Cursor, Token, is_plus, is_word};
use statement_reader::parts::{Part, Parts, read_parts};

/// What a region is to its components.
#[derive(Clone, Copy)]
pub enum RegionKind {
    /// Its components stand within it, and no others do.
    Fence,
    /// Its components should stand within it.
    Guide,
}

/// A clause of an entry, without its `+`.
#[derive(Clone, Copy, Drop)]
pub enum RegionClause<'t> {
    Kind(RegionKind),
    Kept(KeptClause<'t>),
}

/// Corners of a rectangle after another one, where the first `*` repeats the coordinate of that one's second corner.
#[derive(Clone, Copy, Drop)]
pub struct LaterCorners<'t> {
    pub corners: Corners<'t>,
}

/// An entry: its name, its rectangles in database units, and its clauses.
#[derive(Clone, Copy)]
pub struct RegionParts<'t> {
    pub name: Token<'t>,
    pub first: Corners<'t>,
    pub others: Parts<'t, LaterCorners<'t>>,
    pub clauses: Parts<'t, RegionClause<'t>>,
}

/// `TYPE FENCE|GUIDE`
#[tactic(auto, unfolding(def_grammar::specs::Regions::region_kind_word))]
fn type_clause_at<'t>(cursor: Cursor<'t>) -> Option<(RegionClause<'t>, Cursor<'t>)>
    ensures gives { Gives (with_rest region_clause_view) result (read (left (codes "TYPE" ▸ one_of region_kind_word region_kinds)) (rest_of cursor.entry)) }
    ensures later { IfSome result (λ x. IsLater cursor.entry x.1) }
    ensures left { IfSome result (λ x. pieces_of x.1.tokens ≡ past 2 (pieces_of cursor.entry.tokens)) }
    ensures lent { IfSome result (λ x. RegionBodyAt (pieces_of cursor.entry.tokens) x.0) }
{
    let (word, cursor) = or_none!(or_none!(cursor.key(b"TYPE")).next());
    if is_word(word.bytes, b"FENCE") {
        Some((RegionClause::Kind(RegionKind::Fence), cursor))
    } else if is_word(word.bytes, b"GUIDE") {
        Some((RegionClause::Kind(RegionKind::Guide), cursor))
    } else {
        None
    }
}

/// `TYPE kind`, or `word rest`
fn region_clause_body_at<'t>(cursor: Cursor<'t>) -> Option<(RegionClause<'t>, Cursor<'t>)>
    ensures gives { Gives (with_rest region_clause_view) result (read (on (codes "TYPE") (one_of region_kind_word region_kinds) kept_clause) (rest_of cursor.entry)) }
    ensures later { IfSome result (λ x. IsLater cursor.entry x.1) }
    ensures left { IfSome result (λ x. pieces_of x.1.tokens ≡ behind (spell (on (codes "TYPE") (one_of region_kind_word region_kinds) kept_clause) (region_clause_view x.0)) (pieces_of cursor.entry.tokens)) }
    ensures lent { IfSome result (λ x. RegionBodyAt (pieces_of cursor.entry.tokens) x.0) }
{
    if cursor.next_is(b"TYPE") {
        type_clause_at(cursor)
    } else {
        let (kept, cursor) = or_none!(kept_clause_at(cursor));
        Some((RegionClause::Kept(kept), cursor))
    }
}

impl<'t> Part<'t> for RegionClause<'t> {
    ghost use Rattle.def_grammar.specs.Regions.{RegionClause as TheClause};

    ghost Value = { TheClause };

    ghost view = { region_clause_view };

    ghost lent = { RegionClauseAt };

    ghost test = { is_plus };

    ghost reads = { read region_clause };

    ghost spells = { spell region_clause };

    ghost spelled = { λ r p e. (region_clause.exact.shows r p e).words };

    fn begins(word: &[u8]) -> bool
        ensures { result ≡ is_plus word.now }
    {
        is_plus(word)
    }

    /// `+ TYPE kind`, or `+ word rest`, before a `+` or `;`
    #[tactic(auto, unfolding(def_grammar::specs::Regions::region_clause))]
    fn read(cursor: Cursor<'t>) -> Option<(RegionClause<'t>, Cursor<'t>)>
        ensures gives { Gives (with_rest region_clause_view) result (read region_clause (rest_of cursor.entry)) }
        ensures later { IfSome result (λ x. IsLater cursor.entry x.1) }
        ensures left { IfSome result (λ x. pieces_of x.1.tokens ≡ behind (spell region_clause (region_clause_view x.0)) (pieces_of cursor.entry.tokens)) }
        ensures lent { IfSome result (λ x. RegionClauseAt (pieces_of cursor.entry.tokens) x.0) }
    {
        let (clause, cursor) = or_none!(region_clause_body_at(or_none!(cursor.key(b"+"))));
        if cursor.next_is_stop() {
            Some((clause, cursor))
        } else {
            None
        }
    }
}

impl<'t> Part<'t> for LaterCorners<'t> {
    ghost use Rattle.def_grammar.specs.Points.{Corners as TheCorners};

    ghost Value = { TheCorners };

    ghost view = { later_corners_view };

    ghost lent = { LaterCornersAt };

    ghost test = { is_open };

    ghost reads = { read later_corners };

    ghost spells = { spell later_corners };

    ghost spelled = { λ r p e. (later_corners.exact.shows r p e).words };

    fn begins(word: &[u8]) -> bool
        ensures { result ≡ is_open word.now }
    {
        is_open(word)
    }

    /// Two points, after another one
    #[tactic(auto, unfolding(def_grammar::specs::Regions::later_corners, def_grammar::specs::Points::later_point))]
    fn read(cursor: Cursor<'t>) -> Option<(LaterCorners<'t>, Cursor<'t>)>
        ensures gives { Gives (with_rest later_corners_view) result (read later_corners (rest_of cursor.entry)) }
        ensures later { IfSome result (λ x. IsLater cursor.entry x.1) }
        ensures left { IfSome result (λ x. pieces_of x.1.tokens ≡ behind (spell later_corners (later_corners_view x.0)) (pieces_of cursor.entry.tokens)) }
        ensures lent { IfSome result (λ x. LaterCornersAt (pieces_of cursor.entry.tokens) x.0) }
    {
        let (first, cursor) = or_none!(later_point_at(cursor));
        let (second, cursor) = or_none!(later_point_at(cursor));
        let corners = Corners {
            first: first.at,
            second: second.at,
        };
        Some((LaterCorners { corners }, cursor))
    }
}

/// `- name`, two points for each rectangle, and `(+ clause)* ;`
#[tactic(auto, unfolding(def_grammar::specs::Regions::region_form, def_grammar::specs::Points::corners, def_grammar::specs::Points::later_point, def_grammar::specs::Parts::point), using(lefdef_tokens::proofs::PlaceLemmas::behind_append))]
#[inline(never)]
pub fn region_at<'t>(cursor: Cursor<'t>) -> Option<(RegionParts<'t>, Cursor<'t>)>
    ensures gives { Gives (with_rest region_view) result (read region_form (rest_of cursor.entry)) }
    ensures later { IfSome result (λ x. IsLater cursor.entry x.1) }
    ensures left { IfSome result (λ x. pieces_of x.1.tokens ≡ behind (spell region_form (region_view x.0)) (pieces_of cursor.entry.tokens)) }
    ensures lent { IfSome result (λ x. RegionPartsAt (pieces_of cursor.entry.tokens) x.0) }
{
    let (name, cursor) = or_none!(cursor.name_behind(b"-"));
    let (first, cursor) = or_none!(corners_at(cursor));
    let (others, cursor) = or_none!(read_parts::<LaterCorners<'t>>(cursor));
    let (clauses, cursor) = or_none!(read_parts::<RegionClause<'t>>(cursor));
    let cursor = or_none!(cursor.key(b";"));
    let parts = RegionParts {
        name,
        first,
        others,
        clauses,
    };
    Some((parts, cursor))
}
