//! Entries of BLOCKAGES (LEF/DEF 5.8 Language Reference, "Blockages").

ghost use Rattle.std.specs.Prelude.{◌≡◌, IfSome, Some};
ghost use Rattle.form_meanings.specs.Words.{Gives, is_plus, is_semicolon};
ghost use Rattle.statement_model.specs.Form.{closed, or_else, read, spell, upto};
ghost use Rattle.def_grammar.specs.Blockages.{blockage, blockage_clause, blockage_form, blockage_kind, blockage_shape, is_shape, is_shape_or_stop};
ghost use Rattle.lefdef_tokens.specs.Places.{behind};
ghost use Rattle.lefdef_tokens.specs.Views.{IsLater, pieces_of, rest_of};
ghost use Rattle.def_parts.specs.PointViews.{with_rest};
ghost use Rattle.place_parts.specs.BlockageViews.{blockage_clause_view, blockage_entry_view, blockage_kind_view, blockage_shape_view, blockage_view, BlockageBodyAt, BlockageClauseAt, BlockageEntryAt, BlockagePartsAt, BlockageKindAt, BlockageShapeAt};

use crate::keywords::after_word;
use def_parts::clauses::KeptClause;
use def_parts::points::{Corners, Polygon, corners_at, polygon_at};
use lefdef_tokens::{Cursor, PartEnd, Token, TokenRun, is_plain, is_plus, is_stop, is_word};
use statement_reader::parts::{Part, Parts, read_parts};

/// What is blocked: routing on a layer, or placement.
#[derive(Clone, Copy)]
pub enum BlockageKind<'t> {
    Layer(Token<'t>),
    Placement,
}

/// A clause of an entry, without its `+`.
#[derive(Clone, Copy, Drop)]
pub struct BlockageClause<'t> {
    pub kept: KeptClause<'t>,
}

/// A shape that is blocked, in database units.
#[derive(Clone, Copy, Drop)]
pub enum BlockageShape<'t> {
    Rectangle(Corners<'t>),
    Polygon(Polygon<'t>),
}

/// An entry with its form: what it blocks, its clauses, and its shapes, one or more.
#[derive(Clone, Copy)]
pub struct BlockageParts<'t> {
    pub kind: BlockageKind<'t>,
    pub clauses: Parts<'t, BlockageClause<'t>>,
    pub first: BlockageShape<'t>,
    pub others: Parts<'t, BlockageShape<'t>>,
}

/// An entry.
#[derive(Clone, Copy)]
pub enum BlockageEntry<'t> {
    Blocks(BlockageParts<'t>),
    /// One without its form, by its tokens between `-` and `;`, which mean nothing.
    Kept(TokenRun<'t>),
}

/// A clause ends before the next `+`, `;` or shape.
struct ShapeOrStop;

impl PartEnd for ShapeOrStop {
    ghost test = { is_shape_or_stop };

    fn is_at(word: &[u8]) -> bool
        ensures { result ≡ is_shape_or_stop word.now }
    {
        is_stop(word) || BlockageShape::begins(word)
    }
}

/// `LAYER name`, or `PLACEMENT`
#[tactic(auto, unfolding(def_grammar::specs::Blockages::blockage_kind))]
fn blockage_kind_at<'t>(cursor: Cursor<'t>) -> Option<(BlockageKind<'t>, Cursor<'t>)>
    ensures gives { Gives (with_rest blockage_kind_view) result (read blockage_kind (rest_of cursor.entry)) }
    ensures later { IfSome result (λ x. IsLater cursor.entry x.1) }
    ensures left { IfSome result (λ x. pieces_of x.1.tokens ≡ behind (spell blockage_kind (blockage_kind_view x.0)) (pieces_of cursor.entry.tokens)) }
    ensures lent { IfSome result (λ x. BlockageKindAt (pieces_of cursor.entry.tokens) x.0) }
{
    if cursor.next_is(b"LAYER") {
        let (layer, cursor) = or_none!(cursor.name_behind(b"LAYER"));
        Some((BlockageKind::Layer(layer), cursor))
    } else {
        Some((BlockageKind::Placement, or_none!(cursor.key(b"PLACEMENT"))))
    }
}

impl<'t> Part<'t> for BlockageClause<'t> {
    ghost use Rattle.def_grammar.specs.Clauses.{KeptClause as TheClause};

    ghost Value = { TheClause };

    ghost view = { blockage_clause_view };

    ghost lent = { BlockageClauseAt };

    ghost test = { is_plus };

    ghost reads = { read blockage_clause };

    ghost spells = { spell blockage_clause };

    ghost spelled = { λ r p e. (blockage_clause.exact.shows r p e).words };

    fn begins(word: &[u8]) -> bool
        ensures { result ≡ is_plus word.now }
    {
        is_plus(word)
    }

    /// `+ word rest`, where the word begins no shape, and the rest goes up to the first shape
    #[tactic(auto, unfolding(def_grammar::specs::Blockages::blockage_clause))]
    fn read(cursor: Cursor<'t>) -> Option<(BlockageClause<'t>, Cursor<'t>)>
        ensures gives { Gives (with_rest blockage_clause_view) result (read blockage_clause (rest_of cursor.entry)) }
        ensures later { IfSome result (λ x. IsLater cursor.entry x.1) }
        ensures left { IfSome result (λ x. pieces_of x.1.tokens ≡ behind (spell blockage_clause (blockage_clause_view x.0)) (pieces_of cursor.entry.tokens)) }
        ensures lent { IfSome result (λ x. BlockageClauseAt (pieces_of cursor.entry.tokens) x.0) }
    {
        let (keyword, cursor) = or_none!(or_none!(cursor.key(b"+")).next());
        if !is_plain(keyword.bytes) || BlockageShape::begins(keyword.bytes) {
            return None;
        }
        let (rest, cursor) = cursor.up_to::<ShapeOrStop>();
        let kept = KeptClause { keyword, rest };
        Some((BlockageClause { kept }, cursor))
    }
}

impl<'t> Part<'t> for BlockageShape<'t> {
    ghost use Rattle.def_grammar.specs.Blockages.{BlockageShape as TheShape};

    ghost Value = { TheShape };

    ghost view = { blockage_shape_view };

    ghost lent = { BlockageShapeAt };

    ghost test = { is_shape };

    ghost reads = { read blockage_shape };

    ghost spells = { spell blockage_shape };

    ghost spelled = { λ r p e. (blockage_shape.exact.shows r p e).words };

    fn begins(word: &[u8]) -> bool
        ensures { result ≡ is_shape word.now }
    {
        is_word(word, b"RECT") || is_word(word, b"POLYGON")
    }

    /// `RECT` and two points, or `POLYGON` and three points and more
    #[tactic(auto, unfolding(def_grammar::specs::Blockages::blockage_shape, def_grammar::specs::Points::corners, def_grammar::specs::Points::later_point, def_grammar::specs::Parts::point))]
    fn read(cursor: Cursor<'t>) -> Option<(BlockageShape<'t>, Cursor<'t>)>
        ensures gives { Gives (with_rest blockage_shape_view) result (read blockage_shape (rest_of cursor.entry)) }
        ensures later { IfSome result (λ x. IsLater cursor.entry x.1) }
        ensures left { IfSome result (λ x. pieces_of x.1.tokens ≡ behind (spell blockage_shape (blockage_shape_view x.0)) (pieces_of cursor.entry.tokens)) }
        ensures lent { IfSome result (λ x. BlockageShapeAt (pieces_of cursor.entry.tokens) x.0) }
    {
        if let Some(behind) = after_word(cursor, b"RECT") {
            let (corners, cursor) = or_none!(corners_at(behind));
            return Some((BlockageShape::Rectangle(corners), cursor));
        }
        let (polygon, cursor) = or_none!(polygon_at(or_none!(cursor.key(b"POLYGON"))));
        Some((BlockageShape::Polygon(polygon), cursor))
    }
}

/// `LAYER name` or `PLACEMENT`, `(+ word rest)*`, and one shape or more, before the `;`
#[tactic(auto, unfolding(def_grammar::specs::Blockages::blockage), using(lefdef_tokens::proofs::PlaceLemmas::behind_append))]
fn blockage_at<'t>(cursor: Cursor<'t>) -> Option<(BlockageParts<'t>, Cursor<'t>)>
    ensures gives { Gives (with_rest blockage_view) result (read (closed is_semicolon blockage) (rest_of cursor.entry)) }
    ensures later { IfSome result (λ x. IsLater cursor.entry x.1) }
    ensures left { IfSome result (λ x. pieces_of x.1.tokens ≡ behind (spell blockage (blockage_view x.0)) (pieces_of cursor.entry.tokens)) }
    ensures lent { IfSome result (λ x. BlockagePartsAt (pieces_of cursor.entry.tokens) x.0) }
{
    let (kind, cursor) = or_none!(blockage_kind_at(cursor));
    let (clauses, cursor) = or_none!(read_parts::<BlockageClause<'t>>(cursor));
    let (first, cursor) = or_none!(BlockageShape::read(cursor));
    let (others, cursor) = or_none!(read_parts::<BlockageShape<'t>>(cursor));
    if !cursor.next_is(b";") {
        return None;
    }
    let parts = BlockageParts {
        kind,
        clauses,
        first,
        others,
    };
    Some((parts, cursor))
}

/// A blockage, or the tokens before the `;` where they are none
fn blockage_or_tokens_at<'t>(cursor: Cursor<'t>) -> (BlockageEntry<'t>, Cursor<'t>)
    ensures gives { read (or_else (closed is_semicolon blockage) (upto is_semicolon)) (rest_of cursor.entry) ≡ Some (with_rest blockage_entry_view result) }
    ensures later { IsLater cursor.entry result.1 }
    ensures left { pieces_of result.1.tokens ≡ behind (spell (or_else (closed is_semicolon blockage) (upto is_semicolon)) (blockage_entry_view result.0)) (pieces_of cursor.entry.tokens) }
    ensures lent { BlockageBodyAt (pieces_of cursor.entry.tokens) result.0 }
{
    match blockage_at(cursor) {
        Some((parts, later)) => (BlockageEntry::Blocks(parts), later),
        None => {
            let (tokens, later) = cursor.up_to_semicolon();
            (BlockageEntry::Kept(tokens), later)
        }
    }
}

/// `-`, a blockage or tokens without its form, and `;`
#[tactic(auto, unfolding(def_grammar::specs::Blockages::blockage_form), using(lefdef_tokens::proofs::PlaceLemmas::behind_append))]
#[inline(never)]
pub fn blockage_entry_at<'t>(cursor: Cursor<'t>) -> Option<(BlockageEntry<'t>, Cursor<'t>)>
    ensures gives { Gives (with_rest blockage_entry_view) result (read blockage_form (rest_of cursor.entry)) }
    ensures later { IfSome result (λ x. IsLater cursor.entry x.1) }
    ensures left { IfSome result (λ x. pieces_of x.1.tokens ≡ behind (spell blockage_form (blockage_entry_view x.0)) (pieces_of cursor.entry.tokens)) }
    ensures lent { IfSome result (λ x. BlockageEntryAt (pieces_of cursor.entry.tokens) x.0) }
{
    let cursor = or_none!(cursor.key(b"-"));
    let (entry, cursor) = blockage_or_tokens_at(cursor);
    let cursor = or_none!(cursor.key(b";"));
    Some((entry, cursor))
}
