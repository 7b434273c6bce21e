//! TRACKS and GCELLGRID (LEF/DEF 5.8 Language Reference, "Tracks" and "GCell Grid").

ghost use Rattle.std.specs.Prelude.{◌≡◌, IfSome};
ghost use Rattle.form_meanings.specs.Words.{Gives};
ghost use Rattle.statement_model.specs.Form.{one_of, read, spell};
ghost use Rattle.def_grammar.specs.Grids.{axes, axis_word, gcell_grid_statement, grid_lines, tracks_statement};
ghost use Rattle.lefdef_tokens.specs.Places.{behind, past};
ghost use Rattle.lefdef_tokens.specs.Views.{IsLater, pieces_of, rest_of};
ghost use Rattle.def_parts.specs.PointViews.{with_rest};
ghost use Rattle.place_parts.specs.GridViews.{axis_view, gcell_grid_view, lines_view, tracks_view, GcellGridAt, LinesAt, TracksAt};

use crate::keywords::int_behind;
use def_parts::number::{int_at, is_in_range, lines_at, size_at};
use lefdef_tokens::{Cursor, Token, TokenRun, is_word};

/// The axis along which lines follow each other: lines along `X` stand upright.
#[derive(Clone, Copy)]
pub enum Axis {
    X,
    Y,
}

/// Routing tracks, which mean nothing: where the first one stands, how many there are, their space in database units,
/// and their other tokens.
#[derive(Clone, Copy)]
pub struct TracksParts<'t> {
    pub axis: Axis,
    pub start: Token<'t>,
    pub count: Token<'t>,
    pub step: Token<'t>,
    pub rest: TokenRun<'t>,
}

/// Where the lines of a grid stand: the first, their number, and their space, in database units.
#[derive(Clone, Copy)]
pub struct GridLines<'t> {
    pub start: Token<'t>,
    pub count: Token<'t>,
    pub step: Token<'t>,
}

/// Lines of the grid of an axis.
#[derive(Clone, Copy)]
pub struct GcellGridParts<'t> {
    pub axis: Axis,
    pub lines: GridLines<'t>,
}

/// `X` or `Y`
#[tactic(auto, unfolding(def_grammar::specs::Grids::axis_word))]
fn axis_at<'t>(cursor: Cursor<'t>) -> Option<(Axis, Cursor<'t>)>
    ensures gives { Gives (with_rest axis_view) result (read (one_of axis_word axes) (rest_of cursor.entry)) }
    ensures later { IfSome result (λ x. IsLater cursor.entry x.1) }
    ensures left { IfSome result (λ x. pieces_of x.1.tokens ≡ past 1 (pieces_of cursor.entry.tokens)) }
{
    let (word, cursor) = or_none!(cursor.next());
    if is_word(word.bytes, b"X") {
        Some((Axis::X, cursor))
    } else if is_word(word.bytes, b"Y") {
        Some((Axis::Y, cursor))
    } else {
        None
    }
}

/// `X|Y start DO count STEP step any* ;`, after `TRACKS`
#[tactic(auto, unfolding(def_grammar::specs::Grids::tracks_statement), using(lefdef_tokens::proofs::PlaceLemmas::behind_append))]
pub fn tracks_at<'t>(cursor: Cursor<'t>) -> Option<(TracksParts<'t>, Cursor<'t>)>
    ensures gives { Gives (with_rest tracks_view) result (read tracks_statement (rest_of cursor.entry)) }
    ensures later { IfSome result (λ x. IsLater cursor.entry x.1) }
    ensures left { IfSome result (λ x. pieces_of x.1.tokens ≡ behind (spell tracks_statement (tracks_view x.0)) (pieces_of cursor.entry.tokens)) }
    ensures lent { IfSome result (λ x. TracksAt (pieces_of cursor.entry.tokens) x.0) }
{
    let (axis, cursor) = or_none!(axis_at(cursor));
    let (start, cursor) = or_none!(int_at(cursor));
    let (count, cursor) = or_none!(int_behind(cursor, b"DO"));
    let (step, cursor) = or_none!(int_behind(cursor, b"STEP"));
    let (rest, cursor) = cursor.up_to_semicolon();
    let cursor = or_none!(cursor.key(b";"));
    let parts = TracksParts {
        axis,
        start,
        count,
        step,
        rest,
    };
    Some((parts, cursor))
}

/// `start DO count STEP step`. Where the last line is out of the range of numbers, the one after `DO` is invalid.
#[tactic(auto, unfolding(def_grammar::specs::Grids::grid_lines))]
fn grid_lines_at<'t>(cursor: Cursor<'t>) -> Option<(GridLines<'t>, Cursor<'t>)>
    ensures gives { Gives (with_rest lines_view) result (read grid_lines (rest_of cursor.entry)) }
    ensures later { IfSome result (λ x. IsLater cursor.entry x.1) }
    ensures left { IfSome result (λ x. pieces_of x.1.tokens ≡ past 5 (pieces_of cursor.entry.tokens)) }
    ensures lent { IfSome result (λ x. LinesAt (pieces_of cursor.entry.tokens) x.0) }
{
    let (start, cursor) = or_none!(int_at(cursor));
    let counted = or_none!(cursor.key(b"DO"));
    let (count, cursor) = or_none!(lines_at(counted));
    let (step, cursor) = or_none!(size_at(or_none!(cursor.key(b"STEP"))));
    let good = is_in_range(start.bytes, count.bytes, step.bytes);
    let lines = GridLines { start, count, step };
    Some((lines, cursor.noted(good, counted.len())))
}

/// `X|Y start DO count STEP step ;`, after `GCELLGRID`
#[tactic(auto, unfolding(def_grammar::specs::Grids::gcell_grid_statement))]
pub fn gcell_grid_at<'t>(cursor: Cursor<'t>) -> Option<(GcellGridParts<'t>, Cursor<'t>)>
    ensures gives { Gives (with_rest gcell_grid_view) result (read gcell_grid_statement (rest_of cursor.entry)) }
    ensures later { IfSome result (λ x. IsLater cursor.entry x.1) }
    ensures left { IfSome result (λ x. pieces_of x.1.tokens ≡ past 7 (pieces_of cursor.entry.tokens)) }
    ensures lent { IfSome result (λ x. GcellGridAt (pieces_of cursor.entry.tokens) x.0) }
{
    let (axis, cursor) = or_none!(axis_at(cursor));
    let (lines, cursor) = or_none!(grid_lines_at(cursor));
    let cursor = or_none!(cursor.key(b";"));
    Some((GcellGridParts { axis, lines }, cursor))
}
