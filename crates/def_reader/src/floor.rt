//! Statements about the floor of a design: DIEAREA, ROW, TRACKS and GCELLGRID (LEF/DEF 5.8 Language Reference, "Die Area",
//! "Rows", "Tracks" and "GCell Grid").

ghost use Rattle.std.specs.Prelude.{◌≡◌, IfSome};
ghost use Rattle.form_meanings.specs.Words.{Gives, next_passes};
ghost use Rattle.statement_model.specs.Form.{read};
ghost use Rattle.def_grammar.specs.Top.{floor_statement, is_floor};
ghost use Rattle.lefdef_tokens.specs.Places.{past};
ghost use Rattle.lefdef_tokens.specs.Views.{IsLater, pieces_of, rest_of};
ghost use Rattle.def_parts.specs.PointViews.{with_rest};
ghost use Rattle.def_reader.specs.FloorViews.{FloorAt, floor_view};

use lefdef_tokens::{Cursor, is_word};
use place_parts::die_area::{DieAreaParts, die_area_at};
use place_parts::grids::{GcellGridParts, TracksParts, gcell_grid_at, tracks_at};
use place_parts::read_again::RowAt;

/// A statement about the floor of a design.
#[derive(Clone, Copy, Drop)]
pub enum Floor<'t> {
    DieArea(DieAreaParts<'t>),
    Row(RowAt<'t>),
    Tracks(TracksParts<'t>),
    GcellGrid(GcellGridParts<'t>),
}

/// Whether a word begins such a statement.
fn is_floor(word: &[u8]) -> bool
    ensures { result ≡ is_floor word.now }
{
    is_word(word, b"DIEAREA")
        || is_word(word, b"ROW")
        || is_word(word, b"TRACKS")
        || is_word(word, b"GCELLGRID")
}

/// Whether such a statement is next.
pub(crate) fn next_is_floor<'t>(cursor: Cursor<'t>) -> bool
    ensures { result ≡ next_passes is_floor (rest_of cursor.entry) }
{
    match cursor.peek() {
        Some(word) => is_floor(word.bytes),
        None => false,
    }
}

/// Such a statement.
#[tactic(auto, unfolding(def_grammar::specs::Top::floor_statement))]
pub(crate) fn floor_at<'t>(cursor: Cursor<'t>) -> Option<(Floor<'t>, Cursor<'t>)>
    ensures gives { Gives (with_rest floor_view) result (read floor_statement (rest_of cursor.entry)) }
    ensures later { IfSome result (λ x. IsLater cursor.entry x.1) }
    ensures lent { IfSome result (λ x. FloorAt (past 1 (pieces_of cursor.entry.tokens)) x.0) }
{
    let (word, cursor) = cursor.next()?;
    if is_word(word.bytes, b"DIEAREA") {
        let (parts, cursor) = die_area_at(cursor)?;
        Some((Floor::DieArea(parts), cursor))
    } else if is_word(word.bytes, b"ROW") {
        let (row, cursor) = RowAt::read(cursor)?;
        Some((Floor::Row(row), cursor))
    } else if is_word(word.bytes, b"TRACKS") {
        let (parts, cursor) = tracks_at(cursor)?;
        Some((Floor::Tracks(parts), cursor))
    } else if is_word(word.bytes, b"GCELLGRID") {
        let (parts, cursor) = gcell_grid_at(cursor)?;
        Some((Floor::GcellGrid(parts), cursor))
    } else {
        None
    }
}
