//! Statements outside of all sections (LEF/DEF 5.8 Language Reference, "DEF Syntax").

ghost use Rattle.std.specs.Prelude.{◌≡◌, IfSome};
ghost use Rattle.form_meanings.specs.Words.{Gives, next_passes};
ghost use Rattle.statement_model.specs.Form.{left, read, right};
ghost use Rattle.def_grammar.specs.Extensions.{extension_statement, is_end_of_extension};
ghost use Rattle.def_grammar.specs.Top.{begins_none, header_statement, is_section, kept_statement, other_statement, plain_statement, top_statement, units_statement};
ghost use Rattle.lefdef_tokens.specs.Places.{RunAt, StandsAt, past};
ghost use Rattle.lefdef_tokens.specs.Views.{IsLater, pieces_of, rest_of, run_of, word_of};
ghost use Rattle.def_reader.specs.Lent.{KeptAt, StatementAt};
ghost use Rattle.def_parts.specs.PointViews.{with_rest};
ghost use Rattle.def_reader.specs.StatementViews.{header_view, kept_view, record_view};

use crate::floor::{floor_at, next_is_floor};
use crate::statement::Statement;
use def_parts::number::{count_at, scale_at};
use design_model::mode::Section;
use lefdef_tokens::{Cursor, PartEnd, Token, TokenRun, is_quoted, is_word};

/// `DISTANCE MICRONS number ;`, after `UNITS`
#[tactic(auto, unfolding(def_grammar::specs::Top::units_statement))]
fn units_at<'t>(cursor: Cursor<'t>) -> Option<(Token<'t>, Cursor<'t>)>
    ensures gives { Gives word_of result (read units_statement (rest_of cursor.entry)) }
    ensures later { IfSome result (λ x. IsLater cursor.entry x.1) }
    ensures lent { IfSome result (λ x. StandsAt (past 2 (pieces_of cursor.entry.tokens)) x.0) }
{
    let cursor = cursor.key(b"DISTANCE")?.key(b"MICRONS")?;
    let (number, cursor) = scale_at(cursor)?;
    let cursor = cursor.key(b";")?;
    Some((number, cursor))
}

/// `section number ;`
#[tactic(auto, unfolding(def_grammar::specs::Top::header_statement))]
fn header_at<'t>(cursor: Cursor<'t>) -> Option<((Section, Token<'t>), Cursor<'t>)>
    ensures gives { Gives (with_rest header_view) result (read header_statement (rest_of cursor.entry)) }
    ensures later { IfSome result (λ x. IsLater cursor.entry x.1) }
    ensures lent { IfSome result (λ x. StandsAt (past 1 (pieces_of cursor.entry.tokens)) x.0.1) }
{
    let (word, cursor) = cursor.next()?;
    let section = Section::of_word(word.bytes)?;
    let (number, cursor) = count_at(cursor)?;
    let cursor = cursor.key(b";")?;
    Some(((section, number), cursor))
}

/// Whether a word begins no statement that is kept without meaning.
fn begins_none(word: &[u8]) -> bool
    ensures { result ≡ begins_none word.now }
{
    is_quoted(word)
        || is_word(word, b"-")
        || is_word(word, b"+")
        || is_word(word, b"(")
        || is_word(word, b")")
}

/// The tokens before the `ENDEXT` of an extension.
struct ExtensionEnd;

impl PartEnd for ExtensionEnd {
    ghost test = { is_end_of_extension };

    fn is_at(word: &[u8]) -> bool
        ensures { result ≡ is_end_of_extension word.now }
    {
        is_word(word, b"ENDEXT")
    }
}

/// The tokens up to `ENDEXT`, after `BEGINEXT`
#[tactic(auto, unfolding(def_grammar::specs::Extensions::extension_statement))]
fn extension_at<'t>(cursor: Cursor<'t>) -> Option<(TokenRun<'t>, Cursor<'t>)>
    ensures gives { Gives run_of result (read extension_statement (rest_of cursor.entry)) }
    ensures later { IfSome result (λ x. IsLater cursor.entry x.1) }
    ensures lent { IfSome result (λ x. RunAt (pieces_of cursor.entry.tokens) x.0) }
{
    let (tokens, cursor) = cursor.up_to::<ExtensionEnd>();
    let cursor = cursor.key(b"ENDEXT")?;
    Some((tokens, cursor))
}

/// A statement without meaning, by its first token and the others.
#[tactic(auto, unfolding(def_grammar::specs::Top::kept_statement))]
fn kept_at<'t>(cursor: Cursor<'t>) -> Option<((Token<'t>, TokenRun<'t>), Cursor<'t>)>
    ensures gives { Gives (with_rest kept_view) result (read kept_statement (rest_of cursor.entry)) }
    ensures later { IfSome result (λ x. IsLater cursor.entry x.1) }
    ensures lent { IfSome result (λ x. KeptAt (pieces_of cursor.entry.tokens) x.0) }
{
    let (word, cursor) = cursor.next()?;
    if begins_none(word.bytes) {
        return None;
    }
    let (others, cursor) = cursor.tail();
    Some(((word, others), cursor))
}

/// An extension, a statement about the floor, or one that is kept.
fn other_at<'t>(cursor: Cursor<'t>) -> Option<(Statement<'t>, Cursor<'t>)>
    ensures gives { Gives (with_rest record_view) result (read (left (right (right (right (right other_statement))))) (rest_of cursor.entry)) }
    ensures later { IfSome result (λ x. IsLater cursor.entry x.1) }
    ensures lent { IfSome result (λ x. StatementAt (pieces_of cursor.entry.tokens) x.0) }
{
    if cursor.next_is(b"BEGINEXT") {
        let (tokens, cursor) = extension_at(cursor.key(b"BEGINEXT")?)?;
        Some((Statement::Extension(tokens), cursor))
    } else if next_is_floor(cursor) {
        let (floor, cursor) = floor_at(cursor)?;
        Some((Statement::Floor(floor), cursor))
    } else {
        let ((word, others), cursor) = kept_at(cursor)?;
        Some((Statement::Kept(word, others), cursor))
    }
}

/// A statement outside of all sections that opens none.
#[tactic(auto, unfolding(def_grammar::specs::Top::plain_statement))]
fn plain_at<'t>(cursor: Cursor<'t>) -> Option<(Statement<'t>, Cursor<'t>)>
    ensures gives { Gives (with_rest record_view) result (read (left (right plain_statement)) (rest_of cursor.entry)) }
    ensures later { IfSome result (λ x. IsLater cursor.entry x.1) }
    ensures lent { IfSome result (λ x. StatementAt (pieces_of cursor.entry.tokens) x.0) }
{
    if cursor.next_is(b"UNITS") {
        let (number, cursor) = units_at(cursor.key(b"UNITS")?)?;
        Some((Statement::Units(number), cursor))
    } else if cursor.next_is(b"END") {
        let cursor = cursor.key(b"END")?.key(b"DESIGN")?;
        Some((Statement::EndDesign, cursor))
    } else if cursor.next_is(b"PROPERTYDEFINITIONS") {
        Some((Statement::Properties, cursor.key(b"PROPERTYDEFINITIONS")?))
    } else {
        other_at(cursor)
    }
}

/// Whether the word of a section is next.
fn next_is_section<'t>(cursor: Cursor<'t>) -> bool
    ensures { result ≡ next_passes is_section (rest_of cursor.entry) }
{
    match cursor.peek() {
        Some(word) => Section::of_word(word.bytes).is_some(),
        None => false,
    }
}

/// A statement outside of all sections.
#[tactic(auto, unfolding(def_grammar::specs::Top::top_statement))]
#[inline(never)]
pub fn top_at<'t>(cursor: Cursor<'t>) -> Option<(Statement<'t>, Cursor<'t>)>
    ensures gives { Gives (with_rest record_view) result (read (left top_statement) (rest_of cursor.entry)) }
    ensures later { IfSome result (λ x. IsLater cursor.entry x.1) }
    ensures lent { IfSome result (λ x. StatementAt (pieces_of cursor.entry.tokens) x.0) }
{
    if next_is_section(cursor) {
        let ((section, number), cursor) = header_at(cursor)?;
        Some((Statement::Header(section, number), cursor))
    } else {
        plain_at(cursor)
    }
}
