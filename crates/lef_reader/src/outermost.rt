//! Statements outside of all blocks (LEF/DEF 5.8 Language Reference, "LEF Syntax").

ghost use Rattle.std.specs.Prelude.{◌≡◌, IfSome};
ghost use Rattle.form_meanings.specs.Words.{Gives};
ghost use Rattle.statement_model.specs.Form.{read, right};
ghost use Rattle.lef_grammar.specs.Outermost.{bare_header, is_bare_header, is_named_header, is_rule_header, named_header, outermost_ending, outermost_statement, rule_header};
ghost use Rattle.lefdef_tokens.specs.Views.{pieces_of, rest_of};
ghost use Rattle.statement_reader.specs.Endings.{ending_view};
ghost use Rattle.lef_reader.specs.Parts.{with_rest};
ghost use Rattle.lef_reader.specs.OutermostViews.{NamedAt, OutermostAt, bare_view, named_view, outermost_view};

use crate::parts::{block_ending, kept_at, told, told_pair};
use lefdef_tokens::{Cursor, Token, TokenRun, is_word};
use statement_reader::boundary::Ending;

/// The header of a block with a name, and that name.
#[derive(Clone, Copy, Drop)]
pub enum NamedHeader<'l> {
    Layer(Token<'l>),
    Site(Token<'l>),
    Macro(Token<'l>),
    /// NONDEFAULTRULE.
    Rule(Token<'l>),
    Via(Token<'l>),
    /// VIARULE.
    GeneratingRule(Token<'l>),
}

/// The header of a block without a name.
#[derive(Clone, Copy, Drop)]
pub enum BareHeader {
    Units,
    Spacing,
    /// PROPERTYDEFINITIONS.
    Properties,
    /// BEGINEXT.
    Extension,
}

/// A statement outside of all blocks.
#[derive(Clone, Copy, Drop)]
pub enum OutermostStatement<'l> {
    EndLibrary,
    Named(NamedHeader<'l>),
    Bare(BareHeader),
    /// A statement without meaning, by its first token and the others.
    Kept(Token<'l>, TokenRun<'l>),
}

/// Whether a word is the header of a rule or a via.
fn is_rule_header(word: &[u8]) -> bool
    ensures { result ≡ is_rule_header word.now }
{
    is_word(word, b"NONDEFAULTRULE") || is_word(word, b"VIA") || is_word(word, b"VIARULE")
}

/// Whether a word is a header that a name follows.
fn is_named_header(word: &[u8]) -> bool
    ensures { result ≡ is_named_header word.now }
{
    is_word(word, b"LAYER")
        || is_word(word, b"SITE")
        || is_word(word, b"MACRO")
        || is_rule_header(word)
}

/// Whether a word is a header that stands alone.
fn is_bare_header(word: &[u8]) -> bool
    ensures { result ≡ is_bare_header word.now }
{
    is_word(word, b"UNITS")
        || is_word(word, b"SPACING")
        || is_word(word, b"PROPERTYDEFINITIONS")
        || is_word(word, b"BEGINEXT")
}

/// How a statement ends, by its first token. A header has no `;`.
pub(crate) fn outermost_ending(first: &[u8]) -> Ending
    ensures { ending_view result ≡ outermost_ending first.now }
{
    if is_named_header(first) {
        Ending::WithNext
    } else if is_bare_header(first) {
        Ending::Alone
    } else {
        block_ending(first)
    }
}

/// The header of a rule or a via.
fn rule_header_at<'l>(cursor: Cursor<'l>) -> Option<(NamedHeader<'l>, Cursor<'l>)>
    ensures gives { Gives (with_rest named_view) result (read (right (right (right rule_header))) (rest_of cursor.entry)) }
    ensures lent { IfSome result (λ x. NamedAt (pieces_of cursor.entry.tokens) x.0) }
{
    let (word, later) = cursor.next()?;
    let (name, cursor) = later.name()?;
    if is_word(word.bytes, b"NONDEFAULTRULE") {
        Some((NamedHeader::Rule(name), cursor))
    } else if is_word(word.bytes, b"VIA") {
        Some((NamedHeader::Via(name), cursor))
    } else if is_word(word.bytes, b"VIARULE") {
        Some((NamedHeader::GeneratingRule(name), cursor))
    } else {
        None
    }
}

/// The header of a block with a name.
#[tactic(auto, unfolding(lef_grammar::specs::Outermost::named_header))]
fn named_at<'l>(cursor: Cursor<'l>) -> Option<(NamedHeader<'l>, Cursor<'l>)>
    ensures gives { Gives (with_rest named_view) result (read named_header (rest_of cursor.entry)) }
    ensures lent { IfSome result (λ x. NamedAt (pieces_of cursor.entry.tokens) x.0) }
{
    let (word, later) = cursor.next()?;
    let (name, left) = later.name()?;
    if is_word(word.bytes, b"LAYER") {
        Some((NamedHeader::Layer(name), left))
    } else if is_word(word.bytes, b"SITE") {
        Some((NamedHeader::Site(name), left))
    } else if is_word(word.bytes, b"MACRO") {
        Some((NamedHeader::Macro(name), left))
    } else {
        rule_header_at(cursor)
    }
}

/// The header of a block without a name.
#[tactic(auto, unfolding(lef_grammar::specs::Outermost::bare_header))]
fn bare_at<'l>(cursor: Cursor<'l>) -> Option<(BareHeader, Cursor<'l>)>
    ensures gives { Gives (with_rest bare_view) result (read bare_header (rest_of cursor.entry)) }
{
    let (word, later) = cursor.next()?;
    if is_word(word.bytes, b"UNITS") {
        Some((BareHeader::Units, later))
    } else if is_word(word.bytes, b"SPACING") {
        Some((BareHeader::Spacing, later))
    } else if is_word(word.bytes, b"PROPERTYDEFINITIONS") {
        Some((BareHeader::Properties, later))
    } else if is_word(word.bytes, b"BEGINEXT") {
        Some((BareHeader::Extension, later))
    } else {
        None
    }
}

/// A statement outside of all blocks.
#[tactic(auto, unfolding(lef_grammar::specs::Outermost::outermost_statement, lef_grammar::specs::Extents::kept_statement))]
pub(crate) fn outermost_at<'l>(cursor: Cursor<'l>) -> Option<(OutermostStatement<'l>, Cursor<'l>)>
    ensures gives { Gives (with_rest outermost_view) result (read outermost_statement (rest_of cursor.entry)) }
    ensures lent { IfSome result (λ x. OutermostAt (pieces_of cursor.entry.tokens) x.0) }
{
    let (word, later) = cursor.next()?;
    if is_word(word.bytes, b"END") {
        Some((OutermostStatement::EndLibrary, later.key(b"LIBRARY")?))
    } else if is_named_header(word.bytes) {
        told(named_at(cursor), OutermostStatement::Named)
    } else if is_bare_header(word.bytes) {
        let (header, cursor) = bare_at(cursor)?;
        Some((OutermostStatement::Bare(header), cursor))
    } else {
        told_pair(kept_at(cursor), OutermostStatement::Kept)
    }
}
