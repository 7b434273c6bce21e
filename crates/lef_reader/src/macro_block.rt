//! The block MACRO (LEF/DEF 5.8 Language Reference, "Macro").

ghost use Rattle.std.specs.Prelude.{◌≡◌, IfSome};
ghost use Rattle.form_meanings.specs.Words.{Gives};
ghost use Rattle.statement_model.specs.Form.{read};
ghost use Rattle.lef_grammar.specs.MacroBlock.{ends_macro, inner_header, is_inner_header, is_macro_header, macro_ending, macro_statement};
ghost use Rattle.lefdef_tokens.specs.Views.{pieces_of, rest_of};
ghost use Rattle.statement_reader.specs.Endings.{ending_view};
ghost use Rattle.lef_reader.specs.Parts.{with_rest};
ghost use Rattle.lef_reader.specs.MacroViews.{HeaderAt, MacroAt, header_view, macro_view};

use crate::parts::{WordKind, block_ending, kept_at, size_at, told, told_pair, word_to_end_at};
use crate::point::{Point, only_point_at};
use lefdef_tokens::{Cursor, Token, TokenRun, is_word};
use statement_reader::boundary::Ending;

/// The header of a block within the block.
#[derive(Clone, Copy, Drop)]
pub enum InnerHeader<'l> {
    /// With its name.
    Pin(Token<'l>),
    /// OBS.
    Obstruction,
    Density,
}

/// A statement in a block MACRO.
#[derive(Clone, Copy, Drop)]
pub enum MacroStatement<'l> {
    End,
    /// The first word of a `CLASS`, and the others before its `;`.
    Class(Token<'l>, TokenRun<'l>),
    /// Width and height, in microns as written.
    Size(Token<'l>, Token<'l>),
    Origin(Point<'l>),
    /// The name of a site, and what stands behind it.
    Site(Token<'l>, TokenRun<'l>),
    Opens(InnerHeader<'l>),
    /// A statement without meaning, by its first token and the others.
    Kept(Token<'l>, TokenRun<'l>),
}

impl<'l> MacroStatement<'l> {
    /// Whether it ends the block.
    pub(crate) fn is_end(&self) -> bool
        ensures { result ≡ ends_macro (macro_view self.now) }
    {
        matches!(self, MacroStatement::End)
    }
}

/// Whether a word is the header of a block within the block that stands alone.
fn is_macro_header(word: &[u8]) -> bool
    ensures { result ≡ is_macro_header word.now }
{
    is_word(word, b"OBS") || is_word(word, b"DENSITY")
}

/// Whether a word is the header of a block within the block.
fn is_inner_header(word: &[u8]) -> bool
    ensures { result ≡ is_inner_header word.now }
{
    is_word(word, b"PIN") || is_macro_header(word)
}

/// How a statement ends, by its first token. A header has no `;`.
pub(crate) fn macro_ending(first: &[u8]) -> Ending
    ensures { ending_view result ≡ macro_ending first.now }
{
    if is_word(first, b"PIN") {
        Ending::WithNext
    } else if is_macro_header(first) {
        Ending::Alone
    } else {
        block_ending(first)
    }
}

/// The header of a block within the block
#[tactic(auto, unfolding(lef_grammar::specs::MacroBlock::inner_header))]
fn header_at<'l>(cursor: Cursor<'l>) -> Option<(InnerHeader<'l>, Cursor<'l>)>
    ensures gives { Gives (with_rest header_view) result (read inner_header (rest_of cursor.entry)) }
    ensures lent { IfSome result (λ x. HeaderAt (pieces_of cursor.entry.tokens) x.0) }
{
    let (word, later) = cursor.next()?;
    if is_word(word.bytes, b"PIN") {
        told(later.name(), InnerHeader::Pin)
    } else if is_word(word.bytes, b"OBS") {
        Some((InnerHeader::Obstruction, later))
    } else if is_word(word.bytes, b"DENSITY") {
        Some((InnerHeader::Density, later))
    } else {
        None
    }
}

/// A statement in the block of this name.
#[tactic(auto, unfolding(lef_grammar::specs::MacroBlock::macro_statement, lef_grammar::specs::MacroBlock::class_statement, lef_grammar::specs::MacroBlock::origin_statement, lef_grammar::specs::MacroBlock::macro_site_statement, lef_grammar::specs::Extents::kept_statement))]
pub(crate) fn macro_at<'l>(
    name: &[u8],
    cursor: Cursor<'l>,
) -> Option<(MacroStatement<'l>, Cursor<'l>)>
    ensures gives { Gives (with_rest macro_view) result (read (macro_statement name.now) (rest_of cursor.entry)) }
    ensures lent { IfSome result (λ x. MacroAt (pieces_of cursor.entry.tokens) x.0) }
{
    let (word, later) = cursor.next()?;
    if is_word(word.bytes, b"END") {
        Some((MacroStatement::End, later.key(name)?))
    } else if is_word(word.bytes, b"CLASS") {
        told_pair(word_to_end_at(WordKind::Kept, later), MacroStatement::Class)
    } else if is_word(word.bytes, b"SIZE") {
        told_pair(size_at(later), MacroStatement::Size)
    } else if is_word(word.bytes, b"ORIGIN") {
        told(only_point_at(later), MacroStatement::Origin)
    } else if is_word(word.bytes, b"SITE") {
        told_pair(word_to_end_at(WordKind::Name, later), MacroStatement::Site)
    } else if is_inner_header(word.bytes) {
        told(header_at(cursor), MacroStatement::Opens)
    } else {
        told_pair(kept_at(cursor), MacroStatement::Kept)
    }
}
