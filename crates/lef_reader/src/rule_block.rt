//! The block NONDEFAULTRULE and its blocks LAYER (LEF/DEF 5.8 Language Reference, "Nondefault Rule").

ghost use Rattle.std.specs.Prelude.{◌≡◌, IfSome};
ghost use Rattle.form_meanings.specs.Words.{Gives};
ghost use Rattle.statement_model.specs.Form.{read};
ghost use Rattle.lef_grammar.specs.RuleBlock.{ends_rule, ends_rule_layer, rule_ending, rule_layer_statement, rule_statement};
ghost use Rattle.lefdef_tokens.specs.Views.{pieces_of, rest_of};
ghost use Rattle.statement_reader.specs.Endings.{ending_view};
ghost use Rattle.lef_reader.specs.Parts.{with_rest};
ghost use Rattle.lef_reader.specs.RuleViews.{RuleAt, RuleLayerAt, rule_layer_view, rule_view};

use crate::parts::{WordKind, block_ending, kept_at, only_at, told, told_pair};
use lefdef_tokens::{Cursor, Token, TokenRun, is_word};
use statement_reader::boundary::Ending;

/// A statement in a block NONDEFAULTRULE.
#[derive(Clone, Copy, Drop)]
pub enum RuleStatement<'l> {
    End,
    /// The header of a block LAYER, with its name.
    OpensLayer(Token<'l>),
    /// The header of a block VIA, with its name.
    OpensVia(Token<'l>),
    /// The header of a block SPACING.
    OpensSpacing,
    /// A statement without meaning, by its first token and the others.
    Kept(Token<'l>, TokenRun<'l>),
}

/// A statement in a block LAYER of a rule.
#[derive(Clone, Copy, Drop)]
pub enum RuleLayerStatement<'l> {
    End,
    /// In microns as written.
    Width(Token<'l>),
    /// A statement without meaning, by its first token and the others.
    Kept(Token<'l>, TokenRun<'l>),
}

impl<'l> RuleStatement<'l> {
    /// Whether it ends the block.
    pub(crate) fn is_end(&self) -> bool
        ensures { result ≡ ends_rule (rule_view self.now) }
    {
        matches!(self, RuleStatement::End)
    }
}

impl<'l> RuleLayerStatement<'l> {
    /// Whether it ends the block.
    pub(crate) fn is_end(&self) -> bool
        ensures { result ≡ ends_rule_layer (rule_layer_view self.now) }
    {
        matches!(self, RuleLayerStatement::End)
    }
}

/// How a statement ends, by its first token. A header has no `;`.
pub(crate) fn rule_ending(first: &[u8]) -> Ending
    ensures { ending_view result ≡ rule_ending first.now }
{
    if is_word(first, b"LAYER") || is_word(first, b"VIA") {
        Ending::WithNext
    } else if is_word(first, b"SPACING") {
        Ending::Alone
    } else {
        block_ending(first)
    }
}

/// A statement in the block of this name.
#[tactic(auto, unfolding(lef_grammar::specs::RuleBlock::rule_statement, lef_grammar::specs::Extents::kept_statement))]
pub(crate) fn rule_at<'l>(
    name: &[u8],
    cursor: Cursor<'l>,
) -> Option<(RuleStatement<'l>, Cursor<'l>)>
    ensures gives { Gives (with_rest rule_view) result (read (rule_statement name.now) (rest_of cursor.entry)) }
    ensures lent { IfSome result (λ x. RuleAt (pieces_of cursor.entry.tokens) x.0) }
{
    let (word, later) = cursor.next()?;
    if is_word(word.bytes, b"END") {
        Some((RuleStatement::End, later.key(name)?))
    } else if is_word(word.bytes, b"LAYER") {
        told(later.name(), RuleStatement::OpensLayer)
    } else if is_word(word.bytes, b"VIA") {
        told(later.name(), RuleStatement::OpensVia)
    } else if is_word(word.bytes, b"SPACING") {
        Some((RuleStatement::OpensSpacing, later))
    } else {
        told_pair(kept_at(cursor), RuleStatement::Kept)
    }
}

/// A statement in the block LAYER of this name.
#[tactic(auto, unfolding(lef_grammar::specs::RuleBlock::rule_layer_statement, lef_grammar::specs::Extents::kept_statement))]
pub(crate) fn rule_layer_at<'l>(
    name: &[u8],
    cursor: Cursor<'l>,
) -> Option<(RuleLayerStatement<'l>, Cursor<'l>)>
    ensures gives { Gives (with_rest rule_layer_view) result (read (rule_layer_statement name.now) (rest_of cursor.entry)) }
    ensures lent { IfSome result (λ x. RuleLayerAt (pieces_of cursor.entry.tokens) x.0) }
{
    let (word, later) = cursor.next()?;
    if is_word(word.bytes, b"END") {
        Some((RuleLayerStatement::End, later.key(name)?))
    } else if is_word(word.bytes, b"WIDTH") {
        told(only_at(WordKind::Extent, later), RuleLayerStatement::Width)
    } else {
        told_pair(kept_at(cursor), RuleLayerStatement::Kept)
    }
}
